//! The paths of nodes: the places among the children, from the root down.
ghost use Rattle.std.specs.Prelude.{◌≡◌, ◌≤◌, ◌<◌, ◌+◌, ◌++◌, ◌∷◌, [], IfOk, OnOk, count_by, length, replicate, slice_index, slice_index_or, slice_set, take};
ghost use Rattle.fx_layout_sweeps.specs.Nodes.{IsTree, is_place, parents};
ghost use Rattle.fx_pulse_model.specs.Lines.{path_of};
ghost use Rattle.fx_pulse.specs.Drawing.{AreCounts};
ghost use Rattle.fx_pulse_touched.specs.Marks.{told};

use crate::flags::parent_at;
use fx_base::List;
use fx_kinds::BoxFacts;
use std::alloc::{AllocError, Global};

/// The path of each node, in order.
pub(crate) fn paths_of(alloc: Global, boxes: &[BoxFacts]) -> Result<Vec<List<u32>>, AllocError>
    requires tree { IsTree (parents boxes.now) }
    requires few { length boxes.now ≤ 4096 }
    ensures { IfOk result (λ paths. paths.items ≡ told (path_of (parents boxes.now)) (length boxes.now)) }
{
    let mut paths = Vec::with_capacity(alloc, boxes.len())?;
    let mut counts = vec![in alloc; 0; boxes.len()]?;
    for place in 0..boxes.len() {
        let path = next_path(alloc, boxes, place, paths.as_slice(), &mut counts)?;
        paths.push(path)?;
    }
    Ok(paths)
}

/// The path of the node at this place, below that of its parent, which is one child more.
fn next_path(
    alloc: Global,
    boxes: &[BoxFacts],
    place: usize,
    paths: &[List<u32>],
    counts: &mut Vec<u32>,
) -> Result<List<u32>, AllocError>
    requires tree { IsTree (parents boxes.now) }
    requires few { length boxes.now ≤ 4096 }
    requires there { place < length boxes.now }
    requires paths { paths.now ≡ told (path_of (parents boxes.now)) place }
    requires counts { AreCounts (parents boxes.now) counts.old.items place }
    ensures path { IfOk result (λ path. path ≡ path_of (parents boxes.now) place) }
    ensures counts { OnOk result (AreCounts (parents boxes.now) counts.new.items (place + 1)) }
{
    let parent = match parent_at(boxes, place) {
        None => return Ok(List::new(alloc)),
        Some(parent) => parent,
    };
    let child = count_child(counts, parent);
    let path = longer(alloc, path_at(paths, parent), child)?;
    Ok(path)
}

/// Counts one child more, and answers how many there were.
fn count_child(counts: &mut Vec<u32>, parent: usize) -> u32
    requires there { parent < length counts.old.items }
    requires few { slice_index counts.old.items parent < 4096 }
    ensures child { result ≡ slice_index counts.old.items parent }
    ensures counts { counts.new.items
        ≡ slice_set counts.old.items parent (slice_index counts.old.items parent + 1) }
{
    let child = counts[parent];
    counts[parent] = child + 1;
    child
}

pub(crate) fn path_at(paths: &[List<u32>], place: usize) -> &[u32]
    ensures { result.now ≡ slice_index_or paths.now place [] }
{
    match paths.get(place) {
        Some(path) => path.as_slice(),
        None => &[],
    }
}

/// A path with one step more.
fn longer(alloc: Global, path: &[u32], child: u32) -> Result<List<u32>, AllocError>
    ensures { IfOk result (λ longer. longer ≡ path.now ++ child ∷ []) }
{
    let mut steps = Vec::with_capacity(alloc, path.len() + 1)?;
    steps.extend_from_slice(path)?;
    steps.push(child)?;
    Ok(List::from_vec(steps))
}
