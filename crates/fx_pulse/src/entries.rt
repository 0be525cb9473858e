//! The picture of a scene whose nodes have their looks and rectangles.
ghost use Rattle.std.specs.Prelude.{ℕ, ◌≡◌, ◌≤◌, ◌<◌, ◌+◌, [], IfOk, OnOk, length, slice_index_or, slice_set};
ghost use Rattle.std.specs.List.{AllZip};
ghost use Rattle.std.specs.Option.{option_copied};
ghost use Rattle.fx_layout.specs.Updates.{rect_at};
ghost use Rattle.fx_layout_sweeps.specs.Nodes.{IsTree, parents};
ghost use Rattle.fx_pulse_model.specs.Lines.{path_of};
ghost use Rattle.fx_pulse_model.specs.Pictures.{IsEntry, IsPicture, is_disabled, shows, text_of};
ghost use Rattle.fx_pulse.specs.Drawing.{drawn, shown_below};
ghost use Rattle.fx_pulse_touched.specs.Marks.{told};
ghost use Rattle.fx_shapes.specs.Rects.{IsNear};

use crate::flags::flag_at;
use crate::paths::paths_of;
use fx_base::{List, NodeKey, Rect, Text};
use fx_kinds::{BoxFacts, is_control};
use fx_look::Look;
use fx_picture::{Entry, Picture};
use fx_shapes::shapes_in;
use std::alloc::{AllocError, Global};
use std::mem::replace;

/// Nodes with the look and the rectangle of each, and whether each is disabled itself.
#[derive(Clone, Copy)]
pub(crate) struct Laid<'a> {
    pub boxes: &'a [BoxFacts],
    pub looks: &'a [Look],
    pub rects: &'a [Rect],
    pub disabled: &'a [bool],
}

/// Whether each node shows, and whether it is disabled.
#[derive(Clone, Copy)]
pub(crate) struct Notes<'a> {
    pub shown: &'a [bool],
    pub disabled: &'a [bool],
}

/// The picture: an entry for each node that shows.
pub(crate) fn picture_of(
    alloc: Global,
    laid: Laid<'_>,
    notes: Notes<'_>,
) -> Result<Picture, AllocError>
    requires tree { IsTree (parents laid.boxes.now) }
    requires few { length laid.boxes.now ≤ 4096 }
    requires looks { length laid.looks.now ≡ length laid.boxes.now }
    requires rects { length laid.rects.now ≡ length laid.boxes.now }
    requires near { (k : ℕ) → IsNear (rect_at laid.rects.now k) }
    requires shown { notes.shown.now ≡ told (shows (drawn laid)) (length laid.boxes.now) }
    requires disabled { notes.disabled.now ≡ told (is_disabled (drawn laid)) (length laid.boxes.now) }
    ensures { IfOk result (λ picture. IsPicture (drawn laid.entry) picture.entries) }
{
    let paths = paths_of(alloc, laid.boxes)?;
    let entries = entries_of(alloc, laid, notes, paths)?;
    Ok(Picture {
        entries: List::from_vec(entries),
    })
}

fn entries_of(
    alloc: Global,
    laid: Laid<'_>,
    notes: Notes<'_>,
    paths: Vec<List<u32>>,
) -> Result<Vec<Entry>, AllocError>
    requires looks { length laid.looks.now ≡ length laid.boxes.now }
    requires rects { length laid.rects.now ≡ length laid.boxes.now }
    requires near { (k : ℕ) → IsNear (rect_at laid.rects.now k) }
    requires paths { paths.items ≡ told (path_of (parents laid.boxes.now)) (length laid.boxes.now) }
    requires shown { notes.shown.now ≡ told (shows (drawn laid)) (length laid.boxes.now) }
    requires disabled { notes.disabled.now ≡ told (is_disabled (drawn laid)) (length laid.boxes.now) }
    ensures { IfOk result (λ entries. IsPicture (drawn laid.entry) entries.items) }
{
    let mut rest = paths;
    let mut entries = Vec::new(alloc);
    for place in 0..laid.boxes.len() {
        let path = taken(alloc, &mut rest, place);
        add_shown(alloc, laid, notes, place, path, &mut entries)?;
    }
    Ok(entries)
}

/// Takes the path at this place out of the list, which has an empty one there from then on.
fn taken(alloc: Global, paths: &mut Vec<List<u32>>, place: usize) -> List<u32>
    requires { place < length paths.old.items }
    ensures path { result ≡ slice_index_or paths.old.items place [] }
    ensures rest { paths.new.items ≡ slice_set paths.old.items place [] }
{
    replace(&mut paths[place], List::new(alloc))
}

/// Adds the entry of a node, if it shows.
fn add_shown(
    alloc: Global,
    laid: Laid<'_>,
    notes: Notes<'_>,
    place: usize,
    path: List<u32>,
    entries: &mut Vec<Entry>,
) -> Result<(), AllocError>
    requires there { place < length laid.boxes.now }
    requires looks { length laid.looks.now ≡ length laid.boxes.now }
    requires rects { length laid.rects.now ≡ length laid.boxes.now }
    requires near { (k : ℕ) → IsNear (rect_at laid.rects.now k) }
    requires path { path ≡ path_of (parents laid.boxes.now) place }
    requires shown { notes.shown.now ≡ told (shows (drawn laid)) (length laid.boxes.now) }
    requires disabled { notes.disabled.now ≡ told (is_disabled (drawn laid)) (length laid.boxes.now) }
    requires before { AllZip (IsEntry (drawn laid)) (shown_below (drawn laid) place) entries.old.items }
    ensures { OnOk result (AllZip (IsEntry (drawn laid.entry)) (shown_below (drawn laid.entry) (place + 1))
        entries.new.items) }
{
    if !flag_at(notes.shown, place) {
        return Ok(());
    }
    let mut entry = blank_entry(alloc, path);
    fill(alloc, laid, notes, place, &mut entry)?;
    entries.push(entry)?;
    Ok(())
}

/// An entry of this path that is to be filled.
pub(crate) fn blank_entry(alloc: Global, path: List<u32>) -> Entry
    ensures { result.path ≡ path }
{
    Entry {
        key: NodeKey { slot: 0, birth: 0 },
        path,
        rect: Rect {
            x: 0,
            y: 0,
            w: 0,
            h: 0,
        },
        shapes: List::new(alloc),
        disabled: false,
        focusable: false,
    }
}

/// Makes an entry that of a node, whose path it has, in the memory of the shapes that it held.
pub(crate) fn fill(
    alloc: Global,
    laid: Laid<'_>,
    notes: Notes<'_>,
    place: usize,
    entry: &mut Entry,
) -> Result<(), AllocError>
    requires there { place < length laid.boxes.now }
    requires looks { length laid.looks.now ≡ length laid.boxes.now }
    requires rects { length laid.rects.now ≡ length laid.boxes.now }
    requires near { (k : ℕ) → IsNear (rect_at laid.rects.now k) }
    requires path { entry.old.path ≡ path_of (parents laid.boxes.now) place }
    requires disabled { notes.disabled.now ≡ told (is_disabled (drawn laid)) (length laid.boxes.now) }
    ensures { OnOk result (IsEntry (drawn laid.entry) place entry.new) }
{
    let node = &laid.boxes[place];
    let rect = laid.rects[place];
    let room = replace(&mut entry.shapes, List::new(alloc)).into_vec();
    let shapes = shapes_in(alloc, room, &laid.looks[place], rect, text_of(node))?;
    entry.key = node.key;
    entry.rect = rect;
    entry.shapes = List::from_vec(shapes);
    entry.disabled = flag_at(notes.disabled, place);
    entry.focusable = node.focus_traversable;
    Ok(())
}

/// The text of a node, if its class shows one.
fn text_of(node: &BoxFacts) -> Option<&Text>
    ensures { option_copied result ≡ text_of node.now }
{
    if is_control(node.class) {
        return Some(&node.text);
    }
    None
}
