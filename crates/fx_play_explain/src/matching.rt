//! A node among the facts of all nodes: the rules that match it, the sheets that it sees, and its values by code.
ghost use Rattle.std.specs.Prelude.{◌≡◌, ◌<◌, ◌++◌, IfOk, IfSome, OnOk, Some, length, option_to_list, slice_get};
ghost use Rattle.fx_plain_explain.specs.Explaining as spec;
ghost use Rattle.fx_select.specs.AllMatching.{matching_of};
ghost use Rattle.fx_select.specs.Chains.{ParentsStandBefore, chain};
ghost use Rattle.fx_tree.specs.Scene.{is_same};

use fx_base::NodeKey;
use fx_css_limits::are_within_limits;
use fx_css_types::{Candidate, SheetAt, sheets_within_limits_are_short};
use fx_kinds::StyleFacts;
use fx_look::CodeValue;
use fx_select::{RuleIndex, all_matched};
use std::alloc::{AllocError, Global};

/// The place of the node of this key.
pub(crate) fn place_of(nodes: &[StyleFacts], key: NodeKey) -> Option<usize>
    ensures place { result ≡ spec.place_of nodes.now key }
    ensures there { IfSome result (λ at. at < length nodes.now) }
{
    nodes.iter().position(|node| is_same(node.key, key))
}

/// Whether both keys are of one node.
fn is_same(one: NodeKey, other: NodeKey) -> bool
    ensures { result ≡ is_same one other }
{
    one.slot == other.slot && one.birth == other.birth
}

/// The rules that match the node at this place. Sheets past their limits count as want of memory; none that was read is
/// so.
pub(crate) fn matches_at(
    alloc: Global,
    sheets: &[SheetAt],
    nodes: &[StyleFacts],
    at: usize,
) -> Result<Vec<Candidate>, AllocError>
    requires before { ParentsStandBefore nodes.now }
    requires there { at < length nodes.now }
    ensures { IfOk result (λ found. found.items ≡ matching_of sheets.now nodes.now at) }
{
    if !are_within_limits(sheets) {
        return Err(AllocError);
    }
    sheets_within_limits_are_short();
    all_matched();
    let index = RuleIndex::build(alloc, sheets)?;
    index.matched(alloc, sheets, nodes, at)
}

fn node_at(nodes: &[StyleFacts], at: usize) -> &StyleFacts
    requires { at < length nodes.now }
    ensures { slice_get nodes.now at ≡ Some result.now }
{
    &nodes[at]
}

/// The values by code of the node at this place.
pub(crate) fn codes_at(nodes: &[StyleFacts], at: usize) -> &[CodeValue]
    requires before { ParentsStandBefore nodes.now }
    requires there { at < length nodes.now }
    ensures { result.now ≡ spec.codes_of (chain nodes.now at) }
{
    node_at(nodes, at).codes.as_slice()
}

/// The places of the sheets that the node at this place sees.
pub(crate) fn seen_at(
    alloc: Global,
    nodes: &[StyleFacts],
    at: usize,
) -> Result<Vec<usize>, AllocError>
    requires before { ParentsStandBefore nodes.now }
    requires there { at < length nodes.now }
    ensures { IfOk result (λ seen. seen.items ≡ spec.seen_by (chain nodes.now at)) }
{
    let mut seen = Vec::new(alloc);
    push_place(&mut seen, node_at(nodes, at).inline)?;
    push_listed(&mut seen, nodes, at)?;
    Ok(seen)
}

fn push_place(places: &mut Vec<usize>, place: Option<usize>) -> Result<(), AllocError>
    ensures { OnOk result (places.new.items ≡ places.old.items ++ option_to_list place) }
{
    match place {
        None => Ok(()),
        Some(place) => {
            places.push(place)?;
            Ok(())
        }
    }
}

/// Puts the places of the sheets that the node at this place and its ancestors list behind the others.
fn push_listed(seen: &mut Vec<usize>, nodes: &[StyleFacts], at: usize) -> Result<(), AllocError>
    requires before { ParentsStandBefore nodes.now }
    requires there { at < length nodes.now }
    ensures { OnOk result (seen.new.items ≡ seen.old.items ++ spec.listed_by (chain nodes.now at)) }
{
    let mut above = Some(at);
    while let Some(place) = above {
        let node = node_at(nodes, place);
        seen.extend_from_slice(node.sheets.as_slice())?;
        above = node.parent;
    }
    Ok(())
}
