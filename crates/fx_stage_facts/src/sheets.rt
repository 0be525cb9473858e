//! The style sheets of a scene, each with its origin.
ghost use Rattle.std.specs.Prelude.{◌≡◌, ◌≤◌, ◌++◌, ◌-◌, ◌∷◌, [], ℕ, IfOk, IsTrue, OnOk, Some, map, option_to_list, slice_get};
ghost use Rattle.std.specs.List.{range_with_len};
ghost use Rattle.std.specs.Option.{option_map};
ghost use Rattle.fx_css_types.specs.declared.sheets.SheetOrigin.TheVariants as origin;
ghost use Rattle.fx_stage_facts.specs.Sheets as spec;

use crate::refills::Refill;
use fx_base::{List, NodeKey, Same};
use fx_css::agent_sheet;
use fx_css_types::{Sheet, SheetAt, SheetOrigin};
use fx_stage_graph::Graph;
use fx_stage_types::NodeData;
use fx_tree::Tree;
use std::alloc::{AllocError, Global};
use std::mem::replace;

/// How many ancestors the node has.
fn depth_of(tree: &Tree, key: NodeKey) -> u32
    ensures depth { result ≡ spec.depth_of tree.now.nodes key }
{
    let mut at = tree.parent(key);
    for depth in 0..64 {
        match at {
            None => return depth,
            Some(parent) => at = tree.parent(parent),
        }
    }
    64
}

fn stands_at(sheets: &[SheetAt], place: usize, sheet: &Sheet, origin: SheetOrigin) -> bool
    ensures { IsTrue result → slice_get sheets.now place ≡ Some (spec.from_origin origin sheet.now) }
{
    match sheets.get(place) {
        None => false,
        Some(other) => other.origin == origin && other.sheet.is_same(sheet),
    }
}

/// Puts a copy of the sheet behind the others, unless the old one that stands there is the same.
#[tactic(auto, using(crate::proofs::RefillLemmas::one_more))]
fn push_sheet(
    alloc: Global,
    sheets: &mut Refill<SheetAt>,
    sheet: &Sheet,
    origin: SheetOrigin,
) -> Result<(), AllocError>
    ensures { OnOk result (sheets.new ≡ sheets.old ++ spec.from_origin origin sheet.now ∷ []) }
{
    if stands_at(sheets.items.as_slice(), sheets.count, sheet, origin) {
        sheets.count += 1;
        return Ok(());
    }
    let sheet = sheet.copy(alloc)?;
    sheets.push(SheetAt { sheet, origin })
}

/// Puts copies of the sheets behind the others.
fn push_copies(
    alloc: Global,
    sheets: &mut Refill<SheetAt>,
    own: &[Sheet],
    origin: SheetOrigin,
) -> Result<(), AllocError>
    ensures { OnOk result (sheets.new ≡ sheets.old ++ map (spec.from_origin origin) own.now) }
{
    for sheet in own {
        push_sheet(alloc, sheets, sheet, origin)?;
    }
    Ok(())
}

fn push_inline(
    alloc: Global,
    sheets: &mut Refill<SheetAt>,
    inline: &Option<Sheet>,
) -> Result<(), AllocError>
    ensures { OnOk result (sheets.new
        ≡ sheets.old ++ option_to_list (option_map (spec.from_origin origin.Inline) inline.now)) }
{
    match inline {
        None => Ok(()),
        Some(sheet) => push_sheet(alloc, sheets, sheet, SheetOrigin::Inline),
    }
}

/// The sheets that count for every node, over old ones.
pub(crate) fn common_sheets(
    alloc: Global,
    graph: &Graph,
    old: List<SheetAt>,
) -> Result<Refill<SheetAt>, AllocError>
    ensures { IfOk result (λ sheets. sheets ≡ spec.common_sheets graph.now) }
{
    let mut sheets = Refill::over(old);
    sheets.push(SheetAt {
        sheet: agent_sheet(alloc)?,
        origin: SheetOrigin::Agent,
    })?;
    push_copies(alloc, &mut sheets, graph.sheets(), SheetOrigin::Scene)?;
    Ok(sheets)
}

/// Puts copies of a node's own sheets behind the others. Its ancestors are counted only if it has any.
fn push_parents(
    alloc: Global,
    sheets: &mut Refill<SheetAt>,
    tree: &Tree,
    key: NodeKey,
    own: &[Sheet],
) -> Result<(), AllocError>
    ensures { OnOk result (sheets.new ≡ sheets.old
        ++ map (spec.from_origin (origin.Parent (spec.depth_of tree.now.nodes key))) own.now) }
{
    if own.is_empty() {
        return Ok(());
    }
    let depth = depth_of(tree, key);
    push_copies(alloc, sheets, own, SheetOrigin::Parent(depth))
}

/// Puts a node's own sheets behind the others, and then its inline style.
pub(crate) fn push_own(
    alloc: Global,
    sheets: &mut Refill<SheetAt>,
    tree: &Tree,
    key: NodeKey,
    node: &NodeData,
) -> Result<(), AllocError>
    ensures { OnOk result (sheets.new
        ≡ sheets.old ++ spec.sheets_in (spec.depth_of tree.now.nodes key) (Some node.now)) }
{
    push_parents(alloc, sheets, tree, key, node.sheets.as_slice())?;
    push_inline(alloc, sheets, &node.inline)
}

/// Puts the places from one up to another behind the others.
fn push_range(places: &mut Vec<usize>, start: usize, end: usize) -> Result<(), AllocError>
    requires { start ≤ end }
    ensures { OnOk result (places.new.items ≡ places.old.items ++ range_with_len start (end - start)) }
{
    for place in start..end {
        places.push(place)?;
    }
    Ok(())
}

/// The places that a node without a parent lists before its own, of so many sheets that count for every node.
fn push_common(
    places: &mut Vec<usize>,
    parent: Option<usize>,
    common: usize,
) -> Result<(), AllocError>
    ensures { OnOk result (places.new.items ≡ places.old.items ++ spec.common_places common parent) }
{
    match parent {
        None => push_range(places, 0, common),
        Some(_) => Ok(()),
    }
}

/// Are there no places here, and none for a node with this parent, whose own sheets stand from one place up to another?
#[inline]
fn are_none(kept: &[usize], parent: Option<usize>, start: usize, end: usize) -> bool
    requires { start ≤ end }
    ensures { IsTrue result → (common : ℕ) → kept.now ≡ spec.places_of common parent start (end - start) }
{
    kept.is_empty() && start == end && parent.is_some()
}

/// Makes these places those of a node's sheets, its own of which stand from one place up to another.
pub(crate) fn refill_places(
    alloc: Global,
    kept: &mut List<usize>,
    common: usize,
    parent: Option<usize>,
    start: usize,
    end: usize,
) -> Result<(), AllocError>
    requires { start ≤ end }
    ensures { OnOk result (kept.new ≡ spec.places_of common parent start (end - start)) }
{
    if are_none(kept.as_slice(), parent, start, end) {
        return Ok(());
    }
    let mut places = replace(kept, List::new(alloc)).into_vec();
    places.clear();
    push_common(&mut places, parent, common)?;
    push_range(&mut places, start, end)?;
    *kept = List::from_vec(places);
    Ok(())
}
