//! How an instance comes to stand.
ghost use Rattle.std.specs.Prelude.{◌≡◌, map};
ghost use Rattle.fx_doc.specs.Views.{attr_view};
ghost use Rattle.fx_scene_outline.specs.Views.{head_of, shown};
ghost use Rattle.fx_scene_read.specs.Opening as spec;

use crate::counting::node_at;
use fx_base::Text;
use fx_doc::{Attribute, Element};
use fx_kinds::Class;
use fx_scene_flaws::Flaw;
use fx_scene_instances::lacks_value;
use fx_scene_names::lacks_import;
use fx_scene_outline::{Piece, Seat, is_scene_node};
use fx_scene_plan::PlannedStep;
use fx_stage_types::Spot;

/// Where a node comes to stand.
#[derive(Clone, Copy, Debug, PartialEq, Eq)]
pub enum Stand {
    /// It is the root of its document.
    Root,
    /// It is a child of the node of this ordinal.
    Below(usize, Spot),
    /// It has no parent.
    Aside,
}

/// The most nodes of a scene.
const NODE_LIMIT: usize = 4096;

/// What is wrong with an instance of the class at its name, where it would be the node of this ordinal.
#[tactic(auto, unfolding(crate::specs::Opening::opening_flaw))]
pub(crate) fn opening_flaw(
    imports: &[Text],
    node: usize,
    seat: Seat,
    element: &Element,
    class: Class,
) -> Option<Flaw>
    ensures { result ≡ spec.opening_flaw imports.now node seat (head_of element.now) class }
{
    if lacks_import(imports, element.name.as_str(), class) {
        return Some(Flaw::Import);
    }
    if is_scene_node(class, element.attributes.as_slice()) {
        return node_flaw(node, seat);
    }
    Some(value_flaw(class, element.attributes.as_slice()))
}

fn node_flaw(node: usize, seat: Seat) -> Option<Flaw>
    ensures { result ≡ spec.node_flaw node seat }
{
    match seat {
        Seat::Nowhere => Some(Flaw::Child),
        _ => limit_flaw(node),
    }
}

/// What is wrong with a value where a node must stand.
fn value_flaw(class: Class, attributes: &[Attribute]) -> Flaw
    ensures { result ≡ spec.value_flaw class (map attr_view attributes.now) }
{
    if lacks_value(class, attributes) {
        Flaw::Value
    } else {
        Flaw::Child
    }
}

fn limit_flaw(node: usize) -> Option<Flaw>
    ensures { result ≡ spec.limit_flaw node }
{
    if node >= NODE_LIMIT {
        Some(Flaw::Limit)
    } else {
        None
    }
}

/// Where a node comes to stand, behind these pieces with these ordinals; as a child it is the one at this place.
pub fn stand_at(before: &[Piece<'_>], nodes: &[usize], seat: Seat, rank: usize) -> Stand
    requires { rank ≡ spec.rank_in (shown before.now) (spec.owner_in seat) }
    ensures { result ≡ spec.stand_at (shown before.now) nodes.now seat }
{
    let _before = before;
    match seat {
        Seat::Root => Stand::Root,
        Seat::Child(owner) => Stand::Below(node_at(owner, nodes), Spot::At(rank)),
        Seat::Edge(owner, edge) => Stand::Below(node_at(owner, nodes), Spot::On(edge)),
        Seat::Aside | Seat::Nowhere => Stand::Aside,
    }
}

/// The step by which a node comes to stand there.
pub fn stand_step(stand: Stand, node: usize) -> Option<PlannedStep>
    ensures { result ≡ spec.stand_step stand node }
{
    match stand {
        Stand::Root => Some(PlannedStep::Root(node)),
        Stand::Below(owner, spot) => Some(PlannedStep::Child(owner, node, spot)),
        Stand::Aside => None,
    }
}

/// The step by which a node comes to stand in a seat; as a child it is the one at this place.
pub(crate) fn seat_step(
    before: &[Piece<'_>],
    nodes: &[usize],
    node: usize,
    seat: Seat,
    rank: usize,
) -> Option<PlannedStep>
    requires { rank ≡ spec.rank_in (shown before.now) (spec.owner_in seat) }
    ensures { result ≡ spec.seat_step (shown before.now) nodes.now node seat }
{
    stand_step(stand_at(before, nodes, seat, rank), node)
}
