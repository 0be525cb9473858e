//! Adding acts.
ghost use Rattle.std.specs.Prelude.{◌≡◌, ◌≤◌, ◌++◌, OnOk, drop, length};
ghost use Rattle.fx_scene_elements.specs.Added as spec;

use fx_base::Position;
use fx_scene_acts::{Act, Deed, is_node_act};
use fx_scene_flaws::Flaw;
use fx_scene_instances::Found;
use std::alloc::AllocError;

/// Adds an act.
pub fn push(acts: &mut Vec<Act>, place: Position, deed: Deed) -> Result<(), AllocError>
    ensures ok { OnOk result (acts.new.items ≡ acts.old.items ++ spec.deed_at place deed) }
{
    acts.push(Act { place, deed })?;
    Ok(())
}

/// Adds what is wrong.
pub fn push_flaw(acts: &mut Vec<Act>, place: Position, flaw: Flaw) -> Result<(), AllocError>
    ensures ok { OnOk result (acts.new.items ≡ acts.old.items ++ spec.flaw_at place flaw) }
{
    push(acts, place, Deed::Flaw(flaw))
}

/// A node is read before anything behind it.
pub(crate) fn push_node(acts: &mut Vec<Act>, place: Position) -> Result<(), AllocError>
    ensures ok { OnOk result (acts.new.items ≡ acts.old.items ++ spec.node_at place) }
{
    push(acts, place, Deed::Node)
}

/// Adds why reading stops, if it does.
pub fn push_flaw_in(found: Found, acts: &mut Vec<Act>) -> Result<(), AllocError>
    ensures ok { OnOk result (acts.new.items ≡ acts.old.items ++ spec.flaw_in found) }
{
    match found {
        Found::Whole(_) => Ok(()),
        Found::Flaw(flaw, spot) => push_flaw(acts, spot, flaw),
        Found::Node(spot) => push_node(acts, spot),
    }
}

/// Is a node read before anything behind the acts from this one on?
pub(crate) fn stops_from(acts: &[Act], from: usize) -> bool
    requires { from ≤ length acts.now }
    ensures { result ≡ spec.stops (drop from acts.now) }
{
    acts.split_at(from).1.iter().any(|act| is_node_act(act))
}

/// Adds what is done at one place.
pub fn push_all(acts: &mut Vec<Act>, place: Position, deeds: Vec<Deed>) -> Result<(), AllocError>
    ensures ok { OnOk result (acts.new.items ≡ acts.old.items ++ spec.acts_at place deeds.items) }
{
    for deed in deeds {
        push(acts, place, deed)?;
    }
    Ok(())
}
