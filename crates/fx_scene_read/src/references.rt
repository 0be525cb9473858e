//! The acts of a reference.
ghost use Rattle.std.specs.Prelude.{◌≡◌, ◌++◌, OnOk, map};
ghost use Rattle.std.specs.List.{flat_map};
ghost use Rattle.fx_doc.specs.Views.{attr_view};
ghost use Rattle.fx_scene_things.specs.Known.{known};
ghost use Rattle.fx_scene_outline.specs.Views.{head_of, shown};
ghost use Rattle.fx_scene_read.specs.Opening.{owner_in, rank_in};
ghost use Rattle.fx_scene_read.specs.References as spec;

use crate::opening::seat_step;
use fx_base::Position;
use fx_doc::{Attribute, Element};
use fx_scene_acts::{Act, Deed};
use fx_scene_bindings::value_at;
use fx_scene_elements::{push, push_flaw};
use fx_scene_flaws::Flaw;
use fx_scene_instances::attribute_flaw;
use fx_scene_outline::{Piece, Seat};
use fx_scene_plan::PlannedStep;
use fx_scene_things::{Named, Names};
use std::alloc::AllocError;

/// Adds the acts of a reference behind these pieces, which have these names.
#[tactic(auto, unfolding(crate::specs::References::reference_acts))]
pub(crate) fn add_reference(
    names: &Names,
    before: &[Piece<'_>],
    nodes: &[usize],
    seat: Seat,
    rank: usize,
    element: &Element,
    acts: &mut Vec<Act>,
) -> Result<(), AllocError>
    requires { rank ≡ rank_in (shown before.now) (owner_in seat) }
    ensures ok { OnOk result (acts.new.items ≡ acts.old.items ++ spec.reference_acts (known names.now)
        (shown before.now) nodes.now seat (head_of element.now)) }
{
    match value_at(element.attributes.as_slice(), "source") {
        Some(name) => add_open(
            names,
            before,
            nodes,
            seat,
            rank,
            element,
            name.as_str(),
            acts,
        ),
        None => push_flaw(acts, element.position, Flaw::Value),
    }
}

fn add_open(
    names: &Names,
    before: &[Piece<'_>],
    nodes: &[usize],
    seat: Seat,
    rank: usize,
    element: &Element,
    name: &str,
    acts: &mut Vec<Act>,
) -> Result<(), AllocError>
    requires { rank ≡ rank_in (shown before.now) (owner_in seat) }
    ensures ok { OnOk result (acts.new.items ≡ acts.old.items ++ spec.open_reference (known names.now)
        (shown before.now) nodes.now seat (head_of element.now) name.now) }
{
    if is_closed(seat) {
        return push_flaw(acts, element.position, Flaw::Child);
    }
    add_named(names, before, nodes, seat, rank, element, name, acts)
}

fn is_closed(seat: Seat) -> bool
    ensures { result ≡ spec.is_closed seat }
{
    matches!(seat, Seat::Aside | Seat::Nowhere)
}

fn add_named(
    names: &Names,
    before: &[Piece<'_>],
    nodes: &[usize],
    seat: Seat,
    rank: usize,
    element: &Element,
    name: &str,
    acts: &mut Vec<Act>,
) -> Result<(), AllocError>
    requires { rank ≡ rank_in (shown before.now) (owner_in seat) }
    ensures ok { OnOk result (acts.new.items ≡ acts.old.items ++ spec.named_reference (known names.now)
        (shown before.now) nodes.now seat (head_of element.now) name.now) }
{
    add_attributes(names, element.attributes.as_slice(), acts)?;
    add_seated(
        before,
        nodes,
        seat,
        rank,
        element.position,
        names.node(name),
        acts,
    )
}

fn add_attributes(
    names: &Names,
    attributes: &[Attribute],
    acts: &mut Vec<Act>,
) -> Result<(), AllocError>
    ensures ok { OnOk result (acts.new.items ≡ acts.old.items
        ++ flat_map (spec.reference_attribute (known names.now)) (map attr_view attributes.now)) }
{
    for a in attributes {
        add_attribute(names, a, acts)?;
    }
    Ok(())
}

/// A reference has one attribute, the name.
fn add_attribute(names: &Names, a: &Attribute, acts: &mut Vec<Act>) -> Result<(), AllocError>
    ensures ok { OnOk result (acts.new.items
        ≡ acts.old.items ++ spec.reference_attribute (known names.now) (attr_view a.now)) }
{
    match attribute_flaw(names, a) {
        Some(flaw) => push_flaw(acts, a.position, flaw),
        None => Ok(()),
    }
}

/// Only a node may stand there.
fn add_seated(
    before: &[Piece<'_>],
    nodes: &[usize],
    seat: Seat,
    rank: usize,
    place: Position,
    known: Option<Named>,
    acts: &mut Vec<Act>,
) -> Result<(), AllocError>
    requires { rank ≡ rank_in (shown before.now) (owner_in seat) }
    ensures ok { OnOk result (acts.new.items
        ≡ acts.old.items ++ spec.seated_acts (shown before.now) nodes.now seat place known) }
{
    match known {
        Some(known) => push_step(
            acts,
            place,
            seat_step(before, nodes, known.node, seat, rank),
        ),
        None => push_flaw(acts, place, Flaw::Child),
    }
}

/// Adds a step, if there is one.
pub(crate) fn push_step(
    acts: &mut Vec<Act>,
    place: Position,
    step: Option<PlannedStep>,
) -> Result<(), AllocError>
    ensures ok { OnOk result (acts.new.items ≡ acts.old.items ++ spec.step_if place step) }
{
    match step {
        Some(step) => push(acts, place, Deed::Step(step)),
        None => Ok(()),
    }
}
