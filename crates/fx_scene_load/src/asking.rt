//! Which document an include asks for.
ghost use Rattle.std.specs.Prelude.{◌≡◌, IfOk};
ghost use Rattle.std.specs.List.{list_any};
ghost use Rattle.std.specs.Option.{option_map};
ghost use Rattle.std.specs.Str.{bytes_eq};
ghost use Rattle.fx_doc.specs.Views.{attr_view};
ghost use Rattle.fx_scene_load.specs.Asking as spec;
ghost use Rattle.fx_scene_course.specs.Views.{open_view};
ghost use Rattle.fx_scene_outline.specs.Views.{head_of};

use fx_base::{Position, Str};
use fx_doc::{Attribute, Element};
use fx_load_parts::MOST_FETCHES;
use fx_scene_bindings::attribute_named;
use fx_scene_course::Open;
use fx_scene_flaws::Flaw;
use fx_scene_outline::Seat;
use fx_scene_places::joined;
use std::alloc::{AllocError, Global};

/// What an include asks for.
#[derive(Drop)]
pub enum Asked {
    /// Something is wrong with it where it stands.
    Misplaced(Flaw),
    /// Something is wrong with the place of its document, at this position.
    Refused(Flaw, Position),
    /// The document in the file of this name.
    Wanted(Str),
}

/// Includes stand in each other at most so deep.
const MOST_AROUND: usize = 16;

/// What an include in a seat asks for, where so many files were fetched.
#[tactic(auto, unfolding(crate::specs::Asking::asked_of))]
pub(crate) fn asked_of(
    alloc: Global,
    here: &Open<'_>,
    seat: Seat,
    element: &Element,
    count: usize,
) -> Result<Asked, AllocError>
    ensures { IfOk result (λ asked. asked ≡ spec.asked_of (open_view here.now) seat (head_of element.now) count) }
{
    asked_by(
        alloc,
        here,
        seat,
        count,
        attribute_named(element.attributes.as_slice(), "source"),
    )
}

fn asked_by(
    alloc: Global,
    here: &Open<'_>,
    seat: Seat,
    count: usize,
    source: Option<&Attribute>,
) -> Result<Asked, AllocError>
    ensures { IfOk result (λ asked. asked
        ≡ spec.asked_by (open_view here.now) seat count (option_map (λ a. attr_view a.now) source.entry)) }
{
    match source {
        Some(source) => asked_at(alloc, here, seat, count, source),
        None => Ok(Asked::Misplaced(Flaw::Value)),
    }
}

fn asked_at(
    alloc: Global,
    here: &Open<'_>,
    seat: Seat,
    count: usize,
    source: &Attribute,
) -> Result<Asked, AllocError>
    ensures { IfOk result (λ asked. asked
        ≡ spec.asked_by (open_view here.now) seat count (Some (attr_view source.now))) }
{
    if is_nowhere(seat) {
        return Ok(Asked::Misplaced(Flaw::Child));
    }
    let target = joined(alloc, here.name, source.value.as_str())?;
    Ok(located(here.around.as_slice(), count, source.position, target))
}

fn is_nowhere(seat: Seat) -> bool
    ensures { result ≡ spec.is_nowhere seat }
{
    matches!(seat, Seat::Nowhere)
}

fn located(around: &[Str], count: usize, place: Position, target: Option<Str>) -> Asked
    ensures { result ≡ spec.located around.now count place target }
{
    match target {
        Some(target) => {
            let flaw = source_flaw(around, count, target.as_str());
            wanted_if(place, target, flaw)
        }
        None => Asked::Refused(Flaw::Value, place),
    }
}

fn wanted_if(place: Position, target: Str, flaw: Option<Flaw>) -> Asked
    ensures { result ≡ spec.wanted_if place target flaw }
{
    match flaw {
        Some(flaw) => Asked::Refused(flaw, place),
        None => Asked::Wanted(target),
    }
}

/// What is wrong with fetching this file where others are open and so many were fetched.
fn source_flaw(around: &[Str], count: usize, target: &str) -> Option<Flaw>
    ensures { result ≡ spec.source_flaw around.now count target.now }
{
    if is_open(around, target) {
        return Some(Flaw::IncludeCycle);
    }
    if around.len() > MOST_AROUND || count >= MOST_FETCHES {
        return Some(Flaw::Limit);
    }
    None
}

fn is_open(around: &[Str], target: &str) -> bool
    ensures { result ≡ spec.is_open around.now target.now }
{
    around.iter().any(|name| name.as_str() == target)
}
