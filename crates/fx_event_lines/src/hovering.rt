//! `move`: the pointer, and which nodes it is over.
ghost use Rattle.std.specs.Prelude.{◌≡◌, ◌++◌, IfOk, OnOk};
ghost use Rattle.fx_event_lines.specs.Effects.{IsEffect, started_by};
ghost use Rattle.fx_event_lines.specs.Hovering as spec;

use crate::coordinates::coordinate_of;
use crate::effects::{Effect, with_focus, with_hover};
use crate::events::{Event, send_if, send_to};
use crate::nodes::{chain_of, picked_at};
use fx_base::{NodeKey, Text};
use fx_events::EventKind;
use fx_focus::hover_change;
use fx_picture::Picture;
use fx_stage::Stage;
use fx_stage_types::{Refusal, StageError};
use std::alloc::{AllocError, Global};

/// `move X Y`: the pointer stands there, in pixels from the window's upper left corner.
#[tactic(auto, unfolding(crate::specs::Hovering::move_to))]
pub(crate) fn move_to(
    alloc: Global,
    stage: &Stage,
    picture: &Picture,
    x: &Text,
    y: &Text,
) -> Result<Effect, StageError>
    ensures { IsEffect (spec.move_to picture.now.entries x.now y.now stage.now) stage.now result }
{
    let Some(x) = coordinate_of(x) else {
        return Err(StageError::Refused(Refusal::Value));
    };
    let Some(y) = coordinate_of(y) else {
        return Err(StageError::Refused(Refusal::Value));
    };
    let effect = moved(alloc, stage, picture, (x, y))?;
    Ok(effect)
}

fn moved(
    alloc: Global,
    stage: &Stage,
    picture: &Picture,
    point: (i64, i64),
) -> Result<Effect, AllocError>
    ensures { IfOk result (λ effect. started_by effect stage.now
        ≡ spec.moved picture.now.entries (spec.pointed_at stage.now point.0 point.1)) }
{
    if stage.is_button_down() {
        dragged(alloc, stage, point)
    } else {
        roamed(alloc, stage, picture, point)
    }
}

fn dragged(alloc: Global, stage: &Stage, point: (i64, i64)) -> Result<Effect, AllocError>
    ensures { IfOk result (λ effect. started_by effect stage.now
        ≡ spec.dragged (spec.pointed_at stage.now point.0 point.1)) }
{
    let graph = stage.graph();
    let mut events = Vec::new(alloc);
    send_if(&mut events, EventKind::MouseDragged, graph.target())?;
    Ok(Effect {
        pointer: Some(point),
        button: stage.is_button_down(),
        pointing: with_focus(alloc, graph, graph.focus())?,
        events,
    })
}

fn roamed(
    alloc: Global,
    stage: &Stage,
    picture: &Picture,
    point: (i64, i64),
) -> Result<Effect, AllocError>
    ensures { IfOk result (λ effect. started_by effect stage.now
        ≡ spec.roamed picture.now.entries (spec.pointed_at stage.now point.0 point.1)) }
{
    let graph = stage.graph();
    let under = picked_at(graph.tree(), picture, Some(point));
    let hover = chain_of(alloc, graph.tree(), under)?;
    let mut events = Vec::new(alloc);
    cross(alloc, &mut events, graph.hover(), hover.as_slice())?;
    send_if(&mut events, EventKind::MouseMoved, under)?;
    Ok(Effect {
        pointer: Some(point),
        button: stage.is_button_down(),
        pointing: with_hover(alloc, graph, hover)?,
        events,
    })
}

/// One more event to each node that the pointer left, and then to each that it came to.
pub(crate) fn cross(
    alloc: Global,
    events: &mut Vec<Event>,
    old: &[NodeKey],
    new: &[NodeKey],
) -> Result<(), AllocError>
    ensures { OnOk result (events.new.items ≡ events.old.items ++ spec.crossings old.now new.now) }
{
    let change = hover_change(alloc, old, new)?;
    send_to(events, EventKind::MouseExited, change.left.as_slice())?;
    send_to(events, EventKind::MouseEntered, change.came.as_slice())?;
    Ok(())
}
