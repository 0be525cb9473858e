//! `press` and `release-button`.
ghost use Rattle.std.specs.Prelude.{◌≡◌, ◌++◌, [], IfOk, None, OnOk, reverse, true};
ghost use Rattle.std.specs.List.{find};
ghost use Rattle.fx_stage_graph.specs.Pointing.{pointed};
ghost use Rattle.fx_tree.specs.Scene.{is_alive};
ghost use Rattle.fx_event_lines.specs.Effects.{IsEffect, started_by};
ghost use Rattle.fx_event_lines.specs.Hovering.{picked};
ghost use Rattle.fx_event_lines.specs.Pressing as spec;

use crate::effects::{Effect, with_focus};
use crate::events::{Event, send_if};
use crate::hovering::cross;
use crate::nodes::{button_at, chain_of, is_held, is_same, or_else, path_to, picked_at};
use fx_base::NodeKey;
use fx_events::EventKind;
use fx_picture::{Entry, Picture};
use fx_stage::Stage;
use fx_stage_graph::{Graph, Pointing};
use fx_stage_types::{Refusal, StageError};
use std::alloc::{AllocError, Global};

/// `press`: the button goes down.
#[tactic(auto, unfolding(crate::specs::Pressing::press))]
pub(crate) fn press(alloc: Global, stage: &Stage, picture: &Picture) -> Result<Effect, StageError>
    ensures { IsEffect (spec.press picture.now.entries stage.now) stage.now result }
{
    if stage.is_button_down() {
        return Err(StageError::Refused(Refusal::Button));
    }
    let effect = pressed(alloc, stage, picture)?;
    Ok(effect)
}

fn pressed(alloc: Global, stage: &Stage, picture: &Picture) -> Result<Effect, AllocError>
    ensures { IfOk result (λ effect. started_by effect stage.now
        ≡ spec.pressed_on picture.now.entries (picked picture.now.entries stage.now) stage.now) }
{
    match picked_at(stage.graph().tree(), picture, stage.pointer()) {
        None => pressed_nowhere(alloc, stage),
        Some(key) => pressed_at(alloc, stage, picture.entries.as_slice(), key),
    }
}

fn pressed_nowhere(alloc: Global, stage: &Stage) -> Result<Effect, AllocError>
    ensures { IfOk result (λ effect. started_by effect stage.now ≡ spec.pressed_nowhere stage.now) }
{
    let graph = stage.graph();
    Ok(Effect {
        pointer: stage.pointer(),
        button: true,
        pointing: with_focus(alloc, graph, graph.focus())?,
        events: Vec::new(alloc),
    })
}

fn pressed_at(
    alloc: Global,
    stage: &Stage,
    entries: &[Entry],
    key: NodeKey,
) -> Result<Effect, AllocError>
    requires { is_alive stage.now.graph.tree.nodes key ≡ true }
    ensures { IfOk result (λ effect. started_by effect stage.now ≡ spec.pressed_at entries.now key stage.now) }
{
    let mut events = Vec::new(alloc);
    send_if(&mut events, EventKind::MousePressed, Some(key))?;
    Ok(Effect {
        pointer: stage.pointer(),
        button: true,
        pointing: held_from(alloc, stage.graph(), entries, key)?,
        events,
    })
}

/// The button holds the node and its ancestors, of which the nearest that can takes the focus.
fn held_from(
    alloc: Global,
    graph: &Graph,
    entries: &[Entry],
    key: NodeKey,
) -> Result<Pointing, AllocError>
    requires { is_alive graph.now.tree.nodes key ≡ true }
    ensures { IfOk result (λ pointing. pointed pointing graph.now ≡ spec.held_from entries.now key graph.now) }
{
    let pressed = path_to(alloc, graph.tree(), key)?;
    let focus = or_else(last_focusable(entries, pressed.as_slice()), graph.focus());
    Ok(Pointing {
        hover: Vec::from_slice(alloc, graph.hover())?,
        pressed,
        target: Some(key),
        focus,
    })
}

/// The last of these nodes that can take the focus.
fn last_focusable(entries: &[Entry], keys: &[NodeKey]) -> Option<NodeKey>
    ensures { result ≡ find (spec.is_focusable entries.now) (reverse keys.now) }
{
    keys.iter()
        .rev()
        .copied()
        .find(|key| is_focusable(entries, *key))
}

fn is_focusable(entries: &[Entry], key: NodeKey) -> bool
    ensures { result ≡ spec.is_focusable entries.now key }
{
    entries
        .iter()
        .any(|entry| is_same(entry.key, key) && entry.focusable)
}

/// `release-button`: the button goes up.
#[tactic(auto, unfolding(crate::specs::Pressing::release))]
pub(crate) fn release(alloc: Global, stage: &Stage, picture: &Picture) -> Result<Effect, StageError>
    ensures { IsEffect (spec.release picture.now.entries stage.now) stage.now result }
{
    if !stage.is_button_down() {
        return Err(StageError::Refused(Refusal::Button));
    }
    let effect = released(alloc, stage, picture)?;
    Ok(effect)
}

fn released(alloc: Global, stage: &Stage, picture: &Picture) -> Result<Effect, AllocError>
    ensures { IfOk result (λ effect. started_by effect stage.now ≡ spec.released picture.now.entries stage.now) }
{
    let graph = stage.graph();
    let under = picked_at(graph.tree(), picture, stage.pointer());
    let hover = chain_of(alloc, graph.tree(), under)?;
    let mut events = Vec::new(alloc);
    send_released(&mut events, graph, under)?;
    cross(alloc, &mut events, graph.hover(), hover.as_slice())?;
    Ok(Effect {
        pointer: stage.pointer(),
        button: false,
        pointing: let_go(alloc, graph, hover),
        events,
    })
}

/// The pointer is over these nodes, and the button holds none.
fn let_go(alloc: Global, graph: &Graph, hover: Vec<NodeKey>) -> Pointing
    ensures { pointed result graph.now ≡ record graph.now { hover = hover.items; pressed = []; target = None } }
{
    Pointing {
        hover,
        pressed: Vec::new(alloc),
        target: None,
        focus: graph.focus(),
    }
}

/// What the pressed node is told, if there is one.
fn send_released(
    events: &mut Vec<Event>,
    graph: &Graph,
    under: Option<NodeKey>,
) -> Result<(), AllocError>
    ensures { OnOk result (events.new.items
        ≡ events.old.items ++ spec.release_events graph.now.table under graph.now.target) }
{
    match graph.target() {
        None => Ok(()),
        Some(key) => {
            send_if(events, EventKind::MouseReleased, Some(key))?;
            send_click(events, graph, under, key)
        }
    }
}

/// The pressed node is clicked if it is the one under the pointer, and fires if it is a Button.
fn send_click(
    events: &mut Vec<Event>,
    graph: &Graph,
    under: Option<NodeKey>,
    key: NodeKey,
) -> Result<(), AllocError>
    ensures { OnOk result (events.new.items ≡ events.old.items ++ spec.click_on graph.now.table under key) }
{
    if !is_held(under, key) {
        return Ok(());
    }
    send_if(events, EventKind::MouseClicked, Some(key))?;
    send_if(events, EventKind::Action, button_at(graph, Some(key)))
}
