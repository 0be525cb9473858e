//! `key`.
ghost use Rattle.std.specs.Prelude.{◌≡◌, IfOk};
ghost use Rattle.fx_event_lines.specs.Effects.{started_by};
ghost use Rattle.fx_event_lines.specs.Keys as spec;

use crate::effects::{Effect, with_focus};
use crate::events::{Event, send_if};
use crate::nodes::{button_at, or_else};
use fx_base::{NodeKey, Text};
use fx_events::EventKind;
use fx_stage::Stage;
use fx_stage_graph::Graph;
use std::alloc::{AllocError, Global};

/// `key WORD`: a key is pressed.
#[tactic(auto, unfolding(crate::specs::Keys::key_pressed))]
pub(crate) fn key_pressed(alloc: Global, stage: &Stage, word: &Text) -> Result<Effect, AllocError>
    ensures { IfOk result (λ effect. started_by effect stage.now ≡ spec.key_pressed word.now stage.now) }
{
    let graph = stage.graph();
    let mut events = Vec::new(alloc);
    send_if(
        &mut events,
        EventKind::KeyPressed,
        or_else(graph.focus(), graph.tree().root()),
    )?;
    send_if(&mut events, EventKind::Action, fired(graph, word))?;
    Ok(Effect {
        pointer: stage.pointer(),
        button: stage.is_button_down(),
        pointing: with_focus(alloc, graph, graph.focus())?,
        events,
    })
}

/// The node that the key fires.
fn fired(graph: &Graph, word: &Text) -> Option<NodeKey>
    ensures { result ≡ spec.fired_by word.now graph.now }
{
    if word.as_str() == "SPACE" {
        button_at(graph, graph.focus())
    } else {
        None
    }
}
