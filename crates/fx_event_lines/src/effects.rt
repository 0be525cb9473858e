//! What a line will make of a stage, before it is made.
ghost use Rattle.std.specs.Prelude.{◌≡◌, IfOk};
ghost use Rattle.fx_stage_graph.specs.Pointing.{pointed};
ghost use Rattle.fx_event_lines.specs.Effects.{made_as};

use crate::events::Event;
use fx_base::NodeKey;
use fx_stage_graph::{Graph, Pointing};
use fx_stage_types::StageError;
use std::alloc::{AllocError, Global};

/// Where the pointer will be, whether its button will be down, which nodes these and the focus will be on, and what is
/// to be sent then.
#[derive(Drop)]
pub(crate) struct Effect {
    pub(crate) pointer: Option<(i64, i64)>,
    pub(crate) button: bool,
    pub(crate) pointing: Pointing,
    pub(crate) events: Vec<Event>,
}

/// Only the focus changes.
pub(crate) fn with_focus(
    alloc: Global,
    graph: &Graph,
    focus: Option<NodeKey>,
) -> Result<Pointing, AllocError>
    ensures { IfOk result (λ pointing. pointed pointing graph.now ≡ record graph.now { focus = focus }) }
{
    Ok(Pointing {
        hover: Vec::from_slice(alloc, graph.hover())?,
        pressed: Vec::from_slice(alloc, graph.pressed())?,
        target: graph.target(),
        focus,
    })
}

/// Only the nodes under the pointer change.
pub(crate) fn with_hover(
    alloc: Global,
    graph: &Graph,
    hover: Vec<NodeKey>,
) -> Result<Pointing, AllocError>
    ensures { IfOk result (λ pointing. pointed pointing graph.now ≡ record graph.now { hover = hover.items }) }
{
    Ok(Pointing {
        hover,
        pressed: Vec::from_slice(alloc, graph.pressed())?,
        target: graph.target(),
        focus: graph.focus(),
    })
}

/// The effect, or want of memory as a stage tells it.
pub(crate) fn made(answer: Result<Effect, AllocError>) -> Result<Effect, StageError>
    ensures { result ≡ made_as answer }
{
    match answer {
        Ok(effect) => Ok(effect),
        Err(_) => Err(StageError::Memory),
    }
}
