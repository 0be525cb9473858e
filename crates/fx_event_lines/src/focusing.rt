//! `focus`, `tab` and `backtab`.
ghost use Rattle.std.specs.Prelude.{◌≡◌, IfOk};
ghost use Rattle.fx_event_lines.specs.Effects.{IsEffect, started_by};
ghost use Rattle.fx_event_lines.specs.Focusing as spec;
ghost use Rattle.fx_event_lines.specs.Started.{quietly};

use crate::effects::{Effect, with_focus};
use crate::nodes::{is_same, or_else};
use fx_base::{NodeKey, Text};
use fx_focus::{is_attached, next_focus};
use fx_picture::{Entry, Picture};
use fx_stage::Stage;
use fx_stage_types::{Refusal, StageError};
use fx_tree::Tree;
use std::alloc::{AllocError, Global};

/// `focus ID`: the node takes the focus, if it may.
#[tactic(auto, unfolding(crate::specs::Focusing::focus_on, fx_stage_model::specs::Looking::find_node))]
pub(crate) fn focus_on(
    alloc: Global,
    stage: &Stage,
    picture: &Picture,
    path: &[Text],
) -> Result<Effect, StageError>
    ensures { IsEffect (spec.focus_on picture.now.entries path.now stage.now) stage.now result }
{
    let Some(key) = stage.find(path) else {
        return Err(StageError::Refused(Refusal::Unknown));
    };
    let effect = focused_on(alloc, stage, picture.entries.as_slice(), key)?;
    Ok(effect)
}

fn focused_on(
    alloc: Global,
    stage: &Stage,
    entries: &[Entry],
    key: NodeKey,
) -> Result<Effect, AllocError>
    ensures { IfOk result (λ effect. started_by effect stage.now ≡ spec.focused_on entries.now stage.now key) }
{
    let graph = stage.graph();
    if may_have_focus(graph.tree(), entries, key) {
        refocused(alloc, stage, Some(key))
    } else {
        refocused(alloc, stage, graph.focus())
    }
}

fn may_have_focus(tree: &Tree, entries: &[Entry], key: NodeKey) -> bool
    ensures { result ≡ spec.may_have_focus tree.now entries.now key }
{
    is_active(entries, key) && is_attached(tree, key)
}

/// Whether the node is one of the picture that isn't disabled.
fn is_active(entries: &[Entry], key: NodeKey) -> bool
    ensures { result ≡ spec.is_active entries.now key }
{
    entries
        .iter()
        .any(|entry| is_same(entry.key, key) && !entry.disabled)
}

/// `tab` and `backtab`: the next node takes the focus, or the one before it.
#[tactic(auto, unfolding(crate::specs::Focusing::traversed))]
pub(crate) fn traversed(
    alloc: Global,
    stage: &Stage,
    picture: &Picture,
    back: bool,
) -> Result<Effect, AllocError>
    ensures { IfOk result (λ effect. started_by effect stage.now ≡ spec.traversed picture.now.entries back stage.now) }
{
    let graph = stage.graph();
    let next = next_focus(graph.tree(), picture, graph.focus(), back);
    refocused(alloc, stage, or_else(next, graph.focus()))
}

/// Nothing changes but the focus.
pub(crate) fn refocused(
    alloc: Global,
    stage: &Stage,
    focus: Option<NodeKey>,
) -> Result<Effect, AllocError>
    ensures { IfOk result (λ effect. started_by effect stage.now ≡ quietly (spec.with_focus focus stage.now)) }
{
    Ok(Effect {
        pointer: stage.pointer(),
        button: stage.is_button_down(),
        pointing: with_focus(alloc, stage.graph(), focus)?,
        events: Vec::new(alloc),
    })
}
