//! The event lines, each by what it changes and starts.
ghost use Rattle.std.specs.Prelude.{◌≡◌};
ghost use Rattle.fx_event_lines.specs.Effects.{IsEffect};
ghost use Rattle.fx_event_lines.specs.Starting as spec;

use crate::effects::{Effect, made};
use crate::events::Event;
use crate::focusing::{focus_on, refocused, traversed};
use crate::hovering::move_to;
use crate::keys::key_pressed;
use crate::pressing::{press, release};
use fx_picture::Picture;
use fx_script_lines::Instruction;
use fx_stage::Stage;
use fx_stage_types::StageError;
use std::alloc::Global;

/// Whether the line starts events by itself.
#[tactic(auto, unfolding(crate::specs::Starting::is_event_line))]
pub fn is_event_line(line: &Instruction) -> bool
    ensures { result ≡ spec.is_event_line line.now }
{
    match line {
        Instruction::Move(_, _)
        | Instruction::Press
        | Instruction::ReleaseButton
        | Instruction::Key(_)
        | Instruction::Focus(_)
        | Instruction::Tab
        | Instruction::Backtab => true,
        _ => false,
    }
}

/// Changes what the pointer, the button and the focus are on, as the line says over the last picture, and gives the
/// events that are to be sent then, in order. All memory is taken before anything changes. A line that is no event line
/// does nothing.
pub fn start(
    alloc: Global,
    stage: &mut Stage,
    picture: &Picture,
    line: &Instruction,
) -> Result<Vec<Event>, StageError>
    ensures { spec.IsStarted (spec.started picture.now.entries line.now stage.old) stage.old stage.new result }
{
    let effect = effect_of(alloc, stage, picture, line)?;
    let Effect {
        pointer,
        button,
        pointing,
        events,
    } = effect;
    stage.point(pointer, button, pointing);
    Ok(events)
}

#[tactic(auto, unfolding(crate::specs::Starting::started))]
fn effect_of(
    alloc: Global,
    stage: &Stage,
    picture: &Picture,
    line: &Instruction,
) -> Result<Effect, StageError>
    ensures { IsEffect (spec.started picture.now.entries line.now stage.now) stage.now result }
{
    match line {
        Instruction::Move(x, y) => move_to(alloc, stage, picture, x, y),
        Instruction::Press => press(alloc, stage, picture),
        Instruction::ReleaseButton => release(alloc, stage, picture),
        Instruction::Key(word) => made(key_pressed(alloc, stage, word)),
        Instruction::Focus(path) => focus_on(alloc, stage, picture, path.as_slice()),
        Instruction::Tab => made(traversed(alloc, stage, picture, false)),
        Instruction::Backtab => made(traversed(alloc, stage, picture, true)),
        _ => made(refocused(alloc, stage, stage.graph().focus())),
    }
}
