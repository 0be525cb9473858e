//! One line whole.
ghost use Rattle.std.specs.Option.{option_copied};
ghost use Rattle.std.specs.Prelude.{◌≡◌, Err, OnOk, Result as Answer};
ghost use Rattle.fx_act.specs.Lines.{IsEventLine};
ghost use Rattle.fx_event_lines.specs.Started.{Started};
ghost use Rattle.fx_event_lines.specs.Starting.{IsStarted as HasStarted, started};
ghost use Rattle.fx_plain_dispatch.specs.Costs.{IsDoneWithin};
ghost use Rattle.fx_plain_dispatch.specs.Taking.{IsActed, IsLine, IsStarted};
ghost use Rattle.fx_plain_steps.specs.Courses.{begun};
ghost use Rattle.fx_play_steps.specs.Traces.{course_of};
ghost use Rattle.fx_script_commands.specs.Requests.{line_view};
ghost use Rattle.fx_stage_model.specs.World.{World};
ghost use Rattle.fx_stage_types.specs.declared.refusals.Refusal.{Refusal as Word};

use crate::sending::send_all;
use crate::settling::settle;
use fx_base::{Ledgers, Work};
use fx_event_lines::{is_event_line, start};
use fx_picture::Picture;
use fx_play_steps::{Trace, number_of, print_refused, take_line};
use fx_script_commands::{Command, Line};
use fx_script_lines::Instruction;
use fx_stage::Stage;
use fx_stage_types::StageError;
use std::alloc::{AllocError, Global};

/// Takes a line that isn't a `pulse`, where this is the last picture: the line itself, the actions that
/// its events call, and then those of the listeners that were told. Want of memory may leave it done in part.
pub fn act<L: Ledgers>(
    alloc: Global,
    stage: &mut Stage,
    picture: &Picture,
    line: Line,
    trace: &mut Trace,
    work: &mut Work<L>,
) -> Result<(), AllocError>
    ensures line { OnOk result (IsDoneWithin (IsLine picture.now.entries (line_view line) stage.old
        (course_of stage.new trace.new))
        work.old.evaluated work.new.evaluated) }
    ensures others { work.new ≡ record work.old { evaluated = work.new.evaluated } }
{
    let number = number_of(&line);
    trace.clear();
    take(alloc, stage, picture, line, trace, work)?;
    settle(alloc, stage, number, trace, work)
}

/// The line itself, and the actions that its events call.
fn take<L: Ledgers>(
    alloc: Global,
    stage: &mut Stage,
    picture: &Picture,
    line: Line,
    trace: &mut Trace,
    work: &mut Work<L>,
) -> Result<(), AllocError>
    requires { (world : World) → course_of world trace.old ≡ begun world }
    ensures done { OnOk result (IsDoneWithin (IsActed picture.now.entries (line_view line)
        (line_view line).request stage.old (course_of stage.new trace.new))
        work.old.evaluated work.new.evaluated) }
    ensures others { work.new ≡ record work.old { evaluated = work.new.evaluated } }
{
    if let Some(instruction) = event_line(&line) {
        return take_event_line(alloc, stage, picture, line.number, instruction, trace, work);
    }
    take_line(alloc, stage, line, trace, work)
}

/// The line, if it is an event line.
fn event_line(line: &Line) -> Option<&Instruction>
    ensures { IsEventLine (line_view line.now) (option_copied result) }
{
    match &line.command {
        Command::Plain(instruction) => {
            if is_event_line(instruction) {
                Some(instruction)
            } else {
                None
            }
        }
        _ => None,
    }
}

/// Changes the state as an event line says, and sends the events that this starts.
fn take_event_line<L: Ledgers>(
    alloc: Global,
    stage: &mut Stage,
    picture: &Picture,
    number: u32,
    instruction: &Instruction,
    trace: &mut Trace,
    work: &mut Work<L>,
) -> Result<(), AllocError>
    requires { (world : World) → course_of world trace.old ≡ begun world }
    ensures done { OnOk result (IsDoneWithin (IsStarted number
        (started picture.now.entries instruction.now stage.old) stage.old (course_of stage.new trace.new))
        work.old.evaluated work.new.evaluated) }
    ensures others { work.new ≡ record work.old { evaluated = work.new.evaluated } }
{
    match start(alloc, stage, picture, instruction) {
        Ok(events) => send_all(alloc, stage, events.as_slice(), trace, work),
        Err(error) => print_error(alloc, stage, number, error, trace),
    }
}

/// Prints why the line was refused, unless memory was wanting.
fn print_error(
    alloc: Global,
    stage: &Stage,
    number: u32,
    error: StageError,
    trace: &mut Trace,
) -> Result<(), AllocError>
    requires { (world : World) → course_of world trace.old ≡ begun world }
    ensures { (starts : Answer Started Word) (before : World) → HasStarted starts before stage.now (Err error)
        → OnOk result (IsStarted number starts before (course_of stage.now trace.new) 0) }
{
    let _stage = stage;
    match error {
        StageError::Refused(word) => print_refused(alloc, number, word, trace),
        StageError::Memory => Err(AllocError),
    }
}
