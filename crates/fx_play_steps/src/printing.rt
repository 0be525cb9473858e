//! What lines print.
ghost use Rattle.std.specs.Prelude.{◌≡◌, ◌++◌, List, ℕ, Err, OnOk, Result as Answer};
ghost use Rattle.std.specs.Option.{option_map};
ghost use Rattle.fx_plain_steps.specs.Lines as spec;
ghost use Rattle.fx_plain_steps.specs.Lines.{heard_in};
ghost use Rattle.fx_play_steps.specs.Taken.{IsMade};
ghost use Rattle.fx_play_steps.specs.Traces.{course_of};
ghost use Rattle.fx_stage_model.specs.Answers.{Taken};
ghost use Rattle.fx_stage_model.specs.Taking.{IsTaken};
ghost use Rattle.fx_stage_model.specs.World.{World};
ghost use Rattle.fx_stage_text.specs.Printing.{notice_lines, outcome_lines};
ghost use Rattle.fx_stage_types.specs.declared.refusals.Refusal.{Refusal as Word};

use crate::notices::print_notices;
use crate::traces::Trace;
use fx_base::Text;
use fx_stage::Stage;
use fx_stage_text::{print_refusal, print_saying, print_value, print_warnings};
use fx_stage_types::{Outcome, Refusal, StageError};
use fx_store_model::Notices;
use std::alloc::{AllocError, Global};

/// Prints what a line says that the stage doesn't take.
pub(crate) fn say(text: Option<&str>, trace: &mut Trace) -> Result<(), AllocError>
    ensures { (world : World) → IsMade (spec.said_by (option_map (λ t. t.now) text.entry) world)
        (course_of world trace.old) (course_of world trace.new) result }
{
    match text {
        Some(text) => print_saying(&mut trace.text, text),
        None => Ok(()),
    }
}

/// Prints that the line is refused by this word.
pub fn print_refused(
    alloc: Global,
    number: u32,
    word: Refusal,
    trace: &mut Trace,
) -> Result<(), AllocError>
    ensures { (path : List (List ℕ)) (world : World) → IsMade (spec.answered number path (Err word) world)
        (course_of world trace.old) (course_of world trace.new) result }
{
    print_refusal(alloc, &mut trace.text, number, word.word())
}

/// Prints what is told of a line which the stage answered so.
pub(crate) fn print_answer(
    alloc: Global,
    stage: &Stage,
    number: u32,
    path: &[Text],
    answer: Result<Outcome, StageError>,
    trace: &mut Trace,
) -> Result<(), AllocError>
    ensures { (taken : Answer Taken Word) (before : World) → IsTaken taken before stage.now answer
        → IsMade (spec.answered number path.now taken before) (course_of before trace.old)
        (course_of stage.now trace.new) result }
{
    match answer {
        Ok(outcome) => print_outcome_of(alloc, stage, number, path, &outcome, trace),
        Err(error) => print_error(alloc, stage, number, path, error, trace),
    }
}

/// Prints why a line was refused, unless memory was wanting.
fn print_error(
    alloc: Global,
    stage: &Stage,
    number: u32,
    path: &[Text],
    error: StageError,
    trace: &mut Trace,
) -> Result<(), AllocError>
    ensures { (taken : Answer Taken Word) (before : World) → IsTaken taken before stage.now (Err error)
        → IsMade (spec.answered number path.now taken before) (course_of before trace.old)
        (course_of stage.now trace.new) result }
{
    let (_stage, _path) = (stage, path);
    match error {
        StageError::Refused(word) => print_refused(alloc, number, word, trace),
        StageError::Memory => Err(AllocError),
    }
}

/// Prints what is told of a line that was taken.
fn print_outcome_of(
    alloc: Global,
    stage: &Stage,
    number: u32,
    path: &[Text],
    outcome: &Outcome,
    trace: &mut Trace,
) -> Result<(), AllocError>
    ensures rest { trace.new.consumed ≡ trace.old.consumed }
    ensures text { OnOk result (trace.new.text.items
        ≡ trace.old.text.items ++ outcome_lines stage.now.names.written number path.now outcome.now) }
    ensures heard { OnOk result (trace.new.heard.items ≡ trace.old.heard.items ++ heard_in outcome.now.notices) }
{
    print_value(alloc, &mut trace.text, path, outcome.value.as_ref())?;
    print_warnings(alloc, &mut trace.text, number, outcome.warnings.as_slice())?;
    print_notices(alloc, &mut trace.text, stage, &outcome.notices)?;
    trace.keep_heard(&outcome.notices)
}

/// Prints who was told of a change, and keeps it.
pub fn print_told(
    alloc: Global,
    stage: &Stage,
    notices: &Notices,
    trace: &mut Trace,
) -> Result<(), AllocError>
    ensures rest { trace.new.consumed ≡ trace.old.consumed }
    ensures text { OnOk result (trace.new.text.items
        ≡ trace.old.text.items ++ notice_lines stage.now.names.written notices.now) }
    ensures heard { OnOk result (trace.new.heard.items ≡ trace.old.heard.items ++ heard_in notices.now) }
{
    print_notices(alloc, &mut trace.text, stage, notices)?;
    trace.keep_heard(notices)
}
