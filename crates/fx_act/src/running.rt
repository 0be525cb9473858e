//! Actions, line by line.
ghost use Rattle.std.specs.Prelude.{◌≡◌, ◌≤◌, ◌+◌, IfOk, OnOk, map, ℕ};
ghost use Rattle.fx_plain_dispatch.specs.Costs.{IsDoneWithin};
ghost use Rattle.fx_plain_dispatch.specs.Running.{AreCalled, AreRun, behind, lines_of};
ghost use Rattle.fx_play_steps.specs.Traces.{course_of};
ghost use Rattle.fx_script_commands.specs.Requests.{line_view};
ghost use Rattle.fx_stage_model.specs.Answers.{cost_of};
ghost use Rattle.fx_stage_model.specs.Lines.{taken};
ghost use Rattle.fx_stage_model.specs.Running.{action_in};

use fx_base::{Ledgers, Text, Work};
use fx_play_steps::{Trace, is_consume, take_inner};
use fx_script_commands::Line;
use fx_stage::{Action, Stage};
use std::alloc::{AllocError, Global};

/// Runs these lines, one after another.
pub(crate) fn run_lines<L: Ledgers>(
    alloc: Global,
    stage: &mut Stage,
    lines: &[Line],
    trace: &mut Trace,
    work: &mut Work<L>,
) -> Result<(), AllocError>
    ensures done { OnOk result (IsDoneWithin (AreRun (map line_view lines.now)
        (course_of stage.old trace.old) (course_of stage.new trace.new))
        work.old.evaluated work.new.evaluated) }
    ensures others { work.new ≡ record work.old { evaluated = work.new.evaluated } }
{
    for line in lines {
        run_line(alloc, stage, line, trace, work)?;
    }
    Ok(())
}

fn run_line<L: Ledgers>(
    alloc: Global,
    stage: &mut Stage,
    line: &Line,
    trace: &mut Trace,
    work: &mut Work<L>,
) -> Result<(), AllocError>
    ensures done { (slot : ℕ) × OnOk result (course_of stage.new trace.new
        ≡ behind slot (line_view line.now) (course_of stage.old trace.old)) }
    ensures few { (slot : ℕ) → work.new.evaluated
        ≤ work.old.evaluated + cost_of (taken slot (line_view line.now).request stage.old) }
    ensures others { work.new ≡ record work.old { evaluated = work.new.evaluated } }
{
    take_inner(alloc, stage, line, trace, work)?;
    let consumes = is_consume(&line.command);
    trace.consumed = consumes || trace.consumed;
    Ok(())
}

/// Runs the actions of these names, one after another. One that isn't defined does nothing.
pub(crate) fn call_all<L: Ledgers>(
    alloc: Global,
    stage: &mut Stage,
    names: &[Text],
    trace: &mut Trace,
    work: &mut Work<L>,
) -> Result<(), AllocError>
    ensures done { OnOk result (IsDoneWithin (AreCalled names.now
        (course_of stage.old trace.old) (course_of stage.new trace.new))
        work.old.evaluated work.new.evaluated) }
    ensures others { work.new ≡ record work.old { evaluated = work.new.evaluated } }
{
    for name in names {
        call(alloc, stage, name, trace, work)?;
    }
    Ok(())
}

fn call<L: Ledgers>(
    alloc: Global,
    stage: &mut Stage,
    name: &Text,
    trace: &mut Trace,
    work: &mut Work<L>,
) -> Result<(), AllocError>
    ensures done { OnOk result (IsDoneWithin (AreRun (lines_of stage.old name.now)
        (course_of stage.old trace.old) (course_of stage.new trace.new))
        work.old.evaluated work.new.evaluated) }
    ensures others { work.new ≡ record work.old { evaluated = work.new.evaluated } }
{
    match action_named(stage, name)? {
        Some(action) => run_lines(alloc, stage, action.lines(), trace, work),
        None => Ok(()),
    }
}

/// The action of this name, which may run while the stage changes.
fn action_named(stage: &Stage, name: &Text) -> Result<Option<Action>, AllocError>
    ensures { IfOk result (λ found. found ≡ action_in stage.now name.now) }
{
    match stage.action(name) {
        Some(action) => Ok(Some(action.share()?)),
        None => Ok(None),
    }
}
