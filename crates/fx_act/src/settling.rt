//! Listeners that were told while a line was taken, and the actions that they run behind it.
ghost use Rattle.std.specs.Prelude.{◌≡◌, ◌<◌, IfOk, IfSome, OnOk, drop, length};
ghost use Rattle.std.specs.Option.{option_map};
ghost use Rattle.fx_plain_dispatch.specs.Costs.{IsDoneWithin};
ghost use Rattle.fx_plain_dispatch.specs.Settling.{IsSettled, IsSettledWhole, first_run};
ghost use Rattle.fx_play_steps.specs.Traces.{course_of};

use crate::running::run_lines;
use fx_base::{Ledgers, Name, Work};
use fx_play_steps::Trace;
use fx_stage::{Action, Stage};
use fx_stage_text::print_overrun;
use std::alloc::{AllocError, Global};

/// The action that a listener runs, and the listener's place among those that were told.
#[derive(Drop)]
struct Run {
    place: usize,
    action: Action,
}

/// Has the listeners that were told run their actions in the order in which they were told, those too who are told by
/// these; before what would be the 1,001st run the rest is left out, and this is told of the line of this number.
pub fn settle<L: Ledgers>(
    alloc: Global,
    stage: &mut Stage,
    number: u32,
    trace: &mut Trace,
    work: &mut Work<L>,
) -> Result<(), AllocError>
    ensures settled { OnOk result (IsDoneWithin (IsSettledWhole number
        (course_of stage.old trace.old) (course_of stage.new trace.new))
        work.old.evaluated work.new.evaluated) }
    ensures others { work.new ≡ record work.old { evaluated = work.new.evaluated } }
{
    let mut place = 0;
    for _ran in 0..1000_u32 {
        match next_run(stage, trace.heard.as_slice(), place)? {
            Some(run) => {
                run_lines(alloc, stage, run.action.lines(), trace, work)?;
                place = run.place + 1;
            }
            None => return Ok(()),
        }
    }
    end_runs(alloc, stage, number, place, trace)
}

/// Tells that there are more runs than may be, if there are.
fn end_runs(
    alloc: Global,
    stage: &Stage,
    number: u32,
    place: usize,
    trace: &mut Trace,
) -> Result<(), AllocError>
    ensures { OnOk result (IsSettled number 0 place (course_of stage.now trace.old)
        (course_of stage.now trace.new) 0) }
{
    if next_run(stage, trace.heard.as_slice(), place)?.is_some() {
        return print_overrun(alloc, &mut trace.text, number);
    }
    Ok(())
}

/// The first of those that were told, from this place on, that is living still and runs an action that is defined.
fn next_run(stage: &Stage, heard: &[(Name, u32)], from: usize) -> Result<Option<Run>, AllocError>
    ensures found { IfOk result (λ run. option_map (λ r. (r.place, r.action)) run
        ≡ first_run stage.now from (drop from heard.now)) }
    ensures within { IfOk result (λ run. IfSome run (λ r. r.place < length heard.now)) }
{
    for place in from..heard.len() {
        let (name, number) = heard[place];
        if let Some(action) = stage.run_by(name, number) {
            let action = action.share()?;
            return Ok(Some(Run { place, action }));
        }
    }
    Ok(None)
}
