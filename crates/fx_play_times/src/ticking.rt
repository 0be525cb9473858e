//! What a tick sets.
ghost use Rattle.std.specs.Prelude.{◌≡◌, ◌≤◌, ◌+◌, OnOk};
ghost use Rattle.fx_plain_times.specs.Ticks.{after_set, all_animated, cost_of_sets};
ghost use Rattle.fx_play_steps.specs.Traces.{course_of};
ghost use Rattle.fx_stage_model.specs.Answers.{cost_of};
ghost use Rattle.fx_stage_model.specs.Properties.{changed};
ghost use Rattle.fx_store_model.specs.declared.changes.Change.TheVariants.{Set};

use fx_base::{Ledgers, Name, Value, Work};
use fx_play_steps::{Trace, print_told};
use fx_stage::Stage;
use fx_stage_types::StageError;
use std::alloc::{AllocError, Global};

/// Gives properties these values, one after another, and prints who is told. One that is bound or gone is passed over.
pub(crate) fn set_all<L: Ledgers>(
    alloc: Global,
    stage: &mut Stage,
    sets: Vec<(Name, Value)>,
    trace: &mut Trace,
    work: &mut Work<L>,
) -> Result<(), AllocError>
    ensures done { OnOk result (course_of stage.new trace.new
        ≡ all_animated sets.items (course_of stage.old trace.old)) }
    ensures few { OnOk result (work.new.evaluated ≤ work.old.evaluated + cost_of_sets sets.items stage.old) }
    ensures others { work.new ≡ record work.old { evaluated = work.new.evaluated } }
{
    for set in sets {
        set_one(alloc, stage, set, trace, work)?;
    }
    Ok(())
}

#[tactic(auto, unfolding(fx_plain_times::specs::Ticks::animated))]
fn set_one<L: Ledgers>(
    alloc: Global,
    stage: &mut Stage,
    set: (Name, Value),
    trace: &mut Trace,
    work: &mut Work<L>,
) -> Result<(), AllocError>
    ensures done { OnOk result (course_of stage.new trace.new
        ≡ after_set (course_of stage.old trace.old) set) }
    ensures few { work.new.evaluated ≤ work.old.evaluated + cost_of (changed (Set set.0 set.1) stage.old) }
    ensures others { work.new ≡ record work.old { evaluated = work.new.evaluated } }
{
    match stage.animate(alloc, set.0, set.1, work) {
        Ok(outcome) => print_told(alloc, stage, &outcome.notices, trace),
        Err(StageError::Refused(_)) => Ok(()),
        Err(StageError::Memory) => Err(AllocError),
    }
}
