//! One task after another.
ghost use Rattle.std.specs.Prelude.{◌≡◌, ◌≤◌, OnOk};
ghost use Rattle.fx_scene_acts.specs.Acts.{fault_at};
ghost use Rattle.fx_scene_plan.specs.Plans.{standing_of};
ghost use Rattle.fx_scene_raise.specs.Raising.{IsTaskTaken, IsErrorTold, IsRaised, IsTold};
ghost use Rattle.fx_scene_raise.specs.declared.errors.RaiseError.TheVariants.{Fault as IsFault};
ghost use Rattle.fx_stage_model.specs.World.{IsUnwatched};

use crate::errors::RaiseError;
use fx_base::{Ledgers, NodeKey, Place, Work};
use fx_kinds::properties;
use fx_scene_acts::{Doing, SceneFault, Task, flaw_of};
use fx_scene_build::{look_for_room, take_step};
use fx_scene_flaws::FaultKind;
use fx_scene_plan::PlannedStep;
use fx_stage::Stage;
use fx_stage_types::StageError;
use std::alloc::Global;

/// Does the tasks, and answers the nodes by their ordinals. What was built before a task at fault, or before
/// memory ran out, stays on the stage. Room for the properties of all nodes is made at once.
pub fn raise<L: Ledgers>(
    alloc: Global,
    stage: &mut Stage,
    tasks: Vec<Task>,
    work: &mut Work<L>,
) -> Result<Vec<NodeKey>, RaiseError>
    ensures raised { IsRaised tasks.items stage.old stage.new result }
    ensures quiet { IsUnwatched stage.old
        → OnOk result ((work.new.evaluated ≤ work.old.evaluated) × IsUnwatched stage.new) }
    ensures others { work.new ≡ record work.old { evaluated = work.new.evaluated } }
{
    match stage.reserve(property_count(tasks.as_slice())) {
        Ok(()) => take_tasks(alloc, stage, tasks, work),
        Err(_) => Err(RaiseError::Memory),
    }
}

/// How many properties the nodes have that these tasks make, or as many as a number holds. Only room hangs on it.
fn property_count(tasks: &[Task]) -> usize {
    let mut count = 0usize;
    for task in tasks {
        count = count.saturating_add(properties_of(task));
    }
    count
}

fn properties_of(task: &Task) -> usize {
    match &task.doing {
        Doing::Step(PlannedStep::Node(class)) => properties(*class).len(),
        _ => 0,
    }
}

fn take_tasks<L: Ledgers>(
    alloc: Global,
    stage: &mut Stage,
    tasks: Vec<Task>,
    work: &mut Work<L>,
) -> Result<Vec<NodeKey>, RaiseError>
    ensures raised { IsRaised tasks.items stage.old stage.new result }
    ensures quiet { IsUnwatched stage.old
        → OnOk result ((work.new.evaluated ≤ work.old.evaluated) × IsUnwatched stage.new) }
    ensures others { work.new ≡ record work.old { evaluated = work.new.evaluated } }
{
    let mut keys = Vec::new(alloc);
    let mut left = tasks;
    left.reverse();
    while let Some(task) = left.pop() {
        take_task(alloc, stage, &mut keys, task, work)?;
    }
    Ok(keys)
}

#[tactic(auto, unfolding(fx_scene_acts::specs::Acts::acted))]
fn take_task<L: Ledgers>(
    alloc: Global,
    stage: &mut Stage,
    keys: &mut Vec<NodeKey>,
    task: Task,
    work: &mut Work<L>,
) -> Result<(), RaiseError>
    ensures taken { IsTaskTaken task (standing_of stage.old keys.old.items)
        (standing_of stage.new keys.new.items) result }
    ensures quiet { IsUnwatched stage.old
        → OnOk result ((work.new.evaluated ≤ work.old.evaluated) × IsUnwatched stage.new) }
    ensures others { work.new ≡ record work.old { evaluated = work.new.evaluated } }
{
    let Task { place, doing } = task;
    match doing {
        Doing::Step(step) => told(place, take_step(alloc, stage, keys, step, work)),
        Doing::Fault(kind) => Err(fault(place, kind)),
        Doing::Room(node) => told(place, look_for_room(alloc, stage, keys.as_slice(), node)),
    }
}

/// A word by which a step is refused is a fault at its place.
fn told(place: Place, answer: Result<(), StageError>) -> Result<(), RaiseError>
    ensures { IsTold place answer result }
{
    match answer {
        Ok(()) => Ok(()),
        Err(error) => Err(error_at(place, error)),
    }
}

fn error_at(place: Place, error: StageError) -> RaiseError
    ensures { IsErrorTold place error result }
{
    match error {
        StageError::Refused(word) => fault(place, FaultKind::Flawed(flaw_of(word))),
        StageError::Memory => RaiseError::Memory,
    }
}

fn fault(place: Place, kind: FaultKind) -> RaiseError
    ensures { result ≡ IsFault (fault_at place kind) }
{
    RaiseError::Fault(SceneFault { kind, place })
}
