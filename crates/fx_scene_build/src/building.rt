//! Carrying a plan out, step by step.
ghost use Rattle.std.specs.Prelude.{◌≡◌, ◌≤◌, ◌++◌, IfErr, OnOk};
ghost use Rattle.std.specs.Option.{option_to_list};
ghost use Rattle.fx_stage_types.specs.declared.answers.StageError.TheVariants.{Memory};
ghost use Rattle.fx_scene_plan.specs.Plans.{IsScene, standing_of};
ghost use Rattle.fx_scene_build.specs.Steps.{IsStepTaken};
ghost use Rattle.fx_stage_model.specs.World.{IsUnwatched};

use crate::resolving::resolve;
use fx_base::{Ledgers, NodeKey, Work};
use fx_scene_plan::PlannedStep;
use fx_stage::Stage;
use fx_stage_types::StageError;
use std::alloc::Global;

/// Builds what is planned, and answers the nodes by their ordinals. What was built before a step that is refused, or
/// before memory ran out, stays on the stage.
pub fn build_scene<L: Ledgers>(
    alloc: Global,
    stage: &mut Stage,
    plan: Vec<PlannedStep>,
    work: &mut Work<L>,
) -> Result<Vec<NodeKey>, StageError>
    ensures scene { IsScene plan.items stage.old stage.new result }
    ensures quiet { IsUnwatched stage.old
        → OnOk result ((work.new.evaluated ≤ work.old.evaluated) × IsUnwatched stage.new) }
    ensures others { work.new ≡ record work.old { evaluated = work.new.evaluated } }
{
    let mut keys = Vec::new(alloc);
    let mut left = plan;
    left.reverse();
    while let Some(step) = left.pop() {
        take_step(alloc, stage, &mut keys, step, work)?;
    }
    Ok(keys)
}

/// Makes one step, and keeps the key of the node that it makes.
#[tactic(auto, unfolding(fx_scene_plan::specs::Plans::stepped))]
pub fn take_step<L: Ledgers>(
    alloc: Global,
    stage: &mut Stage,
    keys: &mut Vec<NodeKey>,
    step: PlannedStep,
    work: &mut Work<L>,
) -> Result<(), StageError>
    ensures taken { IsStepTaken step (standing_of stage.old keys.old.items)
        (standing_of stage.new keys.new.items) result }
    ensures quiet { IsUnwatched stage.old
        → OnOk result ((work.new.evaluated ≤ work.old.evaluated) × IsUnwatched stage.new) }
    ensures others { work.new ≡ record work.old { evaluated = work.new.evaluated } }
{
    let step = resolve(alloc, stage, keys.as_slice(), step)?;
    let made = stage.build(alloc, step, work)?;
    keep(keys, made)
}

fn keep(keys: &mut Vec<NodeKey>, made: Option<NodeKey>) -> Result<(), StageError>
    ensures ok { OnOk result (keys.new.items ≡ keys.old.items ++ option_to_list made) }
    ensures err { IfErr result (λ error. error ≡ Memory) }
{
    match made {
        Some(key) => keys.push(key)?,
        None => {}
    }
    Ok(())
}
