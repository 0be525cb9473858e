//! Room for further nodes.
ghost use Rattle.std.specs.Prelude.{◌≡◌, ◌<◌, Ok, length, nat_lt};
ghost use Rattle.fx_scene_build.specs.Steps.{IsPathRefusal};
ghost use Rattle.fx_scene_plan.specs.Plans as spec;
ghost use Rattle.fx_scene_plan.specs.Plans.{Says, standing_of};
ghost use Rattle.fx_stage_model.specs.Answers.{unless};
ghost use Rattle.fx_stage_types.specs.declared.refusals.Refusal.TheVariants.{Depth};

use crate::resolving::key_at;
use fx_base::NodeKey;
use fx_stage::Stage;
use fx_stage_types::{Refusal, StageError};
use fx_tree::TreeError;
use std::alloc::Global;

/// Is there room for a further node under the one of this ordinal? Nothing is made.
#[tactic(auto, unfolding(fx_scene_plan::specs::Plans::roomy))]
pub fn look_for_room(
    alloc: Global,
    stage: &Stage,
    keys: &[NodeKey],
    node: usize,
) -> Result<(), StageError>
    ensures { Says (λ done. standing_of stage.now keys.now) (spec.roomy (standing_of stage.now keys.now) node) result }
{
    let key = key_at(keys, node)?;
    room_below(alloc, stage, key)?;
    Ok(())
}

/// A tree has at most so many levels.
const MOST_LEVELS: usize = 64;

fn room_below(alloc: Global, stage: &Stage, key: NodeKey) -> Result<NodeKey, StageError>
    ensures { Says (λ found. found) (spec.room_below stage.now key) result }
{
    match stage.graph().tree().path(alloc, key) {
        Ok(path) => room_behind(path.as_slice(), key),
        Err(error) => Err(path_refusal(error)),
    }
}

fn room_behind(path: &[NodeKey], key: NodeKey) -> Result<NodeKey, StageError>
    ensures { Says (λ found. found) (unless (nat_lt 63 (length path.now)) Depth (Ok key)) result }
{
    if path.len() >= MOST_LEVELS {
        return Err(StageError::Refused(Refusal::Depth));
    }
    Ok(key)
}

fn path_refusal(error: TreeError) -> StageError
    ensures { IsPathRefusal error result }
{
    match error {
        TreeError::Memory => StageError::Memory,
        _ => StageError::Refused(Refusal::Unknown),
    }
}
