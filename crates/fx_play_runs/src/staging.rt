//! The game of a scene before the first line of its script.
ghost use Rattle.std.specs.Prelude.{◌≡◌, ◌≤◌, IfOk, None, OnOk, Some};
ghost use Rattle.fx_plain_frames.specs.Games.{begun};
ghost use Rattle.fx_plain_runs.specs.Runs.{in_window};
ghost use Rattle.fx_plain_work.specs.Works.{no_sight};
ghost use Rattle.fx_play_frames.specs.Games.{game_of, sight_of};
ghost use Rattle.fx_play_runs.specs.Staging.{IsStaged};

use fx_base::{Ledgers, Work};
use fx_play_frames::Game;
use fx_scene_acts::Task;
use fx_scene_raise::{RaiseError, raise};
use fx_stage::Stage;
use std::alloc::Global;

/// Raises a scene on a bare stage, in a window of this width and this height in pixels if one is asked for, or answers
/// the first fault of what is done for it.
pub fn staged<L: Ledgers>(
    alloc: Global,
    window: Option<(u32, u32)>,
    tasks: Vec<Task>,
    work: &mut Work<L>,
) -> Result<Game, RaiseError>
    ensures staged { IsStaged window tasks.items result }
    ensures fresh { IfOk result (λ game. game.frames ≡ 0) }
    ensures unseen { IfOk result (λ game. (game_of game).last ≡ None) }
    ensures sight { IfOk result (λ game. sight_of game ≡ no_sight) }
    ensures quiet { OnOk result (work.new.evaluated ≤ work.old.evaluated) }
    ensures others { work.new ≡ record work.old { evaluated = work.new.evaluated } }
{
    let mut stage = Stage::new(alloc);
    raise(alloc, &mut stage, tasks, work)?;
    Ok(game_in(alloc, window, stage))
}

/// The game of a stage in this window, if there is one.
fn game_in(alloc: Global, window: Option<(u32, u32)>, stage: Stage) -> Game
    ensures game { game_of result ≡ begun (in_window window stage) }
    ensures sight { sight_of result ≡ no_sight }
{
    match window {
        Some(window) => windowed_game(alloc, window, stage),
        None => Game::new(alloc, stage),
    }
}

fn windowed_game(alloc: Global, window: (u32, u32), stage: Stage) -> Game
    ensures game { game_of result ≡ begun (in_window (Some window) stage) }
    ensures sight { sight_of result ≡ no_sight }
{
    let mut stage = stage;
    stage.keep_window(window);
    Game::new(alloc, stage)
}
