//! What is written of a run.
ghost use Rattle.std.specs.Prelude.{◌≡◌, ◌≤◌, None, OnOk, map, vec_len};
ghost use Rattle.fx_plain_dispatch.specs.Costs.{IsDoneWithin};
ghost use Rattle.fx_plain_runs.specs.Runs.{IsPut};
ghost use Rattle.fx_plain_work.specs.Works.{counted};
ghost use Rattle.fx_play_frames.specs.Games.{game_of, sight_of};
ghost use Rattle.fx_play_runs.specs.Lines.{AreDone};
ghost use Rattle.fx_port.specs.Causes.{HasCause};
ghost use Rattle.fx_port.specs.declared.pieces.PutError.TheVariants.{Failed};
ghost use Rattle.fx_script_commands.specs.Requests.{line_view};

use crate::lines::put_lines;
use crate::summaries::put_summary;
use fx_base::{Ledgers, Work};
use fx_plain_runs::Manner;
use fx_play_frames::Game;
use fx_port::{PutError, Sink};
use fx_script_commands::Line;
use std::alloc::Global;

/// Takes all lines. Writes what was dropped of sheets and what each line tells, or the totals of the lines alone.
pub fn put_played<O: Sink, L: Ledgers>(
    alloc: Global,
    manner: Manner,
    game: &mut Game,
    warnings: &[u8],
    lines: Vec<Line>,
    out: &mut O,
    work: &mut Work<L>,
) -> Result<(), PutError>
    requires few { vec_len lines ≤ 100000 }
    requires fresh { game.old.frames ≡ 0 }
    requires unseen { (game_of game.old).last ≡ None }
    ensures cause { HasCause Failed (O.faults out.old) (O.faults out.new) result }
    ensures put { IsPut manner warnings.now (game_of game.old) (map line_view lines.items) (O.written out.old)
        (O.written out.new) result }
    ensures work { OnOk result (IsDoneWithin (AreDone manner warnings.now (game_of game.old) (sight_of game.old)
        (map line_view lines.items) (O.written out.old) (O.written out.new)
        (counted work.old.styled work.old.laid work.old.painted)
        (counted work.new.styled work.new.laid work.new.painted)) work.old.evaluated work.new.evaluated) }
{
    if manner.summary {
        return put_summary(alloc, manner, game, lines, out, work);
    }
    put_lines(alloc, manner, game, warnings, lines, out, work)
}
