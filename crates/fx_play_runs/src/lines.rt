//! Lines that are taken and written one by one.
ghost use Rattle.std.specs.Prelude.{◌≡◌, ◌≤◌, ◌<◌, ◌+◌, ◌-◌, ◌^◌, ℕ, List, None, OnErr, OnOk, Option, false, map, vec_len};
ghost use Rattle.fx_plain_runs.specs.Runs.{IsPut};
ghost use Rattle.fx_plain_dispatch.specs.Costs.{IsDoneWithin};
ghost use Rattle.fx_plain_frames.specs.Playing.{is_pulse};
ghost use Rattle.fx_plain_work.specs.Works.{IsLineWork, counted};
ghost use Rattle.fx_play_frames.specs.Games.{game_of, sight_of};
ghost use Rattle.fx_play_frames.specs.Takings.{IsAt};
ghost use Rattle.fx_play_runs.specs.Lines.{AreDone, IsLinePart, IsLineWhole};
ghost use Rattle.fx_port.specs.Causes.{HasCause};
ghost use Rattle.fx_port.specs.Pieces.{grown};
ghost use Rattle.fx_port.specs.declared.pieces.PutError.TheVariants.{Failed};
ghost use Rattle.fx_script_commands.specs.Requests.{line_view};

use fx_base::{Ledgers, Work};
use fx_frame_text::FrameWriter;
use fx_plain_runs::Manner;
use fx_play_frames::{Game, put_told};
use fx_play_steps::Trace;
use fx_port::{PutError, Sink};
use fx_script_commands::Line;
use std::alloc::Global;

/// Writes what was dropped of sheets, and then what each of the lines tells.
pub(crate) fn put_lines<O: Sink, L: Ledgers>(
    alloc: Global,
    manner: Manner,
    game: &mut Game,
    warnings: &[u8],
    lines: Vec<Line>,
    out: &mut O,
    work: &mut Work<L>,
) -> Result<(), PutError>
    requires few { vec_len lines ≤ 100000 }
    requires fresh { game.old.frames ≡ 0 }
    requires unseen { (game_of game.old).last ≡ None }
    requires long { manner.summary ≡ false }
    ensures cause { HasCause Failed (O.faults out.old) (O.faults out.new) result }
    ensures put { IsPut manner warnings.now (game_of game.old) (map line_view lines.items) (O.written out.old)
        (O.written out.new) result }
    ensures work { OnOk result (IsDoneWithin (AreDone manner warnings.now (game_of game.old) (sight_of game.old)
        (map line_view lines.items) (O.written out.old) (O.written out.new)
        (counted work.old.styled work.old.laid work.old.painted)
        (counted work.new.styled work.new.laid work.new.painted)) work.old.evaluated work.new.evaluated) }
{
    out.put(warnings)?;
    put_each(alloc, manner, game, lines, out, work)
}

/// Writes what each of the lines tells, behind what was dropped of sheets.
fn put_each<O: Sink, L: Ledgers>(
    alloc: Global,
    manner: Manner,
    game: &mut Game,
    lines: Vec<Line>,
    out: &mut O,
    work: &mut Work<L>,
) -> Result<(), PutError>
    requires few { vec_len lines ≤ 100000 }
    requires fresh { game.old.frames ≡ 0 }
    requires unseen { (game_of game.old).last ≡ None }
    requires long { manner.summary ≡ false }
    ensures cause { HasCause Failed (O.faults out.old) (O.faults out.new) result }
    ensures put { (warnings : List ℕ) (begun : Option (List ℕ)) → O.written out.old ≡ grown begun warnings →
        IsPut manner warnings (game_of game.old) (map line_view lines.items) begun (O.written out.new) result }
    ensures work { (warnings : List ℕ) (begun : Option (List ℕ)) → O.written out.old ≡ grown begun warnings →
        OnOk result (IsDoneWithin (AreDone manner warnings (game_of game.old) (sight_of game.old)
        (map line_view lines.items) begun (O.written out.new)
        (counted work.old.styled work.old.laid work.old.painted)
        (counted work.new.styled work.new.laid work.new.painted)) work.old.evaluated work.new.evaluated) }
{
    let mut trace = Trace::new(alloc);
    let mut writer = FrameWriter::new(alloc, manner.form);
    let mut left = lines;
    left.reverse();
    while let Some(line) = left.pop() {
        put_line(alloc, &mut writer, game, line, &mut trace, out, work)?;
    }
    Ok(())
}

/// Takes a line and writes what it tells; the trace is a buffer for that.
fn put_line<O: Sink, L: Ledgers>(
    alloc: Global,
    writer: &mut FrameWriter,
    game: &mut Game,
    line: Line,
    trace: &mut Trace,
    out: &mut O,
    work: &mut Work<L>,
) -> Result<(), PutError>
    requires few { game.old.frames < 2 ^ 64 - 1 }
    requires behind { IsAt writer.old (game_of game.old).last }
    ensures form { writer.new.form ≡ writer.old.form }
    ensures cause { HasCause Failed (O.faults out.old) (O.faults out.new) result }
    ensures done { OnOk result (IsDoneWithin (IsLineWhole writer.old.form (line_view line) (game_of game.old)
        (game_of game.new) (O.written out.old) (O.written out.new)) work.old.evaluated work.new.evaluated) }
    ensures cut { OnErr result (IsLinePart writer.old.form (line_view line) (game_of game.old) (O.written out.old)
        (O.written out.new)) }
    ensures behind { OnOk result (IsAt writer.new (game_of game.new).last) }
    ensures frames { OnOk result (game.new.frames ≤ game.old.frames + 1) }
    ensures work { OnOk result (IsLineWork (is_pulse (line_view line).request) (game_of game.old) (game_of game.new)
        (sight_of game.old) (sight_of game.new) (counted work.old.styled work.old.laid work.old.painted)
        (counted work.new.styled work.new.laid work.new.painted)) }
{
    let taken = game.take(alloc, line, trace, work)?;
    put_told(alloc, writer, game, &taken, trace.text.as_slice(), out)
}
