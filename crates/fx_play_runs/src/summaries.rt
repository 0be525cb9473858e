//! Lines that are taken and counted, and the one line that tells their totals.
ghost use Rattle.std.specs.Prelude.{◌≡◌, ◌≤◌, ◌<◌, ◌+◌, ◌-◌, ◌^◌, IfOk, List, OnOk, map, true, vec_len, ℕ};
ghost use Rattle.fx_frame_text.specs.declared.forms.Form.{Form};
ghost use Rattle.fx_plain_dispatch.specs.Costs.{IsDoneWithin};
ghost use Rattle.fx_plain_runs.specs.Runs.{AreCounted, IsPut};
ghost use Rattle.fx_plain_steps.specs.Told.{AreSmall, summary_line};
ghost use Rattle.fx_plain_frames.specs.Playing.{is_pulse};
ghost use Rattle.fx_plain_work.specs.Works.{IsLineWork, counted};
ghost use Rattle.fx_play_frames.specs.Games.{game_of, sight_of};
ghost use Rattle.fx_play_frames.specs.Takings.{totals_in};
ghost use Rattle.fx_play_runs.specs.Lines.{AreAdded, AreDone, IsLineCounted};
ghost use Rattle.fx_port.specs.Causes.{HasCause};
ghost use Rattle.fx_port.specs.declared.pieces.PutError.TheVariants.{Failed};
ghost use Rattle.fx_script_commands.specs.Requests.{line_view};

use fx_base::{Ledgers, Work};
use fx_plain_runs::Manner;
use fx_play_frames::{Counts, Game};
use fx_play_steps::Trace;
use fx_port::{PutError, Sink};
use fx_script_commands::Line;
use std::alloc::{AllocError, Global};

/// Takes all lines, and writes their totals.
pub(crate) fn put_summary<O: Sink, L: Ledgers>(
    alloc: Global,
    manner: Manner,
    game: &mut Game,
    lines: Vec<Line>,
    out: &mut O,
    work: &mut Work<L>,
) -> Result<(), PutError>
    requires few { vec_len lines ≤ 100000 }
    requires fresh { game.old.frames ≡ 0 }
    requires short { manner.summary ≡ true }
    ensures cause { HasCause Failed (O.faults out.old) (O.faults out.new) result }
    ensures put { (warnings : List ℕ) → IsPut manner warnings (game_of game.old) (map line_view lines.items)
        (O.written out.old) (O.written out.new) result }
    ensures work { (warnings : List ℕ) →
        OnOk result (IsDoneWithin (AreDone manner warnings (game_of game.old) (sight_of game.old)
        (map line_view lines.items) (O.written out.old) (O.written out.new)
        (counted work.old.styled work.old.laid work.old.painted)
        (counted work.new.styled work.new.laid work.new.painted)) work.old.evaluated work.new.evaluated) }
{
    let totals = count_lines(alloc, game, lines, work)?;
    let text = summary_text(alloc, totals)?;
    out.put(text.as_slice())
}

#[tactic(auto, unfolding(fx_plain_steps::specs::Told::summary_line))]
fn summary_text(alloc: Global, totals: Counts) -> Result<Vec<u8>, AllocError>
    ensures { IfOk result (λ text. text.items ≡ summary_line (totals_in totals)) }
{
    let Counts {
        frames,
        area,
        notices,
        pixels,
    } = totals;
    Ok(format!(in alloc; "summary {frames} {area} {notices} {pixels}\n")?.into_bytes())
}

/// The totals of what all lines tell.
fn count_lines<L: Ledgers>(
    alloc: Global,
    game: &mut Game,
    lines: Vec<Line>,
    work: &mut Work<L>,
) -> Result<Counts, AllocError>
    requires few { vec_len lines ≤ 100000 }
    requires fresh { game.old.frames ≡ 0 }
    ensures counted { IfOk result (λ totals. (form : Form) →
        AreCounted form (game_of game.old) (map line_view lines.items) (totals_in totals)) }
    ensures work { IfOk result (λ totals. (form : Form) → IsDoneWithin (AreAdded form (game_of game.old)
        (sight_of game.old) (map line_view lines.items) (totals_in totals)
        (counted work.old.styled work.old.laid work.old.painted)
        (counted work.new.styled work.new.laid work.new.painted)) work.old.evaluated work.new.evaluated) }
{
    let mut trace = Trace::new(alloc);
    let mut totals = Counts::NONE;
    let mut left = lines;
    left.reverse();
    while let Some(line) = left.pop() {
        let more = count_line(alloc, game, line, &mut trace, work)?;
        totals = totals.with(more);
    }
    Ok(totals)
}

/// Takes a line, and answers what it adds to the totals; the trace is a buffer.
fn count_line<L: Ledgers>(
    alloc: Global,
    game: &mut Game,
    line: Line,
    trace: &mut Trace,
    work: &mut Work<L>,
) -> Result<Counts, AllocError>
    requires few { game.old.frames < 2 ^ 64 - 1 }
    ensures counted { IfOk result (λ more. (form : Form) →
        IsDoneWithin (IsLineCounted form (line_view line) (game_of game.old) (game_of game.new) (totals_in more))
        work.old.evaluated work.new.evaluated) }
    ensures small { IfOk result (λ more. AreSmall (totals_in more)) }
    ensures frames { OnOk result (game.new.frames ≤ game.old.frames + 1) }
    ensures work { OnOk result (IsLineWork (is_pulse (line_view line).request) (game_of game.old) (game_of game.new)
        (sight_of game.old) (sight_of game.new) (counted work.old.styled work.old.laid work.old.painted)
        (counted work.new.styled work.new.laid work.new.painted)) }
{
    let taken = game.take(alloc, line, trace, work)?;
    Ok(game.counts(&taken))
}
