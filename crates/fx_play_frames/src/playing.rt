//! The lines of a game.
ghost use Rattle.std.specs.Prelude.{◌≡◌, ◌≤◌, ◌<◌, ◌+◌, ◌-◌, ◌^◌, [], IfOk, None, OnOk, is_some, length, false, true};
ghost use Rattle.fx_frame_text.specs.declared.forms.Form.{Form as Image};
ghost use Rattle.fx_plain_dispatch.specs.Costs.{IsDoneWithin};
ghost use Rattle.fx_plain_frames.specs.Games.{begun};
ghost use Rattle.fx_plain_frames.specs.Playing.{IsExplained, IsStep, IsTimed, IsTold, IsToldOf, explained_by, is_pulse as is_pulse_request, time_line};
ghost use Rattle.fx_plain_steps.specs.Told.{lines_told};
ghost use Rattle.fx_plain_work.specs.Works.{IsLineWork, counted, no_sight};
ghost use Rattle.fx_play_frames.specs.Games.{game_of, sight_of};
ghost use Rattle.fx_play_frames.specs.Lines.{is_own};
ghost use Rattle.fx_play_frames.specs.Takings.{HasFrame, IsSmallTaken, last_behind, told_as};
ghost use Rattle.fx_script_commands.specs.Requests.{line_view};

use crate::game::Game;
use crate::lines::{explained_by, is_own, is_pulse, time_line};
use crate::taking::Taken;
use fx_act::{act, settle};
use fx_base::{Ledgers, List, Text, Work};
use fx_picture::Picture;
use fx_play_explain::explain_line;
use fx_play_steps::{Trace, number_of};
use fx_play_times::Clock;
use fx_pulse::Renderer;
use fx_script_commands::Line;
use fx_script_lines::Instruction;
use fx_stage::Stage;
use std::alloc::{AllocError, Global};

impl Game {
    /// Before the first line.
    pub fn new(alloc: Global, stage: Stage) -> Game
        ensures game { game_of result ≡ begun stage }
        ensures sight { sight_of result ≡ no_sight }
    {
        Game {
            stage,
            clock: Clock::new(alloc),
            renderer: Renderer::new(alloc),
            frames: 0,
            rests: false,
        }
    }

    /// Takes a line whole, and makes the trace's text what it tells, but for a frame. Want of memory may leave the line
    /// done in part.
    pub fn take<L: Ledgers>(
        &mut self,
        alloc: Global,
        line: Line,
        trace: &mut Trace,
        work: &mut Work<L>,
    ) -> Result<Taken, AllocError>
        requires few { self.old.frames < 2 ^ 64 - 1 }
        ensures told { IfOk result (λ taken. (form : Image) →
            IsDoneWithin (IsTold form (line_view line) (game_of self.old) (game_of self.new)
            (told_as form (game_of self.old).last (game_of self.new) taken trace.new.text.items))
            work.old.evaluated work.new.evaluated) }
        ensures shown { IfOk result (HasFrame (game_of self.new)) }
        ensures last { IfOk result (λ taken.
            last_behind taken (game_of self.old).last (game_of self.new) ≡ (game_of self.new).last) }
        ensures small { IfOk result IsSmallTaken }
        ensures frames { OnOk result (self.new.frames ≤ self.old.frames + 1) }
        ensures work { OnOk result (IsLineWork (is_pulse_request (line_view line).request) (game_of self.old)
            (game_of self.new) (sight_of self.old) (sight_of self.new)
            (counted work.old.styled work.old.laid work.old.painted)
            (counted work.new.styled work.new.laid work.new.painted)) }
    {
        if is_pulse(&line) {
            return self.pulse(alloc, line.number, trace, work);
        }
        self.rests = false;
        self.take_other(alloc, line, trace, work)?;
        Ok(Taken::Line(trace.heard.len() as u64))
    }

    /// Takes a line that isn't a `pulse`.
    fn take_other<L: Ledgers>(
        &mut self,
        alloc: Global,
        line: Line,
        trace: &mut Trace,
        work: &mut Work<L>,
    ) -> Result<(), AllocError>
        requires awake { self.old.rests ≡ false }
        ensures told { OnOk result (IsDoneWithin (IsToldOf (time_line (line_view line).request)
            (explained_by (line_view line).request)
            (line_view line) (game_of self.old) (game_of self.new)
            (lines_told trace.new.text.items (length trace.new.heard.items)))
            work.old.evaluated work.new.evaluated) }
        ensures frames { self.new.frames ≡ self.old.frames }
        ensures last { self.new.renderer ≡ self.old.renderer }
        ensures others { work.new ≡ record work.old { evaluated = work.new.evaluated } }
    {
        if is_own(&line) {
            return self.take_own(alloc, &line, trace, work);
        }
        self.step(alloc, line, trace, work)
    }

    /// Takes a line on timelines, or one that asks why a property is as it is.
    fn take_own<L: Ledgers>(
        &mut self,
        alloc: Global,
        line: &Line,
        trace: &mut Trace,
        work: &mut Work<L>,
    ) -> Result<(), AllocError>
        requires awake { self.old.rests ≡ false }
        requires own { is_own (line_view line.now).request ≡ true }
        ensures told { OnOk result (IsDoneWithin (IsToldOf (time_line (line_view line.now).request)
            (explained_by (line_view line.now).request) (line_view line.now) (game_of self.old) (game_of self.new)
            (lines_told trace.new.text.items (length trace.new.heard.items)))
            work.old.evaluated work.new.evaluated) }
        ensures frames { self.new.frames ≡ self.old.frames }
        ensures last { self.new.renderer ≡ self.old.renderer }
        ensures others { work.new ≡ record work.old { evaluated = work.new.evaluated } }
    {
        match time_line(line) {
            Some(instruction) => self.pass(alloc, number_of(line), instruction, trace, work),
            None => self.answer(alloc, line, trace, work),
        }
    }

    /// Takes a line that asks why a property is as it is.
    fn answer<L: Ledgers>(
        &mut self,
        alloc: Global,
        line: &Line,
        trace: &mut Trace,
        work: &mut Work<L>,
    ) -> Result<(), AllocError>
        requires awake { self.old.rests ≡ false }
        requires asks { is_some (explained_by (line_view line.now).request) ≡ true }
        ensures told { OnOk result (IsDoneWithin
            (IsToldOf None (explained_by (line_view line.now).request) (line_view line.now)
            (game_of self.old) (game_of self.new) (lines_told trace.new.text.items (length trace.new.heard.items)))
            work.old.evaluated work.new.evaluated) }
        ensures frames { self.new.frames ≡ self.old.frames }
        ensures last { self.new.renderer ≡ self.old.renderer }
        ensures others { work.new ≡ record work.old { evaluated = work.new.evaluated } }
    {
        match explained_by(line) {
            Some((path, name)) => self.explain(alloc, number_of(line), path, name, trace, work),
            None => unreachable!(),
        }
    }

    /// Takes a line on timelines.
    fn pass<L: Ledgers>(
        &mut self,
        alloc: Global,
        number: u32,
        instruction: &Instruction,
        trace: &mut Trace,
        work: &mut Work<L>,
    ) -> Result<(), AllocError>
        requires awake { self.old.rests ≡ false }
        ensures timed { OnOk result (IsDoneWithin (IsTimed number instruction.now (game_of self.old) (game_of self.new)
            (lines_told trace.new.text.items (length trace.new.heard.items)))
            work.old.evaluated work.new.evaluated) }
        ensures frames { self.new.frames ≡ self.old.frames }
        ensures last { self.new.renderer ≡ self.old.renderer }
        ensures others { work.new ≡ record work.old { evaluated = work.new.evaluated } }
    {
        self.clock
            .take(alloc, &mut self.stage, number, instruction, trace, work)?;
        settle(alloc, &mut self.stage, number, trace, work)
    }

    /// Tells why a property of a node is as it is.
    fn explain<L: Ledgers>(
        &mut self,
        alloc: Global,
        number: u32,
        path: &[Text],
        name: &Text,
        trace: &mut Trace,
        work: &mut Work<L>,
    ) -> Result<(), AllocError>
        requires awake { self.old.rests ≡ false }
        ensures explained { OnOk result (IsDoneWithin
            (IsExplained number (path.now, name.now) (game_of self.old) (game_of self.new)
            (lines_told trace.new.text.items (length trace.new.heard.items)))
            work.old.evaluated work.new.evaluated) }
        ensures frames { self.new.frames ≡ self.old.frames }
        ensures last { self.new.renderer ≡ self.old.renderer }
        ensures others { work.new ≡ record work.old { evaluated = work.new.evaluated } }
    {
        explain_line(alloc, &mut self.stage, number, path, name, trace, work)
    }

    /// Takes a line that the stage carries out, or whose events go to its nodes.
    fn step<L: Ledgers>(
        &mut self,
        alloc: Global,
        line: Line,
        trace: &mut Trace,
        work: &mut Work<L>,
    ) -> Result<(), AllocError>
        requires awake { self.old.rests ≡ false }
        ensures step { OnOk result (IsDoneWithin (IsStep (line_view line) (game_of self.old) (game_of self.new)
            (lines_told trace.new.text.items (length trace.new.heard.items)))
            work.old.evaluated work.new.evaluated) }
        ensures frames { self.new.frames ≡ self.old.frames }
        ensures last { self.new.renderer ≡ self.old.renderer }
        ensures others { work.new ≡ record work.old { evaluated = work.new.evaluated } }
    {
        if self.renderer.canvas().is_none() {
            let nothing = no_picture(alloc);
            return act(alloc, &mut self.stage, &nothing, line, trace, work);
        }
        act(
            alloc,
            &mut self.stage,
            self.renderer.picture(),
            line,
            trace,
            work,
        )
    }
}

/// What stands in for the last picture before the first frame.
fn no_picture(alloc: Global) -> Picture
    ensures { result.entries ≡ [] }
{
    Picture {
        entries: List::from_vec(Vec::new(alloc)),
    }
}
