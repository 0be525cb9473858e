//! Lines on timelines.
ghost use Rattle.std.specs.Prelude.{◌≡◌, ◌≢◌, ◌<◌, ◌≤◌, ◌+◌, Err, IfErr, OnOk, length};
ghost use Rattle.fx_anim.specs.Line.{line_at, new_line};
ghost use Rattle.fx_anim.specs.Shown.{lines_of};
ghost use Rattle.fx_plain_steps.specs.Courses.{begun};
ghost use Rattle.fx_plain_times.specs.Lines as spec;
ghost use Rattle.fx_plain_times.specs.Times.{time_of as written_time};
ghost use Rattle.fx_play_steps.specs.Traces.{course_of};
ghost use Rattle.fx_play_times.specs.Passing.{HasPassed, IsKept, IsPrinted, IsTimed, passed_as};
ghost use Rattle.fx_play_times.specs.Shown.{clock_of};
ghost use Rattle.fx_stage_model.specs.World.{World};

use crate::clock::Clock;
use crate::ticking::set_all;
use crate::times::{count_of, time_of};
use fx_anim::AnimError;
use fx_base::{Ledgers, Name, Text, Value, Work};
use fx_play_steps::{Trace, print_refused};
use fx_script_lines::Instruction;
use fx_stage::Stage;
use fx_stage_types::{Refusal, StageError};
use fx_stage_words::read;
use std::alloc::{AllocError, Global};

/// Whether the line is one on timelines.
#[tactic(auto, unfolding(fx_plain_times::specs::Lines::is_time_line))]
pub fn is_time_line(line: &Instruction) -> bool
    ensures { result ≡ spec.is_time_line line.now }
{
    match line {
        Instruction::Timeline(_, _, _)
        | Instruction::Keyframe(_, _, _, _)
        | Instruction::Play(_)
        | Instruction::Stop(_)
        | Instruction::Tick(_) => true,
        _ => false,
    }
}

impl Clock {
    /// Takes the line of this number, and makes the trace what it prints and whom it tells; none of their actions ran
    /// yet. Want of memory may leave a tick done in part.
    pub fn take<L: Ledgers>(
        &mut self,
        alloc: Global,
        stage: &mut Stage,
        number: u32,
        line: &Instruction,
        trace: &mut Trace,
        work: &mut Work<L>,
    ) -> Result<(), AllocError>
        ensures passed { HasPassed (spec.time_step number line.now (clock_of self.old) stage.old)
            (passed_as (clock_of self.new) (course_of stage.new trace.new)) result }
        ensures few { OnOk result (work.new.evaluated
            ≤ work.old.evaluated + spec.time_cost line.now (clock_of self.old) stage.old) }
        ensures others { work.new ≡ record work.old { evaluated = work.new.evaluated } }
    {
        trace.clear();
        let answer = self.carry_out(alloc, stage, line, trace, work);
        print_error(alloc, number, answer, trace)
    }

    /// Carries the line out.
    #[tactic(auto, unfolding(fx_plain_times::specs::Lines::timed, fx_plain_times::specs::Lines::time_cost))]
    fn carry_out<L: Ledgers>(
        &mut self,
        alloc: Global,
        stage: &mut Stage,
        line: &Instruction,
        trace: &mut Trace,
        work: &mut Work<L>,
    ) -> Result<(), StageError>
        requires { (world : World) → course_of world trace.old ≡ begun world }
        ensures timed { IsTimed (spec.timed line.now (clock_of self.old) stage.old)
            (passed_as (clock_of self.old) (course_of stage.old trace.old))
            (passed_as (clock_of self.new) (course_of stage.new trace.new)) result }
        ensures few { OnOk result (work.new.evaluated
            ≤ work.old.evaluated + spec.time_cost line.now (clock_of self.old) stage.old) }
        ensures still { IfErr result (λ error. error ≢ StageError.Memory
            → work.new.evaluated ≡ work.old.evaluated) }
        ensures others { work.new ≡ record work.old { evaluated = work.new.evaluated } }
    {
        match line {
            Instruction::Timeline(label, count, back) => self.add(alloc, label, count, *back),
            Instruction::Keyframe(label, time, path, text) => {
                self.key(alloc, stage, label, time, path.as_slice(), text.as_str())
            }
            Instruction::Play(label) => self.play(label),
            Instruction::Stop(label) => self.stop(label),
            Instruction::Tick(time) => self.tick(alloc, stage, time, trace, work),
            _ => Ok(()),
        }
    }

    /// `timeline LABEL COUNT [reverse]`: a further timeline.
    #[tactic(auto, unfolding(fx_plain_times::specs::Lines::added))]
    fn add(
        &mut self,
        alloc: Global,
        label: &Text,
        count: &Text,
        reverse: bool,
    ) -> Result<(), StageError>
        ensures { IsKept (spec.added label.now count.now reverse (clock_of self.old)) (clock_of self.old)
            (clock_of self.new) result }
    {
        let Some(cycles) = count_of(count) else {
            return Err(StageError::Refused(Refusal::Value));
        };
        if self.place_of(label).is_some() {
            return Err(StageError::Refused(Refusal::Exists));
        }
        self.add_timeline(alloc, label, cycles, reverse)
    }

    /// `keyframe LABEL MS NAME REST`: at this time the property has the value that the text spells.
    #[tactic(auto, unfolding(fx_plain_times::specs::Lines::keyed))]
    fn key(
        &mut self,
        alloc: Global,
        stage: &Stage,
        label: &Text,
        time: &Text,
        path: &[Text],
        text: &str,
    ) -> Result<(), StageError>
        ensures { IsKept (spec.keyed label.now time.now path.now text.now (clock_of self.old) stage.now)
            (clock_of self.old) (clock_of self.new) result }
    {
        let id = match self.find(label) {
            Ok(id) => id,
            Err(word) => return Err(StageError::Refused(word)),
        };
        let name = match stage.find_property(path) {
            Ok(name) => name,
            Err(word) => return Err(StageError::Refused(word)),
        };
        if stage.store().is_read_only(name) {
            return Err(StageError::Refused(Refusal::ReadOnly));
        }
        let Some(at) = time_of(0, time) else {
            return Err(StageError::Refused(Refusal::Value));
        };
        stage.laws();
        let value = match read(alloc, stage.kind_of(name), text) {
            Ok(Some(value)) => value,
            Ok(None) => return Err(StageError::Refused(Refusal::Value)),
            Err(_) => return Err(StageError::Memory),
        };
        self.put_key(alloc, id, at, name, value)
    }

    /// `play LABEL`: the timeline starts; one that plays goes on.
    #[tactic(auto, unfolding(fx_plain_times::specs::Lines::played))]
    fn play(&mut self, label: &Text) -> Result<(), StageError>
        ensures { IsKept (spec.played label.now (clock_of self.old)) (clock_of self.old) (clock_of self.new) result }
    {
        let id = match self.find(label) {
            Ok(id) => id,
            Err(word) => return Err(StageError::Refused(word)),
        };
        match self.timelines.play(id) {
            Ok(()) => Ok(()),
            Err(_) => Err(StageError::Refused(Refusal::Value)),
        }
    }

    /// `stop LABEL`: the timeline stops.
    #[tactic(auto, unfolding(fx_plain_times::specs::Lines::halted))]
    fn stop(&mut self, label: &Text) -> Result<(), StageError>
        ensures { IsKept (spec.halted label.now (clock_of self.old)) (clock_of self.old) (clock_of self.new) result }
    {
        match self.find(label) {
            Ok(id) => {
                self.timelines.stop(id);
                Ok(())
            }
            Err(word) => Err(StageError::Refused(word)),
        }
    }

    /// `tick MS`: time passes for all timelines that play.
    #[tactic(auto, unfolding(fx_plain_times::specs::Lines::tick))]
    fn tick<L: Ledgers>(
        &mut self,
        alloc: Global,
        stage: &mut Stage,
        time: &Text,
        trace: &mut Trace,
        work: &mut Work<L>,
    ) -> Result<(), StageError>
        requires { (world : World) → course_of world trace.old ≡ begun world }
        ensures timed { IsTimed (spec.tick time.now (clock_of self.old) stage.old)
            (passed_as (clock_of self.old) (course_of stage.old trace.old))
            (passed_as (clock_of self.new) (course_of stage.new trace.new)) result }
        ensures few { OnOk result (work.new.evaluated ≤ work.old.evaluated
            + spec.tick_cost (written_time 1 time.now) (clock_of self.old) stage.old) }
        ensures still { IfErr result (λ error. error ≢ StageError.Memory
            → work.new.evaluated ≡ work.old.evaluated) }
        ensures others { work.new ≡ record work.old { evaluated = work.new.evaluated } }
    {
        let Some(ms) = time_of(1, time) else {
            return Err(StageError::Refused(Refusal::Value));
        };
        let Ok(sets) = self.timelines.tick(alloc, i64::from(ms)) else {
            return Err(StageError::Memory);
        };
        match set_all(alloc, stage, sets, trace, work) {
            Ok(()) => Ok(()),
            Err(_) => Err(StageError::Memory),
        }
    }

    /// A further timeline of this label, which is new.
    fn add_timeline(
        &mut self,
        alloc: Global,
        label: &Text,
        cycles: Option<u32>,
        reverse: bool,
    ) -> Result<(), StageError>
        ensures { IsKept (spec.with_room label.now (new_line (record { count = cycles; reverse = reverse }))
            (clock_of self.old)) (clock_of self.old) (clock_of self.new) result }
    {
        let label = label.copy(alloc)?;
        match self.timelines.add(alloc, cycles, reverse) {
            Ok(_) => {}
            Err(AnimError::Full) => return Err(StageError::Refused(Refusal::Full)),
            Err(_) => return Err(StageError::Memory),
        }
        self.labels.push(label)?;
        Ok(())
    }

    /// Gives the timeline a key frame.
    fn put_key(
        &mut self,
        alloc: Global,
        id: u32,
        at: u32,
        name: Name,
        value: Value,
    ) -> Result<(), StageError>
        requires id { id < length (lines_of self.old.timelines) }
        requires at { at ≤ 3600000 }
        ensures { IsKept (spec.keyed_at id (record { at = at; name = name; value = value }) (clock_of self.old)
            (line_at (lines_of self.old.timelines) id)) (clock_of self.old) (clock_of self.new) result }
    {
        match self.timelines.key(alloc, id, i64::from(at), name, value) {
            Ok(()) => Ok(()),
            Err(AnimError::Playing) => Err(StageError::Refused(Refusal::Used)),
            Err(AnimError::Full) => Err(StageError::Refused(Refusal::Full)),
            Err(_) => Err(StageError::Memory),
        }
    }
}

/// Prints what is told of a line that was answered so.
fn print_error(
    alloc: Global,
    number: u32,
    answer: Result<(), StageError>,
    trace: &mut Trace,
) -> Result<(), AllocError>
    ensures { IsPrinted number answer trace.old trace.new result }
{
    match answer {
        Ok(()) => Ok(()),
        Err(error) => print_word(alloc, number, error, trace),
    }
}

/// Prints why a line was refused, unless memory was wanting.
fn print_word(
    alloc: Global,
    number: u32,
    error: StageError,
    trace: &mut Trace,
) -> Result<(), AllocError>
    ensures { IsPrinted number (Err error) trace.old trace.new result }
{
    match error {
        StageError::Refused(word) => print_refused(alloc, number, word, trace),
        StageError::Memory => Err(AllocError),
    }
}
