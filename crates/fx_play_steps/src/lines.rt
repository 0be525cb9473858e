//! Lines of a script, one by one.
ghost use Rattle.std.specs.Prelude.{◌≡◌, ◌≤◌, ◌+◌, ℕ, false, true};
ghost use Rattle.fx_plain_steps.specs.Lines as spec;
ghost use Rattle.fx_play_steps.specs.Taken.{IsMade};
ghost use Rattle.fx_play_steps.specs.Traces.{course_of};
ghost use Rattle.fx_stage_model.specs.Answers.{cost_of};
ghost use Rattle.fx_stage_model.specs.Lines.{taken};
ghost use Rattle.fx_script_commands.specs.Requests.{asks, bad, command_view, line_view};

use crate::asking::{asked_by, is_barred, is_carried, saying};
use crate::printing::{print_answer, print_refused, say};
use crate::traces::Trace;
use fx_base::{Ledgers, Work};
use fx_script_commands::{Command, Line};
use fx_script_lines::Instruction;
use fx_stage::Stage;
use fx_stage_types::Refusal;
use std::alloc::{AllocError, Global};

/// Takes a line, prints what it tells, and keeps whom it told. Want of memory may leave the line done in part, and a
/// part of its text.
pub fn take_line<L: Ledgers>(
    alloc: Global,
    stage: &mut Stage,
    line: Line,
    trace: &mut Trace,
    work: &mut Work<L>,
) -> Result<(), AllocError>
    ensures made { (slot : ℕ) × IsMade
        (spec.line_step slot (line_view line).number (line_view line).request stage.old)
        (course_of stage.old trace.old) (course_of stage.new trace.new) result }
    ensures few { (slot : ℕ) → work.new.evaluated
        ≤ work.old.evaluated + cost_of (taken slot (line_view line).request stage.old) }
    ensures others { work.new ≡ record work.old { evaluated = work.new.evaluated } }
{
    let Line { number, command } = line;
    take_command(alloc, stage, number, command, trace, work)
}

#[tactic(auto, unfolding(fx_plain_steps::specs::Lines::line_step, fx_stage_model::specs::Lines::taken))]
fn take_command<L: Ledgers>(
    alloc: Global,
    stage: &mut Stage,
    number: u32,
    command: Command,
    trace: &mut Trace,
    work: &mut Work<L>,
) -> Result<(), AllocError>
    ensures made { (slot : ℕ) × IsMade (spec.line_step slot number (command_view command) stage.old)
        (course_of stage.old trace.old) (course_of stage.new trace.new) result }
    ensures few { (slot : ℕ) → work.new.evaluated
        ≤ work.old.evaluated + cost_of (taken slot (command_view command) stage.old) }
    ensures others { work.new ≡ record work.old { evaluated = work.new.evaluated } }
{
    match command {
        Command::Plain(instruction) => {
            take_instruction(alloc, stage, number, &instruction, trace, work)
        }
        Command::Bind(path, parsed) => {
            let answer = stage.bind(alloc, path.as_slice(), &parsed, work);
            print_answer(alloc, stage, number, &[], answer, trace)
        }
        Command::Action(name, lines) => {
            let answer = stage.define(alloc, name, lines);
            print_answer(alloc, stage, number, &[], answer, trace)
        }
        Command::Bad => refuse_line(alloc, stage, number, trace),
    }
}

/// Takes a line of an action.
#[tactic(auto, unfolding(fx_plain_steps::specs::Lines::inner_step))]
pub fn take_inner<L: Ledgers>(
    alloc: Global,
    stage: &mut Stage,
    line: &Line,
    trace: &mut Trace,
    work: &mut Work<L>,
) -> Result<(), AllocError>
    ensures made { (slot : ℕ) × IsMade
        (spec.inner_step slot (line_view line.now).number (line_view line.now).request stage.old)
        (course_of stage.old trace.old) (course_of stage.new trace.new) result }
    ensures few { (slot : ℕ) → work.new.evaluated
        ≤ work.old.evaluated + cost_of (taken slot (line_view line.now).request stage.old) }
    ensures others { work.new ≡ record work.old { evaluated = work.new.evaluated } }
{
    take_inner_command(alloc, stage, line.number, &line.command, trace, work)
}

#[tactic(auto, unfolding(fx_plain_steps::specs::Lines::inner_step))]
fn take_inner_command<L: Ledgers>(
    alloc: Global,
    stage: &mut Stage,
    number: u32,
    command: &Command,
    trace: &mut Trace,
    work: &mut Work<L>,
) -> Result<(), AllocError>
    ensures made { (slot : ℕ) × IsMade (spec.inner_step slot number (command_view command.now) stage.old)
        (course_of stage.old trace.old) (course_of stage.new trace.new) result }
    ensures few { (slot : ℕ) → work.new.evaluated
        ≤ work.old.evaluated + cost_of (taken slot (command_view command.now) stage.old) }
    ensures others { work.new ≡ record work.old { evaluated = work.new.evaluated } }
{
    if is_barred(command) {
        return refuse_barred(alloc, stage, number, command, trace);
    }
    take_lent(alloc, stage, number, command, trace, work)
}

/// Takes a line that may stand in an action.
#[tactic(auto, unfolding(fx_plain_steps::specs::Lines::line_step, fx_stage_model::specs::Lines::taken, fx_plain_steps::specs::Lines::is_barred))]
fn take_lent<L: Ledgers>(
    alloc: Global,
    stage: &mut Stage,
    number: u32,
    command: &Command,
    trace: &mut Trace,
    work: &mut Work<L>,
) -> Result<(), AllocError>
    requires { spec.is_barred (command_view command.now) ≡ false }
    ensures made { (slot : ℕ) × IsMade (spec.line_step slot number (command_view command.now) stage.old)
        (course_of stage.old trace.old) (course_of stage.new trace.new) result }
    ensures few { (slot : ℕ) → work.new.evaluated
        ≤ work.old.evaluated + cost_of (taken slot (command_view command.now) stage.old) }
    ensures others { work.new ≡ record work.old { evaluated = work.new.evaluated } }
{
    match command {
        Command::Plain(instruction) => {
            take_instruction(alloc, stage, number, instruction, trace, work)
        }
        Command::Bind(path, parsed) => {
            let answer = stage.bind(alloc, path.as_slice(), parsed, work);
            print_answer(alloc, stage, number, &[], answer, trace)
        }
        Command::Action(_, _) => unreachable!(),
        Command::Bad => refuse_line(alloc, stage, number, trace),
    }
}

#[tactic(auto, unfolding(fx_plain_steps::specs::Lines::instruction_step))]
fn take_instruction<L: Ledgers>(
    alloc: Global,
    stage: &mut Stage,
    number: u32,
    instruction: &Instruction,
    trace: &mut Trace,
    work: &mut Work<L>,
) -> Result<(), AllocError>
    ensures made { (slot : ℕ) × IsMade (spec.instruction_step slot number instruction.now stage.old)
        (course_of stage.old trace.old) (course_of stage.new trace.new) result }
    ensures few { (slot : ℕ) → work.new.evaluated
        ≤ work.old.evaluated + cost_of (taken slot (asks instruction.now) stage.old) }
    ensures others { work.new ≡ record work.old { evaluated = work.new.evaluated } }
{
    if !is_carried(instruction) {
        return say(saying(instruction), trace);
    }
    let answer = stage.carry_out(alloc, instruction, work);
    print_answer(alloc, stage, number, asked_by(instruction), answer, trace)
}

/// A line of no form.
fn refuse_line(
    alloc: Global,
    stage: &Stage,
    number: u32,
    trace: &mut Trace,
) -> Result<(), AllocError>
    ensures { (slot : ℕ) × IsMade (spec.line_step slot number bad stage.now)
        (course_of stage.now trace.old) (course_of stage.now trace.new) result }
{
    let _stage = stage;
    print_refused(alloc, number, Refusal::Syntax, trace)
}

/// A line that may stand in no action.
fn refuse_barred(
    alloc: Global,
    stage: &Stage,
    number: u32,
    command: &Command,
    trace: &mut Trace,
) -> Result<(), AllocError>
    requires { spec.is_barred (command_view command.now) ≡ true }
    ensures { (slot : ℕ) × IsMade (spec.inner_step slot number (command_view command.now) stage.now)
        (course_of stage.now trace.old) (course_of stage.now trace.new) result }
{
    let (_stage, _command) = (stage, command);
    print_refused(alloc, number, Refusal::Syntax, trace)
}
