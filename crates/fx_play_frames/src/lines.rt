//! Which lines the game takes itself: pulses, lines on timelines, and questions why a property is as it is.
ghost use Rattle.std.specs.Option.{option_copied, option_map};
ghost use Rattle.std.specs.Prelude.{◌≡◌};
ghost use Rattle.fx_plain_frames.specs.Playing as spec;
ghost use Rattle.fx_play_frames.specs.Lines.{is_own};
ghost use Rattle.fx_script_commands.specs.Requests.{command_view, line_view};

use fx_base::Text;
use fx_play_times::is_time_line;
use fx_script_commands::{Command, Line};
use fx_script_lines::Instruction;

/// Whether the line is `pulse`.
pub(crate) fn is_pulse(line: &Line) -> bool
    ensures { result ≡ spec.is_pulse (line_view line.now).request }
{
    is_pulse_command(&line.command)
}

#[tactic(auto, unfolding(fx_plain_frames::specs::Playing::is_pulse))]
fn is_pulse_command(command: &Command) -> bool
    ensures { result ≡ spec.is_pulse (command_view command.now) }
{
    match command {
        Command::Plain(instruction) => is_pulse_line(instruction),
        _ => false,
    }
}

fn is_pulse_line(instruction: &Instruction) -> bool
    ensures { result ≡ spec.is_pulse_line instruction.now }
{
    match instruction {
        Instruction::Pulse => true,
        _ => false,
    }
}

/// Whether the line is one on timelines, or asks why a property is as it is.
pub(crate) fn is_own(line: &Line) -> bool
    ensures { result ≡ is_own (line_view line.now).request }
{
    time_line(line).is_some() || explained_by(line).is_some()
}

/// The line, if it is one on timelines.
pub(crate) fn time_line(line: &Line) -> Option<&Instruction>
    ensures { option_copied result ≡ spec.time_line (line_view line.now).request }
{
    time_line_in(&line.command)
}

#[tactic(auto, unfolding(fx_plain_frames::specs::Playing::time_line))]
fn time_line_in(command: &Command) -> Option<&Instruction>
    ensures { option_copied result ≡ spec.time_line (command_view command.now) }
{
    match command {
        Command::Plain(instruction) => {
            if is_time_line(instruction) {
                Some(instruction)
            } else {
                None
            }
        }
        _ => None,
    }
}

/// The path of a node and the name of a property, if the line asks why the property is as it is.
pub(crate) fn explained_by(line: &Line) -> Option<(&[Text], &Text)>
    ensures { option_map (λ a. (a.0.now, a.1.now)) result ≡ spec.explained_by (line_view line.now).request }
{
    explained_by_command(&line.command)
}

#[tactic(auto, unfolding(fx_plain_frames::specs::Playing::explained_by))]
fn explained_by_command(command: &Command) -> Option<(&[Text], &Text)>
    ensures { option_map (λ a. (a.0.now, a.1.now)) result ≡ spec.explained_by (command_view command.now) }
{
    match command {
        Command::Plain(instruction) => explained_in(instruction),
        _ => None,
    }
}

fn explained_in(instruction: &Instruction) -> Option<(&[Text], &Text)>
    ensures { option_map (λ a. (a.0.now, a.1.now)) result ≡ spec.explained_in instruction.now }
{
    match instruction {
        Instruction::Explain(path, name) => Some((path.as_slice(), name)),
        _ => None,
    }
}
