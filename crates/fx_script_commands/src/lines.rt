//! Single lines of a script, and the first line of an action.
//! Between the words of lines and whole scripts.
ghost use Rattle.std.specs.Prelude.{◌≡◌, ◌++◌, ◌+◌, ◌<◌, ◌^◌, IfOk, OnOk, codes, length, map};
ghost use Rattle.std.specs.Option.{option_to_list};
ghost use Rattle.std.specs.Str.{bytes_eq};
ghost use Rattle.fx_script_commands.specs.Commands as spec;
ghost use Rattle.fx_script_commands.specs.Requests.{command_view};
ghost use Rattle.fx_script_commands.specs.Adding.{Adds};
ghost use Rattle.fx_script_commands.specs.Scripts.{line_at, opens};

use crate::actions::read_action;
use crate::bindings::{command, push_command};
use crate::commands::{Command, Line};
use crate::pushing::push;
use crate::standing::Standing;
use fx_script_lines::{Shape, Stop, Words};
use std::alloc::{AllocError, Global};

/// What a line asks for that opens no action.
pub(crate) fn read_line(
    alloc: Global,
    text: &str,
    standing: Standing,
) -> Result<Command, AllocError>
    ensures { IfOk result (λ command. command_view command ≡ spec.request_of standing text.now) }
{
    let mut words = Words { left: text };
    let first = words.next();
    command(alloc, &mut words, first, standing)
}

/// Puts the line of this number behind the others, from its text and what stands behind it, and tells whether it opens
/// an action. A line is put there where it is made, so that it is moved once.
#[tactic(auto, unfolding(crate::specs::Scripts::opens, crate::specs::Commands::action_name))]
pub(crate) fn push_line(
    alloc: Global,
    number: u32,
    text: &str,
    behind: &[&str],
    lines: &mut Vec<Line>,
) -> Result<bool, AllocError>
    requires { number + 1 + length behind.now < 2 ^ 32 }
    ensures line { OnOk result (Adds lines.old.items
        (line_at number text.now (map (λ line. line.now) behind.now)) lines.new.items) }
    ensures opens { IfOk result (λ opened. opened ≡ opens text.now) }
{
    let mut words = Words { left: text };
    let first = words.next();
    if !is_action(first) {
        push_command(alloc, &mut words, first, number, lines)?;
        return Ok(false);
    }
    match words.word_alone(alloc, Shape::Identifier) {
        Ok(name) => {
            let command = read_action(alloc, name, number + 1, behind)?;
            push(lines, number, command)?;
            Ok(true)
        }
        Err(Stop::Form) => {
            push(lines, number, Command::Bad)?;
            Ok(false)
        }
        Err(Stop::Memory) => Err(AllocError),
    }
}

fn is_action(first: &str) -> bool
    ensures { result ≡ bytes_eq first.now (codes "action") }
{
    first.as_bytes() == b"action".as_slice()
}

/// Puts a line behind the others, if there is one.
pub(crate) fn push_some(lines: &mut Vec<Line>, line: Option<Line>) -> Result<(), AllocError>
    ensures { OnOk result (lines.new.items ≡ lines.old.items ++ option_to_list line) }
{
    match line {
        Some(line) => Ok(lines.push(line)?),
        None => Ok(()),
    }
}
