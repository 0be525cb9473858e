//! One line more.
//! Below whatever makes lines.
ghost use Rattle.std.specs.Prelude.{OnOk};
ghost use Rattle.fx_script_commands.specs.Adding.{Adds};
ghost use Rattle.fx_script_commands.specs.Requests.{command_view, numbered};

use crate::commands::{Command, Line};
use std::alloc::AllocError;

/// Puts the line of this number behind the others.
pub(crate) fn push(lines: &mut Vec<Line>, number: u32, command: Command) -> Result<(), AllocError>
    ensures { OnOk result (Adds lines.old.items (numbered number (command_view command)) lines.new.items) }
{
    Ok(lines.push(Line { number, command })?)
}
