//! The lines of a script, and of an action.
use crate::expressions::put_parsed;
use crate::instructions::put_instruction;
use crate::printed::Printed;
use fx_script_commands::{Command, Line};
use std::alloc::AllocError;

/// Each line stands behind so many spaces.
#[cycle(lines)]
pub fn put_lines(out: &mut Printed, depth: u8, lines: &[Line]) -> Result<(), AllocError> {
    for line in lines {
        put_number(out, depth, line.number)?;
        put_command(out, depth, &line.command)?;
    }
    Ok(())
}

fn put_number(out: &mut Printed, depth: u8, number: u32) -> Result<(), AllocError> {
    out.put("\n")?;
    for _ in 0..depth {
        out.put(" ")?;
    }
    let text = format!(in *out.text.allocator(); "{number} ")?;
    out.put(text.as_str())
}

#[cycle(lines)]
fn put_command(out: &mut Printed, depth: u8, command: &Command) -> Result<(), AllocError> {
    match command {
        Command::Plain(instruction) => put_instruction(out, instruction),
        Command::Bind(name, parsed) => {
            out.path("bind", name, &[])?;
            put_parsed(out, parsed)
        }
        Command::Action(name, lines) => {
            out.words("action", &[name.as_str()])?;
            put_lines(out, depth.saturating_add(1), lines.as_slice())
        }
        Command::Bad => out.put("bad"),
    }
}
