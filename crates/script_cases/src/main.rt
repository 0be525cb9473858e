//! Reads scripts, one to a line of its input, and prints what each line of a script asks for. Its input and output are
//! a test of the reader of scripts.
#![tactic(auto)]

mod escapes;
mod expressions;
mod instructions;
mod lines;
mod printed;

use escapes::bytes_of;
use fx_script_commands::{ScriptError, read_script};
use lines::put_lines;
use printed::Printed;
use std::alloc::Global;

fn main(rt: HostRuntime) -> anyhow::Result<()> {
    play(&rt)
}

fn play<R: Input + Print + AllocGlobal>(rt: &R) -> anyhow::Result<()> {
    let alloc = rt.alloc();
    for line in rt.lines(alloc) {
        let line = line?;
        let text = answer(alloc, line.as_str())?;
        println!(rt; "{text}")?;
    }
    Ok(())
}

/// What is read of a script that is written in one line.
fn answer(alloc: Global, line: &str) -> anyhow::Result<String> {
    let bytes = bytes_of(alloc, line)?;
    match read_script(alloc, bytes.as_slice()) {
        Ok(lines) => {
            let mut out = Printed::new(alloc);
            out.put("script")?;
            put_lines(&mut out, 1, lines.as_slice())?;
            Ok(out.text)
        }
        Err(ScriptError::NotUtf8(valid)) => Ok(format!(in alloc; "not UTF-8 behind {valid}")?),
        Err(ScriptError::TooManyLines) => Ok(format!(in alloc; "too many lines")?),
        Err(ScriptError::Memory) => Ok(format!(in alloc; "memory")?),
    }
}
