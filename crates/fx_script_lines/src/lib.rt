//! The lines of a script whose forms have words, paths and texts alone: what each asks for, as a definition, and the
//! reader that finds it. It stands between the text of a line and the world that lines change.
#![tactic(auto)]

ghost use Rattle.std.specs.Prelude.{◌≡◌, IfOk};
ghost use Rattle.fx_script_lines.specs.Forms.{instruction_of};

mod arguments;
mod forms;
mod instructions;
mod keywords;
mod shapes;
mod stops;
mod words;

pub use forms::instruction;
pub use instructions::Instruction;
pub use shapes::Shape;
use std::alloc::{AllocError, Global};
pub use stops::Stop;
pub use words::{Words, behind_spaces};

/// What the line asks for, if it is of one of these forms. Words are separated by spaces alone.
pub fn read_instruction(alloc: Global, line: &str) -> Result<Option<Instruction>, AllocError>
    ensures { IfOk result (λ found. found ≡ instruction_of line.now) }
{
    let mut words = Words { left: line };
    let first = words.next();
    match instruction(&mut words, alloc, first.as_bytes()) {
        Ok(instruction) => Ok(Some(instruction)),
        Err(Stop::Form) => Ok(None),
        Err(Stop::Memory) => Err(AllocError),
    }
}
