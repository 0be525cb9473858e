//! What the lines of a script ask for.
//! The reader makes these; whoever carries out a script takes them one by one.
use fx_base::{List, Text};
use fx_expr::Parsed;
use fx_script_lines::Instruction;

/// A line that is neither blank nor a comment, by its number in the file, from 1.
#[cycle(script)]
#[derive(Drop)]
pub struct Line {
    pub number: u32,
    pub command: Command,
}

/// What a line asks for.
#[cycle(script)]
#[derive(Drop)]
pub enum Command {
    /// A line of words, node paths and texts alone.
    Plain(Instruction),
    /// `bind NAME ${EXPR}`
    Bind(List<Text>, Parsed),
    /// `action NAME`, and the lines up to its `end`.
    Action(Text, Vec<Line>),
    /// The line is of no form, or may not stand where it does.
    Bad,
}
