//! What one line asks for by itself, bindings included.
//! Between the words of a line and the lines of a script.
ghost use Rattle.std.specs.Prelude.{◌≡◌, IfOk, OnOk};
ghost use Rattle.fx_script_commands.specs.Adding.{Adds};
ghost use Rattle.fx_script_commands.specs.Commands as spec;
ghost use Rattle.fx_script_commands.specs.Requests.{IsFound, command_view, expression_view, numbered};
ghost use Rattle.fx_script_commands.specs.declared.standing.Standing.TheVariants as standing;

use crate::braces::between_braces;
use crate::commands::{Command, Line};
use crate::pushing::push;
use crate::standing::{Standing, is_barred};
use fx_expr::{ExprError, Parsed, read_expr};
use fx_script_lines::{Stop, Words, instruction};
use std::alloc::{AllocError, Global};

/// What is behind the first word, where lines that begin with that word may stand.
#[tactic(auto, unfolding(crate::specs::Commands::request_behind))]
pub(crate) fn command(
    alloc: Global,
    words: &mut Words<'_>,
    first: &str,
    standing: Standing,
) -> Result<Command, AllocError>
    ensures { IfOk result (λ command. command_view command
        ≡ spec.request_behind standing first.now words.old.left.now) }
{
    if is_barred(standing, first) {
        return Ok(Command::Bad);
    }
    match allowed(alloc, words, first) {
        Ok(command) => Ok(command),
        Err(Stop::Form) => Ok(Command::Bad),
        Err(Stop::Memory) => Err(AllocError),
    }
}

/// The line whose first word was taken, outside actions: it is put behind the others.
#[tactic(auto, unfolding(crate::specs::Commands::request_behind))]
pub(crate) fn push_command(
    alloc: Global,
    words: &mut Words<'_>,
    first: &str,
    number: u32,
    lines: &mut Vec<Line>,
) -> Result<(), AllocError>
    ensures { OnOk result (Adds lines.old.items
        (numbered number (spec.request_behind standing.Outside first.now words.old.left.now)) lines.new.items) }
{
    if is_barred(Standing::Outside, first) {
        return push(lines, number, Command::Bad);
    }
    match allowed(alloc, words, first) {
        Ok(command) => push(lines, number, command),
        Err(Stop::Form) => push(lines, number, Command::Bad),
        Err(Stop::Memory) => Err(AllocError),
    }
}

fn allowed(alloc: Global, words: &mut Words<'_>, first: &str) -> Result<Command, Stop>
    ensures { IsFound command_view result (spec.command_behind first.now words.old.left.now) }
{
    if first.as_bytes() == b"bind".as_slice() {
        return binding(alloc, words);
    }
    let instruction = instruction(words, alloc, first.as_bytes())?;
    Ok(Command::Plain(instruction))
}

/// `NAME ${EXPR}`
fn binding(alloc: Global, words: &mut Words<'_>) -> Result<Command, Stop>
    ensures { IsFound command_view result (spec.binding words.old.left.now) }
{
    let name = words.path(alloc)?;
    let parsed = expression(alloc, words.left)?;
    Ok(Command::Bind(name, parsed))
}

/// The expression between `${` and `}`.
fn expression(alloc: Global, text: &str) -> Result<Parsed, Stop>
    ensures { IsFound expression_view result (spec.expression_in text.now) }
{
    match between_braces(text) {
        Some(inside) => read(alloc, inside),
        None => Err(Stop::Form),
    }
}

fn read(alloc: Global, text: &str) -> Result<Parsed, Stop>
    ensures { IsFound expression_view result (spec.expression_of text.now) }
{
    match read_expr(alloc, text) {
        Ok(parsed) => Ok(parsed),
        Err(error) => Err(stop_of(error)),
    }
}

fn stop_of(error: ExprError) -> Stop
    ensures { result ≡ Stop.Form → ¬ (error ≡ ExprError.Memory) }
{
    match error {
        ExprError::Memory => Stop::Memory,
        ExprError::Syntax | ExprError::Depth | ExprError::Operands => Stop::Form,
    }
}
