//! Actions: a name, and lines up to `end`.
//! Between single lines and the lines of a script.
ghost use Rattle.std.specs.Prelude.{◌≡◌, ◌<◌, ◌≤◌, ◌+◌, ◌^◌, IfOk, IfSome, length, map};
ghost use Rattle.std.specs.List.{position};
ghost use Rattle.std.specs.Option.{option_map};
ghost use Rattle.fx_script_commands.specs.Commands.{is_end};
ghost use Rattle.fx_script_commands.specs.Requests.{command_view, line_view};
ghost use Rattle.fx_script_commands.specs.Scripts as spec;

use crate::commands::{Command, Line};
use crate::lines::{push_some, read_line};
use crate::skipping::{is_end, is_skipped};
use crate::standing::Standing;
use fx_base::Text;
use std::alloc::{AllocError, Global};

/// The most lines of an action, without blank lines and comments.
const ACTION_LIMIT: usize = 1000;

/// The action of this name, from what stands behind its first line, whose number is the one before this.
pub(crate) fn read_action(
    alloc: Global,
    name: Text,
    number: u32,
    behind: &[&str],
) -> Result<Command, AllocError>
    requires { number + length behind.now < 2 ^ 32 }
    ensures { IfOk result (λ command. command_view command
        ≡ spec.action_of name number (map (λ text. text.now) behind.now)) }
{
    let Some(texts) = body_in(behind) else {
        return Ok(Command::Bad);
    };
    match read_body(alloc, number, texts)? {
        Some(lines) => Ok(Command::Action(name, lines)),
        None => Ok(Command::Bad),
    }
}

/// The lines in front of the first `end`, if there is one.
fn body_in<'a, 'b>(texts: &'b [&'a str]) -> Option<&'b [&'a str]>
    ensures found { option_map (λ found. map (λ text. text.now) found.now) result
        ≡ spec.body_in (map (λ text. text.now) texts.now) }
    ensures within { IfSome result (λ found. length found.now ≤ length texts.now) }
{
    match end_in(texts) {
        Some(end) => Some(texts.split_at(end).0),
        None => None,
    }
}

/// Where the first `end` stands.
fn end_in(texts: &[&str]) -> Option<usize>
    ensures place { result ≡ position (λ text. is_end text.now) texts.now }
    ensures within { IfSome result (λ end. end < length texts.now) }
{
    texts.iter().position(|text| is_end(text))
}

/// The lines of an action, unless there are more than 1,000.
fn read_body(alloc: Global, number: u32, texts: &[&str]) -> Result<Option<Vec<Line>>, AllocError>
    requires { number + length texts.now < 2 ^ 32 }
    ensures { IfOk result (λ lines. option_map (λ all. map line_view all.items) lines
        ≡ spec.body_of number (map (λ text. text.now) texts.now)) }
{
    let mut lines = Vec::new(alloc);
    let mut next = number;
    for text in texts {
        let line = read_inside(alloc, next, text)?;
        push_some(&mut lines, line)?;
        if lines.len() > ACTION_LIMIT {
            return Ok(None);
        }
        next += 1;
    }
    Ok(Some(lines))
}

/// The line of this number, unless it is skipped.
#[tactic(auto, unfolding(crate::specs::Scripts::inside_line))]
fn read_inside(alloc: Global, number: u32, text: &str) -> Result<Option<Line>, AllocError>
    ensures { IfOk result (λ line. option_map line_view line ≡ spec.inside_line number text.now) }
{
    if is_skipped(text) {
        return Ok(None);
    }
    let command = read_line(alloc, text, Standing::InAction)?;
    Ok(Some(Line { number, command }))
}
