//! The lines of a script, each by its number.
//! Loading hands the bytes of a file in; what it gets is carried out line by line.
ghost use Rattle.std.specs.Prelude.{◌≡◌, ◌≤◌, ◌<◌, ◌+◌, ◌^◌, ◌∷◌, ◌++◌, IfErr, IfOk, List, false, length, map};
ghost use Rattle.std.specs.Str.{IsUtf8};
ghost use Rattle.std.specs.Str.Lines.{lines};
ghost use Rattle.fx_script_commands.specs.Requests.{Numbered, line_view};
ghost use Rattle.fx_script_commands.specs.Scripts as spec;
ghost use Rattle.fx_script_commands.specs.Scripts.{HasFault, IsGiven, IsNoText, IsScript, IsTooLong};

use crate::commands::Line;
use crate::errors::ScriptError;
use crate::lines::push_line;
use crate::skipping::{is_end, is_skipped};
use std::alloc::{AllocError, Global};

/// The most lines of a script.
const LINE_LIMIT: usize = 100_000;

/// The lines of a script that are neither blank nor comments, each with its number from 1, or why the bytes are no
/// script: not UTF-8, or of more than 100,000 lines. A line that is of no form, or may not stand where it does, is kept
/// as `Bad`; so is an action without `end` or of more than 1,000 lines, with all that stands in it.
pub fn read_script(alloc: Global, bytes: &[u8]) -> Result<Vec<Line>, ScriptError>
    ensures read { IfOk result (λ found. IsScript bytes.now (map line_view found.items)) }
    ensures fault { IfErr result (HasFault bytes.now) }

    // The other way round: bytes are a script in one way, and nothing but memory refuses one.
    ensures exact { (read : List Numbered) → IsScript bytes.now read → IsGiven read result }
    ensures no_text { (IsUtf8 bytes.now → ⊥) → IsNoText result }
    ensures too_long { IsUtf8 bytes.now → 100000 < length (lines bytes.now) → IsTooLong result }
{
    let text = match str::from_utf8(bytes) {
        Ok(text) => text,
        Err(error) => return Err(ScriptError::NotUtf8(error.valid_up_to())),
    };
    let texts = lines_of(alloc, text)?;
    if texts.len() > LINE_LIMIT {
        return Err(ScriptError::TooManyLines);
    }
    Ok(read_lines(alloc, texts.as_slice())?)
}

fn lines_of<'a>(alloc: Global, text: &'a str) -> Result<Vec<&'a str>, AllocError>
    ensures { IfOk result (λ all. map (λ line. line.now) all.items ≡ lines text.now) }
{
    text.lines().collect(alloc)
}

fn read_lines(alloc: Global, texts: &[&str]) -> Result<Vec<Line>, AllocError>
    requires { length texts.now ≤ 100000 }
    ensures { IfOk result (λ found. map line_view found.items
        ≡ spec.lines_from false 1 (map (λ text. text.now) texts.now)) }
{
    let mut lines = Vec::new(alloc);
    let mut inside = false;
    let mut number = 1;
    for (index, text) in texts.iter().enumerate() {
        let behind = texts.split_at(index + 1).1;
        let next = take_line(alloc, inside, number, text, behind, &mut lines)?;
        inside = next;
        number += 1;
    }
    Ok(lines)
}

/// Puts the line of this number behind the others, from its text and what stands behind it, unless it stands within an
/// action or is skipped; tells whether the next stands within one.
fn take_line(
    alloc: Global,
    inside: bool,
    number: u32,
    text: &str,
    behind: &[&str],
    lines: &mut Vec<Line>,
) -> Result<bool, AllocError>
    requires { number + 1 + length behind.now < 2 ^ 32 }
    ensures { IfOk result (λ next. map line_view lines.new.items
        ++ spec.lines_from next (number + 1) (map (λ line. line.now) behind.now)
        ≡ map line_view lines.old.items
        ++ spec.lines_from inside number (text.now ∷ map (λ line. line.now) behind.now)) }
{
    if inside {
        return Ok(!is_end(text));
    }
    if is_skipped(text) {
        return Ok(false);
    }
    let opened = push_line(alloc, number, text, behind, lines)?;
    Ok(opened)
}
