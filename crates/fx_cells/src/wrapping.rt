//! The lines of a text that wraps at a number of cells.
//! It stands on the columns, below the layout of controls.
ghost use Rattle.std.specs.Prelude.{◌≡◌, ℕ, ◌+◌, ◌<◌, ◌≤◌, ◌&&◌, nat_lt, if◌then◌else◌, IfNone, All, IfOk, IfSome, List, Some, chars, drop, length};
ghost use Rattle.std.specs.Char.{len_utf8};
ghost use Rattle.std.specs.Option.{ForSome};
ghost use Rattle.fx_text.specs.Classes.{is_space};
ghost use Rattle.fx_cells.specs.Wrapping.{CutsFirstLine, IsLine, IsWrapping, leading_spaces};

use crate::columns::width_of;
use std::alloc::{AllocError, Global};

/// The lines of a text that wraps at `columns` cells, as ranges of bytes. A line ends at the last space
/// where what stands before it fits, else inside a word, and has one character at least. The spaces at
/// which a line was broken belong to no line. A line feed is a character of no cell like any other.
pub fn lines(alloc: Global, text: &str, columns: u64) -> Result<Vec<(usize, usize)>, AllocError>
    requires { 1 ≤ columns }
    ensures wrapping { IfOk result (λ ranges. IsWrapping columns (chars text.now) ranges.items) }
    ensures standing { IfOk result (λ ranges. All (IsLine columns text.now) ranges.items) }
{
    let mut ranges = Vec::new(alloc);
    let mut start = 0;
    let mut rest = text;
    loop {
        let cut = first_line(rest, columns);
        ranges.push((start, start + cut.end))?;
        if cut.next == rest.len() {
            return Ok(ranges);
        }
        start += cut.next;
        rest = &rest[cut.next..];
    }
}

/// A text is wrapped in one way.
pub fn one_wrapping()
    ensures { (n : ℕ) (text : List ℕ) (a b : List (ℕ × ℕ)) → IsWrapping n text a → IsWrapping n text b → a ≡ b }
{}

/// Where the first line of a text ends, and where what remains behind the line and its spaces begins, in bytes.
#[derive(Clone, Copy)]
struct Cut {
    end: usize,
    next: usize,
}

fn first_line(text: &str, columns: u64) -> Cut
    ensures { (m : ℕ) × (k : ℕ) × CutsFirstLine columns (chars text.now) result m k }
{
    let mut room = columns;
    let mut at = 0;
    let mut space = None;
    for c in text.chars() {
        space = last_space(c, at, space);
        let width = width_of(c);
        if room < width {
            return cut_before(text, c, at, space);
        }
        room -= width;
        at += c.len_utf8();
    }
    Cut { end: at, next: at }
}

/// The last place so far where a space follows other characters, where `c` stands at `at`.
fn last_space(c: char, at: usize, before: Option<usize>) -> Option<usize>
    ensures { result ≡ (if is_space c && nat_lt 0 at then Some at else before) }
{
    if c == ' ' && at > 0 { Some(at) } else { before }
}

/// The cut of a text in which `c` at `at` is the first character that does not fit.
fn cut_before(text: &str, c: char, at: usize, space: Option<usize>) -> Cut
    requires { ForSome space (λ end. end ≤ length text.now) }
    ensures at_space { IfSome space (λ end.
        result ≡ record { end = end; next = end + leading_spaces (drop end text.now) }) }
    ensures inside_word { IfNone space (0 < at → result ≡ record { end = at; next = at }) }
    ensures too_wide { IfNone space (at ≡ 0 → result ≡ record { end = len_utf8 c; next = len_utf8 c }) }
{
    match space {
        Some(end) => {
            let spaces = leading_spaces(&text.as_bytes()[end..]);
            Cut {
                end,
                next: end + spaces,
            }
        }
        None => {
            let end = if at > 0 { at } else { c.len_utf8() };
            Cut { end, next: end }
        }
    }
}

fn leading_spaces(bytes: &[u8]) -> usize
    ensures value { result ≡ leading_spaces bytes.now }
    ensures bound { result ≤ length bytes.now }
{
    bytes.iter().take_while(|b| **b == b' ').count()
}
