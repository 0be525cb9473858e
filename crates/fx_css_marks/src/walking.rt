//! Positions of marks, by their numbers: a walk along the text works out line and column, and nothing is kept of it.
//! Only what is told to the user has a place.
ghost use Rattle.std.specs.Prelude.{◌≡◌, ◌≤◌, ◌+◌, List, [], ◌∷◌, true, length, map, take, drop, IfOk, IfSome, IfNone};
ghost use Rattle.fx_text.specs.Characters.{asterisk, slash};
ghost use Rattle.fx_base.specs.Positions.{start};
ghost use Rattle.fx_css_marks.specs.declared.marks.Mark.{Mark};
ghost use Rattle.fx_css_marks.specs.Bytes.{begins_with};
ghost use Rattle.std.specs.List.{position_or_len};
ghost use Rattle.fx_css_marks.specs.Marks.{Marked, position_of, place_of};
ghost use Rattle.fx_css_marks.specs.Scanning.{Plain, Quoted, scanned};
ghost use Rattle.fx_css_marks.specs.Walks.{left, stops, still_open, opened};

use crate::finding::{bare_length, comment_rest, length_before};
use crate::marks::{Mark, begins_comment};
use crate::walk::Walk;
use fx_base::{Place, Position};
use fx_text::is_quote;
use std::alloc::{AllocError, Global};

impl<'a> Walk<'a> {
    /// From the beginning of a text.
    fn along(text: &'a [u8]) -> Walk<'a>
        requires { length text.now ≤ 4194304 }
        ensures { left result ≡ scanned Plain start text.now }
    {
        Walk {
            rest: text,
            position: Position::START,
            quote: None,
        }
    }

    /// The next mark, and the walk behind it.
    fn next(self) -> Option<(Mark, Walk<'a>)>
        ensures some { IfSome result (λ x. left self.entry ≡ x.0 ∷ left x.1) }
        ensures none { IfNone result (left self.entry ≡ []) }
    {
        let (first, behind) = self.rest.split_first()?;
        Some(match self.quote {
            Some(quote) => next_quoted(quote, self.position, *first, behind),
            None => next_bare(self.position, *first, behind),
        })
    }

    /// The walk behind the bytes in front that begin and end nothing, or behind so many of them, and their number.
    fn pass_run(self, most: usize) -> (Walk<'a>, usize)
        ensures passed { left result.0 ≡ drop result.1 (left self.entry) }
        ensures within { result.1 ≤ most }
    {
        let count = calm_length(self.quote, front(self.rest, most));
        let (run, rest) = self.rest.split_at(count);
        let walk = Walk {
            rest,
            position: self.position.after_bytes(run),
            quote: self.quote,
        };
        (walk, count)
    }

    /// The walk behind so many marks.
    fn pass(self, count: usize) -> Walk<'a>
        ensures { left result ≡ drop count (left self.entry) }
    {
        let (mut walk, mut passed) = self.pass_run(count);
        while passed < count {
            let Some((_, behind)) = walk.next() else {
                return walk;
            };
            let (behind, more) = behind.pass_run(count - passed - 1);
            walk = behind;
            passed = passed + 1 + more;
        }
        walk
    }

    /// The walk to the mark with this number: on from here, behind so many marks, or if it is behind, from the start.
    fn to(self, start: Walk<'a>, passed: usize, number: usize) -> Walk<'a>
        requires { left self ≡ drop passed (left start) }
        ensures { left result ≡ drop number (left start.entry) }
    {
        if number < passed {
            start.pass(number)
        } else {
            self.pass(number - passed)
        }
    }

    /// The position of the next mark, or else the first of the text.
    fn here(self) -> Position
        ensures { result ≡ position_of (left self.entry) 0 }
    {
        match self.next() {
            Some((mark, _)) => mark.position,
            None => Position::START,
        }
    }
}

/// So many bytes in front of a text, or all of it.
fn front(text: &[u8], most: usize) -> &[u8]
    ensures { result.now ≡ take most text.now }
{
    &text[..most.min(text.len())]
}

/// The bytes in front of a text that end no quoted text of this quote, or outside quoted texts that begin nothing.
fn calm_length(quote: Option<u8>, text: &[u8]) -> usize
    ensures { result ≡ position_or_len (stops quote) text.now }
{
    match quote {
        Some(quote) => length_before(quote, text),
        None => bare_length(text),
    }
}

/// The mark of this byte in a quoted text that ends at the quote, and the walk behind it.
fn next_quoted<'a>(quote: u8, position: Position, first: u8, behind: &'a [u8]) -> (Mark, Walk<'a>)
    requires line { position.line + length behind.now ≤ 4194304 }
    requires column { position.column + length behind.now ≤ 4194304 }
    ensures { scanned (Quoted quote) position (first ∷ behind.now) ≡ result.0 ∷ left result.1 }
{
    let mark = Mark {
        byte: first,
        position,
        plain: false,
    };
    let walk = Walk {
        rest: behind,
        position: position.after_byte(first),
        quote: still_open(quote, first),
    };
    (mark, walk)
}

/// The quote that still ends the text behind this byte of a quoted text.
fn still_open(quote: u8, byte: u8) -> Option<u8>
    ensures { result ≡ still_open quote byte }
{
    if byte == quote { None } else { Some(quote) }
}

/// The quote that ends the text behind this byte, which stands outside quoted texts.
fn opened(byte: u8) -> Option<u8>
    ensures { result ≡ opened byte }
{
    if is_quote(byte) { Some(byte) } else { None }
}

/// The mark of what begins with this byte, and the walk behind it.
fn next_bare<'a>(position: Position, first: u8, behind: &'a [u8]) -> (Mark, Walk<'a>)
    requires line { position.line + length behind.now ≤ 4194304 }
    requires column { position.column + length behind.now ≤ 4194304 }
    ensures { scanned Plain position (first ∷ behind.now) ≡ result.0 ∷ left result.1 }
{
    if begins_comment(first, behind) {
        return next_comment(position, behind);
    }
    let mark = Mark {
        byte: first,
        position,
        plain: !is_quote(first),
    };
    let walk = Walk {
        rest: behind,
        position: position.after_byte(first),
        quote: opened(first),
    };
    (mark, walk)
}

/// The mark of a comment, which the text goes on with behind its `/`, and the walk behind it.
fn next_comment<'a>(position: Position, text: &'a [u8]) -> (Mark, Walk<'a>)
    requires line { position.line + length text.now ≤ 4194304 }
    requires column { position.column + length text.now ≤ 4194304 }
    requires begins { begins_with asterisk text.now ≡ true }
    ensures { scanned Plain position (slash ∷ text.now) ≡ result.0 ∷ left result.1 }
{
    let (comment, rest) = text.split_at(comment_rest(text));
    let mark = Mark {
        byte: b' ',
        position,
        plain: true,
    };
    let walk = Walk {
        rest,
        position: position.after_byte(b'/').after_bytes(comment),
        quote: None,
    };
    (mark, walk)
}

/// The position of the mark with this number, or else the first of the text.
pub fn position(text: &[u8], number: usize) -> Position
    requires { length text.now ≤ 4194304 }
    ensures { (ms : List Mark) → Marked start text.now ms → result ≡ position_of ms number }
{
    Walk::along(text).pass(number).here()
}

/// The places in a file of the marks with these numbers. Numbers that rise cost one walk.
pub fn places(
    alloc: Global,
    text: &[u8],
    file: u32,
    numbers: &[usize],
) -> Result<Vec<Place>, AllocError>
    requires { length text.now ≤ 4194304 }
    ensures { IfOk result (λ ps. (ms : List Mark) → Marked start text.now ms
        → ps.items ≡ map (place_of file ms) numbers.now) }
{
    let mut places = Vec::with_capacity(alloc, numbers.len())?;
    let start = Walk::along(text);
    let mut walk = start;
    let mut passed = 0;
    for number in numbers {
        walk = walk.to(start, passed, *number);
        passed = *number;
        places.push(Place {
            file,
            position: walk.here(),
        })?;
    }
    Ok(places)
}
