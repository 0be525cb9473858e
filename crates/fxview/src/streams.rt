//! Showing a stream: its lines one by one, and what a viewer gives for each to the sink.
//! It stands between the held bytes and the viewer; what is wrong is told above.
ghost use Rattle.std.specs.Prelude.{◌≡◌, ◌≤◌, ◌<◌, ◌∷◌, [], IfOk, IfSome, MatchOption, length};
ghost use Rattle.std.specs.List.{position, slice_split};
ghost use Rattle.fx_delta.specs.Stream.{after_line, is_line_feed, shown};
ghost use Rattle.fx_port.specs.Causes.{HasCause};
ghost use Rattle.fx_port.specs.Pieces.{Writes};
ghost use Rattle.fx_port.specs.declared.pieces.PutError.TheVariants.{Failed};
ghost use Rattle.fxview.specs.Showing.{GaveLine};

use fx_delta::{StreamError, Viewer};
use fx_port::{PutError, Sink};
use std::alloc::Global;

/// Writes what is shown of the stream, and answers the number of its first bad line, counted from 1.
pub fn put_shown<O: Sink>(
    alloc: Global,
    stream: &[u8],
    out: &mut O,
) -> Result<Option<u64>, PutError>
    requires { length stream.now ≤ 268435456 }
    ensures cause { HasCause Failed (O.faults out.old) (O.faults out.new) result }
    ensures writes { Writes (O.written out.old) (O.written out.new) result (shown stream.now).bytes }
    ensures bad { IfOk result (λ line. line ≡ (shown stream.now).bad) }
{
    let mut viewer = Viewer::new(alloc);
    let mut text = Vec::new(alloc);
    let mut rest = stream;
    let mut number = 1;
    while let Some((line, behind)) = split_line(rest) {
        let good = put_line(alloc, &mut viewer, line, &mut text, out)?;
        if !good {
            return Ok(Some(number));
        }
        rest = behind;
        number += 1;
    }
    if rest.is_empty() && viewer.is_between() {
        Ok(None)
    } else {
        Ok(Some(number))
    }
}

/// The first line without its line feed, and what stands behind that.
fn split_line(text: &[u8]) -> Option<(&[u8], &[u8])>
    ensures { MatchOption result (slice_split is_line_feed text.now ≡ text.now ∷ [])
        (λ parts. (slice_split is_line_feed text.now ≡ parts.0.now ∷ slice_split is_line_feed parts.1.now)
        × (length parts.1.now < length text.now)) }
{
    let end = line_end(text)?;
    Some((&text[..end], &text[end + 1..]))
}

fn line_end(text: &[u8]) -> Option<usize>
    ensures place { result ≡ position is_line_feed text.now }
    ensures within { IfSome result (λ end. end < length text.now) }
{
    text.iter().position(|byte| *byte == b'\n')
}

/// Takes a line, and writes what is given for it; answers whether the line is good.
fn put_line<O: Sink>(
    alloc: Global,
    viewer: &mut Viewer,
    line: &[u8],
    text: &mut Vec<u8>,
    out: &mut O,
) -> Result<bool, PutError>
    ensures cause { HasCause Failed (O.faults out.old) (O.faults out.new) result }
    ensures gave { GaveLine (O.written out.old) (O.written out.new) viewer.new (after_line viewer.old line.now) result }
{
    text.clear();
    match viewer.take(alloc, line, text) {
        Ok(()) => {
            put_some(text.as_slice(), out)?;
            Ok(true)
        }
        Err(StreamError::Bad) => Ok(false),
        Err(StreamError::Memory) => Err(PutError::Memory),
    }
}

/// Writes the piece, unless it is empty.
fn put_some<O: Sink>(piece: &[u8], out: &mut O) -> Result<(), PutError>
    ensures cause { HasCause Failed (O.faults out.old) (O.faults out.new) result }
    ensures writes { Writes (O.written out.old) (O.written out.new) result piece.now }
{
    if piece.is_empty() {
        return Ok(());
    }
    out.put(piece)
}
