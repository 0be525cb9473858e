//! The top call: a stream's name, a shelf and a sink in, a status out.
//! It fetches the stream whole, hands it on to be shown, and tells what is wrong with it.
ghost use Rattle.std.specs.Prelude.{◌≡◌, ◌⊎◌, ◌≤◌, ◌∷◌, [], IfOk, IsSome, None, length, map};
ghost use Rattle.std.specs.Option.{option_map};
ghost use Rattle.std.specs.String.{string_bytes};
ghost use Rattle.fx_delta.specs.Stream.{shown};
ghost use Rattle.fx_port.specs.Causes.{HasCause, Rose};
ghost use Rattle.fx_port.specs.Files.{Files};
ghost use Rattle.fx_port.specs.Pieces.{GrewByPrefix, Writes};
ghost use Rattle.fx_port.specs.declared.pieces.PutError.TheVariants.{Failed};
ghost use Rattle.fxview.specs.Ends.{ended_as};
ghost use Rattle.fxview.specs.Viewing.{Answers, IsAnswer, IsOver, accept, fault_line, output, output_of_shown, usage_line};
ghost use Rattle.fxview.specs.declared.answers.ViewStatus.TheVariants as status;

use crate::answers::ViewStatus;
use crate::streams::put_shown;
use fx_port::{FetchError, Fetched, PutError, Shelf, Sink};
use std::alloc::{AllocError, Global};

/// The most bytes of a stream.
const MOST: usize = 268_435_456;

/// Shows the stream that the word names: reads it from the shelf, and writes text frames to the sink.
pub fn show<F: Shelf, O: Sink>(
    alloc: Global,
    words: &[String],
    shelf: &mut F,
    out: &mut O,
) -> ViewStatus
    // Done, Usage and Refused: all that is to be written, and the status.
    ensures answers { (files : Files) → IsOver (F.held shelf.old) (accept (map string_bytes words.now)) files →
        IsAnswer result →
        Answers (O.written out.old) (O.written out.new) result (output (map string_bytes words.now) files) }

    // Whatever the answer, no more than a part of it.
    ensures prefix { (files : Files) → IsOver (F.held shelf.old) (accept (map string_bytes words.now)) files →
        GrewByPrefix (O.written out.old) (O.written out.new) (output (map string_bytes words.now) files).bytes }

    // Where nothing failed, that status, or want of memory.
    ensures complete { (files : Files) → IsOver (F.held shelf.old) (accept (map string_bytes words.now)) files →
        ¬ (Rose (F.faults shelf.old) (F.faults shelf.new)) → ¬ (Rose (O.faults out.old) (O.faults out.new)) →
        (result ≡ (output (map string_bytes words.now) files).status) ⊎ (result ≡ status.NoMemory) }

    // Over any shelf and any sink, each answer's cause.
    ensures read { result ≡ status.ReadFault →
        (Rose (F.faults shelf.old) (F.faults shelf.new)) × (IsSome (accept (map string_bytes words.now)) ×
        (O.written out.new ≡ O.written out.old)) }
    ensures write { result ≡ status.WriteFault → Rose (O.faults out.old) (O.faults out.new) }
    ensures usage { result ≡ status.Usage → accept (map string_bytes words.now) ≡ None }
    ensures asked { (result ≡ status.Done) ⊎ (result ≡ status.Refused) → IsSome (accept (map string_bytes words.now)) }
    ensures held { F.held shelf.new ≡ F.held shelf.old }
{
    let Some(name) = stream_name(words) else {
        return ended(put_usage(out));
    };
    match shelf.fetch(alloc, name, MOST) {
        Ok(Fetched::Whole(stream)) => ended(put_stream(alloc, name, stream.as_slice(), out)),
        Ok(Fetched::Absent) => ended(put_fault(alloc, "missing", name, 0, out)),
        Ok(Fetched::Longer) => ended(put_fault(alloc, "toolarge", name, 0, out)),
        Err(FetchError::Failed) => ViewStatus::ReadFault,
        Err(FetchError::Memory) => ViewStatus::NoMemory,
    }
}

/// The name of the stream, if the words name one.
fn stream_name(words: &[String]) -> Option<&str>
    ensures { option_map (λ name. name.now) result ≡ accept (map string_bytes words.now) }
{
    match words {
        [name] => unless_option(name.as_str()),
        _ => None,
    }
}

fn unless_option(name: &str) -> Option<&str>
    ensures { option_map (λ found. found.now) result ≡ accept (name.now ∷ []) }
{
    if name.as_bytes().starts_with(b"-") {
        None
    } else {
        Some(name)
    }
}

/// How a run ends that wrote so: as it should, or as the writing failed.
fn ended(written: Result<ViewStatus, PutError>) -> ViewStatus
    ensures { result ≡ ended_as written }
{
    match written {
        Ok(status) => status,
        Err(PutError::Failed) => ViewStatus::WriteFault,
        Err(PutError::Memory) => ViewStatus::NoMemory,
    }
}

#[tactic(auto, unfolding(crate::specs::Viewing::usage_line))]
fn put_usage<O: Sink>(out: &mut O) -> Result<ViewStatus, PutError>
    ensures cause { HasCause Failed (O.faults out.old) (O.faults out.new) result }
    ensures writes { Writes (O.written out.old) (O.written out.new) result usage_line }
    ensures ends { IfOk result (λ end. end ≡ status.Usage) }
{
    out.put(b"usage: fxview STREAM\n")?;
    Ok(ViewStatus::Usage)
}

fn put_fault<O: Sink>(
    alloc: Global,
    kind: &str,
    name: &str,
    line: u64,
    out: &mut O,
) -> Result<ViewStatus, PutError>
    ensures cause { HasCause Failed (O.faults out.old) (O.faults out.new) result }
    ensures writes { Writes (O.written out.old) (O.written out.new) result (fault_line kind.now name.now line) }
    ensures ends { IfOk result (λ end. end ≡ status.Refused) }
{
    let text = fault_text(alloc, kind, name, line)?;
    out.put(text.as_slice())?;
    Ok(ViewStatus::Refused)
}

#[tactic(auto, unfolding(crate::specs::Viewing::fault_line))]
fn fault_text(alloc: Global, kind: &str, name: &str, line: u64) -> Result<Vec<u8>, AllocError>
    ensures { IfOk result (λ text. text.items ≡ fault_line kind.now name.now line) }
{
    Ok(format!(in alloc; "fault {kind} {name} {line} 0\n")?.into_bytes())
}

/// Writes what is shown of the stream, and its first bad line, if there is one.
fn put_stream<O: Sink>(
    alloc: Global,
    name: &str,
    stream: &[u8],
    out: &mut O,
) -> Result<ViewStatus, PutError>
    requires { length stream.now ≤ 268435456 }
    ensures cause { HasCause Failed (O.faults out.old) (O.faults out.new) result }
    ensures writes { Writes (O.written out.old) (O.written out.new) result
        (output_of_shown name.now (shown stream.now).bytes (shown stream.now).bad).bytes }
    ensures ends { IfOk result (λ end.
        end ≡ (output_of_shown name.now (shown stream.now).bytes (shown stream.now).bad).status) }
{
    let bad = put_shown(alloc, stream, out)?;
    match bad {
        Some(line) => put_fault(alloc, "stream", name, line, out),
        None => Ok(ViewStatus::Done),
    }
}
