//! The loop over a text: what stands ahead is taken whole, and for every other character the reader makes a step.
//! What is read so is what the machine of `fx_doc_grammar` reads.
ghost use Rattle.std.specs.Prelude.{◌≡◌, ◌∷◌, ◌<◌, ◌≤◌, [], length, IfSome, IfNone};
ghost use Rattle.std.specs.Str.{chars, IsUtf8};
ghost use Rattle.fx_doc.specs.Reads.{IsRead};

use crate::reader::{into_document, read_character};
use fx_base::Position;
use fx_doc_runs::{DocError, Document, Reader, Rest};
use std::alloc::Global;

/// The first character, and the text behind it.
fn first_character(text: &str) -> Option<(char, &str)>
    ensures some { IfSome result (λ x. (chars text.now ≡ x.0 ∷ chars x.1.now) × (length x.1.now < length text.now)) }
    ensures utf8 { IfSome result (λ x. IsUtf8 x.1.now) }
    ensures none { IfNone result (text.now ≡ []) }
{
    let mut characters = text.chars();
    let c = characters.next()?;
    Some((c, characters.as_str()))
}

/// The document of a text, or why it is none.
pub fn read_text(alloc: Global, text: &str) -> Result<Document, DocError>
    requires { length text.now ≤ 4194304 }
    ensures { IsRead (chars text.now) result }
{
    let mut reader = Reader::new(alloc);
    let mut at = Rest {
        position: Position::START,
        text,
    };
    while let Some((c, behind)) = first_character(at.text) {
        let left = reader.take_ahead(alloc, at)?;
        if left.text.len() < at.text.len() {
            at = left;
            continue;
        }
        read_character(alloc, &mut reader, at.position, c)?;
        at = Rest {
            position: at.position.after(c),
            text: behind,
        };
    }
    match into_document(reader) {
        Some(document) => Ok(document),
        None => Err(DocError::Markup(at.position)),
    }
}
