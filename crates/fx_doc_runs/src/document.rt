//! A document as it is read, and why bytes are none.
//! The reader makes these; the loader walks them.
use fx_base::{List, Position, Text};
use std::alloc::AllocError;
use thiserror::Error;

/// A document: what its import instructions name, and its root element.
#[derive(Drop)]
pub struct Document {
    /// The trimmed texts of the `import` instructions before the root.
    pub imports: List<Text>,
    pub root: Element,
}

/// An element, at the position of its `<`.
#[cycle(tree)]
#[derive(Drop)]
pub struct Element {
    pub name: Text,
    pub attributes: List<Attribute>,
    pub content: Vec<Content>,
    pub position: Position,
}

/// An attribute, at the position of its name's first character.
#[derive(Drop)]
pub struct Attribute {
    pub name: Text,
    pub value: Text,
    pub position: Position,
}

/// What stands between the tags of an element.
#[cycle(tree)]
#[derive(Drop)]
pub enum Content {
    Child(Element),
    /// A run of characters, not blank, at the position of its first character that isn't white.
    Chars(Text, Position),
}

/// Why bytes are no document that can be read.
#[derive(Debug, Drop, Error, PartialEq)]
pub enum DocError {
    /// The bytes aren't UTF-8; so many bytes before the first bad one are.
    #[error("not UTF-8 behind {0} bytes")]
    NotUtf8(usize),
    /// No document goes on as the bytes do: the end of the longest prefix that some document begins with.
    #[error("no document at {}:{}", .0.line, .0.column)]
    Markup(Position),
    /// The `<` of an element within 128 others.
    #[error("elements too deep at {}:{}", .0.line, .0.column)]
    Depth(Position),
    /// The first character past 4,096 of a name, a value or a run of characters.
    #[error("a text is too long at {}:{}", .0.line, .0.column)]
    Long(Position),
    #[error("out of memory")]
    Memory,
}

impl From<AllocError> for DocError {
    ghost use Rattle.std.specs.Prelude.{◌≡◌};
    ghost use Rattle.fx_doc_runs.specs.declared.document.DocError.TheVariants.{Memory};

    ghost from_gives = { λ _ e. e ≡ Memory };

    fn from(_e: AllocError) -> DocError {
        DocError::Memory
    }
}
