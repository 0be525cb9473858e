//! What the reader holds between two characters: the open elements, what it has read of the innermost, and its mode.
//! The modes are those of the machine in `fx_doc_grammar`.
ghost use Rattle.fx_doc_drafts.specs.Names.{HasNames};
ghost use Rattle.fx_doc_runs.specs.Attributes.{later_names};

use crate::document::{Attribute, Content};
use fx_base::{Position, Text};
use fx_doc_drafts::{Draft, Names, Word};
use fx_doc_grammar::{Entity, Quote};

/// What stands before a tag's end.
#[derive(Drop)]
pub struct Head {
    pub name: Text,
    pub attributes: Vec<Attribute>,
    pub position: Position,
    /// The names of the attributes behind the first eight.
    pub later: Names,
    ghost kept: { HasNames later (later_names attributes.items) },
}

/// What is read of one element's content so far.
#[derive(Drop)]
pub struct Level {
    pub content: Vec<Content>,
    pub run: Draft,
    /// The position of the first character of the run that isn't white.
    pub first: Option<Position>,
}

/// An open element, with what stands before it.
#[derive(Drop)]
pub struct Open {
    pub before: Level,
    pub head: Head,
}

/// What the reader holds in every mode.
#[derive(Drop)]
pub struct Held {
    pub imports: Vec<Text>,
    pub stack: Vec<Open>,
    pub level: Level,
}

/// The value that is being read: its attribute's name and position, its quote, and its characters.
#[derive(Drop)]
pub struct Valued {
    pub head: Head,
    pub position: Position,
    pub key: Word,
    pub quote: Quote,
    pub value: Draft,
}

/// What may come next.
#[derive(Drop)]
pub enum Mode {
    Inside,
    /// In a reference, whose `&` stands there.
    Referring(Position, Entity),
    /// Behind a `<`, which stands there.
    Opening(Position),
    Banged,
    BangDashed,
    Commented,
    Dashed,
    DashDashed,
    Asked,
    Instructing(Word),
    NameAsked(Word),
    Instructed(Word, String),
    EndAsked(Word, String),
    Naming(Position, Word),
    Spaced(Head),
    Tight(Head),
    Keyed(Head, Position, Word),
    KeySpaced(Head, Position, Word),
    Signed(Head, Position, Word),
    Quoted(Valued),
    ValueReferring(Valued, Position, Entity),
    Slashed(Head),
    /// In an end tag, behind so many characters of the name.
    Ending(usize),
    Ended,
}

/// The reader between two characters.
#[derive(Drop)]
pub struct Reader {
    pub held: Held,
    pub mode: Mode,
}
