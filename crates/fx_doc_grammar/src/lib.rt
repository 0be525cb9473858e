//! The grammar of documents: what an FXML document is as it is written, and a machine that reads one.
//! The definitions stand here with their lemmas, and the small types that they share with the reader.
#![tactic(auto)]

mod classes;
mod entities;
mod laws;

pub use laws::{
    answers_are_one, bytes_are_judged_by_the_grammar, documents_are_one,
    texts_are_judged_by_the_grammar,
};

/// What a character means to the grammar (Introduction to FXML, over XML 1.0).
#[derive(Clone, Copy, Debug, PartialEq, Eq)]
pub enum Class {
    /// Space, tab, CR and LF.
    White,
    Less,
    Greater,
    Slash,
    Equals,
    Bang,
    Question,
    Dash,
    Quotation,
    Apostrophe,
    Ampersand,
    /// An ASCII letter or `_`, with which a name begins.
    Letter,
    /// A digit, `.` or `:`, with which a name goes on.
    Digit,
    Other,
}

/// The quote round the value of an attribute.
#[derive(Clone, Copy, Debug, PartialEq, Eq)]
pub enum Quote {
    Single,
    Double,
}

/// How far a reference has been read: the letters behind its `&`, or the number that its digits give so far.
#[derive(Clone, Copy, Debug, PartialEq, Eq)]
pub enum Entity {
    Begun,
    A,
    Am,
    Amp,
    Ap,
    Apo,
    Apos,
    G,
    Gt,
    L,
    Lt,
    Q,
    Qu,
    Quo,
    Quot,
    Hash,
    Decimal(u32),
    Hex,
    HexDigits(u32),
}

/// What one more character makes of a reference: more of it, or the character that it stands for.
#[derive(Clone, Copy, Debug, PartialEq, Eq)]
pub enum Turn {
    Further(Entity),
    Whole(char),
}
