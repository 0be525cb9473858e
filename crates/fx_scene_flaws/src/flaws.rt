//! What may be wrong at a place of a document.
use fx_base::Position;

/// What is wrong with an element, an attribute or a text. Where several apply at one place, the first in this order is
/// told.
#[derive(Clone, Copy, Debug, PartialEq, Eq)]
pub enum Flaw {
    /// No class has the element's name.
    Class,
    /// The class of a simple name isn't imported.
    Import,
    /// There is no such attribute, property element or constraint.
    Property,
    /// A text isn't of its kind or range, or something that is needed isn't there.
    Value,
    /// Another element of the document has the name.
    Duplicate,
    /// Nothing has the name that is used.
    Name,
    /// The file that is included is being read already.
    IncludeCycle,
    /// A text between `${` and `}` is no expression.
    Expression,
    /// Kinds differ.
    Kinds,
    /// The binding would read itself.
    Cycle,
    /// An element or a text may not stand there.
    Child,
    /// The property is only published.
    ReadOnly,
    /// A limit would be passed.
    Limit,
}

/// What is wrong, and where.
#[derive(Clone, Copy, Debug, PartialEq, Eq)]
pub struct Fault {
    pub flaw: Flaw,
    pub place: Position,
}

/// Why a file is refused.
#[derive(Clone, Copy, PartialEq, Eq, Debug)]
pub enum FaultKind {
    /// The file is absent.
    Missing,
    /// The file has more than 4,194,304 bytes.
    TooLarge,
    /// The file isn't UTF-8.
    NotUtf8,
    /// No document goes on as the file does.
    Markup,
    /// Something in it is wrong.
    Flawed(Flaw),
}
