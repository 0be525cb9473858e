//! What content that is read is of.
use fx_base::Kind;
use fx_kinds::Class;

/// What some content is of.
#[derive(Clone, Copy, Debug, PartialEq, Eq)]
pub enum Part {
    /// An instance of the class.
    Fields(Class),
    /// A property element that holds one value of the kind.
    One(Kind),
    /// A definition within a value.
    Defined,
    /// An element that may have none.
    Closed,
}
