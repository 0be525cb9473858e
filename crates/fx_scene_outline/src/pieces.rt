//! Pieces of a document. A piece is known by its place in their list, from 0.
use fx_base::Position;
use fx_doc::Element;
use fx_kinds::Class;
use fx_scene_flaws::Flaw;

/// Where an instance stands.
#[derive(Clone, Copy, PartialEq, Eq, Debug)]
pub enum Seat {
    /// It is the root of the scene.
    Root,
    /// It is a child of this piece, behind the children before it.
    Child(usize),
    /// It stands on an edge of this piece. Edges are counted from 0 in the order top, right, bottom, left, centre.
    Edge(usize, u8),
    /// It stands beside the scene, in a definition.
    Aside,
    /// Nothing may stand there.
    Nowhere,
}

/// What stands in a document.
#[derive(Clone, Copy)]
pub enum Piece<'a> {
    /// An instance. Its content follows, if a class has its name.
    Instance(Seat, &'a Element),
    /// An instance of before, by its name. What stands in the element follows, and may not stand there.
    Reference(Seat, &'a Element),
    /// The root of another document. What stands in the element follows, and may not stand there.
    Include(Seat, &'a Element),
    /// An instance in a definition that is no node, with its content.
    Value(&'a Element),
    /// A property element of the piece at this place, which is an instance of this class.
    Property(usize, Class, &'a Element),
    /// Something is wrong.
    Flaw(Flaw, Position),
}

/// What instances that stand in a list are seated by.
#[derive(Clone, Copy, PartialEq, Eq, Debug)]
pub enum Slot {
    /// Children of this piece.
    Children(usize),
    /// An edge of this piece, which one instance takes.
    Edge(usize, u8),
    /// Definitions.
    Aside,
    Nowhere,
}

/// What content is of.
#[derive(Clone, Copy, PartialEq, Eq, Debug)]
pub enum Room {
    /// The content of the instance at this place, which is of this class.
    Inside(Class, usize),
    /// The content of a property element that holds instances.
    Listed(Slot),
    /// The content of an element that may have none.
    Closed,
}
