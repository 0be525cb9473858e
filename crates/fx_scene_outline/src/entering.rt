//! What an element adds before its content, and which room its content is in.
ghost use Rattle.std.specs.Prelude.{◌≡◌, ◌++◌, OnOk, length, map};
ghost use Rattle.fx_doc.specs.Views.{attr_view};
ghost use Rattle.fx_scene_outline.specs.Entries as spec;
ghost use Rattle.fx_scene_outline.specs.Views.{Entered, content_of, head_of, piece_view, shown};

use crate::edges::{Earlier, edge_named};
use crate::nodes::{is_define, is_include, is_reference, is_scene_node};
use crate::pieces::{Piece, Room, Seat, Slot};
use fx_base::Position;
use fx_doc::{Attribute, Element};
use fx_kinds::{Class, takes_children};
use fx_scene_flaws::Flaw;
use fx_scene_names::{class_named, is_instance};
use std::alloc::AllocError;

/// Adds what an element in a room has before its content.
pub(crate) fn enter<'a>(
    element: &'a Element,
    room: Room,
    earlier: Earlier,
    pieces: &mut Vec<Piece<'a>>,
) -> Result<Option<Room>, AllocError>
    ensures { Entered (spec.entry (length pieces.old.items) room earlier (head_of element.now) (content_of element.now))
        pieces.old.items pieces.new.items result }
{
    match room {
        Room::Inside(class, owner) => enter_inside(element, class, owner, earlier, pieces),
        Room::Listed(slot) => enter_listed(element, seat_in(slot, earlier.first), pieces),
        Room::Closed => add_wrong(Flaw::Child, element.position, pieces),
    }
}

/// An element in the content of an instance of the class.
#[tactic(auto, unfolding(crate::specs::Entries::inside))]
fn enter_inside<'a>(
    element: &'a Element,
    class: Class,
    owner: usize,
    earlier: Earlier,
    pieces: &mut Vec<Piece<'a>>,
) -> Result<Option<Room>, AllocError>
    ensures { Entered
        (spec.inside (length pieces.old.items) class owner earlier (head_of element.now) (content_of element.now))
        pieces.old.items pieces.new.items result }
{
    if is_instance(element.name.as_str()) {
        return enter_instance(element, seat_in(child_slot(class, owner), true), pieces);
    }
    if is_insert(element.name.as_str()) {
        return enter_insert(element, seat_in(child_slot(class, owner), true), pieces);
    }
    if is_define(element.name.as_str()) {
        return enter_list(element, Slot::Aside, pieces);
    }
    match slot_named(class, owner, earlier, element.name.as_str()) {
        Some(slot) => enter_list(element, slot, pieces),
        None => add_property(element, class, owner, pieces),
    }
}

/// An element where instances are listed.
#[tactic(auto, unfolding(crate::specs::Entries::listed))]
pub(crate) fn enter_listed<'a>(
    element: &'a Element,
    seat: Seat,
    pieces: &mut Vec<Piece<'a>>,
) -> Result<Option<Room>, AllocError>
    ensures { Entered
        (spec.listed (length pieces.old.items) seat (head_of element.now) (content_of element.now))
        pieces.old.items pieces.new.items result }
{
    if is_instance(element.name.as_str()) {
        return enter_seated(element, seat, pieces);
    }
    if is_insert(element.name.as_str()) {
        return enter_insert(element, seat, pieces);
    }
    if is_define(element.name.as_str()) {
        return add_wrong(Flaw::Child, element.position, pieces);
    }
    add_wrong(Flaw::Property, element.position, pieces)
}

/// An instance where instances are listed; in a definition it may be a value.
fn enter_seated<'a>(
    element: &'a Element,
    seat: Seat,
    pieces: &mut Vec<Piece<'a>>,
) -> Result<Option<Room>, AllocError>
    ensures { Entered
        (spec.seated (length pieces.old.items) seat (head_of element.now) (content_of element.now))
        pieces.old.items pieces.new.items result }
{
    match seat {
        Seat::Aside => enter_aside(element, class_named(element.name.as_str()), pieces),
        _ => enter_instance(element, seat, pieces),
    }
}

/// An instance of a class that is no node is a value.
fn enter_aside<'a>(
    element: &'a Element,
    class: Option<Class>,
    pieces: &mut Vec<Piece<'a>>,
) -> Result<Option<Room>, AllocError>
    ensures { Entered
        (spec.aside_if (length pieces.old.items) (head_of element.now) (content_of element.now) class)
        pieces.old.items pieces.new.items result }
{
    match class {
        Some(class) => enter_defined(
            element,
            is_scene_node(class, element.attributes.as_slice()),
            pieces,
        ),
        None => enter_instance(element, Seat::Aside, pieces),
    }
}

fn enter_defined<'a>(
    element: &'a Element,
    is_node: bool,
    pieces: &mut Vec<Piece<'a>>,
) -> Result<Option<Room>, AllocError>
    ensures { Entered
        (spec.defined (length pieces.old.items) (head_of element.now) (content_of element.now) is_node)
        pieces.old.items pieces.new.items result }
{
    if is_node {
        return enter_instance(element, Seat::Aside, pieces);
    }
    pieces.push(Piece::Value(element))?;
    Ok(None)
}

/// An instance: its content is gone through where a class has its name.
fn enter_instance<'a>(
    element: &'a Element,
    seat: Seat,
    pieces: &mut Vec<Piece<'a>>,
) -> Result<Option<Room>, AllocError>
    ensures { Entered (spec.instance (length pieces.old.items) seat (head_of element.now))
        pieces.old.items pieces.new.items result }
{
    let count = pieces.len();
    pieces.push(Piece::Instance(seat, element))?;
    Ok(room_of(class_named(element.name.as_str()), count))
}

/// A reference and an include may have no content.
fn enter_insert<'a>(
    element: &'a Element,
    seat: Seat,
    pieces: &mut Vec<Piece<'a>>,
) -> Result<Option<Room>, AllocError>
    ensures { Entered (spec.insert seat (head_of element.now)) pieces.old.items pieces.new.items result }
{
    if is_reference(element.name.as_str()) {
        return enter_closed(Piece::Reference(seat, element), pieces);
    }
    enter_closed(Piece::Include(seat, element), pieces)
}

fn enter_closed<'a>(
    piece: Piece<'a>,
    pieces: &mut Vec<Piece<'a>>,
) -> Result<Option<Room>, AllocError>
    ensures { Entered (spec.closed (piece_view piece.entry)) pieces.old.items pieces.new.items result }
{
    pieces.push(piece)?;
    Ok(Some(Room::Closed))
}

fn room_of(class: Option<Class>, owner: usize) -> Option<Room>
    ensures { result ≡ spec.room_of owner class }
{
    match class {
        Some(class) => Some(Room::Inside(class, owner)),
        None => None,
    }
}

/// A property element that holds instances: it has no attributes.
fn enter_list<'a>(
    element: &'a Element,
    slot: Slot,
    pieces: &mut Vec<Piece<'a>>,
) -> Result<Option<Room>, AllocError>
    ensures { Entered (spec.list_in slot (head_of element.now)) pieces.old.items pieces.new.items result }
{
    add_attribute_flaw(element.attributes.as_slice(), pieces)?;
    Ok(Some(Room::Listed(slot)))
}

fn add_attribute_flaw(
    attributes: &[Attribute],
    pieces: &mut Vec<Piece<'_>>,
) -> Result<(), AllocError>
    ensures ok { OnOk result (shown pieces.new.items
        ≡ shown pieces.old.items ++ spec.attribute_flaws (map attr_view attributes.now)) }
{
    match attributes {
        [first, ..] => Ok(pieces.push(Piece::Flaw(Flaw::Property, first.position))?),
        [] => Ok(()),
    }
}

fn add_property<'a>(
    element: &'a Element,
    class: Class,
    owner: usize,
    pieces: &mut Vec<Piece<'a>>,
) -> Result<Option<Room>, AllocError>
    ensures { Entered (spec.property owner class (head_of element.now) (content_of element.now))
        pieces.old.items pieces.new.items result }
{
    pieces.push(Piece::Property(owner, class, element))?;
    Ok(None)
}

fn add_wrong(
    flaw: Flaw,
    place: Position,
    pieces: &mut Vec<Piece<'_>>,
) -> Result<Option<Room>, AllocError>
    ensures { Entered (spec.wrong flaw place) pieces.old.items pieces.new.items result }
{
    pieces.push(Piece::Flaw(flaw, place))?;
    Ok(None)
}

fn is_insert(name: &str) -> bool
    ensures { result ≡ spec.is_insert name.now }
{
    is_reference(name) || is_include(name)
}

/// The seat of an instance in a slot, as the first part of its content or not.
#[tactic(auto, unfolding(crate::specs::Entries::seat_in))]
fn seat_in(slot: Slot, first: bool) -> Seat
    ensures { result ≡ spec.seat_in slot first }
{
    match slot {
        Slot::Children(owner) => Seat::Child(owner),
        Slot::Edge(owner, edge) => edge_seat(owner, edge, first),
        Slot::Aside => Seat::Aside,
        Slot::Nowhere => Seat::Nowhere,
    }
}

fn edge_seat(owner: usize, edge: u8, first: bool) -> Seat
    ensures { result ≡ spec.edge_seat owner edge first }
{
    if first {
        Seat::Edge(owner, edge)
    } else {
        Seat::Nowhere
    }
}

/// What holds the instances right in an instance.
fn child_slot(class: Class, owner: usize) -> Slot
    ensures { result ≡ spec.child_slot class owner }
{
    if is_border(class) {
        return Slot::Nowhere;
    }
    if takes_children(class) {
        Slot::Children(owner)
    } else {
        Slot::Nowhere
    }
}

fn is_border(class: Class) -> bool
    ensures { result ≡ spec.is_border class }
{
    matches!(class, Class::BorderPane)
}

/// What the property element of this name holds, if it holds instances.
#[tactic(auto, unfolding(crate::specs::Entries::slot_named))]
fn slot_named(class: Class, owner: usize, earlier: Earlier, name: &str) -> Option<Slot>
    ensures { result ≡ spec.slot_named class owner earlier name.now }
{
    if name == "children" {
        children_slot(class, owner)
    } else {
        border_slot(class, owner, earlier, name)
    }
}

fn children_slot(class: Class, owner: usize) -> Option<Slot>
    ensures { result ≡ spec.children_slot class owner }
{
    if takes_children(class) {
        Some(child_slot(class, owner))
    } else {
        None
    }
}

fn border_slot(class: Class, owner: usize, earlier: Earlier, name: &str) -> Option<Slot>
    ensures { result ≡ spec.border_slot class owner earlier name.now }
{
    if !is_border(class) {
        return None;
    }
    edge_slot_if(owner, earlier, edge_named(name))
}

fn edge_slot_if(owner: usize, earlier: Earlier, edge: Option<u8>) -> Option<Slot>
    ensures { result ≡ spec.edge_slot_if owner earlier edge }
{
    match edge {
        Some(edge) => Some(edge_slot(owner, earlier, edge)),
        None => None,
    }
}

/// An edge that has an element takes no other.
fn edge_slot(owner: usize, earlier: Earlier, edge: u8) -> Slot
    ensures { result ≡ spec.edge_slot owner earlier edge }
{
    if earlier.taken.has(edge) {
        Slot::Nowhere
    } else {
        Slot::Edge(owner, edge)
    }
}
