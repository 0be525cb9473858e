//! Walking through a document: each part adds its pieces behind those before it.
ghost use Rattle.std.specs.Prelude.{◌≡◌, ◌++◌, OnOk, length};
ghost use Rattle.fx_doc.specs.Views.{nodes_of, onto};
ghost use Rattle.fx_doc_grammar.specs.Grammar.{Nothing};
ghost use Rattle.fx_doc_grammar.specs.Machine.{is_nothing};
ghost use Rattle.fx_scene_outline.specs.Entries.{entry};
ghost use Rattle.fx_scene_outline.specs.Outlines as spec;
ghost use Rattle.fx_scene_outline.specs.Views.{content_of, element_pieces, head_of, inside_pieces, part_pieces, shown};

use crate::edges::Earlier;
use crate::entering::enter;
use crate::pieces::{Piece, Room, Slot};
use fx_doc::{Content, Element};
use fx_scene_flaws::Flaw;
use std::alloc::AllocError;

/// Adds the content of a room.
#[cycle(walk)]
fn add_content<'a>(
    content: &'a [Content],
    room: Room,
    pieces: &mut Vec<Piece<'a>>,
) -> Result<(), AllocError>
    ensures ok { OnOk result (shown pieces.new.items
        ≡ shown pieces.old.items ++ spec.pieces room (length pieces.old.items) (nodes_of content.now)) }
{
    let mut earlier = Earlier::nothing();
    for part in content {
        add_part(part, room, earlier, pieces)?;
        earlier = earlier.with(part);
    }
    Ok(())
}

/// Adds one part of some content, behind what stands there before it.
#[cycle(walk)]
fn add_part<'a>(
    part: &'a Content,
    room: Room,
    earlier: Earlier,
    pieces: &mut Vec<Piece<'a>>,
) -> Result<(), AllocError>
    ensures ok { OnOk result (shown pieces.new.items
        ≡ shown pieces.old.items ++ part_pieces room (length pieces.old.items) earlier (onto part.now Nothing)) }
{
    match part {
        Content::Child(element) => add_element(element, room, earlier, pieces),
        Content::Chars(_, place) => Ok(pieces.push(Piece::Flaw(Flaw::Child, *place))?),
    }
}

/// Adds an element with its content.
#[cycle(walk)]
fn add_element<'a>(
    element: &'a Element,
    room: Room,
    earlier: Earlier,
    pieces: &mut Vec<Piece<'a>>,
) -> Result<(), AllocError>
    ensures ok { OnOk result (shown pieces.new.items ≡ shown pieces.old.items
        ++ element_pieces (length pieces.old.items) element.now
        (entry (length pieces.old.items) room earlier (head_of element.now) (content_of element.now))) }
{
    let inside = enter(element, room, earlier, pieces)?;
    add_inside(element, inside, pieces)
}

/// Adds the content of an element that was entered, and what is wrong where it lacks some.
#[cycle(walk)]
pub(crate) fn add_inside<'a>(
    element: &'a Element,
    inside: Option<Room>,
    pieces: &mut Vec<Piece<'a>>,
) -> Result<(), AllocError>
    ensures ok { OnOk result (shown pieces.new.items
        ≡ shown pieces.old.items ++ inside_pieces (length pieces.old.items) element.now inside) }
{
    match inside {
        Some(room) => {
            add_content(element.content.as_slice(), room, pieces)?;
            add_edge_flaw(element, room, pieces)
        }
        None => Ok(()),
    }
}

/// An edge that holds nothing is at fault.
fn add_edge_flaw(
    element: &Element,
    room: Room,
    pieces: &mut Vec<Piece<'_>>,
) -> Result<(), AllocError>
    ensures ok { OnOk result (shown pieces.new.items ≡ shown pieces.old.items
        ++ spec.edge_flaws room (head_of element.now).position (content_of element.now)) }
{
    if lacks_content(room, has_no_content(element)) {
        pieces.push(Piece::Flaw(Flaw::Value, element.position))?;
    }
    Ok(())
}

fn has_no_content(element: &Element) -> bool
    ensures { result ≡ is_nothing (content_of element.now) }
{
    element.content.is_empty()
}

fn lacks_content(room: Room, empty: bool) -> bool
    ensures { result ≡ spec.lacks_content room empty }
{
    match room {
        Room::Listed(Slot::Edge(_, _)) => empty,
        _ => false,
    }
}
