//! The outline of a document, from its root on.
ghost use Rattle.std.specs.Prelude.{◌≡◌, ◌++◌, IfOk, OnOk, length};
ghost use Rattle.fx_doc.specs.Views.{reading};
ghost use Rattle.fx_scene_outline.specs.Entries.{listed};
ghost use Rattle.fx_scene_outline.specs.Outlines as spec;
ghost use Rattle.fx_scene_outline.specs.Views.{content_of, element_pieces, head_of, shown};
ghost use Rattle.fx_scene_outline.specs.declared.pieces.Seat.TheVariants.{Root};

use crate::adding::add_inside;
use crate::entering::enter_listed;
use crate::pieces::{Piece, Seat};
use fx_doc::{Document, Element};
use std::alloc::{AllocError, Global};

/// What stands in a document, in document order.
pub fn outline<'a>(alloc: Global, document: &'a Document) -> Result<Vec<Piece<'a>>, AllocError>
    ensures { IfOk result (λ pieces. shown pieces.items ≡ spec.outline (reading document.now)) }
{
    let mut pieces = Vec::new(alloc);
    add_seated(&document.root, Seat::Root, &mut pieces)?;
    Ok(pieces)
}

/// What stands in an element of a definition within a value, which is a node.
#[tactic(auto, unfolding(crate::specs::Outlines::aside_outline))]
pub fn aside_outline<'a>(alloc: Global, element: &'a Element) -> Result<Vec<Piece<'a>>, AllocError>
    ensures { IfOk result (λ pieces. shown pieces.items
        ≡ spec.aside_outline (head_of element.now) (content_of element.now)) }
{
    let mut pieces = Vec::new(alloc);
    add_seated(element, Seat::Aside, &mut pieces)?;
    Ok(pieces)
}

/// Adds an element with its content in a seat.
fn add_seated<'a>(
    element: &'a Element,
    seat: Seat,
    pieces: &mut Vec<Piece<'a>>,
) -> Result<(), AllocError>
    ensures ok { OnOk result (shown pieces.new.items ≡ shown pieces.old.items
        ++ element_pieces (length pieces.old.items) element.now
        (listed (length pieces.old.items) seat (head_of element.now) (content_of element.now))) }
{
    let inside = enter_listed(element, seat, pieces)?;
    add_inside(element, inside, pieces)
}
