//! Ordinals of nodes and places of children.
ghost use Rattle.std.specs.Prelude.{◌≡◌, ◌∷◌, ◌++◌, [], IfOk, count_by};
ghost use Rattle.fx_scene_outline.specs.Views.{piece_view, shown};
ghost use Rattle.fx_scene_read.specs.Opening as spec;
ghost use Rattle.fx_scene_read.specs.Opening.{AreCounted};

use fx_scene_outline::{Piece, Seat};
use std::alloc::{AllocError, Global};

/// How many of the pieces are children of the piece at this place?
#[tactic(auto, unfolding(crate::specs::Opening::children))]
pub(crate) fn children(owner: usize, pieces: &[Piece<'_>]) -> usize
    ensures { result ≡ spec.children owner (shown pieces.now) }
{
    count_children(owner, pieces)
}

fn count_children(owner: usize, pieces: &[Piece<'_>]) -> usize
    ensures { result ≡ count_by (λ piece. spec.is_child owner (piece_view piece)) pieces.now }
{
    pieces.iter().filter(|piece| is_child(owner, piece)).count()
}

fn is_child(owner: usize, piece: &Piece<'_>) -> bool
    ensures { result ≡ spec.is_child owner (piece_view piece.now) }
{
    match owner_in(seat_of(piece)) {
        Some(other) => other == owner,
        None => false,
    }
}

/// Counts of the children of so many pieces, none of which has any.
#[tactic(auto, unfolding(crate::specs::Opening::children))]
pub fn no_counts(alloc: Global, pieces: usize) -> Result<Vec<usize>, AllocError>
    ensures { IfOk result (λ counts. AreCounted [] counts.items) }
{
    let counts = vec![in alloc; 0; pieces]?;
    Ok(counts)
}

/// The place of a piece among the children of the piece on which it stands, behind these pieces. From now on it is
/// counted, too.
pub fn rank_of(counts: &mut Vec<usize>, before: &[Piece<'_>], piece: &Piece<'_>) -> usize
    requires { AreCounted (shown before.now) counts.old.items }
    ensures rank { result ≡ spec.rank_of (shown before.now) (piece_view piece.now) }
    ensures counted { AreCounted (shown before.now ++ piece_view piece.now ∷ []) counts.new.items }
{
    match owner_in(seat_of(piece)) {
        Some(owner) => count_child(counts, before, owner),
        None => 0,
    }
}

/// Counts one child more of the piece at this place, and answers how many there were.
fn count_child(counts: &mut Vec<usize>, before: &[Piece<'_>], owner: usize) -> usize
    requires { AreCounted (shown before.now) counts.old.items }
    ensures rank { result ≡ spec.children owner (shown before.now) }
    ensures counted { counts.new.items ≡ spec.one_more owner counts.old.items }
{
    if owner >= counts.len() {
        return children(owner, before);
    }
    let rank = counts[owner];
    if rank <= before.len() {
        counts[owner] = rank + 1;
    }
    rank
}

/// The piece whose child stands there.
fn owner_in(seat: Seat) -> Option<usize>
    ensures { result ≡ spec.owner_in seat }
{
    match seat {
        Seat::Child(owner) => Some(owner),
        _ => None,
    }
}

/// The seat of a piece; one that is no instance has none.
fn seat_of(piece: &Piece<'_>) -> Seat
    ensures { result ≡ spec.seat_of (piece_view piece.now) }
{
    match piece {
        Piece::Instance(seat, _) => *seat,
        Piece::Reference(seat, _) => *seat,
        Piece::Include(seat, _) => *seat,
        _ => Seat::Nowhere,
    }
}

/// The ordinal of the node of the piece at this place, where each piece has that of the next node in front of it.
pub(crate) fn node_at(owner: usize, nodes: &[usize]) -> usize
    ensures { result ≡ spec.node_at owner nodes.now }
{
    match nodes.get(owner) {
        Some(node) => *node,
        None => 0,
    }
}
