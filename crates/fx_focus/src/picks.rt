//! The node under a point.
ghost use Rattle.std.specs.Prelude.{◌≡◌, reverse};
ghost use Rattle.std.specs.List.{find};
ghost use Rattle.std.specs.Option.{option_map};
ghost use Rattle.fx_focus.specs.Picks.{holds, is_hit, is_inside, pick};

use crate::attached::is_attached;
use fx_base::{NodeKey, Rect};
use fx_picture::{Bounds, Entry, Picture, bounds_of};
use fx_tree::Tree;

/// The node under a point, which is given in pixels from the window's upper left corner: the last of the picture whose
/// rectangle holds the point, that isn't disabled and still stands in the scene. Takes no memory.
pub fn pick(tree: &Tree, picture: &Picture, x: i64, y: i64) -> Option<NodeKey>
    ensures { result ≡ pick tree.now picture.now.entries x y }
{
    match last_hit(tree, picture.entries.as_slice(), x, y) {
        Some(entry) => Some(entry.key),
        None => None,
    }
}

fn last_hit<'a>(tree: &Tree, entries: &'a [Entry], x: i64, y: i64) -> Option<&'a Entry>
    ensures { option_map (λ e. e.now) result ≡ find (is_hit tree.now x y) (reverse entries.now) }
{
    entries.iter().rev().find(|entry| is_hit(tree, entry, x, y))
}

fn is_hit(tree: &Tree, entry: &Entry, x: i64, y: i64) -> bool
    ensures { result ≡ is_hit tree.now x y entry.now }
{
    holds(entry.rect, x, y) && !entry.disabled && is_attached(tree, entry.key)
}

fn holds(rect: Rect, x: i64, y: i64) -> bool
    ensures { result ≡ holds rect x y }
{
    is_inside(bounds_of(rect), (i128::from(x), i128::from(y)))
}

fn is_inside(bounds: Bounds, point: (i128, i128)) -> bool
    ensures { result ≡ is_inside bounds point.0 point.1 }
{
    (bounds.min_x <= point.0 && point.0 < bounds.max_x)
        && (bounds.min_y <= point.1 && point.1 < bounds.max_y)
}
