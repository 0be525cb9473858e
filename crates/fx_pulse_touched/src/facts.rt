//! The facts of one node in two scenes compared.
ghost use Rattle.std.specs.Prelude.{◌≡◌, ◌↔◌, IsTrue, length};

use fx_base::{Same, Track};
use fx_kinds::{BoxFacts, StyleFacts};

/// Are the facts for style of two nodes with one key and one parent the same? Code values come first: bindings give
/// others in each frame.
pub(crate) fn has_same_style(old: &StyleFacts, node: &StyleFacts) -> bool
    requires key { old.now.key ≡ node.now.key }
    requires parent { old.now.parent ≡ node.now.parent }
    ensures { IsTrue result ↔ (old.now ≡ node.now) }
{
    has_same_values(old, node) && has_same_names(old, node)
}

fn has_same_values(old: &StyleFacts, node: &StyleFacts) -> bool
    ensures { IsTrue result ↔ ((old.now.codes ≡ node.now.codes) × (old.now.inline ≡ node.now.inline)
        × (old.now.sheets ≡ node.now.sheets)) }
{
    old.codes.is_same(&node.codes)
        && old.inline == node.inline
        && old.sheets.as_slice() == node.sheets.as_slice()
}

fn has_same_names(old: &StyleFacts, node: &StyleFacts) -> bool
    ensures { IsTrue result ↔ ((old.now.class ≡ node.now.class) × (old.now.id ≡ node.now.id)
        × (old.now.classes ≡ node.now.classes) × (old.now.pseudos ≡ node.now.pseudos)) }
{
    old.class == node.class
        && old.id.is_same(&node.id)
        && old.classes.is_same(&node.classes)
        && old.pseudos.is_same(&node.pseudos)
}

/// Are the facts for layout of two nodes with one key and one parent the same?
pub(crate) fn has_same_box(old: &BoxFacts, node: &BoxFacts) -> bool
    requires key { old.now.key ≡ node.now.key }
    requires parent { old.now.parent ≡ node.now.parent }
    ensures { IsTrue result ↔ (old.now ≡ node.now) }
{
    has_same_place(old, node) && has_same_contents(old, node) && has_same_tracks(old, node)
}

fn has_same_place(old: &BoxFacts, node: &BoxFacts) -> bool
    ensures { IsTrue result ↔ ((old.now.layout_x ≡ node.now.layout_x) × (old.now.layout_y ≡ node.now.layout_y)
        × (old.now.edge ≡ node.now.edge) × (old.now.class ≡ node.now.class)) }
{
    old.layout_x == node.layout_x
        && old.layout_y == node.layout_y
        && old.edge == node.edge
        && old.class == node.class
}

fn has_same_contents(old: &BoxFacts, node: &BoxFacts) -> bool
    ensures { IsTrue result ↔ ((old.now.text ≡ node.now.text) × (old.now.constraints ≡ node.now.constraints)
        × (old.now.focus_traversable ≡ node.now.focus_traversable)) }
{
    old.text.is_same(&node.text)
        && old.constraints.is_same(&node.constraints)
        && old.focus_traversable == node.focus_traversable
}

fn has_same_tracks(old: &BoxFacts, node: &BoxFacts) -> bool
    ensures { IsTrue result ↔ ((old.now.columns ≡ node.now.columns) × (old.now.rows ≡ node.now.rows)) }
{
    are_same_tracks(old.columns.as_slice(), node.columns.as_slice())
        && are_same_tracks(old.rows.as_slice(), node.rows.as_slice())
}

fn are_same_tracks(tracks: &[Track], others: &[Track]) -> bool
    ensures { IsTrue result ↔ (tracks.now ≡ others.now) }
{
    tracks.len() == others.len() && pairs_are_same(tracks, others)
}

fn pairs_are_same(tracks: &[Track], others: &[Track]) -> bool
    requires { length tracks.now ≡ length others.now }
    ensures { IsTrue result ↔ (tracks.now ≡ others.now) }
{
    for at in 0..tracks.len() {
        if !is_same_track(&tracks[at], &others[at]) {
            return false;
        }
    }
    true
}

fn is_same_track(track: &Track, other: &Track) -> bool
    ensures { IsTrue result ↔ (track.now ≡ other.now) }
{
    track.min == other.min
        && track.pref == other.pref
        && track.max == other.max
        && track.grow == other.grow
        && track.align == other.align
}
