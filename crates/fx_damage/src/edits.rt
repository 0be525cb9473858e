//! The damage that edits of a picture make: only what stands at their places is looked at.
ghost use Rattle.std.specs.Prelude.{◌≡◌, ◌<◌, IfOk, OnOk, Some, ◌++◌, length, slice_index_or};
ghost use Rattle.fx_damage.specs.Changes.{changed_nows, changed_olds, lent};
ghost use Rattle.fx_damage.specs.Damage.{changed_boxes, cut_to, damage};
ghost use Rattle.fx_damage.specs.Edits.{AreEdits, edited, entries_of, replaced};
ghost use Rattle.fx_damage.specs.Windows.{IsInWindow};
ghost use Rattle.fx_picture.specs.Entries.{HasDistinctBirths};

use crate::boxes::boxes_between;
use crate::changes::add_if_changed;
use crate::rects::{joined_rects, window};
use fx_base::Rect;
use fx_picture::{Bounds, Entry, Picture};
use std::alloc::{AllocError, Global};

/// A new entry for a place of a picture.
#[derive(Drop)]
pub struct Edit {
    pub place: usize,
    pub entry: Entry,
}

/// The damage between a picture and what edits make of it, from the edits alone. The places of the edits rise; an edit
/// that changes nothing gives no rectangle.
pub fn damage_of_edits(
    alloc: Global,
    old: &Picture,
    edits: &[Edit],
    w: u32,
    h: u32,
) -> Result<Vec<Rect>, AllocError>
    requires edits { AreEdits edits.now (length old.now.entries) }
    requires old { HasDistinctBirths old.now.entries }
    requires new { HasDistinctBirths (edited edits.now old.now.entries) }
    ensures { IfOk result (λ rects. rects.items
        ≡ damage (Some old.now.entries) (edited edits.now old.now.entries) w h) }
{
    let window = window(w, h);
    let boxes = edited_boxes(alloc, old.entries.as_slice(), edits, window)?;
    joined_rects(alloc, boxes.as_slice())
}

/// The boxes of all nodes that don't stay, in order of their birth numbers, each cut to the window.
fn edited_boxes(
    alloc: Global,
    olds: &[Entry],
    edits: &[Edit],
    window: Bounds,
) -> Result<Vec<Bounds>, AllocError>
    requires edits { AreEdits edits.now (length olds.now) }
    requires old { HasDistinctBirths olds.now }
    requires new { HasDistinctBirths (edited edits.now olds.now) }
    requires window { IsInWindow window }
    ensures { IfOk result (λ boxes. boxes.items
        ≡ cut_to window (changed_boxes olds.now (edited edits.now olds.now))) }
{
    let mut changed_olds = Vec::new(alloc);
    let mut changed_nows = Vec::new(alloc);
    add_edited(&mut changed_olds, &mut changed_nows, olds, edits)?;
    let boxes = boxes_between(alloc, changed_olds, changed_nows, window)?;
    Ok(boxes)
}

/// Adds what the edits replace and what they put there, unless that is one node that stays.
fn add_edited<'a>(
    olds: &mut Vec<&'a Entry>,
    nows: &mut Vec<&'a Entry>,
    entries: &'a [Entry],
    edits: &'a [Edit],
) -> Result<(), AllocError>
    requires { AreEdits edits.now (length entries.now) }
    ensures olds { OnOk result (lent olds.new.items
        ≡ lent olds.old.items ++ changed_olds (replaced edits.now entries.now) (entries_of edits.now)) }
    ensures nows { OnOk result (lent nows.new.items
        ≡ lent nows.old.items ++ changed_nows (replaced edits.now entries.now) (entries_of edits.now)) }
{
    for edit in edits {
        add_if_changed(olds, nows, entry_at(entries, edit.place), &edit.entry)?;
    }
    Ok(())
}

fn entry_at<'a>(entries: &'a [Entry], place: usize) -> &'a Entry
    requires { place < length entries.now }
    ensures { result.now ≡ slice_index_or entries.now place result.now }
{
    &entries[place]
}
