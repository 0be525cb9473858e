//! The entries of a scene as edits of the last picture: only those of nodes that may be others are made.
ghost use Rattle.std.specs.Prelude.{◌≡◌, ◌<◌, ◌+◌, ℕ, IfOk, IsTrue, OnOk, false, length, slice_index_or};
ghost use Rattle.fx_damage.specs.Edits.{AreEdits, edited};
ghost use Rattle.fx_layout.specs.Updates.{rect_at};
ghost use Rattle.fx_layout_sweeps.specs.Marks.{flag_in};
ghost use Rattle.fx_layout_sweeps.specs.Nodes.{parents};
ghost use Rattle.fx_picture.specs.declared.entries.Entry.{Entry as EntryValue};
ghost use Rattle.fx_pulse_model.specs.Pictures.{IsPicture, is_disabled, shows};
ghost use Rattle.fx_pulse.specs.Drawing.{drawn};
ghost use Rattle.fx_pulse.specs.Editing.{AreLast, IsEditedUpTo};
ghost use Rattle.fx_pulse_touched.specs.Marks.{told};
ghost use Rattle.fx_shapes.specs.Rects.{IsNear};

use crate::edit_lists::Edits;
use crate::entries::{Laid, Notes};
use crate::flags::flag_at;
use fx_base::Rect;
use fx_damage::Edit;
use fx_picture::Entry;
use std::alloc::{AllocError, Global};
use std::mem::replace;

/// The entries of the last picture, and marks of the nodes that may be others than they were in it.
#[derive(Clone, Copy)]
pub(crate) struct Last<'a> {
    pub entries: &'a [Entry],
    pub marks: &'a [bool],
}

/// The edits so far, and how many entries of the last picture were passed.
#[derive(Drop)]
struct Editing {
    edits: Edits,
    count: usize,
}

/// The edits that make the picture of this scene of the last one, in the memory of edits that are gone.
pub(crate) fn edits_of(
    alloc: Global,
    laid: Laid<'_>,
    notes: Notes<'_>,
    last: Last<'_>,
    gone: &mut Vec<Edit>,
) -> Result<Edits, AllocError>
    requires looks { length laid.looks.now ≡ length laid.boxes.now }
    requires rects { length laid.rects.now ≡ length laid.boxes.now }
    requires near { (k : ℕ) → IsNear (rect_at laid.rects.now k) }
    requires shown { notes.shown.now ≡ told (shows (drawn laid)) (length laid.boxes.now) }
    requires disabled { notes.disabled.now ≡ told (is_disabled (drawn laid)) (length laid.boxes.now) }
    requires last { AreLast (drawn laid) last.marks.now last.entries.now }
    ensures edits { IfOk result (λ edits. AreEdits edits (length last.entry.entries.now)) }
    ensures picture { IfOk result (λ edits.
        IsPicture (drawn laid.entry) (edited edits last.entry.entries.now)) }
{
    let mut editing = Editing {
        edits: Edits::over(replace(gone, Vec::new(alloc))),
        count: 0,
    };
    for place in 0..laid.boxes.len() {
        edit_next(alloc, laid, notes, last, place, &mut editing)?;
    }
    let Editing { edits, .. } = editing;
    Ok(edits)
}

/// Passes a node: where it shows, its entry stays, or is made anew if it may be another.
fn edit_next(
    alloc: Global,
    laid: Laid<'_>,
    notes: Notes<'_>,
    last: Last<'_>,
    place: usize,
    editing: &mut Editing,
) -> Result<(), AllocError>
    requires there { place < length laid.boxes.now }
    requires looks { length laid.looks.now ≡ length laid.boxes.now }
    requires rects { length laid.rects.now ≡ length laid.boxes.now }
    requires near { (k : ℕ) → IsNear (rect_at laid.rects.now k) }
    requires shown { notes.shown.now ≡ told (shows (drawn laid)) (length laid.boxes.now) }
    requires disabled { notes.disabled.now ≡ told (is_disabled (drawn laid)) (length laid.boxes.now) }
    requires last { AreLast (drawn laid) last.marks.now last.entries.now }
    requires before { IsEditedUpTo (drawn laid) last.entries.now place editing.old.edits editing.old.count }
    ensures { OnOk result (IsEditedUpTo (drawn laid.entry) last.entry.entries.now (place + 1)
        editing.new.edits editing.new.count) }
{
    if !flag_at(notes.shown, place) {
        return Ok(());
    }
    let at = editing.count;
    let old = entry_at(last.entries, at);
    editing.count = behind(last.entries, at);
    if stays(laid, notes, last.marks, place, old) {
        return Ok(());
    }
    let path = old.path.as_slice();
    editing.edits.add(alloc, laid, notes, place, at, path)?;
    Ok(())
}

fn entry_at(entries: &[Entry], at: usize) -> &Entry
    requires { at < length entries.now }
    ensures { (e : EntryValue) → result.now ≡ slice_index_or entries.now at e }
{
    &entries[at]
}

/// The place behind that of an entry.
fn behind(entries: &[Entry], at: usize) -> usize
    requires { at < length entries.now }
    ensures { result ≡ at + 1 }
{
    at + 1
}

/// Is this the entry of the node still? It is where the node isn't marked, stands where it stood, and is as disabled.
fn stays(laid: Laid<'_>, notes: Notes<'_>, marks: &[bool], place: usize, old: &Entry) -> bool
    requires there { place < length laid.rects.now }
    ensures marks { IsTrue result → flag_in marks.now place ≡ false }
    ensures rect { IsTrue result → old.now.rect ≡ rect_at laid.entry.rects.now place }
    ensures disabled { IsTrue result → old.now.disabled ≡ slice_index_or notes.entry.disabled.now place false }
{
    !flag_at(marks, place)
        && is_same_rect(old.rect, laid.rects[place])
        && old.disabled == flag_at(notes.disabled, place)
}

fn is_same_rect(one: Rect, other: Rect) -> bool
    ensures { IsTrue result → one ≡ other }
{
    one == other
}
