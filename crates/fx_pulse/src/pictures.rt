//! The next picture in the place of the last one, and what it damages of it.
ghost use Rattle.std.specs.Prelude.{◌≡◌, IfOk, List as ListOf, Some};
ghost use Rattle.fx_damage.specs.Damage.{damage as damage_of};
ghost use Rattle.fx_damage.specs.Edits.{edited};
ghost use Rattle.fx_picture.specs.Entries.{HasDistinctBirths};
ghost use Rattle.fx_picture.specs.declared.entries.Entry.{Entry as EntryValue};
ghost use Rattle.fx_pulse.specs.Editing.{IsOver, IsWhole, entries_after};

use crate::edit_lists::Edits;
use crate::frames::Next;
use fx_base::{List, Rect};
use fx_damage::{Edit, damage, damage_of_edits};
use fx_picture::Picture;
use std::alloc::{AllocError, Global};
use std::mem::replace;

/// What the next picture damages of the last one.
pub(crate) fn damage_by(
    alloc: Global,
    last: &Picture,
    next: &Next,
    width: u32,
    height: u32,
) -> Result<Vec<Rect>, AllocError>
    requires over { IsOver last.now.entries next.now }
    requires old { HasDistinctBirths last.now.entries }
    requires new { HasDistinctBirths (entries_after next.now last.now.entries) }
    ensures { IfOk result (λ rects. rects.items
        ≡ damage_of (Some last.now.entries) (entries_after next.now last.now.entries) width height) }
{
    match next {
        Next::Whole(picture) => damage(alloc, Some(last), picture, width, height),
        Next::Edited(edits) => damage_of_edits(alloc, last, edits.as_slice(), width, height),
    }
}

/// Puts the next picture in the place of the last one, for which no memory is wanted. Edits that were made are gone,
/// with the entries that they took: they are kept for their memory.
pub(crate) fn follow(alloc: Global, picture: &mut Picture, next: Next, gone: &mut Vec<Edit>)
    ensures { picture.new.entries ≡ entries_after next picture.old.entries }
{
    match next {
        Next::Whole(whole) => *picture = whole,
        Next::Edited(edits) => *gone = edit(alloc, picture, edits),
    }
}

fn edit(alloc: Global, picture: &mut Picture, edits: Edits) -> Vec<Edit>
    ensures { picture.new.entries ≡ edited edits picture.old.entries }
{
    let last = replace(picture, Picture::new(alloc));
    let mut entries = last.entries.into_vec();
    let gone = edits.put(&mut entries);
    picture.entries = List::from_vec(entries);
    gone
}

/// The next picture, which is whole.
pub(crate) fn whole(next: Next) -> Picture
    requires { IsWhole next }
    ensures { (olds : ListOf EntryValue) → result.entries ≡ entries_after next olds }
{
    match next {
        Next::Whole(picture) => picture,
        Next::Edited(_) => unreachable!(),
    }
}
