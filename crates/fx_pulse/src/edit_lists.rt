//! Edits that a frame makes of a picture, each in the memory of one that is gone.
ghost use Rattle.std.specs.Prelude.{ℕ, ◌≡◌, ◌<◌, ◌≤◌, ◌+◌, [], OnOk, length, slice_set, take};
ghost use Rattle.fx_damage.specs.Edits.{edited};
ghost use Rattle.fx_layout.specs.Updates.{rect_at};
ghost use Rattle.fx_layout_sweeps.specs.Nodes.{parents};
ghost use Rattle.fx_pulse_model.specs.Lines.{path_of};
ghost use Rattle.fx_pulse_model.specs.Pictures.{is_disabled};
ghost use Rattle.fx_pulse.specs.Drawing.{drawn};
ghost use Rattle.fx_pulse.specs.Editing.{IsAdded};
ghost use Rattle.fx_pulse_touched.specs.Marks.{told};
ghost use Rattle.fx_shapes.specs.Rects.{IsNear};

use crate::entries::{Laid, Notes, blank_entry, fill};
use fx_base::List;
use fx_damage::Edit;
use fx_picture::Entry;
use std::alloc::{AllocError, Global};
use std::marker::Model;
use std::mem::{replace, swap};

/// The edits that were made so far. Those behind them are gone, and only their memory serves again: contracts don't
/// see them.
#[derive(Drop)]
pub(crate) struct Edits {
    all: Vec<Edit>,
    count: usize,
}

impl Model for Edits {
    ghost use Rattle.std.specs.Prelude.{◌≤◌, List as Items, length, take};
    ghost use Rattle.fx_damage.specs.declared.edits.Edit.{Edit as Made};

    ghost Value = { Items Made };

    ghost view = { λ e. take e.count e.all.items };

    ghost invariant = { λ e. e.count ≤ length e.all.items };
}

impl Edits {
    /// None, in the memory of edits that are gone.
    pub fn over(gone: Vec<Edit>) -> Edits
        ensures { result ≡ [] }
    {
        Edits {
            all: gone,
            count: 0,
        }
    }

    pub fn as_slice(&self) -> &[Edit]
        ensures { result.now ≡ self.now }
    {
        &self.all.as_slice()[..self.count]
    }

    /// Adds an edit behind the others: the entry of a node of this path, for this place of the picture.
    pub fn add(
        &mut self,
        alloc: Global,
        laid: Laid<'_>,
        notes: Notes<'_>,
        place: usize,
        at: usize,
        path: &[u32],
    ) -> Result<(), AllocError>
        requires there { place < length laid.boxes.now }
        requires looks { length laid.looks.now ≡ length laid.boxes.now }
        requires rects { length laid.rects.now ≡ length laid.boxes.now }
        requires near { (k : ℕ) → IsNear (rect_at laid.rects.now k) }
        requires path { path.now ≡ path_of (parents laid.boxes.now) place }
        requires disabled { notes.disabled.now ≡ told (is_disabled (drawn laid)) (length laid.boxes.now) }
        ensures { OnOk result (IsAdded (drawn laid.entry) place at self.old self.new) }
    {
        make_room(alloc, &mut self.all, self.count)?;
        let edit = &mut self.all[self.count];
        edit.place = at;
        set_path(alloc, &mut edit.entry.path, path)?;
        fill(alloc, laid, notes, place, &mut edit.entry)?;
        self.count += 1;
        Ok(())
    }

    /// Makes each edit of these entries. All are gone then, with what stood at their places.
    pub fn put(self, entries: &mut Vec<Entry>) -> Vec<Edit>
        ensures { entries.new.items ≡ edited self entries.old.items }
    {
        let Edits { mut all, count } = self;
        put_all(entries, all.as_mut_slice(), count);
        all
    }
}

/// Makes room for an edit behind so many, if there is none.
fn make_room(alloc: Global, all: &mut Vec<Edit>, count: usize) -> Result<(), AllocError>
    requires { count ≤ length all.old.items }
    ensures same { take count all.new.items ≡ take count all.old.items }
    ensures within { count ≤ length all.new.items }
    ensures room { OnOk result (count < length all.new.items) }
{
    if count < all.len() {
        return Ok(());
    }
    all.push(Edit {
        place: 0,
        entry: blank_entry(alloc, List::new(alloc)),
    })?;
    Ok(())
}

/// Makes a path the same as the other one, in its memory. Mostly it is that already.
fn set_path(alloc: Global, path: &mut List<u32>, other: &[u32]) -> Result<(), AllocError>
    ensures { OnOk result (path.new ≡ other.now) }
{
    if path.as_slice() == other {
        return Ok(());
    }
    let mut steps = replace(path, List::new(alloc)).into_vec();
    steps.clear();
    steps.extend_from_slice(other)?;
    *path = List::from_vec(steps);
    Ok(())
}

/// Makes each of the first so many edits, and takes what stood at its place.
fn put_all(entries: &mut Vec<Entry>, edits: &mut [Edit], count: usize)
    requires { count ≤ length edits.old }
    ensures { entries.new.items ≡ edited (take count edits.old) entries.old.items }
{
    for at in 0..count {
        put_one(entries, &mut edits[at]);
    }
}

fn put_one(entries: &mut Vec<Entry>, edit: &mut Edit)
    ensures { entries.new.items ≡ slice_set entries.old.items edit.old.place edit.old.entry }
{
    let place = edit.place;
    if place < entries.len() {
        swap(&mut entries[place], &mut edit.entry);
    }
}
