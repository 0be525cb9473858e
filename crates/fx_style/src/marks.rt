//! Which places of a list are named.
ghost use Rattle.std.specs.Prelude.{◌≡◌, ◌<◌, ◌==◌, ◌||◌, ℕ, false, true, IfOk, length, slice_index_or};
ghost use Rattle.std.specs.Option.{ForSome};
ghost use Rattle.fx_style.specs.Kept.{is_among};

use std::alloc::{AllocError, Global};

/// A mark for each of so many places: is it among these?
pub(crate) fn marked(alloc: Global, places: &[usize], count: usize) -> Result<Vec<bool>, AllocError>
    ensures long { IfOk result (λ marks. length marks.items ≡ count) }
    ensures marks { IfOk result (λ marks. (at : ℕ) → at < count
        → slice_index_or marks.items at false ≡ is_among places.now at) }
{
    let mut marks = vec![in alloc; false; count]?;
    mark_all(marks.as_mut_slice(), places);
    Ok(marks)
}

fn mark_all(marks: &mut [bool], places: &[usize])
    ensures { (at : ℕ) → at < length marks.old
        → slice_index_or marks.new at false ≡ (is_among places.now at || slice_index_or marks.old at false) }
{
    for place in places {
        mark(marks, *place);
    }
}

fn mark(marks: &mut [bool], place: usize)
    ensures { (at : ℕ) → at < length marks.old
        → slice_index_or marks.new at false ≡ ((place == at) || slice_index_or marks.old at false) }
{
    if place < marks.len() {
        marks[place] = true;
    }
}

/// The place before this one, if it is marked.
pub(crate) fn marked_before(marks: &[bool], at: usize) -> Option<usize>
    requires { at < length marks.now }
    ensures { ForSome result (λ p. (p < at) × (slice_index_or marks.now p false ≡ true)) }
{
    if at == 0 {
        return None;
    }
    let before = at - 1;
    if !marks[before] {
        return None;
    }
    Some(before)
}
