//! Entries in order of their birth numbers, and two such lists gone through together.
ghost use Rattle.std.specs.Prelude.{◌≡◌, ◌≤◌, drop, length};
ghost use Rattle.std.specs.List.Sorted.{IsPermutation};
ghost use Rattle.std.specs.Option.{option_copied};
ghost use Rattle.fx_damage.specs.Births.{RisesStrictly, behind, birth_numbers, first_birth, first_with, lesser};
ghost use Rattle.fx_damage.specs.Changes.{lent};
ghost use Rattle.fx_picture.specs.Entries.{HasDistinctBirths};

use fx_picture::Entry;

/// Puts the entries in order of their birth numbers.
pub(crate) fn sort_by_birth(entries: &mut Vec<&Entry>)
    requires { HasDistinctBirths (lent entries.old.items) }
    ensures same { IsPermutation (lent entries.old.items) (lent entries.new.items) }
    ensures rising { RisesStrictly (birth_numbers (lent entries.new.items)) }
{
    entries.sort_unstable_by_key(|entry| entry.key.birth);
}

/// The least birth number from a place on in each of two rising lists.
pub(crate) fn next_birth(
    olds: &[&Entry],
    old_place: usize,
    nows: &[&Entry],
    place: usize,
) -> Option<u32>
    ensures { result
        ≡ lesser (first_birth (drop old_place (lent olds.now))) (first_birth (drop place (lent nows.now))) }
{
    lesser(first_birth(olds, old_place), first_birth(nows, place))
}

fn first_birth(entries: &[&Entry], place: usize) -> Option<u32>
    ensures { result ≡ first_birth (drop place (lent entries.now)) }
{
    if place < entries.len() {
        Some(entries[place].key.birth)
    } else {
        None
    }
}

fn lesser(one: Option<u32>, other: Option<u32>) -> Option<u32>
    ensures { result ≡ lesser one other }
{
    match one {
        None => other,
        Some(birth) => match other {
            None => Some(birth),
            Some(other) => Some(birth.min(other)),
        },
    }
}

/// The entry at a place, if it has this birth number; then the place is the next one.
pub(crate) fn take_with<'a>(
    entries: &[&'a Entry],
    birth: u32,
    place: &mut usize,
) -> Option<&'a Entry>
    requires { place.old ≤ length entries.now }
    ensures first { option_copied result ≡ first_with birth (drop place.old (lent entries.now)) }
    ensures rest { drop place.new (lent entries.now) ≡ behind birth (drop place.old (lent entries.now)) }
    ensures within { place.new ≤ length entries.now }
{
    let at = *place;
    if at < entries.len() && entries[at].key.birth == birth {
        *place = at + 1;
        return Some(entries[at]);
    }
    None
}
