//! Walks over the list of pairs: where two names stand, and what goes with names.
ghost use Rattle.std.specs.Prelude.{◌≡◌, ℕ, filter, not};
ghost use Rattle.std.specs.List.{position_or_len};
ghost use Rattle.fx_store_pairs.specs.Pairs.{is_pair, pairs_of, is_touched, without_pair};

use crate::searching::Searched;
use fx_base::Name;

fn is_of(pair: &(Name, Name), one: Name, other: Name) -> bool
    ensures { result ≡ is_pair one.0 other.0 (pair.now.0.0, pair.now.1.0) }
{
    (pair.0.0 == one.0 && pair.1.0 == other.0) || (pair.0.0 == other.0 && pair.1.0 == one.0)
}

/// The place of the first pair of the two, in either order, or how many pairs there are.
fn place_of(pairs: &[(Name, Name)], one: Name, other: Name) -> usize
    ensures { result ≡ position_or_len (is_pair one.0 other.0) (pairs_of pairs.now) }
{
    let mut place = 0;
    while place < pairs.len() && !is_of(&pairs[place], one, other) {
        place += 1;
    }
    place
}

/// Ends the first pair of the two, in either order.
pub fn remove_first(pairs: &mut Vec<(Name, Name)>, one: Name, other: Name)
    ensures { pairs_of pairs.new.items ≡ without_pair one.0 other.0 (pairs_of pairs.old.items) }
{
    let place = place_of(pairs.as_slice(), one, other);
    if place < pairs.len() {
        pairs.remove(place);
    }
}

fn touches(names: &Searched, pair: &(Name, Name)) -> bool
    ensures { result ≡ is_touched names.now (pair.now.0.0, pair.now.1.0) }
{
    names.has(pair.0) || names.has(pair.1)
}

/// Leaves the pairs of which neither name is one of these.
pub fn drop_touched(pairs: &mut Vec<(Name, Name)>, names: &Searched)
    ensures { pairs_of pairs.new.items ≡ filter (λ (pair : ℕ × ℕ). not (is_touched names.now pair))
        (pairs_of pairs.old.items) }
{
    pairs.retain(|pair| !touches(names, pair));
}
