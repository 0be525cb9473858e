//! What goes with properties that are forgotten: their pairs and their listeners. The names are put in rising order
//! first, so that each is found by halves.
ghost use Rattle.std.specs.Prelude.{ℕ, ◌≡◌, filter, length, not};
ghost use Rattle.std.specs.List.Sorted.{IsPermutation};
ghost use Rattle.fx_base.specs.Names.{numbers};
ghost use Rattle.fx_listen.specs.Listening.{after_forget_all};
ghost use Rattle.fx_store.specs.Hearing.{has_listeners};
ghost use Rattle.fx_store_pairs.specs.Pairs.{is_touched};

use fx_base::Name;
use fx_listen::Listeners;
use fx_store_pairs::{Pairs, Searched};

/// How many names may have listeners before all listeners are looked at in one pass.
const MOST_TURNS: usize = 16;

/// Removes the pairs and the listeners of these properties.
pub fn forget_parts(pairs: &mut Pairs, listeners: &mut Listeners, mut names: Vec<Name>)
    ensures pairs { pairs.new ≡ filter (λ (pair : ℕ × ℕ). not (is_touched (numbers names.items) pair)) pairs.old }
    ensures listeners { listeners.new ≡ after_forget_all (numbers names.items) listeners.old }
{
    rise(&mut names);
    pairs.forget(names.as_slice());
    forget_listeners(listeners, names.as_slice());
}

/// Whether the name has listeners.
#[tactic(auto, unfolding(crate::specs::Hearing::has_listeners))]
fn has_listeners(listeners: &Listeners, name: Name) -> bool
    ensures { result ≡ has_listeners listeners.now name }
{
    listeners.count_on(name) > 0
}

/// How many of the names have listeners.
fn count_heard(listeners: &Listeners, names: &[Name]) -> usize
    ensures { result ≡ length (filter (has_listeners listeners.now) names.now) }
{
    names
        .iter()
        .filter(|name| has_listeners(listeners, **name))
        .count()
}

/// Removes the listeners of one property after another. Where a property has none, nothing is moved.
fn forget_in_turn(listeners: &mut Listeners, names: &[Name])
    ensures { listeners.new ≡ after_forget_all (numbers names.now) listeners.old }
{
    for name in names {
        listeners.forget(*name);
    }
}

/// Removes all listeners of these properties, in one pass where many of them have listeners.
fn forget_listeners(listeners: &mut Listeners, names: &[Name])
    ensures { listeners.new ≡ after_forget_all (numbers names.now) listeners.old }
{
    if count_heard(listeners, names) <= MOST_TURNS {
        forget_in_turn(listeners, names);
        return;
    }
    listeners.forget_all(&Searched::new(names));
}

/// Puts the names in rising order, so that each is found by halves.
fn rise(names: &mut Vec<Name>)
    ensures { IsPermutation names.old.items names.new.items }
{
    if !Searched::new(names.as_slice()).do_rise() {
        names.sort_unstable_by_key(|name| name.0);
    }
}
