//! Names among which one is looked for, by halves where they rise.
ghost use Rattle.std.specs.Prelude.{◌≡◌, ◌<◌, ◌==◌, false, length, nat_lt, slice_index_or, true};
ghost use Rattle.std.specs.List.Sorted.{IsPartitionPoint};
ghost use Rattle.fx_base.specs.declared.keys.Name.{Name as Named};
ghost use Rattle.fx_base.specs.Names.{name_of, numbers};
ghost use Rattle.fx_store_pairs.specs.Pairs.{is_among as stands_among};
ghost use Rattle.fx_store_pairs.specs.Rising.{DoRise, rises_from};

use fx_base::Name;
use std::marker::Model;

/// Names to be looked for, by halves where they rise. Contracts see their numbers.
#[derive(Drop)]
pub struct Searched<'a> {
    names: &'a [Name],
    do_rise: bool,
}

impl<'a> Model for Searched<'a> {
    ghost use Rattle.std.specs.Prelude.{◌≡◌, ℕ, List};
    ghost use Rattle.fx_base.specs.Names.{numbers};
    ghost use Rattle.fx_store_pairs.specs.Rising.{rises_from};

    ghost Value = { List ℕ };

    ghost view = { λ searched. numbers searched.names.now };

    ghost invariant = { λ searched. searched.do_rise ≡ rises_from 0 (numbers searched.names.now) };
}

impl<'a> Searched<'a> {
    pub fn new(names: &'a [Name]) -> Searched<'a>
        ensures { result ≡ numbers names.now }
    {
        Searched {
            names,
            do_rise: do_rise(names),
        }
    }

    /// Whether no name is below the one before it, so that each is found by halves.
    pub fn do_rise(&self) -> bool
        ensures { result ≡ rises_from 0 self.now }
    {
        self.do_rise
    }

    /// Whether the name is one of these.
    pub fn has(&self, name: Name) -> bool
        ensures { result ≡ stands_among self.now name.0 }
    {
        if self.do_rise {
            return has_rising(self.names, name);
        }
        is_among(self.names, name)
    }
}

/// Whether the name is one of these, each looked at.
pub fn is_among(names: &[Name], name: Name) -> bool
    ensures { result ≡ stands_among (numbers names.now) name.0 }
{
    for other in names {
        if other.0 == name.0 {
            return true;
        }
    }
    false
}

/// Whether no name is below the one before it.
fn do_rise(names: &[Name]) -> bool
    ensures { result ≡ rises_from 0 (numbers names.now) }
{
    let mut last = 0;
    for name in names {
        if name.0 < last {
            return false;
        }
        last = name.0;
    }
    true
}

/// How many of the names are below this one.
fn count_below(names: &[Name], name: Name) -> usize
    requires { DoRise names.now }
    ensures { IsPartitionPoint (λ (other : Named). nat_lt other.0 name.0 ≡ true)
        (λ (other : Named). nat_lt other.0 name.0 ≡ false) names.now result }
{
    names.partition_point(|other| other.0 < name.0)
}

fn stands_at(names: &[Name], place: usize, name: Name) -> bool
    requires { place < length names.now }
    ensures { result ≡ ((slice_index_or names.now place (name_of 0)).0 == name.0) }
{
    names[place].0 == name.0
}

fn has_rising(names: &[Name], name: Name) -> bool
    requires { DoRise names.now }
    ensures { result ≡ stands_among (numbers names.now) name.0 }
{
    let place = count_below(names, name);
    if place < names.len() {
        return stands_at(names, place, name);
    }
    false
}
