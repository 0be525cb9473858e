//! One listener, and what is found among listeners that are sorted by property. `Listeners` keeps one such list.
ghost use Rattle.std.specs.Prelude.{◌≡◌, ◌==◌, false, ◌&&◌, ◌++◌, ◌<◌, ◌≤◌, drop, filter, length, map, nat_le, not, position, slice_range, take, vec_capacity, vec_len, IfNone, IfOk, IfSome, OnErr, OnOk};
ghost use Rattle.std.specs.List.{find, list_any};
ghost use Rattle.std.specs.Option.{option_map};
ghost use Rattle.fx_listen.specs.Listening as spec;
ghost use Rattle.fx_store_pairs.specs.Pairs.{is_among};
ghost use Rattle.fx_listen.specs.Sorting.{IsByName, IsFirst, is_above, is_below, is_from, is_heard, is_on, is_upto};

use crate::MOST_LIVE;
use fx_base::Name;
use fx_handles::{Owner, Owners};
use fx_store_pairs::Searched;
use std::alloc::{AllocError, Global};

/// How a listener is told of a change, as by JavaFX's `InvalidationListener` and `ChangeListener`.
#[derive(Clone, Copy, PartialEq, Eq, Debug)]
pub enum ListenKind {
    /// Once when the value may have changed, and again only after it was read.
    Invalid,
    /// At each change, with the values before and after.
    Change,
}

/// Who is told of a property's changes.
#[derive(Clone, Copy, PartialEq, Eq, Debug)]
pub struct Listener {
    /// Which listener it is, from 1 on; no other listener has this number.
    pub number: u32,
    pub name: Name,
    pub kind: ListenKind,
    /// With whom the listener dies, if with anybody.
    pub owner: Option<Owner>,
    /// What the listener was added with.
    pub tag: u32,
}

/// Whether there is no owner, or a living one.
pub fn has_life(owners: &Owners, owner: Option<Owner>) -> bool
    ensures { result ≡ spec.has_life owners.now.living owner }
{
    match owner {
        None => true,
        Some(owner) => owners.is_live(owner),
    }
}

impl Listener {
    fn is_live(&self, owners: &Owners) -> bool
        ensures { result ≡ spec.is_live owners.now.living self.now }
    {
        has_life(owners, self.owner)
    }

    fn is_heard(&self, owners: &Owners, kind: ListenKind) -> bool
        ensures { result ≡ is_heard owners.now.living kind self.now }
    {
        self.kind == kind && self.is_live(owners)
    }

    fn tells(&self, name: Name, kind: ListenKind) -> bool
        ensures { result ≡ spec.tells name.0 kind self.now }
    {
        self.name == name && self.kind == kind
    }

    fn is_equal(&self, name: Name, kind: ListenKind, owner: Option<Owner>, tag: u32) -> bool
        ensures { result ≡ spec.is_equal name.0 kind owner tag self.now }
    {
        self.tells(name, kind) && self.owner == owner && self.tag == tag
    }
}

/// How many listeners stand on properties before this one.
fn count_below(listeners: &[Listener], name: Name) -> usize
    requires { IsByName listeners.now }
    ensures bound { result ≤ length listeners.now }
    ensures front { take result listeners.now ≡ filter (is_below name.0) listeners.now }
    ensures rest { drop result listeners.now ≡ filter (is_from name.0) listeners.now }
{
    listeners.partition_point(|listener| listener.name.0 < name.0)
}

/// How many listeners stand on this property and those before.
fn count_upto(listeners: &[Listener], name: Name) -> usize
    requires { IsByName listeners.now }
    ensures bound { result ≤ length listeners.now }
    ensures front { take result listeners.now ≡ filter (is_upto name.0) listeners.now }
    ensures rest { drop result listeners.now ≡ filter (is_above name.0) listeners.now }
{
    listeners.partition_point(|listener| listener.name.0 <= name.0)
}

/// Where the listeners of the property stand: from the first place to before the second, found by binary searches.
fn places_on(listeners: &[Listener], name: Name) -> (usize, usize)
    requires { IsByName listeners.now }
    ensures order { result.0 ≤ result.1 }
    ensures bound { result.1 ≤ length listeners.now }
    ensures before { take result.0 listeners.now ≡ filter (is_below name.0) listeners.now }
    ensures found { slice_range listeners.now result.0 result.1 ≡ filter (is_on name.0) listeners.now }
    ensures behind { drop result.1 listeners.now ≡ filter (is_above name.0) listeners.now }
    ensures others { take result.0 listeners.now ++ drop result.1 listeners.now
        ≡ filter (spec.is_elsewhere name.0) listeners.now }
{
    (count_below(listeners, name), count_upto(listeners, name))
}

/// The listeners of the property.
pub fn listeners_on(listeners: &[Listener], name: Name) -> &[Listener]
    requires { IsByName listeners.now }
    ensures { result.now ≡ filter (is_on name.0) listeners.now }
{
    let (first, next) = places_on(listeners, name);
    &listeners[first..next]
}

/// The numbers of those that live and are told in this way.
pub fn numbers_heard(
    alloc: Global,
    owners: &Owners,
    listeners: &[Listener],
    kind: ListenKind,
) -> Result<Vec<u32>, AllocError>
    ensures { IfOk result (λ numbers. numbers.items
        ≡ spec.numbers_of (filter (is_heard owners.now.living kind) listeners.now)) }
{
    listeners
        .iter()
        .filter(|listener| listener.is_heard(owners, kind))
        .map(|listener| listener.number)
        .collect(alloc)
}

/// Those that live and are told in this way.
pub fn heard(
    alloc: Global,
    owners: &Owners,
    listeners: &[Listener],
    kind: ListenKind,
) -> Result<Vec<Listener>, AllocError>
    ensures { IfOk result (λ found. found.items ≡ filter (is_heard owners.now.living kind) listeners.now) }
{
    listeners
        .iter()
        .copied()
        .filter(|listener| listener.is_heard(owners, kind))
        .collect(alloc)
}

/// Whether some of them lives and is told in this way.
pub fn is_any_heard(owners: &Owners, listeners: &[Listener], kind: ListenKind) -> bool
    ensures { result ≡ list_any (is_heard owners.now.living kind) listeners.now }
{
    listeners
        .iter()
        .any(|listener| listener.is_heard(owners, kind))
}

/// Whether the listener of this number is among them and lives.
pub fn is_listening(owners: &Owners, listeners: &[Listener], number: u32) -> bool
    ensures { result ≡ list_any (λ listener. (listener.number == number) && spec.is_live owners.now.living listener)
        listeners.now }
{
    listeners.iter().any(|listener| listener.number == number && listener.is_live(owners))
}

/// What the living listener of this number on the property was added with.
pub fn tag_of(owners: &Owners, listeners: &[Listener], name: Name, number: u32) -> Option<u32>
    requires { IsByName listeners.now }
    ensures { result ≡ option_map (λ listener. listener.tag)
        (find (spec.is_numbered name.0 number) (spec.living_in owners.now.living listeners.now)) }
{
    tag_among(owners, listeners_on(listeners, name), number)
}

/// What the living listener of this number among them was added with.
fn tag_among(owners: &Owners, listeners: &[Listener], number: u32) -> Option<u32>
    ensures { result ≡ option_map (λ listener. listener.tag)
        (find (λ listener. (listener.number == number) && spec.is_live owners.now.living listener) listeners.now) }
{
    match listeners.iter().find(|listener| listener.number == number && listener.is_live(owners)) {
        Some(listener) => Some(listener.tag),
        None => None,
    }
}

/// How many of them live.
fn count_live(owners: &Owners, listeners: &[Listener]) -> usize
    ensures { result ≡ length (spec.living_in owners.now.living listeners.now) }
{
    listeners
        .iter()
        .filter(|listener| listener.is_live(owners))
        .count()
}

/// Whether so many live that no more may be added. Fewer than these are not looked at.
pub fn is_full_of_living(owners: &Owners, listeners: &[Listener]) -> bool
    ensures { result ≡ nat_le 10000 (length (spec.living_in owners.now.living listeners.now)) }
{
    if listeners.len() < MOST_LIVE {
        return false;
    }
    count_live(owners, listeners) >= MOST_LIVE
}

/// The place of the first equal one among those of one property.
fn place_among(
    listeners: &[Listener],
    name: Name,
    kind: ListenKind,
    owner: Option<Owner>,
    tag: u32,
) -> Option<usize>
    ensures { result ≡ position (spec.is_equal name.0 kind owner tag) listeners.now }
{
    listeners
        .iter()
        .position(|listener| listener.is_equal(name, kind, owner, tag))
}

/// The place of the first equal one.
pub fn place_of(
    listeners: &[Listener],
    name: Name,
    kind: ListenKind,
    owner: Option<Owner>,
    tag: u32,
) -> Option<usize>
    requires { IsByName listeners.now }
    ensures first { IfSome result (IsFirst (spec.is_equal name.0 kind owner tag) listeners.now) }
    ensures none { IfNone result (list_any (spec.is_equal name.0 kind owner tag) listeners.now ≡ false) }
{
    let (first, next) = places_on(listeners, name);
    let place = place_among(&listeners[first..next], name, kind, owner, tag)?;
    Some(first + place)
}

/// Takes the dead out where there are as many as may live.
fn prune(listeners: &mut Vec<Listener>, owners: &Owners)
    ensures pruned { listeners.new.items ≡ spec.pruned owners.now.living listeners.old.items }
    ensures room { vec_capacity listeners.new ≡ vec_capacity listeners.old }
    ensures fewer { vec_len listeners.new ≤ vec_len listeners.old }
{
    if listeners.len() >= MOST_LIVE {
        listeners.retain(|listener| listener.is_live(owners));
    }
}

/// Puts the listener behind all on its property, where there is room.
fn insert(listeners: &mut Vec<Listener>, listener: Listener)
    requires sorted { IsByName listeners.old.items }
    requires room { vec_len listeners.old < vec_capacity listeners.old }
    ensures { listeners.new.items ≡ spec.placed listener listeners.old.items }
{
    let place = count_upto(listeners.as_slice(), listener.name);
    match listeners.insert(place, listener) {
        Ok(()) => {}
        Err(_) => unreachable!(),
    }
}

/// Adds the listener, or leaves all as it was.
pub fn add(
    listeners: &mut Vec<Listener>,
    owners: &Owners,
    listener: Listener,
) -> Result<(), AllocError>
    requires sorted { IsByName listeners.old.items }
    ensures ok { OnOk result (listeners.new.items
        ≡ spec.placed listener (spec.pruned owners.now.living listeners.old.items)) }
    ensures err { OnErr result (listeners.new.items ≡ listeners.old.items) }
{
    listeners.reserve(1)?;
    prune(listeners, owners);
    insert(listeners, listener);
    Ok(())
}

/// Takes out the first equal one, and answers whether there was one.
pub fn remove_first(
    listeners: &mut Vec<Listener>,
    name: Name,
    kind: ListenKind,
    owner: Option<Owner>,
    tag: u32,
) -> bool
    requires { IsByName listeners.old.items }
    ensures found { result ≡ list_any (spec.is_equal name.0 kind owner tag) listeners.old.items }
    ensures removed { listeners.new.items
        ≡ spec.without_first (spec.is_equal name.0 kind owner tag) listeners.old.items }
{
    match place_of(listeners.as_slice(), name, kind, owner, tag) {
        None => false,
        Some(place) => {
            listeners.remove(place);
            true
        }
    }
}

/// Takes out all on the property. Where there are none, nothing is moved.
pub fn forget(listeners: &mut Vec<Listener>, name: Name)
    requires { IsByName listeners.old.items }
    ensures { listeners.new.items ≡ filter (spec.is_elsewhere name.0) listeners.old.items }
{
    let (first, next) = places_on(listeners.as_slice(), name);
    if first < next {
        listeners.drain(first..next);
    }
}

/// Takes out all on these properties. All are looked at, in one pass.
pub fn forget_all(listeners: &mut Vec<Listener>, names: &Searched)
    ensures { listeners.new.items
        ≡ filter (λ listener. not (is_among names.now listener.name.0)) listeners.old.items }
{
    listeners.retain(|listener| !names.has(listener.name));
}
