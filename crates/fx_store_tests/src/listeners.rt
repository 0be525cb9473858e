//! Listeners: each call once, and owners that share a slot. What is done with listeners stands in functions that are
//! lent them.
use fx_base::Name;
use fx_handles::{Owner, Owners};
use fx_listen::{ListenError, ListenKind, Listeners};
use std::alloc::Global;

const HEIGHT: Name = Name(3);

const WIDTH: Name = Name(7);

/// Whether just these are told of changes of the width.
fn tells(alloc: Global, listeners: &Listeners, owners: &Owners, expected: &[u32]) -> bool {
    match listeners.live_on(alloc, owners, WIDTH, ListenKind::Change) {
        Ok(numbers) => numbers.as_slice() == expected,
        Err(_) => false,
    }
}

/// Adds a listener to changes of the property; answers its number, or 0.
fn added(
    alloc: Global,
    listeners: &mut Listeners,
    owners: &Owners,
    name: Name,
    owner: Option<Owner>,
) -> u32 {
    listeners
        .add(alloc, owners, name, ListenKind::Change, owner, 5)
        .unwrap_or(0)
}

/// Two on the width and one on the height.
fn add_three(alloc: Global, listeners: &mut Listeners, owners: &Owners) -> bool {
    added(alloc, listeners, owners, WIDTH, None) == 1
        && added(alloc, listeners, owners, HEIGHT, None) == 2
        && added(alloc, listeners, owners, WIDTH, None) == 3
}

/// How many are told of changes of all properties, and the number of the first.
fn all_told(alloc: Global, listeners: &Listeners, owners: &Owners) -> (usize, u32) {
    match listeners.live(alloc, owners, ListenKind::Change) {
        Ok(all) => match all.as_slice() {
            [first, ..] => (all.len(), first.number),
            _ => (0, 0),
        },
        Err(_) => (0, 0),
    }
}

fn are_told(alloc: Global, listeners: &mut Listeners, owners: &Owners) -> bool {
    add_three(alloc, listeners, owners)
        && tells(alloc, listeners, owners, &[1, 3])
        && all_told(alloc, listeners, owners) == (3, 2)
        && listeners.has_change(owners, HEIGHT)
        && listeners.is_listening(owners, 3)
        && listeners.tag_of(owners, WIDTH, 3) == Some(5)
        && listeners.refuses_add(owners, None).is_none()
}

#[test]
fn tells_the_listeners_of_a_property(rt: HostRuntime) {
    let alloc = rt.alloc();
    let owners = Owners::new(alloc);
    let mut listeners = Listeners::new(alloc);
    assert!(rt; are_told(alloc, &mut listeners, &owners));
}

fn removes_first(alloc: Global, listeners: &mut Listeners, owners: &Owners) -> bool {
    add_three(alloc, listeners, owners)
        && listeners.remove_first(WIDTH, ListenKind::Change, None, 5)
        && !listeners.remove_first(WIDTH, ListenKind::Change, None, 6)
        && tells(alloc, listeners, owners, &[3])
}

fn forgets(alloc: Global, listeners: &mut Listeners, owners: &Owners) -> bool {
    listeners.forget(WIDTH);
    !listeners.is_listening(owners, 3)
        && listeners.given() == 3
        && added(alloc, listeners, owners, WIDTH, None) == 4
}

#[test]
fn removes_the_first_equal_one(rt: HostRuntime) {
    let alloc = rt.alloc();
    let owners = Owners::new(alloc);
    let mut listeners = Listeners::new(alloc);
    assert!(rt; removes_first(alloc, &mut listeners, &owners));
    assert!(rt; forgets(alloc, &mut listeners, &owners));
}

/// An owner dies, and another one takes its slot.
fn die(alloc: Global, listeners: &mut Listeners, owners: &mut Owners) -> bool {
    let Ok(first) = owners.make(alloc) else {
        return false;
    };
    if added(alloc, listeners, owners, WIDTH, Some(first)) != 1 || !owners.release(first) {
        return false;
    }
    let Ok(second) = owners.make(alloc) else {
        return false;
    };
    second.slot == first.slot
        && !listeners.has_change(owners, WIDTH)
        && listeners.refuses_add(owners, Some(first)) == Some(ListenError::StaleOwner)
        && added(alloc, listeners, owners, WIDTH, Some(second)) == 2
        && tells(alloc, listeners, owners, &[2])
}

#[test]
fn die_with_their_owner(rt: HostRuntime) {
    let alloc = rt.alloc();
    let mut owners = Owners::new(alloc);
    let mut listeners = Listeners::new(alloc);
    assert!(rt; die(alloc, &mut listeners, &mut owners));
}
