//! Pairs: their list through its changes, and the groups of a chain. What is done with the pairs stands in functions
//! that are lent them.
use fx_base::Name;
use fx_store_pairs::Pairs;
use std::alloc::{AllocError, Global};

/// A chain from 3 to 0, made in no order, and a pair apart that was made twice.
const MADE: [(u32, u32); 5] = [(2, 1), (5, 6), (0, 1), (6, 5), (2, 3)];

fn add_all(pairs: &mut Pairs) -> Result<(), AllocError> {
    for (one, other) in MADE {
        pairs.add(Name(one), Name(other))?;
    }
    Ok(())
}

fn come_and_go(pairs: &mut Pairs) -> bool {
    if add_all(pairs).is_err() || pairs.len() != 5 || !pairs.is_paired(Name(3)) {
        return false;
    }
    pairs.remove_last();
    if pairs.len() != 4 || pairs.is_paired(Name(3)) {
        return false;
    }
    pairs.remove_first(Name(6), Name(5));
    match pairs.as_slice() {
        [_, _, last] => last.0 == Name(6),
        _ => false,
    }
}

#[test]
fn pairs_come_and_go(rt: HostRuntime) {
    let mut pairs = Pairs::new(rt.alloc());
    assert!(rt; come_and_go(&mut pairs));
    pairs.forget(&[Name(1), Name(4)]);
    assert!(rt; pairs.len() == 1 && pairs.is_paired(Name(5)));
}

/// Whether the group is this, in the order in which it is found.
fn has_group(alloc: Global, pairs: &mut Pairs, name: Name, expected: &[Name]) -> bool {
    match (add_all(pairs), pairs.group(alloc, name)) {
        (Ok(()), Ok(group)) => group.as_slice() == expected,
        _ => false,
    }
}

#[test]
fn groups_follow_pairs_both_ways(rt: HostRuntime) {
    let alloc = rt.alloc();
    let mut pairs = Pairs::new(alloc);
    let expected = [Name(1), Name(2), Name(0), Name(3)];
    assert!(rt; has_group(alloc, &mut pairs, Name(1), &expected));
}
