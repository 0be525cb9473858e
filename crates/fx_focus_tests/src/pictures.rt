//! A pane with two nodes that overlap and one that is disabled: what lies under points, and where the focus goes.
use fx_base::{List, NodeKey, Rect};
use fx_focus::*;
use fx_picture::{Entry, Picture};
use fx_tree::Tree;
use std::alloc::Global;
use std::test::Fail;

fn entry(alloc: Global, key: NodeKey, place: i64, length: i64) -> Entry {
    Entry {
        key,
        path: List::new(alloc),
        rect: Rect {
            x: place,
            y: place,
            w: length,
            h: length,
        },
        shapes: List::new(alloc),
        disabled: false,
        focusable: true,
    }
}

/// The pane, and its three nodes.
fn nodes(alloc: Global, tree: &mut Tree) -> Result<[NodeKey; 4], Fail> {
    let keys = [
        tree.make(alloc)?,
        tree.make(alloc)?,
        tree.make(alloc)?,
        tree.make(alloc)?,
    ];
    tree.set_root(alloc, keys[0])?;
    for place in 0..3usize {
        tree.attach(alloc, keys[0], keys[place + 1], place)?;
    }
    Ok(keys)
}

/// The pane covers 0 to 9 and takes no focus; its nodes cover 0 to 4, 3 to 7 and 6 to 7, and the last one is disabled.
fn overlapping(alloc: Global, keys: [NodeKey; 4]) -> Result<Picture, Fail> {
    let mut pane = entry(alloc, keys[0], 0, 10);
    pane.focusable = false;
    let mut disabled = entry(alloc, keys[3], 6, 2);
    disabled.disabled = true;
    let entries = vec![in alloc;
        pane,
        entry(alloc, keys[1], 0, 5),
        entry(alloc, keys[2], 3, 5),
        disabled,
    ]?;
    Ok(Picture {
        entries: List::from_vec(entries),
    })
}

fn are_picked(tree: &Tree, picture: &Picture, keys: [NodeKey; 4]) -> bool {
    pick(tree, picture, 4, 4) == Some(keys[2])
        && pick(tree, picture, 7, 7) == Some(keys[2])
        && pick(tree, picture, 8, 8) == Some(keys[0])
        && pick(tree, picture, 10, 0).is_none()
        && pick(tree, picture, -1, 0).is_none()
}

fn picks(alloc: Global, tree: &mut Tree) -> Result<bool, Fail> {
    let keys = nodes(alloc, tree)?;
    let picture = overlapping(alloc, keys)?;
    let are_picked = are_picked(tree, &picture, keys);
    tree.detach(alloc, keys[2])?;
    Ok(are_picked && pick(tree, &picture, 4, 4) == Some(keys[1]))
}

#[test]
fn the_last_that_is_not_disabled_is_picked(rt: HostRuntime) -> Result<(), Fail> {
    let mut tree = Tree::new(rt.alloc());
    let is_so = picks(rt.alloc(), &mut tree)?;
    assert!(rt; is_so);
    Ok(())
}

fn wraps(tree: &Tree, picture: &Picture, keys: [NodeKey; 4]) -> bool {
    let [pane, first, second, disabled] = keys;
    next_focus(tree, picture, None, false) == Some(first)
        && next_focus(tree, picture, Some(first), false) == Some(second)
        && next_focus(tree, picture, Some(second), false) == Some(first)
        && next_focus(tree, picture, None, true) == Some(second)
        && next_focus(tree, picture, Some(first), true) == Some(second)
        && next_focus(tree, picture, Some(disabled), true) == Some(second)
        && next_focus(tree, picture, Some(pane), false) == Some(first)
}

fn moves_the_focus(alloc: Global, tree: &mut Tree) -> Result<bool, Fail> {
    let keys = nodes(alloc, tree)?;
    let picture = overlapping(alloc, keys)?;
    let is_wrapped = wraps(tree, &picture, keys);
    tree.detach(alloc, keys[1])?;
    Ok(is_wrapped && next_focus(tree, &picture, Some(keys[2]), false) == Some(keys[2]))
}

#[test]
fn the_focus_wraps(rt: HostRuntime) -> Result<(), Fail> {
    let mut tree = Tree::new(rt.alloc());
    let is_so = moves_the_focus(rt.alloc(), &mut tree)?;
    assert!(rt; is_so);
    Ok(())
}

/// Whether the pointer leaves and comes to these.
fn is_change(
    alloc: Global,
    before: &[NodeKey],
    after: &[NodeKey],
    left: &[NodeKey],
    came: &[NodeKey],
) -> bool {
    match hover_change(alloc, before, after) {
        Ok(change) => change.left.as_slice() == left && change.came.as_slice() == came,
        Err(_) => false,
    }
}

#[test]
fn the_deepest_is_left_first(rt: HostRuntime) {
    let alloc = rt.alloc();
    let pane = NodeKey { slot: 0, birth: 1 };
    let first = NodeKey { slot: 1, birth: 2 };
    let second = NodeKey { slot: 2, birth: 3 };
    assert!(rt; is_change(alloc, &[pane, first], &[second], &[first, pane], &[second]));
    assert!(rt; is_change(alloc, &[pane], &[pane, second], &[], &[second]));
}
