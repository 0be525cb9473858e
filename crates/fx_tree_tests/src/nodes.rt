//! Tests of the tree: each call, and a list of commands whose answers and lists were computed by a second tree, written
//! in another language. What is done with a tree stands in functions that are lent it.
use fx_base::NodeKey;
use fx_tree::*;
use std::alloc::Global;
use std::test::Fail;

/// Each command is what it does (`+` attaches, `-` detaches, `x` drops and `r` makes the root), one or two nodes, the
/// place, and the letter of its answer. The nodes are `a` to `z` and `A` to `D` in the order of their births.
const COMMANDS: &str =
    "+xl2P +Ao0. +Cq0. +ra0. +if1P +yw2P +eb0. +fm0. rC  . +fr0. +lg0. +kj2P +tv0. +lp0. +pl0W +Bw0. +sd0. +dz0. rl  A ri  A +ds0W +bn0. +kq0H +iD0. +vf0. +pf0H rD  H -b  . +xs1P -e  N +DC0A +ei1P +fc1. +eo2H +qo0H -i  N +pm0H -A  N rf  H -B  N +ft2W xl  . +zz2W +yA0. -i  N +kb1P ry  A +kj2P +li1S +DB1P +kh0. +DC0A -f  . rq  H -j  N ry  A +xx1W +hy0. -h  . +bj0. -g  S rb  A -o  . +mv2H +hw0H +mi0. rl  S +rk2P xk  . rj  H ";

/// The subtrees of the thirty nodes in pre-order, of none that is dropped.
const SUBTREES: &str =
    "a bjn c dz e fracmiD - hyA iD j - - miD n o - q ra sdz tv u v w x yA z A Bw Cq D ";

/// The paths to the thirty nodes.
const PATHS: &str =
    "fra b fc sd e f - h fmi bj - - fm bn o - Cq fr s t u tv Bw x hy sdz hyA B C fmiD ";

fn letter(answer: Result<(), TreeError>) -> u8 {
    match answer {
        Ok(()) => b'.',
        Err(TreeError::StaleKey) => b'S',
        Err(TreeError::WouldLoop) => b'W',
        Err(TreeError::HasParent) => b'H',
        Err(TreeError::Attached) => b'A',
        Err(TreeError::Place) => b'P',
        Err(TreeError::NoParent) => b'N',
        Err(_) => b'?',
    }
}

fn node(keys: &[NodeKey], name: u8) -> NodeKey {
    let never_made = NodeKey { slot: 0, birth: 0 };
    let place = match name {
        b'a'..=b'z' => name - b'a',
        _ => name.saturating_sub(b'A').saturating_add(26),
    };
    keys.get(usize::from(place)).copied().unwrap_or(never_made)
}

fn name(key: NodeKey) -> u8 {
    let place = u8::try_from(key.birth).unwrap_or(0).saturating_sub(1);
    if place < 26 {
        b'a' + place
    } else {
        (place - 26).saturating_add(b'A')
    }
}

fn apply(alloc: Global, tree: &mut Tree, keys: &[NodeKey], command: &[u8]) -> u8 {
    match command {
        [b'+', parent, child, place, ..] => {
            let place = usize::from(place.saturating_sub(b'0'));
            letter(tree.attach(alloc, node(keys, *parent), node(keys, *child), place))
        }
        [b'-', child, ..] => letter(tree.detach(alloc, node(keys, *child))),
        [b'x', key, ..] => letter(tree.drop_tree(node(keys, *key))),
        [b'r', key, ..] => letter(tree.set_root(alloc, node(keys, *key))),
        _ => b'?',
    }
}

/// The names of these nodes, or a dash for a dead one.
fn push_names(found: Result<Vec<NodeKey>, TreeError>, names: &mut Vec<u8>) -> Result<(), Fail> {
    match found {
        Ok(keys) => {
            for key in keys.as_slice() {
                names.push(name(*key))?;
            }
        }
        Err(_) => names.push(b'-')?,
    }
    names.push(b' ')?;
    Ok(())
}

/// Thirty nodes, in the order of their births.
fn born(alloc: Global, tree: &mut Tree) -> Result<Vec<NodeKey>, Fail> {
    let mut keys = Vec::new(alloc);
    for _ in 0..30 {
        keys.push(tree.make(alloc)?)?;
    }
    Ok(keys)
}

/// Whether each command has its answer.
fn answers(alloc: Global, tree: &mut Tree, keys: &[NodeKey]) -> bool {
    for command in COMMANDS.as_bytes().chunks(6) {
        let got = apply(alloc, tree, keys, command);
        if command.get(4).copied() != Some(got) {
            return false;
        }
    }
    true
}

fn subtrees(alloc: Global, tree: &Tree, keys: &[NodeKey]) -> Result<Vec<u8>, Fail> {
    let mut names = Vec::new(alloc);
    for key in keys {
        push_names(tree.subtree(alloc, *key), &mut names)?;
    }
    Ok(names)
}

fn paths(alloc: Global, tree: &Tree, keys: &[NodeKey]) -> Result<Vec<u8>, Fail> {
    let mut names = Vec::new(alloc);
    for key in keys {
        push_names(tree.path(alloc, *key), &mut names)?;
    }
    Ok(names)
}

fn is_as_the_second_tree(alloc: Global, tree: &mut Tree) -> Result<bool, Fail> {
    let keys = born(alloc, tree)?;
    let is_answered = answers(alloc, tree, keys.as_slice());
    let subtrees = subtrees(alloc, tree, keys.as_slice())?;
    let paths = paths(alloc, tree, keys.as_slice())?;
    Ok(
        is_answered
            && subtrees.as_slice() == SUBTREES.as_bytes()
            && paths.as_slice() == PATHS.as_bytes(),
    )
}

#[test]
fn answers_as_the_second_tree(rt: HostRuntime) -> Result<(), Fail> {
    let mut tree = Tree::new(rt.alloc());
    let is_as = is_as_the_second_tree(rt.alloc(), &mut tree)?;
    assert!(rt; is_as);
    Ok(())
}

/// A further node, or a key of none.
fn made(alloc: Global, tree: &mut Tree) -> NodeKey {
    match tree.make(alloc) {
        Ok(key) => key,
        Err(_) => NodeKey { slot: 0, birth: 0 },
    }
}

/// A root, and a child that goes.
fn grows_and_shrinks(alloc: Global, tree: &mut Tree) -> bool {
    let root = made(alloc, tree);
    let child = made(alloc, tree);
    tree.set_root(alloc, root).is_ok()
        && tree.root() == Some(root)
        && tree.attach(alloc, root, child, 0).is_ok()
        && tree.parent(child) == Some(root)
        && tree.detach(alloc, child).is_ok()
        && tree.drop_tree(child).is_ok()
        && tree.children(child).is_none()
}

#[test]
fn a_child_comes_and_goes(rt: HostRuntime) {
    let mut tree = Tree::new(rt.alloc());
    assert!(rt; grows_and_shrinks(rt.alloc(), &mut tree));
}
