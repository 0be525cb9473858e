//! Builds a tree of nodes, moves subtrees in it, walks it in pre-order and drops it, and prints a checksum of the
//! walks. A script counts its instructions; no other crate stands on this one.
#![tactic(auto)]

use anyhow::bail;
use fx_base::NodeKey;
use fx_tree::{Tree, TreeError};
use std::alloc::Global;
use std::env;
use std::mem::forget;

/// How many children each node is built with.
const CHILDREN: usize = 8;

fn main(rt: HostRuntime) -> anyhow::Result<()> {
    let words = env::args(&rt)?.collect::<Vec<String>>(rt.alloc())?;
    let sum = sum_of(rt.alloc(), words.as_slice())?;
    println!(rt; "{sum}")?;
    Ok(())
}

/// The checksum of what the words of the command line ask for.
fn sum_of(alloc: Global, words: &[String]) -> anyhow::Result<u32> {
    let [_, nodes, moves, walks, ..] = words else {
        bail!("usage: tree_bench NODES MOVES WALKS");
    };
    let nodes = nodes.as_str().parse::<usize>()?;
    let moves = moves.as_str().parse::<usize>()?;
    let walks = walks.as_str().parse::<usize>()?;
    Ok(run(alloc, nodes, moves, walks)?)
}

fn run(alloc: Global, nodes: usize, moves: usize, walks: usize) -> Result<u32, TreeError> {
    let mut tree = Tree::new(alloc);
    let sum = work_on(alloc, &mut tree, nodes, moves, walks);
    // The process ends right after this, so nothing of the tree is freed.
    forget(tree);
    sum
}

fn work_on(
    alloc: Global,
    tree: &mut Tree,
    nodes: usize,
    moves: usize,
    walks: usize,
) -> Result<u32, TreeError> {
    let top = tree.make(alloc)?;
    let keys = build(alloc, tree, top, nodes)?;
    move_subtrees(alloc, tree, keys.as_slice(), moves)?;
    let sum = walk(alloc, tree, top, walks)?;
    tree.drop_tree(top)?;
    Ok(sum)
}

/// Makes so many nodes more, level by level.
fn build(
    alloc: Global,
    tree: &mut Tree,
    top: NodeKey,
    nodes: usize,
) -> Result<Vec<NodeKey>, TreeError> {
    let mut keys = Vec::new(alloc);
    keys.push(top)?;
    for place in 0..nodes {
        let key = tree.make(alloc)?;
        let parent = keys
            .as_slice()
            .get(place / CHILDREN)
            .copied()
            .unwrap_or(top);
        tree.attach(alloc, parent, key, 0)?;
        keys.push(key)?;
    }
    Ok(keys)
}

/// Moves nodes of the second level to others of the first, with all that stand below them.
fn move_subtrees(
    alloc: Global,
    tree: &mut Tree,
    keys: &[NodeKey],
    moves: usize,
) -> Result<(), TreeError> {
    for turn in 0..moves {
        let round = turn.wrapping_add(turn / 64);
        let (Some(parent), Some(child)) = (keys.get(1 + round % 8), keys.get(9 + turn % 64)) else {
            return Ok(());
        };
        tree.detach(alloc, *child)?;
        tree.attach(alloc, *parent, *child, 0)?;
    }
    Ok(())
}

fn walk(alloc: Global, tree: &Tree, top: NodeKey, walks: usize) -> Result<u32, TreeError> {
    let mut sum = 0u32;
    for _ in 0..walks {
        let keys = tree.subtree(alloc, top)?;
        for key in keys.as_slice() {
            sum = sum.wrapping_mul(31).wrapping_add(key.birth);
        }
    }
    Ok(sum)
}
