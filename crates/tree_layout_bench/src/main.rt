//! Lays out a tree of all panes, and then so many times after one leaf has changed or everything has, or rows of labels
//! of which each changes each time, and prints a checksum of the rectangles. A script counts its instructions; no other
//! crate stands on this one.
#![tactic(auto)]

ghost use Rattle.std.specs.Prelude.{◌≡◌, length};

use anyhow::bail;
use fx_base::{Ledgers, List, NodeKey, Rect, Text, Work};
use fx_kinds::{BoxFacts, Class};
use fx_layout::{Layouts, can_be_laid};
use fx_look::Look;
use std::alloc::{AllocError, Global};
use std::env;
use std::marker::Brand;
use std::mem::forget;
use std::sync::ledger::Blank;

/// How many children a pane has in the tree of all panes.
const CHILDREN: usize = 9;

/// A row and its labels.
const ROW: usize = 11;

/// What is laid out, and what changes each time.
#[derive(Clone, Copy)]
enum Part {
    /// A tree of all panes, of which everything is laid out anew.
    All,
    /// The same, of which a leaf with its ancestors is laid out anew.
    Leaf,
    /// Rows of labels one below the other, of which each label gets another width.
    Rows,
}

/// What is laid out, and how often.
#[derive(Clone, Copy)]
struct Task {
    part: Part,
    nodes: usize,
    rounds: u64,
}

fn main(rt: HostRuntime) -> anyhow::Result<()> {
    let words = env::args(&rt)?.collect::<Vec<String>>(rt.alloc())?;
    start::<Brand, HostRuntime>(
        &rt,
        words.as_slice(),
        Blank::new(1),
        Blank::new(1),
        Blank::new(1),
        Blank::new(1),
    )
}

fn start<L: Ledgers, R: Print + AllocGlobal>(
    rt: &R,
    words: &[String],
    evaluated: Blank,
    styled: Blank,
    laid: Blank,
    painted: Blank,
) -> anyhow::Result<()>
    requires evaluated { (evaluated.name ≡ L.evaluated_name) × (evaluated.parts ≡ 1) }
    requires styled { (styled.name ≡ L.styled_name) × (styled.parts ≡ 1) }
    requires laid { (laid.name ≡ L.laid_name) × (laid.parts ≡ 1) }
    requires painted { (painted.name ≡ L.painted_name) × (painted.parts ≡ 1) }
{
    let mut work: Work<L> = Work::new(evaluated, styled, laid, painted);
    tell(rt, words, &mut work)
}

/// Does what the words of the command line ask for, and prints a checksum.
fn tell<L: Ledgers, R: Print + AllocGlobal>(
    rt: &R,
    words: &[String],
    work: &mut Work<L>,
) -> anyhow::Result<()> {
    let task = task_of(words)?;
    let sum = carry_out(rt.alloc(), task, work)?;
    println!(rt; "{sum}")?;
    Ok(())
}

/// What the words of the command line ask for.
fn task_of(words: &[String]) -> anyhow::Result<Task> {
    let [_, part, nodes, rounds, ..] = words else {
        bail!("usage: tree_layout_bench all|leaf|rows NODES ROUNDS");
    };
    Ok(Task {
        part: part_named(part.as_str()),
        nodes: nodes.as_str().parse::<usize>()?,
        rounds: rounds.as_str().parse::<u64>()?,
    })
}

fn carry_out<L: Ledgers>(alloc: Global, task: Task, work: &mut Work<L>) -> anyhow::Result<i64> {
    let nodes = nodes(alloc, task.part, task.nodes)?;
    let sum = with_nodes(alloc, task, nodes.as_slice(), work);
    // The process ends right after this, so the nodes, and what is made for them below, aren't freed.
    forget(nodes);
    sum
}

fn with_nodes<L: Ledgers>(
    alloc: Global,
    task: Task,
    nodes: &[BoxFacts],
    work: &mut Work<L>,
) -> anyhow::Result<i64> {
    let mut looks = looks(alloc, nodes.len())?;
    let sum = with_looks(alloc, task, nodes, &mut looks, work);
    forget(looks);
    sum
}

fn with_looks<L: Ledgers>(
    alloc: Global,
    task: Task,
    nodes: &[BoxFacts],
    looks: &mut Vec<Look>,
    work: &mut Work<L>,
) -> anyhow::Result<i64> {
    let all = places(alloc, nodes.len())?;
    let mut layouts = Layouts::new(alloc);
    let done = lay_out(
        alloc,
        task,
        nodes,
        looks,
        all.as_slice(),
        &mut layouts,
        work,
    );
    let sum = checksum(layouts.rects());
    forget(layouts);
    done?;
    Ok(sum)
}

/// Lays out all nodes, and then those of the task so many times.
fn lay_out<L: Ledgers>(
    alloc: Global,
    task: Task,
    nodes: &[BoxFacts],
    looks: &mut Vec<Look>,
    all: &[usize],
    layouts: &mut Layouts,
    work: &mut Work<L>,
) -> anyhow::Result<()> {
    if !can_be_laid(nodes) || looks.len() != nodes.len() {
        bail!("too many nodes, or none");
    }
    layouts.update(alloc, nodes, looks.as_slice(), None, all, work)?;
    let chain = chain(alloc, nodes.len())?;
    for round in 0..task.rounds {
        let first = first_changed(task.part, nodes.len());
        widen(task.part, first, looks, round % 2 == 0);
        let listed = match task.part {
            Part::Leaf => chain.as_slice(),
            _ => all,
        };
        layouts.update(alloc, nodes, looks.as_slice(), None, listed, work)?;
    }
    Ok(())
}

fn part_named(name: &str) -> Part {
    match name {
        "all" => Part::All,
        "rows" => Part::Rows,
        _ => Part::Leaf,
    }
}

/// The first of the nodes that get another width each time.
fn first_changed(part: Part, count: usize) -> usize {
    match part {
        Part::Rows => 1,
        _ => count.saturating_sub(1),
    }
}

/// Makes nodes from a place on wider or narrower, but no row.
fn widen(part: Part, first: usize, looks: &mut Vec<Look>, is_wide: bool)
    ensures { length looks.new.items ≡ length looks.old.items }
{
    for place in first..looks.len() {
        if !is_row(part, place) {
            looks[place].pref_width = if is_wide { 31 } else { 30 };
        }
    }
}

fn is_row(part: Part, place: usize) -> bool {
    match part {
        Part::Rows => place % ROW == 1,
        _ => false,
    }
}

fn places(alloc: Global, count: usize) -> Result<Vec<usize>, AllocError> {
    let mut places = Vec::with_capacity(alloc, count)?;
    for place in 0..count {
        places.push(place)?;
    }
    Ok(places)
}

/// The last leaf and its ancestors.
fn chain(alloc: Global, count: usize) -> Result<Vec<usize>, AllocError> {
    let mut chain = Vec::new(alloc);
    let mut place = count.saturating_sub(1);
    chain.push(place)?;
    for _ in 0..64 {
        if place == 0 {
            break;
        }
        place = (place - 1) / CHILDREN;
        chain.push(place)?;
    }
    Ok(chain)
}

/// A tree in which each node stands behind its parent.
fn nodes(alloc: Global, part: Part, count: usize) -> anyhow::Result<Vec<BoxFacts>> {
    let mut nodes = Vec::with_capacity(alloc, count)?;
    for place in 0..count {
        nodes.push(match part {
            Part::Rows => node(alloc, place, row_parent(place), row_class(place))?,
            _ => node(alloc, place, parent(place), class(place, count))?,
        })?;
    }
    Ok(nodes)
}

fn node(
    alloc: Global,
    place: usize,
    parent: Option<usize>,
    class: Class,
) -> anyhow::Result<BoxFacts> {
    Ok(BoxFacts {
        key: NodeKey {
            slot: place,
            birth: 1,
        },
        parent,
        class,
        constraints: List::new(alloc),
        edge: edge(place % CHILDREN),
        columns: List::new(alloc),
        rows: List::new(alloc),
        text: Text::from_str(alloc, "a label")?,
        layout_x: 0,
        layout_y: 0,
        focus_traversable: false,
    })
}

fn parent(place: usize) -> Option<usize> {
    if place == 0 {
        return None;
    }
    Some((place - 1) / CHILDREN)
}

/// Rows stand in the root, and each label behind its row.
fn row_parent(place: usize) -> Option<usize> {
    if place == 0 {
        return None;
    }
    match (place - 1) % ROW {
        0 => Some(0),
        behind => Some(place - behind),
    }
}

fn row_class(place: usize) -> Class {
    if place == 0 {
        Class::VBox
    } else if is_row(Part::Rows, place) {
        Class::HBox
    } else {
        Class::Label
    }
}

/// Nodes with children are panes of each kind in turn, and the others labels and regions.
fn class(place: usize, count: usize) -> Class {
    if place < count / CHILDREN {
        return pane(place % 7);
    }
    if place % 2 == 0 {
        Class::Label
    } else {
        Class::Region
    }
}

fn pane(kind: usize) -> Class {
    match kind {
        0 => Class::Pane,
        1 => Class::HBox,
        2 => Class::VBox,
        3 => Class::BorderPane,
        4 => Class::StackPane,
        5 => Class::AnchorPane,
        _ => Class::GridPane,
    }
}

/// Five children of a pane have an edge each.
fn edge(within: usize) -> Option<u8> {
    if within < 5 {
        u8::try_from(within).ok()
    } else {
        None
    }
}

fn looks(alloc: Global, count: usize) -> Result<Vec<Look>, AllocError> {
    let mut looks = Vec::with_capacity(alloc, count)?;
    for _ in 0..count {
        let mut look = Look::initial(alloc, 0)?;
        look.font_size = 6;
        looks.push(look)?;
    }
    Ok(looks)
}

fn checksum(rects: &[Rect]) -> i64 {
    let mut sum = 0i64;
    for rect in rects {
        sum = sum
            .wrapping_mul(31)
            .wrapping_add(rect.x ^ rect.y ^ rect.w ^ rect.h);
    }
    sum
}
