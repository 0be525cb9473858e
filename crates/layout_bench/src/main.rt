//! Measures an HBox, or a GridPane with spans, and places its children, so many times, and prints a checksum of the
//! rectangles. A script counts its instructions; no other crate stands on this one.
#![tactic(auto)]

ghost use Rattle.std.specs.Prelude.{◌≡◌, ◌≤◌, length};
ghost use Rattle.fx_grid.specs.Grid.{IsGrid};

use anyhow::bail;
use fx_base::{ChildSize, Ledgers, List, PaneFacts, Rect, Sides, Sizes, Text, Work};
use fx_boxes::hbox;
use fx_grid::grid;
use std::alloc::{AllocError, Global};
use std::env;
use std::marker::Brand;
use std::sync::ledger::Blank;

const NO_SIDES: Sides = Sides {
    top: 0,
    right: 0,
    bottom: 0,
    left: 0,
};

const NO_SIZES: Sizes = Sizes {
    min_w: -1,
    pref_w: -1,
    max_w: -1,
    min_h: -1,
    pref_h: -1,
    max_h: -1,
};

/// A child of 20 by 10 pixels, with two pixels at its left.
const CHILD: ChildSize = ChildSize {
    sizes: Sizes {
        min_w: 10,
        pref_w: 20,
        max_w: 100,
        min_h: 5,
        pref_h: 10,
        max_h: 100,
    },
    margin: Sides {
        top: 0,
        right: 0,
        bottom: 0,
        left: 2,
    },
    hgrow: Some(2),
    vgrow: Some(1),
    alignment: None,
    halign: None,
    valign: None,
    top: None,
    right: None,
    bottom: None,
    left: None,
    column: 0,
    row: 0,
    column_span: 1,
    row_span: 1,
    fill_width: true,
    fill_height: true,
    edge: None,
    layout_x: 0,
    layout_y: 0,
};

/// What is laid out, and how often.
#[derive(Clone, Copy)]
struct Task {
    in_grid: bool,
    /// How many children a row has, or how many columns and rows a grid.
    count: u32,
    /// The width of the pane; its height is the same.
    width: i64,
    rounds: u64,
}

fn main(rt: HostRuntime) -> anyhow::Result<()> {
    let mut words = env::args(&rt)?;
    let _program = words.next();
    let (Some(pane), Some(count), Some(width), Some(rounds)) = (
        words.next(),
        words.next(),
        words.next(),
        words.next(),
    ) else {
        bail!("usage: layout_bench row|grid COUNT WIDTH ROUNDS");
    };
    let task = Task {
        in_grid: pane.as_str() == "grid",
        count: count.as_str().parse::<u32>()?,
        width: width.as_str().parse::<i64>()?,
        rounds: rounds.as_str().parse::<u64>()?,
    };
    let sum = start::<Brand>(
        rt.alloc(),
        task,
        Blank::new(1),
        Blank::new(1),
        Blank::new(1),
        Blank::new(1),
    )?;
    println!(rt; "{sum}")?;
    Ok(())
}

fn start<L: Ledgers>(
    alloc: Global,
    task: Task,
    evaluated: Blank,
    styled: Blank,
    laid: Blank,
    painted: Blank,
) -> anyhow::Result<i64>
    requires evaluated { (evaluated.name ≡ L.evaluated_name) × (evaluated.parts ≡ 1) }
    requires styled { (styled.name ≡ L.styled_name) × (styled.parts ≡ 1) }
    requires laid { (laid.name ≡ L.laid_name) × (laid.parts ≡ 1) }
    requires painted { (painted.name ≡ L.painted_name) × (painted.parts ≡ 1) }
{
    let mut work: Work<L> = Work::new(evaluated, styled, laid, painted);
    let pane = facts(alloc);
    let children = if task.in_grid {
        grid_children(alloc, task.count)?
    } else {
        row_children(alloc, task.count)?
    };
    let children = children.as_slice();
    if children.len() > 4096 || !grid::is_grid(&pane, children) {
        bail!("too many children");
    }
    let mut sum = 0i64;
    for _ in 0..task.rounds {
        let rects = laid_out(alloc, task, &pane, children, &mut work)?;
        sum = sum.wrapping_add(checksum(rects.as_slice()));
    }
    Ok(sum)
}

/// A pane with gaps of a pixel.
fn facts(alloc: Global) -> PaneFacts {
    PaneFacts {
        own: NO_SIZES,
        insets: NO_SIDES,
        alignment: 4,
        spacing: 1,
        hgap: 1,
        vgap: 1,
        fill_width: true,
        fill_height: true,
        font_size: 6,
        text: Text::new(alloc),
        wrap: false,
        columns: List::new(alloc),
        rows: List::new(alloc),
    }
}

/// So many children, of which every second grows only where no other grows.
fn row_children(alloc: Global, count: u32) -> Result<Vec<ChildSize>, AllocError> {
    let mut children = Vec::new(alloc);
    for k in 0..count {
        let hgrow = if k % 2 == 0 { Some(2) } else { Some(1) };
        children.push(ChildSize { hgrow, ..CHILD })?;
    }
    Ok(children)
}

/// A child for each cell of so many columns and rows; in every row one child in eight covers two columns, and one in
/// eight two rows.
fn grid_children(alloc: Global, side: u32) -> Result<Vec<ChildSize>, AllocError> {
    let mut children = Vec::new(alloc);
    for row in 0..side {
        for column in 0..side {
            let column_span = if column % 8 == 3 { 2 } else { 1 };
            let row_span = if column % 8 == 6 { 2 } else { 1 };
            children.push(ChildSize {
                column,
                row,
                column_span,
                row_span,
                ..CHILD
            })?;
        }
    }
    Ok(children)
}

/// Measures the pane and places its children.
fn laid_out<L: Ledgers>(
    alloc: Global,
    task: Task,
    pane: &PaneFacts,
    children: &[ChildSize],
    work: &mut Work<L>,
) -> Result<Vec<Rect>, AllocError>
    requires few { length children.now ≤ 4096 }
    requires grid { IsGrid pane.now children.now }
{
    if task.in_grid {
        let sizes = grid::measure(alloc, pane, children, work)?;
        let height = task.width.max(sizes.min_h);
        return grid::place(alloc, pane, children, task.width, height, work);
    }
    let sizes = hbox::measure(alloc, pane, children, work)?;
    let height = task.width.max(sizes.min_h);
    hbox::place(alloc, pane, children, task.width, height, work)
}

fn checksum(rects: &[Rect]) -> i64 {
    let mut sum = 0i64;
    for rect in rects {
        sum = sum.wrapping_mul(31).wrapping_add(rect.x ^ rect.w);
    }
    sum
}
