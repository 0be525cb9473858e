//! What is printed of an update: the size of the root, how many calls of panes it took, and the rectangle of each node.
use crate::updates::Update;
use anyhow::bail;
use fx_base::{Ledgers, Rect, Work};
use fx_layout::{Layouts, Updated, can_be_laid};
use std::alloc::{AllocError, Global};

/// The line that is printed of an update.
pub fn answer<L: Ledgers>(
    alloc: Global,
    update: &Update,
    layouts: &mut Layouts,
    work: &mut Work<L>,
) -> anyhow::Result<String> {
    let nodes = update.nodes.as_slice();
    let looks = update.looks.as_slice();
    if !can_be_laid(nodes) || looks.len() != nodes.len() {
        bail!("these nodes can't be laid out");
    }
    if update.is_new {
        *layouts = Layouts::new(alloc);
    }
    let listed = update.listed.as_slice();
    let told = layouts.update_telling(alloc, nodes, looks, update.window, listed, work)?;
    told_text(alloc, &told, layouts.rects())
}

fn told_text(alloc: Global, told: &Updated, rects: &[Rect]) -> anyhow::Result<String> {
    let mut text = String::new(alloc);
    match push_told(&mut text, told, rects) {
        Ok(()) => Ok(text),
        Err(error) => Err(error.into()),
    }
}

fn push_told(text: &mut String, told: &Updated, rects: &[Rect]) -> Result<(), AllocError> {
    write!(text, "{}x{} laid {}", told.size.0, told.size.1, told.laid)?;
    for rect in rects {
        write!(text, " {} {} {} {}", rect.x, rect.y, rect.w, rect.h)?;
    }
    Ok(())
}
