//! What is printed of a pane: its sizes, a control's sizes in its width, and the rectangles of its children.
ghost use Rattle.std.specs.Prelude.{◌≤◌, length};
ghost use Rattle.fx_grid.specs.Grid.{IsGrid};

use crate::reading::Case;
use anyhow::bail;
use fx_base::{Ledgers, Rect, Sizes, Work};
use fx_boxes::{control, hbox, pane, region, vbox};
use fx_grid::grid;
use fx_panes::{anchor, border, stack};
use std::alloc::{AllocError, Global};

/// The line that is printed of a pane.
pub fn answer<L: Ledgers>(
    alloc: Global,
    case: &Case<'_>,
    work: &mut Work<L>,
) -> anyhow::Result<String> {
    let children = case.children.as_slice();
    if children.len() > 4096 || !grid::is_grid(&case.facts, children) {
        bail!("outside the ranges of panes");
    }
    let mut text = of_sizes(alloc, measured(alloc, case, work)?)?;
    if case.class == "Control" {
        let sizes = control::wrapped(alloc, &case.facts, case.width, work)?;
        text.push_str(" ")?;
        text.push_str(of_sizes(alloc, sizes)?.as_str())?;
    }
    for rect in placed(alloc, case, work)?.as_slice() {
        let word = format!(in alloc; " {} {} {} {}", rect.x, rect.y, rect.w, rect.h)?;
        text.push_str(word.as_str())?;
    }
    Ok(text)
}

fn measured<L: Ledgers>(
    alloc: Global,
    case: &Case<'_>,
    work: &mut Work<L>,
) -> Result<Sizes, AllocError>
    requires few { length case.now.children.items ≤ 4096 }
    requires grid { IsGrid case.now.facts case.now.children.items }
{
    let children = case.children.as_slice();
    match case.class {
        "HBox" => hbox::measure(alloc, &case.facts, children, work),
        "VBox" => vbox::measure(alloc, &case.facts, children, work),
        "Pane" => pane::measure(alloc, &case.facts, children, work),
        "Control" => control::measure(alloc, &case.facts, children, work),
        "StackPane" => stack::measure(alloc, &case.facts, children, work),
        "AnchorPane" => anchor::measure(alloc, &case.facts, children, work),
        "BorderPane" => border::measure(alloc, &case.facts, children, work),
        "GridPane" => grid::measure(alloc, &case.facts, children, work),
        _ => region::measure(alloc, &case.facts, children, work),
    }
}

fn placed<L: Ledgers>(
    alloc: Global,
    case: &Case<'_>,
    work: &mut Work<L>,
) -> Result<Vec<Rect>, AllocError>
    requires few { length case.now.children.items ≤ 4096 }
    requires grid { IsGrid case.now.facts case.now.children.items }
{
    let children = case.children.as_slice();
    let (w, h) = (case.width, case.height);
    match case.class {
        "HBox" => hbox::place(alloc, &case.facts, children, w, h, work),
        "VBox" => vbox::place(alloc, &case.facts, children, w, h, work),
        "Pane" => pane::place(alloc, &case.facts, children, w, h, work),
        "Control" => control::place(alloc, &case.facts, children, w, h, work),
        "StackPane" => stack::place(alloc, &case.facts, children, w, h, work),
        "AnchorPane" => anchor::place(alloc, &case.facts, children, w, h, work),
        "BorderPane" => border::place(alloc, &case.facts, children, w, h, work),
        "GridPane" => grid::place(alloc, &case.facts, children, w, h, work),
        _ => region::place(alloc, &case.facts, children, w, h, work),
    }
}

fn of_sizes(alloc: Global, sizes: Sizes) -> Result<String, AllocError> {
    let widths = format!(in alloc; "{} {} {}", sizes.min_w, sizes.pref_w, sizes.max_w)?;
    format!(in alloc; "{widths} {} {} {}", sizes.min_h, sizes.pref_h, sizes.max_h)
}
