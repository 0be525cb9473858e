//! The pane and the child that the tests begin with.
use fx_base::{ChildSize, List, PaneFacts, Sides, Sizes, Text};
use std::alloc::Global;

pub const NO_SIDES: Sides = Sides {
    top: 0,
    right: 0,
    bottom: 0,
    left: 0,
};

/// A child without a size that may grow, and says nothing else.
pub const CHILD: ChildSize = ChildSize {
    sizes: PLAIN,
    margin: NO_SIDES,
    hgrow: None,
    vgrow: None,
    alignment: None,
    halign: None,
    valign: None,
    top: None,
    right: None,
    bottom: None,
    left: None,
    column: 0,
    row: 0,
    column_span: 1,
    row_span: 1,
    fill_width: true,
    fill_height: true,
    edge: None,
    layout_x: 0,
    layout_y: 0,
};

/// The sizes of a region without sizes of its own.
const PLAIN: Sizes = Sizes {
    min_w: 0,
    pref_w: 0,
    max_w: 100_000,
    min_h: 0,
    pref_h: 0,
    max_h: 100_000,
};

/// A pane whose look says nothing of sizes, aligned at the top left.
pub fn pane(alloc: Global) -> PaneFacts {
    PaneFacts {
        own: Sizes {
            min_w: -1,
            pref_w: -1,
            max_w: -1,
            min_h: -1,
            pref_h: -1,
            max_h: -1,
        },
        insets: NO_SIDES,
        alignment: 0,
        spacing: 0,
        hgap: 0,
        vgap: 0,
        fill_width: true,
        fill_height: true,
        font_size: 6,
        text: Text::new(alloc),
        wrap: false,
        columns: List::new(alloc),
        rows: List::new(alloc),
    }
}
