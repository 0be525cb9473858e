//! The laws of the panes. Their sizes and places are examples of layout_cases.
use fx_boxes::{control, hbox, pane as free, vbox};
use fx_grid::grid;
use fx_panes::{anchor, border, stack};
use fx_panes_parts::share_law;

#[test]
fn panes_have_laws() {
    hbox::across_first();
    vbox::across_first();
    free::across_first();
    stack::across_first();
    anchor::across_first();
    border::across_first();
    grid::across_first();
    control::one_control();
    share_law();
}
