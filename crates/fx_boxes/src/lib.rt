//! The panes that stand alone or put their children in a row: Region, the controls, Pane, HBox and VBox. Each has
//! its sizes and the places of its children. They stand on the panes' common words, below the layout of a tree.
#![tactic(auto)]

pub mod control;
pub mod hbox;
pub mod pane;
pub mod region;
pub mod rows;
pub mod sides;
pub mod vbox;
