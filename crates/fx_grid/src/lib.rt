//! GridPane (JavaFX 21 API): children in columns and rows, which are one rule for the two axes.
//! It stands on the words of all panes, below the layout of the whole tree.
#![tactic(auto)]

pub mod grid;
mod needs;
mod sharing;
mod starts;
mod tracks;
