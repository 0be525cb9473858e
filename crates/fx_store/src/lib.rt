//! The store of properties, pairs and listeners: one change at a time is made, and what it tells is handed back (JavaFX
//! `javafx.beans.property` with its listeners). The stage stands on it.
#![tactic(auto)]

mod forgetting;
mod keeping;
mod marking;
mod refusing;
mod store;
mod telling;
mod watching;

pub use store::Store;
