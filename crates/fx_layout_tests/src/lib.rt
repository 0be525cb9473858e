//! Tests of what a node's pane is asked with. They stand apart, so that a test that changes has nothing else proved
//! anew.
#![tactic(auto)]

#[cfg(test)]
mod parts;
