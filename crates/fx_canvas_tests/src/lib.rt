//! Tests of the canvas and of pictures whose damage is asked for. They stand apart, so that a test that changes has
//! nothing else proved anew.
#![tactic(auto)]

#[cfg(test)]
mod sizes;
