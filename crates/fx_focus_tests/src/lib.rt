//! Tests of picking and the focus. They stand apart, so that a test that changes has nothing else proved anew.
#![tactic(auto)]

#[cfg(test)]
mod pictures;
