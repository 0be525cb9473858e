//! Tests of frames. They stand apart, so that a test that changes has nothing else proved anew.
#![tactic(auto)]

#[cfg(test)]
mod frames;
#[cfg(test)]
mod scenes;
