//! Tests of the picture and of the shapes of a look. They stand apart, so that a test that changes has nothing else
//! proved anew.
#![tactic(auto)]

#[cfg(test)]
mod drawings;
