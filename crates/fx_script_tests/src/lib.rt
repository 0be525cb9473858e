//! Tests of the readers of scripts and of their lines. They stand apart, so that a test that changes has nothing else
//! proved anew.
#![tactic(auto)]

#[cfg(test)]
mod lines;
#[cfg(test)]
mod scripts;
