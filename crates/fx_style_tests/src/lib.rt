//! Tests of what wins a property, and of colours that are looked up. They stand apart, so that a test that changes has
//! nothing else proved anew.
#![tactic(auto)]

#[cfg(test)]
mod parts;
#[cfg(test)]
mod scenes;
