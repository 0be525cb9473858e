//! Tests of written values and of the class table. They stand apart, so that a test that changes has nothing else
//! proved anew.
#![tactic(auto)]

#[cfg(test)]
mod classes;
#[cfg(test)]
mod values;
