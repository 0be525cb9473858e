//! Tests of the ground and the leaves, and of the edge. They stand apart, so that a test that changes has nothing else
//! proved anew.
#![tactic(auto)]

#[cfg(test)]
mod ports;
#[cfg(test)]
mod rows;
#[cfg(test)]
mod texts;
#[cfg(test)]
mod values;
