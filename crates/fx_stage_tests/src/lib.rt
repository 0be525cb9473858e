//! Tests of a stage's parts. They stand apart, so that a test that changes has nothing else proved anew.
#![tactic(auto)]

#[cfg(test)]
mod answers;
#[cfg(test)]
mod graphs;
#[cfg(test)]
mod node_data;
#[cfg(test)]
mod rows;
#[cfg(test)]
mod tables;
