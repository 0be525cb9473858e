//! Tests of the tree of nodes and of what routes events. They stand apart, so that a test that changes has nothing
//! else proved anew.
#![tactic(auto)]

#[cfg(test)]
mod nodes;
#[cfg(test)]
mod routes;
