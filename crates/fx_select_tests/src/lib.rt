//! Tests of the search for matching rules. They stand apart, so that a test that changes has nothing else proved anew.
#![tactic(auto)]

#[cfg(test)]
mod selectors;
