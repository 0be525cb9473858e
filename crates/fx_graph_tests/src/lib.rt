//! Tests of the property graph. They stand apart, so that a test that changes has nothing else proved anew.
#![tactic(auto)]

#[cfg(test)]
mod asked;
#[cfg(test)]
mod bindings;
#[cfg(test)]
mod forgetting;
