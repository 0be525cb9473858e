//! Tests of what reads style sheets. They stand apart, so that a test that changes has nothing else proved anew.
#![tactic(auto)]

#[cfg(test)]
mod marks;
#[cfg(test)]
mod parts;
#[cfg(test)]
mod sheets;
#[cfg(test)]
mod types;
