//! Tests of what the panes share, each public function once, and the laws of the panes. They stand apart, so that a
//! test that changes has nothing else proved anew.
#![tactic(auto)]

#[cfg(test)]
mod given;
#[cfg(test)]
mod panes;
#[cfg(test)]
mod parts;
