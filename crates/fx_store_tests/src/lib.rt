//! Tests of what a store stands on: listeners and pairs. They stand apart, so that neither is proved twice.
#![tactic(auto)]

#[cfg(test)]
mod listeners;
#[cfg(test)]
mod pairs;
