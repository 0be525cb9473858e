//! Tests of the top call, and of the line `explain`. They stand apart, so that the player isn't proved twice. As a
//! program they do nothing.
#![tactic(auto)]

#[cfg(test)]
mod explains;
#[cfg(test)]
mod runs;

fn main(_rt: HostRuntime) {}
