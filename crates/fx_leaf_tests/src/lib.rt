//! Tests of leaves: words, demos, and the stream of changed rows. They stand apart, so that no leaf is proved twice.
#![tactic(auto)]

#[cfg(test)]
mod demos;
#[cfg(test)]
mod streams;
#[cfg(test)]
mod words;
