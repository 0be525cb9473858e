//! What is asked of the entries of a property graph: whether a name is known, bound or read-only, of which kind it is,
//! and why a change of values is refused. The graph, which tests all of it before it changes anything, stands on it.
#![tactic(auto)]

pub mod asking;
pub mod refusals;
