//! What a document asks for, act by act, and what is done for it, task by task. An act is a step of building a scene, a
//! flaw, a style sheet that is wanted, or an expression that waits for names, at its place in the document: a reader of
//! documents writes acts. A task is a step, a fault, or a look for room, at its place in one of several files: whoever
//! fetches files makes tasks of acts, and whoever holds a stage carries them out.
#![tactic(auto)]

mod acts;
mod flaws;
mod tasks;

pub use acts::{Act, Binding, Deed, is_node_act};
pub use flaws::flaw_of;
pub use tasks::{Doing, SceneFault, Task};
