//! What may be wrong with a document where it is read for a scene, and with the files of a run.
#![tactic(auto)]

mod flaws;

pub use flaws::{Fault, FaultKind, Flaw};
