//! A whole line of a script but `pulse`: the events that it starts go along their routes, the actions that they call
//! run line by line, and behind the line the actions run of the listeners that were told (JavaFX `EventDispatchChain`).
#![tactic(auto)]

mod acting;
mod running;
mod sending;
mod settling;

pub use acting::act;
pub use settling::settle;
