//! Definitions of what one line of a script sets off: the events that it sends to nodes, the actions that they call,
//! and the actions that the listeners run which were told meanwhile. They are definitions alone.
#![tactic(auto)]
