//! Definitions of what `explain` tells: which declaration of a property wins on a node, and by what each other one
//! loses. They are definitions alone.
#![tactic(auto)]
