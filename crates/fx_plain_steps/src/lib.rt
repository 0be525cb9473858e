//! What each line of a script tells and makes of the world, defined on lists: the plain player's steps, without frames.
#![tactic(auto)]
