//! How much work it may be to play the lines of a script, in nodes that are styled, panes that are called and pixels
//! that are painted: definitions, and lemmas for a player that takes the lines one by one.
#![tactic(auto)]
