//! Definitions of the lines on timelines: which of them stand, what each line makes of them, and what a tick sets and
//! tells. They are definitions alone.
#![tactic(auto)]
