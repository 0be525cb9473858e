//! What a `pulse` tells and makes, and what a whole script tells, defined on lists: the plain player's game.
#![tactic(auto)]

ghost use Rattle.fx_plain_frames.specs.Laws.{OnePulse};

/// A pulse has one outcome, where the scene is in order: one frame, one damage, one list of notices, and one game
/// behind it.
pub fn pulses_have_one_outcome()
    ensures { OnePulse }
{}
