//! What holds of time.
ghost use Rattle.fx_anim.specs.Laws.{TicksAddUp};

/// Where a timeline stands depends on the sum of the ticks since its start, and not on how it was divided.
pub fn ticks_add_up()
    ensures { TicksAddUp }
{}
