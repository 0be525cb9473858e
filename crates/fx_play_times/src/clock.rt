//! Timelines by their labels.
ghost use Rattle.std.specs.Prelude.{◌≤◌, length};
ghost use Rattle.fx_anim.specs.Shown.{lines_of};

use fx_anim::Timelines;
use fx_base::Text;

/// Timelines in the order of their making, each by its label.
#[derive(Drop)]
pub struct Clock {
    pub(crate) labels: Vec<Text>,
    pub(crate) timelines: Timelines,
    ghost tied: { length labels.items ≤ length (lines_of timelines) },
    ghost few: { length labels.items ≤ 256 },
}
