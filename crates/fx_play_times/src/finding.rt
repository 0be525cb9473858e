//! A timeline by its label.
ghost use Rattle.std.specs.Prelude.{◌≡◌, ◌<◌, IfOk, length};
ghost use Rattle.fx_anim.specs.Shown.{lines_of};
ghost use Rattle.fx_plain_times.specs.Clocks as spec;
ghost use Rattle.fx_play_times.specs.Shown.{clock_of};

use crate::clock::Clock;
use fx_anim::Timelines;
use fx_base::Text;
use fx_stage_types::Refusal;
use std::alloc::Global;

impl Clock {
    /// No timeline was made.
    pub fn new(alloc: Global) -> Clock
        ensures { clock_of result ≡ spec.no_timelines }
    {
        Clock {
            labels: Vec::new(alloc),
            timelines: Timelines::new(alloc),
        }
    }

    /// The number of the timeline of this label, or the word for why there is none.
    pub(crate) fn find(&self, label: &Text) -> Result<u32, Refusal>
        ensures found { result ≡ spec.find (clock_of self.now) label.now }
        ensures within { IfOk result (λ id. id < length (lines_of self.now.timelines)) }
    {
        match self.place_of(label) {
            Some(place) => Ok(place as u32),
            None => Err(Refusal::Unknown),
        }
    }

    /// The place of the timeline of this label.
    pub(crate) fn place_of(&self, label: &Text) -> Option<usize>
        ensures { result ≡ spec.place_of label.now (clock_of self.now) }
    {
        self.labels
            .iter()
            .position(|other| label.as_str() == other.as_str())
    }
}
