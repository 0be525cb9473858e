//! What has a part along an axis: a child in a row, and a column or row of a grid. What a part has room for.
//! It stands between parts and the levels that fill them.
ghost use Rattle.std.specs.Prelude.{◌≡◌, ◌^◌, ◌<◌};
ghost use Rattle.fx_panes_parts.specs.Axes.{IsChildAxis, child_axis};
ghost use Rattle.fx_panes_parts.specs.Parts.{part_of, room_in};

use crate::axes::{Axis, ChildAxis, child_axis};
use crate::parts::Part;
use fx_base::ChildSize;

/// What a length is shared over: what is lacking over the room down to the minimum, what is left over the room up
/// to the maximum of the parts that have the priority of this number.
#[derive(Clone, Copy, PartialEq, Eq, Debug)]
pub enum Room {
    Below,
    Above(u8),
}

/// What has a part along an axis.
pub trait Parted: Copy {
    ghost use Rattle.fx_panes_parts.specs.declared.axes.Axis.{Axis};
    ghost use Rattle.fx_panes_parts.specs.declared.parts.Part.{Part};

    ghost part_along: { Axis → Self → Part };

    /// The part along this axis.
    fn part(&self, axis: Axis) -> Part
        ensures { result ≡ part_along axis self.now };
}

impl Parted for Part {
    ghost part_along = { λ axis part. part };

    fn part(&self, _axis: Axis) -> Part {
        *self
    }
}

impl Parted for ChildSize {
    ghost part_along = { λ axis child. part_of (child_axis axis child) };

    fn part(&self, axis: Axis) -> Part {
        part_of(&child_axis(axis, self))
    }
}

/// The part of a child: its lengths with its margins, and NEVER where it says nothing of growing.
#[tactic(auto, unfolding(crate::specs::Parts::part_of))]
pub fn part_of(child: &ChildAxis) -> Part
    requires { IsChildAxis child.now }
    ensures { result ≡ part_of child.now }
{
    let margins = child.before + child.after;
    Part {
        min: (child.extent.min + margins) as u32,
        pref: (child.extent.pref + margins) as u32,
        max: (child.extent.max + margins) as u32,
        priority: child.grow.unwrap_or(0),
    }
}

/// How much longer or shorter the part may become.
pub fn room_in(room: Room, part: Part) -> u64
    ensures value { result ≡ room_in room part }
    ensures most { result < 2 ^ 32 }
{
    match room {
        Room::Below => u64::from(part.pref.saturating_sub(part.min)),
        Room::Above(priority) if part.priority == priority => u64::from(
            part.max.saturating_sub(part.pref),
        ),
        Room::Above(_) => 0,
    }
}
