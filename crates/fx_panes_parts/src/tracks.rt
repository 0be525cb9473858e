//! The track rule: the lengths of parts over a room. What is left goes to the parts that grow always and then to
//! those that grow sometimes; what is lacking is taken off all. It stands above shares, below rows and grids.
ghost use Rattle.std.specs.Prelude.{◌≡◌, ℕ, ◌+◌, ◌*◌, ◌^◌, ◌<◌, ◌≤◌, List, ◌∷◌, length, map, sum, sum_by};
ghost use Rattle.fx_panes_parts.specs.declared.parts.Part.{Part};
ghost use Rattle.fx_panes_parts.specs.Parts.{greatest_of};
ghost use Rattle.fx_panes_parts.specs.Tracks.{lengths_by, tracked};

use crate::axes::Axis;
use crate::level::Level;
use crate::levels::{given, level_for};
use crate::parted::{Parted, Room, room_in};
use crate::parts::Part;

/// The `Priority` of parts that grow only where no other part grows.
const SOMETIMES: u8 = 1;

/// The `Priority` of parts that grow first.
const ALWAYS: u8 = 2;

/// How the parts of a room come to their lengths: what is taken off, what is given to those that grow always, and
/// what to those that grow sometimes.
#[derive(Clone, Copy, PartialEq, Eq, Debug)]
pub struct Plan {
    pub less: Level,
    pub always: Level,
    pub sometimes: Level,
}

/// The plan for the lengths of these parts in so much room.
pub fn plan_for<T: Parted>(room: u64, axis: Axis, parts: &[T]) -> Plan
    requires room { room < 2 ^ 62 }
    requires few { length parts.now ≤ 4096 }
    ensures { lengths_by result (map (T.part_along axis) parts.now) ≡ tracked room (map (T.part_along axis) parts.now) }
{
    let wanted = wanted(axis, parts);
    let left = room.saturating_sub(wanted);
    let less = level_for(wanted.saturating_sub(room), Room::Below, axis, parts);
    let always = level_for(left, Room::Above(ALWAYS), axis, parts);
    let rest = left.saturating_sub(given(always, Room::Above(ALWAYS), axis, parts));
    let sometimes = level_for(rest, Room::Above(SOMETIMES), axis, parts);
    Plan {
        less,
        always,
        sometimes,
    }
}

impl Plan {
    /// The length of the next part.
    pub fn next(&mut self, part: Part) -> u64
        ensures next { (parts : List Part) → lengths_by self.old (part ∷ parts) ≡ result ∷ lengths_by self.new parts }
        ensures most { result < 2 ^ 34 }
    {
        let more = self.always.give(room_in(Room::Above(ALWAYS), part))
            + self.sometimes.give(room_in(Room::Above(SOMETIMES), part));
        let less = self.less.give(room_in(Room::Below, part));
        (u64::from(part.pref) + more).saturating_sub(less)
    }

    /// The length of all these parts together.
    pub fn whole<T: Parted>(mut self, axis: Axis, parts: &[T]) -> u64
        requires { length parts.now ≤ 4096 }
        ensures value { result ≡ sum (lengths_by self (map (T.part_along axis) parts.now)) }
        ensures most { result ≤ 2 ^ 34 * length parts.now }
    {
        let mut sum = 0;
        for part in parts {
            sum += self.next(part.part(axis));
        }
        sum
    }
}

/// The preferred lengths of all parts together.
pub fn wanted<T: Parted>(axis: Axis, parts: &[T]) -> u64
    requires { length parts.now ≤ 4096 }
    ensures value { result ≡ sum_by (λ part. part.pref) (map (T.part_along axis) parts.now) }
    ensures most { result ≤ 2 ^ 32 * length parts.now }
{
    let mut sum = 0;
    for part in parts {
        sum += u64::from(part.part(axis).pref);
    }
    sum
}

/// The minimum lengths of all parts together.
pub fn needed<T: Parted>(axis: Axis, parts: &[T]) -> u64
    requires { length parts.now ≤ 4096 }
    ensures value { result ≡ sum_by (λ part. part.min) (map (T.part_along axis) parts.now) }
    ensures most { result ≤ 2 ^ 32 * length parts.now }
{
    let mut sum = 0;
    for part in parts {
        sum += u64::from(part.part(axis).min);
    }
    sum
}

/// The greatest minimum length of the parts, or 0.
pub fn greatest_min<T: Parted>(axis: Axis, parts: &[T]) -> u64
    ensures value { result ≡ greatest_of (map (λ part. part.min) (map (T.part_along axis) parts.now)) }
    ensures most { result < 2 ^ 32 }
{
    let mut most = 0;
    for part in parts {
        most = u64::from(part.part(axis).min).max(most);
    }
    most
}

/// The greatest preferred length of the parts, or 0.
pub fn greatest_pref<T: Parted>(axis: Axis, parts: &[T]) -> u64
    ensures value { result ≡ greatest_of (map (λ part. part.pref) (map (T.part_along axis) parts.now)) }
    ensures most { result < 2 ^ 32 }
{
    let mut most = 0;
    for part in parts {
        most = u64::from(part.part(axis).pref).max(most);
    }
    most
}
