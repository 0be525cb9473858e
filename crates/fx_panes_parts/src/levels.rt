//! Shares as they are given out: the level up to which a total fills caps, and what it gives to one cap after the
//! other. They stand between parts and the track rule.
ghost use Rattle.std.specs.Prelude.{◌≡◌, ℕ, ◌+◌, ◌-◌, ◌^◌, ◌<◌, ◌≤◌, List, ◌∷◌, length, map, min, sum};
ghost use Rattle.fx_share.specs.Levels.{filled, levelled};
ghost use Rattle.fx_panes_parts.specs.Parts.{rooms};
ghost use Rattle.fx_panes_parts.specs.Shares.{ShareIsShare, level_of, share_of};

use crate::axes::Axis;
use crate::level::Level;
use crate::parted::{Parted, Room, room_in};

/// The level that shares a total out over the room of these parts, in some twenty passes over them at most.
pub fn level_for<T: Parted>(total: u64, room: Room, axis: Axis, parts: &[T]) -> Level
    requires { total < 2 ^ 63 }
    ensures { levelled result.level result.more (rooms room (map (T.part_along axis) parts.now))
        ≡ share_of total (rooms room (map (T.part_along axis) parts.now)) }
{
    if total == 0 {
        return Level { level: 0, more: 0 };
    }
    let level = level_of(total, room, axis, parts);
    Level {
        level,
        more: total.saturating_sub(taken(u64::from(level), room, axis, parts)),
    }
}

/// What a level gives to all of these parts.
pub fn given<T: Parted>(mut level: Level, room: Room, axis: Axis, parts: &[T]) -> u64
    requires { length parts.now ≤ 4096 }
    ensures { result ≡ sum (levelled level.level level.more
        (rooms room (map (T.part_along axis) parts.now))) }
{
    let mut sum = 0;
    for part in parts {
        sum += level.give(room_in(room, part.part(axis)));
    }
    sum
}

/// Over caps that are lengths, what is given out is the one share.
pub fn share_law()
    ensures { ShareIsShare }
{}

/// The greatest level up to which the total fills the room of the parts, but the longest length at most.
fn level_of<T: Parted>(total: u64, room: Room, axis: Axis, parts: &[T]) -> u32
    requires { total < 2 ^ 63 }
    ensures value { result ≡ level_of total (rooms room (map (T.part_along axis) parts.now)) }
    ensures most { result ≤ 100000 }
{
    if taken(100_000, room, axis, parts) <= total {
        return 100_000;
    }
    let mut low: u32 = 0;
    let mut high: u32 = 99_999;
    while low < high {
        let middle = high - (high - low) / 2;
        if taken(u64::from(middle), room, axis, parts) <= total {
            low = middle;
        } else {
            high = middle - 1;
        }
    }
    low
}

/// How much room the parts have below the level, or `u64::MAX` where that is less.
fn taken<T: Parted>(level: u64, room: Room, axis: Axis, parts: &[T]) -> u64
    ensures { result
        ≡ min (filled level (rooms room (map (T.part_along axis) parts.now))) (2 ^ 64 - 1) }
{
    let mut sum: u64 = 0;
    for part in parts {
        sum = sum.saturating_add(room_in(room, part.part(axis)).min(level));
    }
    sum
}
