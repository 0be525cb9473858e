//! The words that all panes are measured and placed by: lengths and places, one axis of a pane and of a child,
//! sizes from the look, areas, and the shares of tracks. It stands between plain facts and the panes' own rules.
#![tactic(auto)]

mod axes;
mod lengths;
mod level;
mod levels;
mod parted;
mod parts;
mod sizes;
mod tracks;

pub use axes::{
    Axis, ChildAxis, Extent, OwnLengths, PaneAxis, Span, child_axis, content, gaps, insets, joined,
    pane_axis, rect_of,
};
pub use lengths::{aligned, end_of, length_of, pixels, place_of};
pub use level::Level;
pub use levels::{given, level_for, share_law};
pub use parted::{Parted, Room, part_of, room_in};
pub use parts::Part;
pub use sizes::{control_extent, filled_length, held, in_area, pane_extent};
pub use tracks::{Plan, greatest_min, greatest_pref, needed, plan_for, wanted};
