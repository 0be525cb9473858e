//! The plain types that every layer speaks of: names and keys, places, rectangles, colours, property values,
//! texts of bounded length, lists that contracts see as lists, pane facts, and the counters of work.
#![tactic(auto)]

mod color;
mod facts;
mod geometry;
mod held;
mod keys;
mod kinds;
mod lists;
mod positions;
mod same;
mod short_texts;
mod texts;
mod values;
mod work;

pub use color::Color;
pub use facts::{ChildSize, PaneFacts, Sizes, Track};
pub use geometry::{Rect, Sides};
pub use keys::{Name, NodeKey};
pub use kinds::{Family, Kind};
pub use lists::{Duplicate, List};
pub use positions::{Place, Position};
pub use same::Same;
pub use texts::{Str, Text, TextError};
pub use values::Value;
pub use work::{Evaluated, Laid, Ledgers, Painted, Steps, Styled, Work};
