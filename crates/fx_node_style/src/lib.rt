//! The style of one node: its look, and the paints that are looked up on it, from the rules that match it, its code
//! values and the styles of its ancestors. Styles of whole scenes are made of it.
#![tactic(auto)]

mod copying;
mod keeping;
mod kinds;
mod laws;
mod looking;
mod node_styles;
mod paints;
mod recoding;
mod rooms;
mod same;
mod styling;
mod values;

pub use copying::{write_copy, write_paints};
pub use laws::rows_are_named;
pub use node_styles::NodeStyle;
pub use recoding::{are_recoded, has_bound, write_bound};
pub use rooms::Room;
pub use same::is_same_look;
pub use styling::{Ground, restyle, style_in};
pub use values::Winning;
