//! What is painted of a node: the shapes of a look in a rectangle. Background layers come first, then the strips of
//! the border layers, then the lines of the text. It stands on the picture's types and on the rules that layout has
//! for lengths; the picture of a scene is made by it.
#![tactic(auto)]

mod insets;
mod layers;
mod letters;
mod lines;
mod making;

pub use fx_insets::Side;
pub use insets::insets_of;
pub use making::{one_drawing, shapes, shapes_in};
