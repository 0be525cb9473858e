//! One row of a shape, painted by runs over the row kernels: each pixel that the shape holds is laid over once, and
//! counted. What is the same for all rows of a glyph is a stamp. It stands on the picture, below the canvas.
#![tactic(auto)]

mod brushes;
mod characters;
mod letters;
mod near;
mod parts;
mod pixels;
mod runs;
mod spans;
mod stamps;

pub use brushes::{Brush, near_pen};
pub use near::behind;
pub use spans::{Columns, Pen, ink, lay_span};
pub use stamps::{Runs, Stamp, runs_of, stamp_of};
