//! Expressions of scenes and scripts: their text is read into a tree, which has a kind and a meaning over
//! the values of its operands.
#![tactic(auto)]

mod counting;
mod decimals;
mod filling;
mod form;
mod fronts;
mod grouping;
mod meaning;
mod numbers;
mod paths;
mod reading;
mod scanning;
mod signs;
mod stops;
mod tokens;
mod tree;
mod typing;
mod words;

pub use counting::eval;
pub use filling::{as_text, fill};
pub use numbers::number_over;
pub use reading::{ExprError, one_reading, read_expr};
pub use tree::{BinarySign, Expr, Parsed, UnarySign};
pub use typing::{KindError, type_of};
