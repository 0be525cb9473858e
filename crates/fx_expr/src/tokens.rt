//! The tokens of an expression.

use crate::tree::BinarySign;
use fx_base::{List, Text, Value};

/// A token. The minus sign is a `Binary` wherever it stands.
#[derive(Drop)]
pub enum Token {
    Constant(Value),
    Path(List<Text>),
    Opening,
    Closing,
    Exclamation,
    Binary(BinarySign),
}
