//! One key frame.
use fx_base::{Name, Value};

/// A key frame: at this time of the cycle, in milliseconds, the property has the value.
#[derive(Drop)]
pub struct Frame {
    pub at: u32,
    pub name: Name,
    pub value: Value,
}
