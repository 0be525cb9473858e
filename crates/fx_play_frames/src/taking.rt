//! What taking a line answers.
use fx_base::Rect;

/// A frame that was made: what of the window may be another than before, and how many listeners were told of the sizes
/// that it published.
#[derive(Drop)]
pub struct Shown {
    pub damage: Vec<Rect>,
    pub notices: u64,
}

/// What a line did, beside its own text.
#[derive(Drop)]
pub enum Taken {
    /// So many listeners were told.
    Line(u64),
    /// A frame was made; its text stands before the line's own.
    Frame(Shown),
}
