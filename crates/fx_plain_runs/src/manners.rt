//! How a run shows what it does.

use fx_frame_text::Form;

/// How a run shows what it does.
#[derive(Clone, Copy)]
pub struct Manner {
    /// The width and the height of the window in pixels, if one is asked for; else the root makes it.
    pub window: Option<(u32, u32)>,
    /// The form of the frames' images.
    pub form: Form,
    /// Whether one line of totals stands in place of all lines.
    pub summary: bool,
}
