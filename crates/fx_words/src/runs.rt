//! What a run is asked to do: which files it plays, and how it writes its frames.
//! The plain types that the words of a command line are read into.

use fx_base::{List, Str};

/// What is played.
#[derive(Drop)]
pub enum Source {
    /// The demo of so many labels, 1 to 3,600. No file is fetched.
    Demo(u32),
    /// The files of the scene, of the script and of the style sheets, by name.
    Files(Str, Str, List<Str>),
}

/// The size of a window in pixels, 1 to 2,048 each way.
#[derive(Clone, Copy, PartialEq, Eq, Debug)]
pub struct Size {
    pub width: u32,
    pub height: u32,
}

/// How the picture of a frame is written.
#[derive(Clone, Copy, PartialEq, Eq, Debug)]
pub enum Frames {
    /// Each pixel as six hexadecimal digits.
    Text,
    /// As a binary Netpbm pixmap (`P6`).
    Ppm,
    /// Not at all.
    Nothing,
    /// What has changed since the last frame.
    Delta,
}

/// What the words of a command line ask for.
#[derive(Drop)]
pub struct Run {
    pub source: Source,
    /// The first window, if one is asked for.
    pub size: Option<Size>,
    pub frames: Frames,
    /// Is a summary written in place of all other lines?
    pub summary: bool,
}
