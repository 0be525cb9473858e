//! Pictures of one node that covers the window, and of many small ones.
use fx_base::{Color, List, NodeKey, Rect, Text};
use fx_picture::{Entry, Picture, Shape};
use std::alloc::{AllocError, Global};

const WINDOW: Rect = Rect {
    x: 0,
    y: 0,
    w: 1000,
    h: 1000,
};

/// The picture in which nothing shows.
pub fn nothing(alloc: Global) -> Picture {
    Picture::new(alloc)
}

/// A rectangle over the whole window.
pub fn filled(alloc: Global, opacity: u8) -> Result<Picture, AllocError> {
    let fill = Shape::Fill {
        rect: WINDOW,
        color: color(opacity),
    };
    let mut shapes = Vec::new(alloc);
    shapes.push(fill)?;
    picture_of(alloc, shapes)
}

/// How large letters are.
#[derive(Clone, Copy)]
pub struct Letters {
    /// How many pixels a bit of a letter is wide.
    pub scale: u8,
    /// How many lines the window has, and how many texts a line has.
    pub lines: u8,
    pub texts: u8,
}

/// Lines of letters all over the window.
pub fn lettered(alloc: Global, letters: Letters) -> anyhow::Result<Picture> {
    let mut shapes = Vec::new(alloc);
    for line in 0..letters.lines {
        for text in 0..letters.texts {
            shapes.push(line_of(alloc, letters.scale, line, text)?)?;
        }
    }
    Ok(picture_of(alloc, shapes)?)
}

/// A text of 61 letters, so many lines down and so many texts to the right.
fn line_of(alloc: Global, scale: u8, line: u8, text: u8) -> anyhow::Result<Shape> {
    let scale = i64::from(scale);
    Ok(Shape::Letters {
        x: i64::from(text) * 244 * scale,
        y: i64::from(line) * 6 * scale,
        scale,
        text: Text::from_str(
            alloc,
            "The quick brown fox jumps over the lazy dog 0123456789 & THEN",
        )?,
        clip: WINDOW,
        color: color(255),
    })
}

fn color(opacity: u8) -> Color {
    Color {
        r: 10,
        g: 120,
        b: 230,
        a: opacity,
    }
}

fn picture_of(alloc: Global, shapes: Vec<Shape>) -> Result<Picture, AllocError> {
    let entry = entry_of(alloc, 1, 0, shapes)?;
    let mut entries = Vec::new(alloc);
    entries.push(entry)?;
    Ok(Picture {
        entries: List::from_vec(entries),
    })
}

/// A node at this place among the children of the root.
fn entry_of(
    alloc: Global,
    birth: u32,
    place: u32,
    shapes: Vec<Shape>,
) -> Result<Entry, AllocError> {
    Ok(Entry {
        key: NodeKey { slot: 0, birth },
        path: List::from_vec(vec![in alloc; place]?),
        rect: WINDOW,
        shapes: List::from_vec(shapes),
        disabled: false,
        focusable: false,
    })
}

/// What changes: one of so many nodes, or all of them where their birth numbers fall from place to place.
#[derive(Clone, Copy)]
pub struct Change {
    pub count: u32,
    pub falling: bool,
}

impl Change {
    /// Whether the node at this place changes.
    pub fn changes(self, place: u32) -> bool {
        self.falling || place == self.count / 2
    }

    /// The birth number of the node at this place.
    pub fn birth(self, place: u32) -> u32 {
        if self.falling {
            self.count.wrapping_sub(place)
        } else {
            place.wrapping_add(1)
        }
    }
}

/// Nodes of 10 by 10 pixels, each with a background and a line of text, before or after the change.
pub fn entries(alloc: Global, change: Change, new: bool) -> anyhow::Result<Vec<Entry>> {
    let mut entries = Vec::new(alloc);
    for place in 0..change.count {
        let opacity = opacity_of(new && change.changes(place));
        entries.push(node(alloc, change.birth(place), place, opacity)?)?;
    }
    Ok(entries)
}

/// How opaque the background of a node is.
pub fn opacity_of(changed: bool) -> u8 {
    if changed { 100 } else { 255 }
}

/// The node at this place.
pub fn node(alloc: Global, birth: u32, place: u32, opacity: u8) -> anyhow::Result<Entry> {
    let rect = Rect {
        x: i64::from(place % 100 * 10),
        y: i64::from(place / 100 * 10),
        w: 10,
        h: 10,
    };
    let mut shapes = Vec::new(alloc);
    shapes.push(Shape::Fill {
        rect,
        color: color(opacity),
    })?;
    shapes.push(Shape::Letters {
        x: rect.x,
        y: rect.y,
        scale: 1,
        text: Text::from_str(alloc, "ab")?,
        clip: rect,
        color: color(255),
    })?;
    Ok(entry_of(alloc, birth, place, shapes)?)
}
