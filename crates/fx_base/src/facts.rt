//! What a pane's layout rule is given: its own facts and those of its children.
ghost use Rattle.std.specs.Prelude.{◌≡◌, IfOk};

use crate::geometry::Sides;
use crate::lists::{Duplicate, List};
use crate::texts::Text;
use std::alloc::{AllocError, Global};

/// Minimum, preferred and maximum width and height, in pixels.
#[derive(Clone, Copy, PartialEq, Eq, Debug)]
pub struct Sizes {
    pub min_w: i64,
    pub pref_w: i64,
    pub max_w: i64,
    pub min_h: i64,
    pub pref_h: i64,
    pub max_h: i64,
}

/// A column or row constraint (JavaFX `ColumnConstraints`, `RowConstraints`): lengths in pixels, the number of
/// a `Priority`, and that of an `HPos` or `VPos`.
#[derive(Clone, Copy, PartialEq, Eq, Debug)]
pub struct Track {
    pub min: i64,
    pub pref: i64,
    pub max: i64,
    pub grow: Option<u8>,
    pub align: Option<u8>,
}

/// What a pane or control is laid out by: the six sizes of its look as they stand, its insets, and the
/// properties that its rule reads.
#[derive(Drop)]
pub struct PaneFacts {
    pub own: Sizes,
    pub insets: Sides,
    pub alignment: u8,
    pub spacing: i64,
    pub hgap: i64,
    pub vgap: i64,
    pub fill_width: bool,
    pub fill_height: bool,
    pub font_size: i64,
    pub text: Text,
    pub wrap: bool,
    pub columns: List<Track>,
    pub rows: List<Track>,
}

/// What a pane's rule reads of a child: its sizes, its constraints and its place. The four options named for
/// sides are anchors; an edge is counted from 0 in the order top, right, bottom, left, centre.
#[derive(Clone, Copy, PartialEq, Eq, Debug)]
pub struct ChildSize {
    pub sizes: Sizes,
    pub margin: Sides,
    pub hgrow: Option<u8>,
    pub vgrow: Option<u8>,
    pub alignment: Option<u8>,
    pub halign: Option<u8>,
    pub valign: Option<u8>,
    pub top: Option<i64>,
    pub right: Option<i64>,
    pub bottom: Option<i64>,
    pub left: Option<i64>,
    pub column: u32,
    pub row: u32,
    pub column_span: u32,
    pub row_span: u32,
    pub fill_width: bool,
    pub fill_height: bool,
    pub edge: Option<u8>,
    pub layout_x: i64,
    pub layout_y: i64,
}

impl Duplicate for Track {
    fn duplicate(&self, _alloc: Global) -> Result<Self, AllocError> {
        Ok(*self)
    }
}

impl PaneFacts {
    /// Facts of the same contents.
    pub fn copy(&self, alloc: Global) -> Result<PaneFacts, AllocError>
        ensures { IfOk result (λ copy. copy ≡ self.now) }
    {
        Ok(PaneFacts {
            own: self.own,
            insets: self.insets,
            alignment: self.alignment,
            spacing: self.spacing,
            hgap: self.hgap,
            vgap: self.vgap,
            fill_width: self.fill_width,
            fill_height: self.fill_height,
            font_size: self.font_size,
            text: self.text.copy(alloc)?,
            wrap: self.wrap,
            columns: self.columns.copy(alloc)?,
            rows: self.rows.copy(alloc)?,
        })
    }
}
