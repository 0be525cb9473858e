//! What a node has beside its place in the tree and the values of its properties.
use fx_base::{List, Text, Track};
use fx_css_types::Sheet;
use fx_kinds::{Class, Constraint};

/// What a node has of its own. Its properties are numbered without gaps from `first` on, in the order of the class's
/// list, so one number says all their names.
#[derive(Drop)]
pub struct NodeData {
    pub class: Class,
    /// The number of its first property.
    pub first: u32,
    /// On which edge of a `BorderPane` it stands, from 0 in the order top, right, bottom, left, centre.
    pub edge: Option<u8>,
    pub classes: List<Text>,
    /// The pseudo-classes that a script set.
    pub pseudos: List<Text>,
    pub inline: Option<Sheet>,
    /// Its own style sheets (JavaFX `Parent.stylesheets`).
    pub sheets: List<Sheet>,
    pub constraints: List<Constraint>,
    /// Column and row constraints of a `GridPane`.
    pub columns: List<Track>,
    pub rows: List<Track>,
}
