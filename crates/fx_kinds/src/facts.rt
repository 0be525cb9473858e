//! What styling and layout are given of a node.
//! Scenes make these facts of their nodes.
ghost use Rattle.std.specs.Prelude.{◌≡◌, ◌↔◌, IfOk, IsTrue, length};

use crate::classes::Class;
use fx_base::{Duplicate, List, NodeKey, Same, Text, Track, Value};
use fx_look::CodeValue;
use std::alloc::{AllocError, Global};

/// What the style of a node hangs on. Its parent is a place in the list of facts; sheets are places in the list of
/// sheets.
#[derive(Drop)]
pub struct StyleFacts {
    pub key: NodeKey,
    pub parent: Option<usize>,
    pub class: Class,
    pub id: Text,
    pub classes: List<Text>,
    pub pseudos: List<Text>,
    pub inline: Option<usize>,
    pub sheets: List<usize>,
    pub codes: List<CodeValue>,
}

/// What the layout of a node hangs on, beside its look. Its parent is a place in the list of facts; an edge of a
/// `BorderPane` is counted from 0 in the order top, right, bottom, left, centre.
#[derive(Drop)]
pub struct BoxFacts {
    pub key: NodeKey,
    pub parent: Option<usize>,
    pub class: Class,
    pub constraints: List<Constraint>,
    pub edge: Option<u8>,
    pub columns: List<Track>,
    pub rows: List<Track>,
    pub text: Text,
    pub layout_x: i64,
    pub layout_y: i64,
    pub focus_traversable: bool,
}

/// A constraint that is set, by its whole name, as `HBox.hgrow`.
#[derive(Drop)]
pub struct Constraint {
    pub name: Text,
    pub value: Value,
}

impl StyleFacts {
    /// Facts of the same contents.
    pub fn copy(&self, alloc: Global) -> Result<StyleFacts, AllocError>
        ensures { IfOk result (λ copy. copy ≡ self.now) }
    {
        Ok(StyleFacts {
            key: self.key,
            parent: self.parent,
            class: self.class,
            id: self.id.copy(alloc)?,
            classes: self.classes.copy(alloc)?,
            pseudos: self.pseudos.copy(alloc)?,
            inline: self.inline,
            sheets: copied(alloc, &self.sheets)?,
            codes: self.codes.copy(alloc)?,
        })
    }
}

impl BoxFacts {
    /// Facts of the same contents.
    pub fn copy(&self, alloc: Global) -> Result<BoxFacts, AllocError>
        ensures { IfOk result (λ copy. copy ≡ self.now) }
    {
        Ok(BoxFacts {
            key: self.key,
            parent: self.parent,
            class: self.class,
            constraints: self.constraints.copy(alloc)?,
            edge: self.edge,
            columns: self.columns.copy(alloc)?,
            rows: self.rows.copy(alloc)?,
            text: self.text.copy(alloc)?,
            layout_x: self.layout_x,
            layout_y: self.layout_y,
            focus_traversable: self.focus_traversable,
        })
    }
}

impl Constraint {
    /// A constraint of the same contents.
    pub fn copy(&self, alloc: Global) -> Result<Constraint, AllocError>
        ensures { IfOk result (λ copy. copy ≡ self.now) }
    {
        Ok(Constraint {
            name: self.name.copy(alloc)?,
            value: self.value.copy(alloc)?,
        })
    }
}

impl Duplicate for StyleFacts {
    fn duplicate(&self, alloc: Global) -> Result<Self, AllocError> {
        self.copy(alloc)
    }
}

impl Duplicate for BoxFacts {
    fn duplicate(&self, alloc: Global) -> Result<Self, AllocError> {
        self.copy(alloc)
    }
}

impl Duplicate for Constraint {
    fn duplicate(&self, alloc: Global) -> Result<Self, AllocError> {
        self.copy(alloc)
    }
}

impl Same for StyleFacts {
    fn is_same(&self, other: &Self) -> bool {
        has_same_names(self, other) && is_same_place(self, other) && has_same_sheets(self, other)
    }
}

fn is_same_place(a: &StyleFacts, b: &StyleFacts) -> bool
    ensures { IsTrue result ↔ ((a.now.key ≡ b.now.key) × (a.now.parent ≡ b.now.parent) × (a.now.class ≡ b.now.class)) }
{
    a.key == b.key && a.parent == b.parent && a.class == b.class
}

fn has_same_names(a: &StyleFacts, b: &StyleFacts) -> bool
    ensures { IsTrue result
        ↔ ((a.now.id ≡ b.now.id) × (a.now.classes ≡ b.now.classes) × (a.now.pseudos ≡ b.now.pseudos)) }
{
    a.id.is_same(&b.id) && a.classes.is_same(&b.classes) && a.pseudos.is_same(&b.pseudos)
}

fn has_same_sheets(a: &StyleFacts, b: &StyleFacts) -> bool
    ensures { IsTrue result
        ↔ ((a.now.inline ≡ b.now.inline) × (a.now.sheets ≡ b.now.sheets) × (a.now.codes ≡ b.now.codes)) }
{
    a.inline == b.inline && a.sheets.as_slice() == b.sheets.as_slice() && a.codes.is_same(&b.codes)
}

impl Same for BoxFacts {
    fn is_same(&self, other: &Self) -> bool {
        is_same_node(self, other) && has_same_rules(self, other) && has_same_contents(self, other)
    }
}

fn is_same_node(a: &BoxFacts, b: &BoxFacts) -> bool
    ensures { IsTrue result ↔ ((a.now.key ≡ b.now.key) × (a.now.parent ≡ b.now.parent) × (a.now.class ≡ b.now.class)) }
{
    a.key == b.key && a.parent == b.parent && a.class == b.class
}

fn has_same_rules(a: &BoxFacts, b: &BoxFacts) -> bool
    ensures { IsTrue result
        ↔ ((a.now.constraints ≡ b.now.constraints) × (a.now.edge ≡ b.now.edge)
        × (a.now.columns ≡ b.now.columns) × (a.now.rows ≡ b.now.rows)) }
{
    a.constraints.is_same(&b.constraints)
        && a.edge == b.edge
        && are_same_tracks(a.columns.as_slice(), b.columns.as_slice())
        && are_same_tracks(a.rows.as_slice(), b.rows.as_slice())
}

fn are_same_tracks(tracks: &[Track], others: &[Track]) -> bool
    ensures { IsTrue result ↔ (tracks.now ≡ others.now) }
{
    tracks.len() == others.len() && pairs_are_same(tracks, others)
}

fn pairs_are_same(tracks: &[Track], others: &[Track]) -> bool
    requires { length tracks.now ≡ length others.now }
    ensures { IsTrue result ↔ (tracks.now ≡ others.now) }
{
    for at in 0..tracks.len() {
        if !is_same_track(&tracks[at], &others[at]) {
            return false;
        }
    }
    true
}

fn is_same_track(a: &Track, b: &Track) -> bool
    ensures { IsTrue result ↔ (a.now ≡ b.now) }
{
    a.min == b.min && a.pref == b.pref && a.max == b.max && a.grow == b.grow && a.align == b.align
}

fn has_same_contents(a: &BoxFacts, b: &BoxFacts) -> bool
    ensures { IsTrue result
        ↔ ((a.now.text ≡ b.now.text) × (a.now.layout_x ≡ b.now.layout_x) × (a.now.layout_y ≡ b.now.layout_y)
        × (a.now.focus_traversable ≡ b.now.focus_traversable)) }
{
    a.text.is_same(&b.text)
        && a.layout_x == b.layout_x
        && a.layout_y == b.layout_y
        && a.focus_traversable == b.focus_traversable
}

impl Same for Constraint {
    fn is_same(&self, other: &Self) -> bool {
        self.name.is_same(&other.name) && self.value.is_same(&other.value)
    }
}

fn copied(alloc: Global, places: &List<usize>) -> Result<List<usize>, AllocError>
    ensures { IfOk result (λ copy. copy ≡ places.now) }
{
    Ok(List::from_vec(Vec::from_slice(alloc, places.as_slice())?))
}
