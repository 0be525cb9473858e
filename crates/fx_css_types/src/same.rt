//! Equality of what is read, of winners and of sheets: what the layers above compare to see whether a style changed.
ghost use Rattle.std.specs.Prelude.{◌≡◌, ◌↔◌, IsTrue, length};

use crate::declarations::{Declaration, Declared, Found, FoundValue, Paint};
use crate::names::NameList;
use crate::selectors::{Compound, Selector};
use crate::sheets::{Rule, Sheet, SheetAt};
use fx_base::{Place, Same, Text};
use fx_look::StyleName;

impl Same for Paint {
    fn is_same(&self, other: &Self) -> bool {
        match (self, other) {
            (Paint::Color(one), Paint::Color(another)) => one.is_same(another),
            (Paint::Named(one), Paint::Named(another)) => one.is_same(another),
            _ => false,
        }
    }
}

impl Same for Declared {
    fn is_same(&self, other: &Self) -> bool {
        match (self, other) {
            (Declared::Plain(one), Declared::Plain(another)) => one.is_same(another),
            (Declared::Paint(one), Declared::Paint(another)) => one.is_same(another),
            (Declared::Paints(one), Declared::Paints(another)) => one.is_same(another),
            (Declared::SidesList(one), Declared::SidesList(another)) => one.is_same(another),
            (Declared::Inherit, Declared::Inherit) => true,
            _ => false,
        }
    }
}

impl Same for Declaration {
    fn is_same(&self, other: &Self) -> bool {
        self.name.is_same(&other.name)
            && is_same_row(self.row, other.row)
            && self.value.is_same(&other.value)
    }
}

fn is_same_row(row: Option<StyleName>, other: Option<StyleName>) -> bool
    ensures { IsTrue result ↔ (row ≡ other) }
{
    match (row, other) {
        (Some(one), Some(another)) => one == another,
        (None, None) => true,
        _ => false,
    }
}

impl Same for FoundValue {
    fn is_same(&self, other: &Self) -> bool {
        match (self, other) {
            (FoundValue::Code(one), FoundValue::Code(another)) => one.is_same(another),
            (FoundValue::Declared(one), FoundValue::Declared(another)) => one.is_same(another),
            _ => false,
        }
    }
}

impl Same for Found {
    fn is_same(&self, other: &Self) -> bool {
        self.name.is_same(&other.name) && self.value.is_same(&other.value)
    }
}

impl Same for NameList {
    fn is_same(&self, other: &Self) -> bool {
        are_same_names(self.as_slice(), other.as_slice())
    }
}

impl Same for Compound {
    fn is_same(&self, other: &Self) -> bool {
        self.combinator == other.combinator
            && self.kind.is_same(&other.kind)
            && self.classes.is_same(&other.classes)
            && self.ids.is_same(&other.ids)
            && self.pseudos.is_same(&other.pseudos)
    }
}

impl Same for Selector {
    fn is_same(&self, other: &Self) -> bool {
        self.compounds.is_same(&other.compounds)
    }
}

impl Same for Rule {
    fn is_same(&self, other: &Self) -> bool {
        self.selectors.is_same(&other.selectors) && self.declarations.is_same(&other.declarations)
    }
}

impl Same for Sheet {
    fn is_same(&self, other: &Self) -> bool {
        self.rules.is_same(&other.rules)
            && are_same_places(self.warnings.as_slice(), other.warnings.as_slice())
    }
}

impl Same for SheetAt {
    fn is_same(&self, other: &Self) -> bool {
        self.origin == other.origin && self.sheet.is_same(&other.sheet)
    }
}

/// Are the places the same, one by one, and as many?
fn are_same_places(places: &[Place], others: &[Place]) -> bool
    ensures { IsTrue result ↔ (places.now ≡ others.now) }
{
    places.len() == others.len() && pairs_are_same(places, others)
}

fn pairs_are_same(places: &[Place], others: &[Place]) -> bool
    requires { length places.now ≡ length others.now }
    ensures { IsTrue result ↔ (places.now ≡ others.now) }
{
    for at in 0..places.len() {
        if places[at] != others[at] {
            return false;
        }
    }
    true
}

/// Are the names the same, one by one, and as many?
fn are_same_names(names: &[Text], others: &[Text]) -> bool
    ensures { IsTrue result ↔ (names.now ≡ others.now) }
{
    names.len() == others.len() && named_pairs_are_same(names, others)
}

fn named_pairs_are_same(names: &[Text], others: &[Text]) -> bool
    requires { length names.now ≡ length others.now }
    ensures { IsTrue result ↔ (names.now ≡ others.now) }
{
    for at in 0..names.len() {
        if !names[at].is_same(&others[at]) {
            return false;
        }
    }
    true
}
