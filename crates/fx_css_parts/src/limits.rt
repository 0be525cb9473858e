//! The first part of a text that is past its limit.
//! Readings carry its place, and a reader of sheets refuses by it.
ghost use Rattle.std.specs.Prelude.{◌≡◌, ◌+◌, ◌<◌, ◌^◌, length, Some};
ghost use Rattle.std.specs.List.{list_all};
ghost use Rattle.fx_css_parts.specs.Selecting.{selectors_in};
ghost use Rattle.fx_css_parts.specs.Declaring.{declared_at};
ghost use Rattle.fx_css_parts.specs.Limits.{past_in_selectors, past_in_value, has_layers, is_layered};
ghost use Rattle.fx_css_parts.specs.Drafts.{are_few, is_short, count_behind, layer_behind, layer_from};
ghost use Rattle.fx_text.specs.Trimming.{trimmed};
ghost use Rattle.fx_css_types.specs.Limits.{layer_count};

use crate::layers::{depth_behind, separates};
use crate::selecting::is_gap;
use fx_css_types::{Declared, Selector};
use fx_look::StyleForm;
use fx_text::is_white;

/// How many selectors have ended, and how many compounds of the present one have begun.
#[derive(Clone, Copy)]
pub struct Count {
    selector: usize,
    compound: usize,
    within: bool,
}

/// How many layers may still begin, inside so many parentheses.
#[derive(Clone, Copy)]
pub struct LayerCount {
    within: bool,
    depth: usize,
    left: usize,
}

/// The place of the 65th selector, or of the 17th compound of a selector, whichever stands first, in the text that
/// spells these selectors. Where they are few, the text need not be looked at.
pub fn past_in_selectors(selectors: &[Selector], text: &[u8]) -> Option<usize>
    requires spelled { selectors_in text.now ≡ Some selectors.now }
    ensures { result ≡ past_in_selectors text.now }
{
    if are_few(selectors) {
        return None;
    }
    first_past(text)
}

fn are_few(selectors: &[Selector]) -> bool
    ensures { result ≡ are_few selectors.now }
{
    selectors.len() <= 64 && are_short(selectors)
}

fn are_short(selectors: &[Selector]) -> bool
    ensures { result ≡ list_all is_short selectors.now }
{
    selectors.iter().all(|selector| is_short(selector))
}

fn is_short(selector: &Selector) -> bool
    ensures { result ≡ is_short selector.now }
{
    selector.compounds.as_slice().len() <= 16
}

fn first_past(text: &[u8]) -> Option<usize>
    ensures { result ≡ past_in_selectors text.now }
{
    let all = text.len();
    let mut count = Count {
        selector: 0,
        compound: 0,
        within: false,
    };
    let mut place = 0;
    let mut rest = text;
    while let Some((c, behind)) = rest.split_first() {
        let Some(next) = count.behind(*c) else {
            return Some(place);
        };
        count = next;
        place += 1;
        rest = behind;
    }
    None
}

impl Count {
    fn behind(self, c: u8) -> Option<Count>
        requires selectors { self.selector + 1 < 2 ^ 64 }
        requires compounds { self.compound + 1 < 2 ^ 64 }
        ensures { result ≡ count_behind self c }
    {
        if c == b',' {
            return Some(Count {
                selector: self.selector + 1,
                compound: 0,
                within: false,
            });
        }
        if is_gap(c) {
            return Some(Count {
                within: false,
                ..self
            });
        }
        if self.within {
            return Some(self);
        }
        if self.selector >= 64 || self.compound >= 16 {
            return None;
        }
        Some(Count {
            selector: self.selector,
            compound: self.compound + 1,
            within: true,
        })
    }
}

/// The place of the ninth layer of a value that begins at a place, where values of this form have layers, and where the
/// value is declared so. Where its layers are few, it need not be looked at.
pub fn past_in_value(
    declared: &Declared,
    form: Option<StyleForm>,
    place: usize,
    value: &[u8],
) -> Option<usize>
    requires within { place + length value.now < 2 ^ 64 }
    requires spelled { declared_at form (trimmed value.now) ≡ Some declared.now }
    ensures { result ≡ past_in_value form place value.now }
{
    if layer_count(declared) <= 8 {
        return None;
    }
    ninth_in_value(form, place, value)
}

fn layer_count(declared: &Declared) -> usize
    ensures { result ≡ layer_count declared.now }
{
    match declared {
        Declared::Paints(paints) => paints.as_slice().len(),
        Declared::SidesList(layers) => layers.as_slice().len(),
        _ => 0,
    }
}

fn ninth_in_value(form: Option<StyleForm>, place: usize, value: &[u8]) -> Option<usize>
    requires { place + length value.now < 2 ^ 64 }
    ensures { result ≡ past_in_value form place value.now }
{
    if !has_layers(form) {
        return None;
    }
    let first = LayerCount {
        within: false,
        depth: 0,
        left: 8,
    };
    first_past_layer(first, place, value)
}

fn has_layers(form: Option<StyleForm>) -> bool
    ensures { result ≡ has_layers form }
{
    match form {
        Some(form) => is_layered(form),
        None => false,
    }
}

fn is_layered(form: StyleForm) -> bool
    ensures { result ≡ is_layered form }
{
    match form {
        StyleForm::Paints => true,
        StyleForm::SidesList => true,
        _ => false,
    }
}

fn first_past_layer(first: LayerCount, from: usize, value: &[u8]) -> Option<usize>
    requires within { from + length value.now < 2 ^ 64 }
    requires flat { first.depth ≡ 0 }
    ensures { result ≡ layer_from first from value.now }
{
    let mut count = first;
    let mut place = from;
    let mut rest = value;
    while let Some((c, behind)) = rest.split_first() {
        let Some(next) = count.behind(*c) else {
            return Some(place);
        };
        count = next;
        place += 1;
        rest = behind;
    }
    None
}

impl LayerCount {
    fn behind(self, c: u8) -> Option<LayerCount>
        requires { self.depth + 1 < 2 ^ 64 }
        ensures { result ≡ layer_behind self c }
    {
        if separates(self.depth, c) {
            return Some(LayerCount {
                within: false,
                depth: 0,
                left: self.left,
            });
        }
        let depth = depth_behind(self.depth, c);
        if self.within || is_white(c) {
            return Some(LayerCount {
                within: self.within,
                depth,
                left: self.left,
            });
        }
        if self.left == 0 {
            return None;
        }
        Some(LayerCount {
            within: true,
            depth,
            left: self.left - 1,
        })
    }
}
