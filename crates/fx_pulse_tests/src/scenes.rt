//! The nodes that the tests begin with.
use fx_base::{List, NodeKey, Text, Value};
use fx_kinds::{BoxFacts, Class, StyleFacts};
use fx_look::{CodeValue, StyleKey, StyleName};
use std::alloc::{AllocError, Global};
use std::test::Fail;

/// The row of `-fx-font-size` in the table of style declarations.
const FONT_SIZE: StyleName = StyleName(StyleKey::FontSize as u32);

/// A label with letters of one pixel a bit, and nothing else: what styles it.
pub fn label_style(
    alloc: Global,
    birth: u32,
    parent: Option<usize>,
) -> Result<StyleFacts, AllocError> {
    let mut codes = Vec::new(alloc);
    codes.push(CodeValue {
        style: FONT_SIZE,
        value: Value::Int(6),
        bound: false,
    })?;
    Ok(style_of(alloc, Class::Label, birth, parent, codes))
}

/// A pane that lays its children out in a row: what styles it.
pub fn pane_style(alloc: Global, birth: u32) -> StyleFacts {
    style_of(alloc, Class::HBox, birth, None, Vec::new(alloc))
}

fn style_of(
    alloc: Global,
    class: Class,
    birth: u32,
    parent: Option<usize>,
    codes: Vec<CodeValue>,
) -> StyleFacts {
    StyleFacts {
        key: NodeKey { slot: 0, birth },
        parent,
        class,
        id: Text::new(alloc),
        classes: List::new(alloc),
        pseudos: List::new(alloc),
        inline: None,
        sheets: List::new(alloc),
        codes: List::from_vec(codes),
    }
}

/// What lays the label out.
pub fn label_box(
    alloc: Global,
    birth: u32,
    parent: Option<usize>,
    text: &str,
) -> Result<BoxFacts, Fail> {
    let text = Text::from_str(alloc, text)?;
    Ok(box_of(alloc, Class::Label, birth, parent, text))
}

/// What lays the pane out.
pub fn pane_box(alloc: Global, birth: u32) -> BoxFacts {
    box_of(alloc, Class::HBox, birth, None, Text::new(alloc))
}

fn box_of(alloc: Global, class: Class, birth: u32, parent: Option<usize>, text: Text) -> BoxFacts {
    BoxFacts {
        key: NodeKey { slot: 0, birth },
        parent,
        class,
        constraints: List::new(alloc),
        edge: None,
        columns: List::new(alloc),
        rows: List::new(alloc),
        text,
        layout_x: 0,
        layout_y: 0,
        focus_traversable: false,
    }
}
