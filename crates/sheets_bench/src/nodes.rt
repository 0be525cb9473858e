//! A pane with a button of three classes in it.
ghost use Rattle.std.specs.Prelude.{IsTrue};
ghost use Rattle.fx_select.specs.Chains.{ParentsStandBefore};

use fx_base::{List, NodeKey, Text};
use fx_kinds::{Class, StyleFacts, class_of};
use std::alloc::Global;

/// The facts of the pane, which lists the sheet, and of the button, whose inline sheet has this place.
pub fn nodes(alloc: Global, inline: Option<usize>) -> anyhow::Result<Vec<StyleFacts>> {
    let mut facts = Vec::new(alloc);
    let mut sheets = Vec::new(alloc);
    sheets.push(0usize)?;
    let pane = node(alloc, "Pane", None, &["root"], sheets)?;
    facts.push(pane)?;
    let mut button = node(
        alloc,
        "Button",
        Some(0),
        &["c0", "c1", "c2"],
        Vec::new(alloc),
    )?;
    button.inline = inline;
    facts.push(button)?;
    Ok(facts)
}

fn node(
    alloc: Global,
    kind: &str,
    parent: Option<usize>,
    names: &[&str],
    sheets: Vec<usize>,
) -> anyhow::Result<StyleFacts> {
    let mut classes = Vec::new(alloc);
    for name in names {
        classes.push(Text::from_str(alloc, name)?)?;
    }
    Ok(StyleFacts {
        key: NodeKey { slot: 0, birth: 0 },
        parent,
        class: class_of(kind).unwrap_or(Class::Label),
        id: Text::new(alloc),
        classes: List::from_vec(classes),
        pseudos: List::new(alloc),
        inline: None,
        sheets: List::from_vec(sheets),
        codes: List::new(alloc),
    })
}

/// Does each parent stand before its children?
pub fn stand_before(facts: &[StyleFacts]) -> bool
    ensures { IsTrue result → ParentsStandBefore facts.now }
{
    for (at, node) in facts.iter().enumerate() {
        if let Some(parent) = node.parent {
            if parent >= at {
                return false;
            }
        }
    }
    true
}
