//! A VBox of HBoxes, each with nine Buttons or ten Labels.
ghost use Rattle.std.specs.Prelude.{◌≤◌};

use fx_base::{List, NodeKey, Text, Value};
use fx_kinds::{Class, StyleFacts};
use fx_look::{CodeValue, StyleKey, StyleName};
use std::alloc::{AllocError, Global};

/// The facts of so many nodes, each of four classes that rules name. Every second one is of a further class, if they
/// are to be unlike, so that none is like the one before it. The VBox lists the sheet.
pub fn buttons(alloc: Global, count: u32, unlike: bool) -> anyhow::Result<Vec<StyleFacts>> {
    let mut facts = Vec::new(alloc);
    put_buttons(alloc, &mut facts, count, unlike)?;
    Ok(facts)
}

fn put_buttons(
    alloc: Global,
    facts: &mut Vec<StyleFacts>,
    count: u32,
    unlike: bool,
) -> anyhow::Result<()> {
    let all = ["a", "b", "c", "d", "even"];
    put(facts, root(alloc, &all)?)?;
    let mut row = 0;
    for birth in 1..count {
        let names = &all[..named(birth, unlike)];
        if birth % 10 == 1 {
            row = facts.len();
            put(facts, node(alloc, birth, Some(0), Class::HBox, names)?)?;
        } else {
            put(facts, node(alloc, birth, Some(row), Class::Button, names)?)?;
        }
    }
    Ok(())
}

/// Of how many of the five classes a button is.
fn named(birth: u32, unlike: bool) -> usize
    ensures { result ≤ 5 }
{
    if unlike && birth % 2 == 0 { 5 } else { 4 }
}

/// The facts of so many nodes, of which each Label is of a class that a rule names, and of this width by code. The VBox
/// lists the sheet.
pub fn labels(alloc: Global, count: u32, width: i64) -> anyhow::Result<Vec<StyleFacts>> {
    let mut facts = Vec::new(alloc);
    put_labels(alloc, &mut facts, count, width)?;
    Ok(facts)
}

fn put_labels(
    alloc: Global,
    facts: &mut Vec<StyleFacts>,
    count: u32,
    width: i64,
) -> anyhow::Result<()> {
    put(facts, root(alloc, &[])?)?;
    let mut row = 0;
    for birth in 1..count {
        if birth % 11 == 1 {
            row = facts.len();
            put(facts, node(alloc, birth, Some(0), Class::HBox, &[])?)?;
        } else {
            put(facts, label(alloc, birth, row, width)?)?;
        }
    }
    Ok(())
}

fn put(facts: &mut Vec<StyleFacts>, node: StyleFacts) -> Result<(), AllocError> {
    Ok(facts.push(node)?)
}

fn root(alloc: Global, names: &[&str]) -> anyhow::Result<StyleFacts> {
    let sheets = Vec::from_slice(alloc, &[0usize])?;
    let mut root = node(alloc, 0, None, Class::VBox, names)?;
    root.sheets = List::from_vec(sheets);
    Ok(root)
}

fn label(alloc: Global, birth: u32, row: usize, width: i64) -> anyhow::Result<StyleFacts> {
    let codes = widths(alloc, width)?;
    let mut label = node(alloc, birth, Some(row), Class::Label, &["label"])?;
    label.codes = codes;
    Ok(label)
}

fn widths(alloc: Global, width: i64) -> Result<List<CodeValue>, AllocError> {
    let mut codes = Vec::new(alloc);
    codes.push(CodeValue {
        style: StyleName(StyleKey::PrefWidth as u32),
        value: Value::Int(width),
        bound: true,
    })?;
    Ok(List::from_vec(codes))
}

fn node(
    alloc: Global,
    birth: u32,
    parent: Option<usize>,
    class: Class,
    names: &[&str],
) -> anyhow::Result<StyleFacts> {
    let classes = classes_of(alloc, names)?;
    Ok(StyleFacts {
        key: NodeKey {
            slot: birth as usize,
            birth,
        },
        parent,
        class,
        id: Text::new(alloc),
        classes,
        pseudos: List::new(alloc),
        inline: None,
        sheets: List::new(alloc),
        codes: List::new(alloc),
    })
}

/// The classes of these names.
fn classes_of(alloc: Global, names: &[&str]) -> anyhow::Result<List<Text>> {
    let mut classes = Vec::new(alloc);
    for name in names {
        classes.push(Text::from_str(alloc, name)?)?;
    }
    Ok(List::from_vec(classes))
}
