//! Each call on the tables and on the facts of nodes, on one value; look_cases has the tables themselves.
use fx_base::{Family, Kind, List, NodeKey, Same, Text, Value};
use fx_kinds::{
    BoxFacts, Class, Constraint, StyleFacts, birth_style, constraint_of, constraint_value,
    each_constraint_named, each_styled, initial_alignment, one_class, one_constraint_value,
    one_property, properties, property_named, styled_back, value_kind,
};
use fx_look::{CodeValue, StyleKey, StyleName};
use std::alloc::{AllocError, Global};
use std::test::Fail;

const KEY: NodeKey = NodeKey { slot: 3, birth: 7 };

#[test]
fn classes(rt: HostRuntime) {
    one_class();
    assert_eq!(rt; birth_style(Class::Label), Some("label"));
    assert_eq!(rt; birth_style(Class::Pane), None);
    assert_eq!(rt; value_kind(Class::Font), Some(Kind::Int));
    assert_eq!(rt; value_kind(Class::Url), None);
    assert_eq!(rt; initial_alignment(Class::StackPane), 4);
}

#[test]
fn tables(rt: HostRuntime) {
    assert_eq!(rt; properties(Class::Insets).len(), 0);
    assert_eq!(rt; property_named(Class::Pane, "alignment"), None);
    styled_back();
    each_styled();
    one_property();
    each_constraint_named();
}

#[test]
fn constraints_take_values(rt: HostRuntime) -> Result<(), Fail> {
    let span = constraint_of("GridPane.rowSpan").ok_or("no row")?;
    assert!(rt; span.takes(&Value::Int(64)) && !span.takes(&Value::Int(0)));
    assert!(rt; !span.takes(&Value::Bool(true)));
    Ok(())
}

#[test]
fn constraint_values(rt: HostRuntime) -> Result<(), Fail> {
    let alloc = rt.alloc();
    assert!(rt; constraint_value(alloc, "GridPane.rowSpan", "2")? == Some(Value::Int(2)));
    for (name, text) in [
        ("GridPane.rowSpan", "65"),
        ("GridPane.rowSpan", "two"),
        ("GridPane.span", "2"),
    ] {
        assert!(rt;
            constraint_value(alloc, name, text)?.is_none(),
            "{name} {text}"
        );
    }
    one_constraint_value();
    Ok(())
}

fn font_size(alloc: Global) -> Result<List<CodeValue>, AllocError> {
    let code = CodeValue {
        style: StyleName(StyleKey::FontSize as u32),
        value: Value::Int(9),
        bound: false,
    };
    Ok(List::from_vec(vec![in alloc; code]?))
}

fn style_facts(alloc: Global) -> Result<StyleFacts, Fail> {
    Ok(StyleFacts {
        key: KEY,
        parent: None,
        class: Class::Label,
        id: Text::from_str(alloc, "title")?,
        classes: List::from_vec(vec![in alloc; Text::from_str(alloc, "label")?]?),
        pseudos: List::new(alloc),
        inline: Some(2),
        sheets: List::from_vec(vec![in alloc; 0, 1]?),
        codes: font_size(alloc)?,
    })
}

#[test]
fn facts_for_styles_are_copied(rt: HostRuntime) -> Result<(), Fail> {
    let first = style_facts(rt.alloc())?;
    let mut style = first.copy(rt.alloc())?;
    assert!(rt; style.is_same(&first));
    style.inline = None;
    assert!(rt; !style.is_same(&first));
    assert_eq!(rt; style.sheets.as_slice(), [0, 1].as_slice());
    assert_eq!(rt; style.codes.as_slice().len(), 1);
    Ok(())
}

fn margin(alloc: Global) -> Result<Constraint, Fail> {
    Ok(Constraint {
        name: Text::from_str(alloc, "HBox.hgrow")?,
        value: Value::Choice(Family::Priority, 2),
    })
}

fn box_facts(alloc: Global) -> Result<BoxFacts, Fail> {
    let margin = margin(alloc)?;
    Ok(BoxFacts {
        key: KEY,
        parent: Some(0),
        class: Class::Label,
        constraints: List::from_vec(vec![in alloc; margin.copy(alloc)?]?),
        edge: None,
        columns: List::new(alloc),
        rows: List::new(alloc),
        text: Text::from_str(alloc, "OK")?,
        layout_x: 1,
        layout_y: -1,
        focus_traversable: false,
    })
}

#[test]
fn facts_for_boxes_are_copied(rt: HostRuntime) -> Result<(), Fail> {
    let first = box_facts(rt.alloc())?;
    let facts = first.copy(rt.alloc())?;
    assert!(rt; facts.is_same(&first));
    assert_eq!(rt; facts.layout_y, -1);
    assert_eq!(rt; facts.constraints.as_slice().len(), 1);
    Ok(())
}
