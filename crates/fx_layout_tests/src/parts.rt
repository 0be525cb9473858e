//! Insets of a look, and children as their panes see them.
use fx_base::{Color, Family, List, NodeKey, Sides, Text, Value};
use fx_insets::insets_of;
use fx_kinds::{BoxFacts, Class, Constraint};
use fx_layout_parts::{Rule, child_of, rule_of};
use fx_look::Look;
use fx_panes_parts::Extent;
use std::alloc::{AllocError, Global};
use std::test::Fail;

const RED: Color = Color {
    r: 255,
    g: 0,
    b: 0,
    a: 255,
};

fn even(n: i64) -> Sides {
    Sides {
        top: n,
        right: n,
        bottom: n,
        left: n,
    }
}

fn list_of<T: Copy>(alloc: Global, items: &[T]) -> Result<List<T>, AllocError> {
    Ok(List::from_vec(Vec::from_slice(alloc, items)?))
}

#[test]
fn insets_are_padding_and_border(rt: HostRuntime) -> Result<(), Fail> {
    let alloc = rt.alloc();
    let mut look = Look::initial(alloc, 0)?;
    look.padding = Sides {
        top: 1,
        right: 2,
        bottom: 3,
        left: 200_000,
    };
    assert!(rt; insets_of(&look).top == 1);
    look.border_color = list_of(alloc, &[RED, RED])?;
    look.border_width = list_of(alloc, &[even(2)])?;
    look.border_insets = list_of(alloc, &[even(0), even(4)])?;
    let insets = insets_of(&look);
    assert!(rt; insets.top == 7 && insets.right == 8 && insets.bottom == 9);
    assert!(rt; insets.left == 100_000);
    Ok(())
}

fn node(alloc: Global, constraint: Constraint) -> Result<BoxFacts, AllocError> {
    let mut constraints = Vec::new(alloc);
    constraints.push(constraint)?;
    Ok(BoxFacts {
        key: NodeKey { slot: 0, birth: 1 },
        parent: None,
        class: Class::Region,
        constraints: List::from_vec(constraints),
        edge: None,
        columns: List::new(alloc),
        rows: List::new(alloc),
        text: Text::new(alloc),
        layout_x: 5,
        layout_y: 6,
        focus_traversable: false,
    })
}

#[test]
fn a_pane_reads_its_own_constraints(rt: HostRuntime) -> Result<(), Fail> {
    let alloc = rt.alloc();
    let grows = Constraint {
        name: Text::from_str(alloc, "HBox.hgrow")?,
        value: Value::Choice(Family::Priority, 2),
    };
    let facts = node(alloc, grows)?;
    let lengths = Extent {
        min: 1,
        pref: 2,
        max: 3,
    };
    let child = child_of(rule_of(Class::HBox), &facts, lengths, lengths);
    assert!(rt; child.hgrow == Some(2) && child.sizes.pref_w == 2 && child.layout_x == 5);
    let other = child_of(Rule::VBox, &facts, lengths, lengths);
    assert!(rt; other.hgrow == None && other.column_span == 1);
    Ok(())
}
