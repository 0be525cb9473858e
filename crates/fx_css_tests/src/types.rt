//! A sheet is copied, and so is what was found on a node.
use fx_base::{List, Same, Sides, Text};
use fx_css::agent_sheet;
use fx_css_types::{Declared, Found, FoundValue, SheetAt, SheetOrigin};
use std::alloc::{AllocError, Global};
use std::test::Fail;

fn is_copied(alloc: Global, sheet: &SheetAt) -> Result<bool, AllocError> {
    let copy = sheet.copy(alloc)?;
    Ok(copy.is_same(sheet) && copy.sheet.rules.as_slice().len() == 7)
}

#[test]
fn copies_a_sheet(rt: HostRuntime) -> Result<(), Fail> {
    let alloc = rt.alloc();
    let sheet = SheetAt {
        sheet: agent_sheet(alloc)?,
        origin: SheetOrigin::Parent(3),
    };
    assert!(rt; is_copied(alloc, &sheet)?);
    Ok(())
}

fn is_found_again(alloc: Global, found: &Found) -> Result<bool, AllocError> {
    let copy = found.copy(alloc)?;
    Ok(copy.is_same(found) && copy.name.equals("-fx-background-insets"))
}

#[test]
fn copies_what_was_found(rt: HostRuntime) -> Result<(), Fail> {
    let alloc = rt.alloc();
    let sides = Sides {
        top: 1,
        right: 2,
        bottom: 3,
        left: 4,
    };
    let found = Found {
        name: Text::from_str(alloc, "-fx-background-insets")?,
        value: FoundValue::Declared(Declared::SidesList(List::from_vec(Vec::from_slice(
            alloc,
            &[sides],
        )?))),
    };
    assert!(rt; is_found_again(alloc, &found)?);
    Ok(())
}
