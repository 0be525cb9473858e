//! A sheet, a style, and the sheet of the user agent. Sheets and styles as the reference player reads them are stored
//! cases of reader_cases.
use fx_css::{agent_sheet, read_inline, read_sheet};
use fx_css_types::Sheet;
use std::test::Fail;

/// The numbers of rules, of the first rule's declarations, and of warnings.
fn counts(sheet: &Sheet) -> (usize, usize, usize) {
    let rules = sheet.rules.as_slice();
    let declarations = match rules.first() {
        Some(rule) => rule.declarations.as_slice().len(),
        None => 0,
    };
    (rules.len(), declarations, sheet.warnings.as_slice().len())
}

#[test]
fn reads_a_sheet(rt: HostRuntime) -> Result<(), Fail> {
    let text = b"Button{-fx-padding:x;-fx-padding:1}@media{a{}}";
    let sheet = read_sheet(rt.alloc(), text, 0)?;
    assert!(rt; counts(&sheet) == (1, 1, 2));
    Ok(())
}

#[test]
fn reads_a_style(rt: HostRuntime) -> Result<(), Fail> {
    let style = read_inline(rt.alloc(), "-fx-padding:1;-c:red")?;
    assert!(rt; counts(&style) == (1, 2, 0));
    Ok(())
}

#[test]
fn builds_the_sheet_of_the_user_agent(rt: HostRuntime) -> Result<(), Fail> {
    let sheet = agent_sheet(rt.alloc())?;
    assert!(rt; counts(&sheet) == (7, 1, 0));
    Ok(())
}
