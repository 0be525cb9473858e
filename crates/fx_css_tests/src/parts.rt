//! A rule's selectors, and a declaration. What is good and bad, and what is past a limit, are stored cases of
//! reader_cases.
use fx_css_parts::{read_declaration, read_selectors};
use fx_css_types::{Combinator, Declared, Selector};
use std::alloc::Global;
use std::test::Fail;

fn is_child(selector: &Selector) -> bool {
    match selector.compounds.as_slice() {
        [_, bar] => matches!(bar.combinator, Some(Combinator::Child)) && bar.kind.is_none(),
        _ => false,
    }
}

fn reads_child(alloc: Global, text: &[u8]) -> Result<bool, Fail> {
    let read = read_selectors(alloc, text)?.ok_or("bad selectors")?;
    match read.selectors.as_slice() {
        [only] => Ok(is_child(only)),
        _ => Ok(false),
    }
}

#[test]
fn reads_selectors(rt: HostRuntime) -> Result<(), Fail> {
    assert!(rt; reads_child(rt.alloc(), b"HBox > .bar")?);
    Ok(())
}

fn reads_inherit(alloc: Global, text: &[u8]) -> Result<bool, Fail> {
    let read = read_declaration(alloc, text)?.ok_or("a bad declaration")?;
    Ok(matches!(read.declaration.value, Declared::Inherit))
}

#[test]
fn reads_a_declaration(rt: HostRuntime) -> Result<(), Fail> {
    assert!(rt; reads_inherit(rt.alloc(), b"-fx-padding: inherit")?);
    Ok(())
}
