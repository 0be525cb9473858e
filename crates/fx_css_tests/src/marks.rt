//! A text with a comment and a quote: what it says, and where it stands, counted by hand.
use fx_base::Position;
use fx_css_marks::{is_bare, places, position, spoken};
use std::test::Fail;

#[test]
fn says_what_stands_outside_comments(rt: HostRuntime) -> Result<(), Fail> {
    let said = spoken(rt.alloc(), b"a/*b*/'c'")?;
    assert!(rt; said.bytes.as_slice() == b"a 'c'".as_slice());
    assert!(rt; said.signs.as_slice() == b"a \xff\xff\xff".as_slice());
    assert!(rt; is_bare(b"a/b") && !is_bare(b"a/*b*/"));
    Ok(())
}

#[test]
fn tells_places(rt: HostRuntime) -> Result<(), Fail> {
    let text = b"a/*\n\n x*/b\nc";
    let third = Position { line: 3, column: 6 };
    let found = places(rt.alloc(), text, 7, &[1, 3])?;
    assert!(rt; found.as_slice().len() == 2);
    let Some(last) = found.as_slice().last() else {
        return Err(Fail::from("no place"));
    };
    assert!(rt; last.file == 7 && last.position == third);
    assert!(rt; position(text, 3) == third);
    Ok(())
}
