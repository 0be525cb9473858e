//! Plain types: printed values, texts, lists, positions and owners.
use fx_base::{
    Color, Family, Kind, List, Name, Position, Same, Sides, Str, Text, TextError, Value, Work,
};
use fx_handles::Owners;
use std::alloc::Global;
use std::marker::Brand;
use std::test::Fail;

/// Is the value printed so, and its copy too?
fn prints(alloc: Global, value: Value, text: &str) -> Result<bool, Fail> {
    let mut out = Vec::new(alloc);
    value.copy(alloc)?.print(alloc, &mut out)?;
    Ok(out.as_slice() == text.as_bytes())
}

#[test]
fn prints_each_kind(rt: HostRuntime) -> Result<(), Fail> {
    let alloc = rt.alloc();
    let sides = Sides {
        top: 1,
        right: -2,
        bottom: 3,
        left: 4,
    };
    let color = Color {
        r: 255,
        g: 0,
        b: 10,
        a: 128,
    };
    assert!(rt; prints(alloc, Value::Int(i64::MIN), "-9223372036854775808")?);
    assert!(rt; prints(alloc, Value::Bool(true), "true")?);
    assert!(rt; prints(alloc, Value::Choice(Family::Pos, 8), "BOTTOM_RIGHT")?);
    assert!(rt; prints(alloc, Value::Color(color), "#ff000a80")?);
    assert!(rt; prints(alloc, Value::Sides(sides), "1 -2 3 4")?);
    Ok(())
}

#[test]
fn prints_a_text(rt: HostRuntime) -> Result<(), Fail> {
    let alloc = rt.alloc();
    let text = Text::from_str(alloc, "a\\b\nc\rd")?;
    assert!(rt; prints(alloc, Value::Text(text), "a\\\\b\\nc\\rd")?);
    Ok(())
}

#[test]
fn tells_values_apart(rt: HostRuntime) {
    let center = Value::Choice(Family::HPos, 1);
    assert!(rt; center.kind() == Kind::Choice(Family::HPos));
    assert!(rt; center.equals(&center) && !center.equals(&Value::Choice(Family::VPos, 1)));
    assert!(rt; Name(1) < Name(2) && Some(1).is_same(&Some(1)) && !None.is_same(&Some(1)));
}

/// Is the text held the same, however it is made?
fn is_held(alloc: Global, text: &str) -> Result<bool, Fail> {
    let held = Text::from_str(alloc, text)?;
    let given = Text::from_string(String::from_str(alloc, text)?);
    let ascii = Text::from_ascii(alloc, text.as_bytes())?;
    Ok(
        held.equals(text)
            && given.is_same(&Some(held.copy(alloc)?))
            && ascii.is_some() == text.is_ascii(),
    )
}

#[test]
fn holds_texts(rt: HostRuntime) -> Result<(), Fail> {
    let alloc = rt.alloc();
    // 30 bytes stand in place, and 31 don't.
    assert!(rt; is_held(alloc, "01234567890123456789012345678\u{e9}")?);
    assert!(rt; is_held(alloc, "012345678901234567890123456789")?);
    assert!(rt; is_held(alloc, "0123456789012345678901234567890")?);
    assert!(rt; size_of::<Text>() == 32 && size_of::<Work<Brand>>() == 0);
    Ok(())
}

/// Is a text of so many characters refused as too long?
fn is_refused(alloc: Global, characters: usize) -> Result<bool, Fail> {
    let mut long = String::new(alloc);
    for _ in 0..characters {
        long.push('é')?;
    }
    let whole = Str::from_string(long).copy(alloc)?;
    match Text::from_str(alloc, whole.as_str()) {
        Ok(_) => Ok(false),
        Err(TextError::TooLong) => Ok(true),
        Err(e) => Err(e.into()),
    }
}

#[test]
fn bounds_texts(rt: HostRuntime) -> Result<(), Fail> {
    let alloc = rt.alloc();
    assert!(rt; !is_refused(alloc, 4096)? && is_refused(alloc, 4097)?);
    Ok(())
}

#[test]
fn copies_lists(rt: HostRuntime) -> Result<(), Fail> {
    let alloc = rt.alloc();
    let mut names = Vec::new(alloc);
    names.push(Text::from_str(alloc, "a")?)?;
    let names = List::from_vec(names);
    let copy = names.copy(alloc)?;
    assert!(rt; copy.is_same(&names) && !copy.is_same(&List::new(alloc)));
    assert!(rt; copy.into_vec().len() == 1);
    Ok(())
}

#[test]
fn counts_positions(rt: HostRuntime) {
    let position = Position { line: 2, column: 2 };
    assert!(rt; Position::START.after('\n').after('é') == position);
    assert!(rt; Position::START.after_bytes("\né".as_bytes()) == position);
}

#[test]
fn tells_owners_apart(rt: HostRuntime) -> Result<(), Fail> {
    let alloc = rt.alloc();
    let mut owners = Owners::new(alloc);
    let first = owners.make(alloc)?;
    assert!(rt; owners.is_live(first) && owners.release(first));
    let second = owners.make(alloc)?;
    assert!(rt; second.slot == first.slot && second.birth == 2);
    assert!(rt; !owners.is_live(first) && !owners.release(first) && owners.is_live(second));
    Ok(())
}
