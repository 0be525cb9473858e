//! Each call on written values, on one value; look_cases has what every reader makes of many texts.
use fx_base::{Kind, Same, Value};
use fx_look::{
    CodeValue, Look, StyleForm, StyleKey, StyleName, one_color, one_number, one_sides, one_size,
    one_value, read_value, style_named,
};
use std::test::Fail;

const FONT_SIZE: StyleName = StyleName(StyleKey::FontSize as u32);

#[test]
fn readings_are_one() {
    one_number();
    one_size();
    one_color();
    one_sides();
    one_value();
}

#[test]
fn long_texts(rt: HostRuntime) -> Result<(), Fail> {
    let mut long = String::new(rt.alloc());
    for _ in 0..4096 {
        long.push_str("é")?;
    }
    assert!(rt; read_value(rt.alloc(), Kind::Text, long.as_str())?.is_some());
    long.push_str("x")?;
    assert!(rt; read_value(rt.alloc(), Kind::Text, long.as_str())?.is_none());
    Ok(())
}

#[test]
fn looks_are_copied(rt: HostRuntime) -> Result<(), Fail> {
    let look = Look::initial(rt.alloc(), 4)?.copy(rt.alloc())?;
    assert_eq!(rt; look.alignment, 4);
    assert_eq!(rt; look.max_height, -1);
    assert_eq!(rt; look.border_width.as_slice().len(), 1);
    Ok(())
}

#[test]
fn values_by_code_are_copied(rt: HostRuntime) -> Result<(), Fail> {
    let code = CodeValue {
        style: FONT_SIZE,
        value: Value::Int(14),
        bound: true,
    };
    let copy = code.copy(rt.alloc())?;
    assert!(rt; copy.style == FONT_SIZE && copy.bound && copy.value == Value::Int(14));
    assert!(rt; copy.is_same(&code));
    Ok(())
}

#[test]
fn styles_are_found_by_name(rt: HostRuntime) -> Result<(), Fail> {
    let visibility = StyleName(StyleKey::Visibility as u32);
    assert_eq!(rt; style_named("visibility"), Some(visibility));
    assert_eq!(rt; style_named("-fx-Padding"), None);
    assert!(rt; StyleName(u32::MAX).style().is_none());
    let font = FONT_SIZE.style().ok_or("no row")?;
    assert!(rt; font.name == "-fx-font-size" && font.form == StyleForm::Size);
    assert_eq!(rt; font.form.kind(), Some(Kind::Int));
    Ok(())
}
