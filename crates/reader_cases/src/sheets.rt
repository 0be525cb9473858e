//! Sheets and styles: the numbers of rules, selectors and declarations, a checksum of the rules as they are written,
//! and the places of warnings; or why there are none.
use anyhow::bail;
use fx_base::{Color, Same, Sides, Text, Value};
use fx_css::{SheetError, agent_sheet, read_inline, read_sheet};
use fx_css_types::{Combinator, Compound, Declaration, Declared, Paint, Rule, Selector, Sheet};
use std::alloc::{AllocError, Global};
use std::fmt::Write;

/// What is read of a sheet.
pub fn write_sheet_of(alloc: Global, text: &[u8], out: &mut String) -> anyhow::Result<()> {
    if text.len() > 4194304 {
        bail!("the sheet is too long");
    }
    write_told(alloc, &read_sheet(alloc, text, 0), out)
}

/// What is read of a style.
pub fn write_style_of(alloc: Global, text: &str, out: &mut String) -> anyhow::Result<()> {
    if text.len() > 4194304 {
        bail!("the style is too long");
    }
    write_told(alloc, &read_inline(alloc, text), out)
}

/// Whether the text is the sheet of the user agent.
pub fn tell_agent(alloc: Global, text: &[u8], out: &mut String) -> anyhow::Result<()> {
    if text.len() > 4194304 {
        bail!("the sheet is too long");
    }
    let same = match &read_sheet(alloc, text, 0) {
        Ok(sheet) => is_agent(alloc, sheet)?,
        Err(_) => false,
    };
    Ok(out.push_str(if same { "same" } else { "other" })?)
}

fn is_agent(alloc: Global, sheet: &Sheet) -> Result<bool, AllocError> {
    let built = agent_sheet(alloc)?;
    Ok(sheet.is_same(&built))
}

fn write_told(
    alloc: Global,
    read: &Result<Sheet, SheetError>,
    out: &mut String,
) -> anyhow::Result<()> {
    match read {
        Ok(sheet) => write_counts(alloc, sheet, out),
        Err(error) => Ok(write!(out, "{error}")?),
    }
}

/// The numbers of rules, selectors and declarations, a checksum of the rules as they are written, and the places of
/// warnings.
fn write_counts(alloc: Global, sheet: &Sheet, out: &mut String) -> anyhow::Result<()> {
    let mut selectors = 0usize;
    let mut declarations = 0usize;
    for rule in sheet.rules.as_slice() {
        selectors = selectors.wrapping_add(rule.selectors.as_slice().len());
        declarations = declarations.wrapping_add(rule.declarations.as_slice().len());
    }
    let rules = sheet.rules.as_slice().len();
    let sum = sum_of(alloc, sheet)?;
    write!(out, "{rules} {selectors} {declarations} {sum}")?;
    for place in sheet.warnings.as_slice() {
        let line = place.position.line;
        let column = place.position.column;
        write!(out, " {line}:{column}")?;
    }
    Ok(())
}

/// The checksum of the rules as they are written.
fn sum_of(alloc: Global, sheet: &Sheet) -> anyhow::Result<u32> {
    let mut text = String::new(alloc);
    write_rules(sheet, &mut text)?;
    Ok(checksum(text.as_str()))
}

fn checksum(text: &str) -> u32 {
    let mut sum = 0u32;
    for byte in text.bytes() {
        sum = sum.wrapping_mul(31).wrapping_add(u32::from(byte));
    }
    sum
}

fn write_sides(sides: &Sides, out: &mut String) -> anyhow::Result<()> {
    let Sides {
        top,
        right,
        bottom,
        left,
    } = *sides;
    Ok(write!(out, "{top} {right} {bottom} {left},")?)
}

fn write_paint(paint: &Paint, out: &mut String) -> anyhow::Result<()> {
    match paint {
        Paint::Color(color) => {
            let Color { r, g, b, a } = *color;
            write!(out, "{r} {g} {b} {a},")?;
        }
        Paint::Named(name) => out.push_str(name.as_str())?,
    }
    Ok(())
}

fn write_value(value: &Value, out: &mut String) -> anyhow::Result<()> {
    match value {
        Value::Int(number) => write!(out, "{number}")?,
        Value::Bool(truth) => write!(out, "{truth}")?,
        Value::Sides(sides) => write_sides(sides, out)?,
        Value::Choice(_, place) => write!(out, "choice {place}")?,
        _ => out.push_str("another")?,
    }
    Ok(())
}

fn write_paints(paints: &[Paint], out: &mut String) -> anyhow::Result<()> {
    for paint in paints {
        write_paint(paint, out)?;
    }
    Ok(())
}

fn write_layers(layers: &[Sides], out: &mut String) -> anyhow::Result<()> {
    for sides in layers {
        write_sides(sides, out)?;
    }
    Ok(())
}

fn write_declared(declared: &Declared, out: &mut String) -> anyhow::Result<()> {
    match declared {
        Declared::Plain(value) => write_value(value, out),
        Declared::Paint(paint) => write_paint(paint, out),
        Declared::Paints(paints) => write_paints(paints.as_slice(), out),
        Declared::SidesList(layers) => write_layers(layers.as_slice(), out),
        Declared::Inherit => Ok(out.push_str("inherit")?),
    }
}

fn write_names(sign: &str, names: &[Text], out: &mut String) -> anyhow::Result<()> {
    for name in names {
        out.push_str(sign)?;
        out.push_str(name.as_str())?;
    }
    Ok(())
}

/// A compound behind its combinator.
fn write_compound(compound: &Compound, out: &mut String) -> anyhow::Result<()> {
    out.push_str(match compound.combinator {
        None => "",
        Some(Combinator::Descendant) => " ",
        Some(Combinator::Child) => ">",
    })?;
    match &compound.kind {
        Some(kind) => out.push_str(kind.as_str())?,
        None => out.push_str("*")?,
    }
    write_names(".", compound.classes.as_slice(), out)?;
    write_names(":", compound.pseudos.as_slice(), out)?;
    write_names("#", compound.ids.as_slice(), out)
}

/// Selectors as they are written, with commas between them.
pub fn write_selectors(selectors: &[Selector], out: &mut String) -> anyhow::Result<()> {
    for (place, selector) in selectors.iter().enumerate() {
        if place > 0 {
            out.push_str(",")?;
        }
        write_selector(selector, out)?;
    }
    Ok(())
}

fn write_selector(selector: &Selector, out: &mut String) -> anyhow::Result<()> {
    for compound in selector.compounds.as_slice() {
        write_compound(compound, out)?;
    }
    Ok(())
}

/// A declaration as it is written.
pub fn write_declaration(declaration: &Declaration, out: &mut String) -> anyhow::Result<()> {
    out.push_str(declaration.name.as_str())?;
    out.push_str(":")?;
    write_declared(&declaration.value, out)?;
    Ok(out.push_str(";")?)
}

fn write_rule(rule: &Rule, out: &mut String) -> anyhow::Result<()> {
    write_selectors(rule.selectors.as_slice(), out)?;
    out.push_str("{")?;
    for declaration in rule.declarations.as_slice() {
        write_declaration(declaration, out)?;
    }
    Ok(out.push_str("}")?)
}

fn write_rules(sheet: &Sheet, out: &mut String) -> anyhow::Result<()> {
    for rule in sheet.rules.as_slice() {
        write_rule(rule, out)?;
        out.push_str("\n")?;
    }
    Ok(())
}
