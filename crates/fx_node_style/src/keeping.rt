//! The paints of a node that look-ups find.
ghost use Rattle.std.specs.Prelude.{◌≡◌, ◌++◌, Some, None, All, IfOk, OnOk, codes as letters, map, option_to_list};
ghost use Rattle.std.specs.List.{flat_map};
ghost use Rattle.std.specs.Option.{option_map};
ghost use Rattle.fx_look.specs.StyleRows.{style_named};
ghost use Rattle.fx_css_types.specs.Limits.{AreWithinLimits, IsKeptDeclaration, row_of};
ghost use Rattle.fx_css_types.specs.declared.declarations.FoundValue.TheVariants as found;
ghost use Rattle.fx_cascade.specs.Sources.{best_source, declarations_of, rule_at};
ghost use Rattle.fx_node_style.specs.Keeping as spec;
ghost use Rattle.fx_node_style.specs.Rows.{text_fill_row};
ghost use Rattle.fx_node_style.specs.Values.{WinsBy, found_value, row_value};

use crate::looking::Rows;
use crate::values::{Winning, declared_value, row_value};
use fx_base::{Text, Value};
use fx_cascade::{Source, declarations_at};
use fx_css_types::{Declaration, Declared, Paint};
use fx_look::StyleKey;
use fx_lookup::NamedPaint;
use std::alloc::{AllocError, Global};

/// The paints of the names that the rules that match declare beside the rows of the style table, in their order, behind
/// that of `-fx-text-fill`. They stand in the room of other ones.
pub fn kept_paints(
    alloc: Global,
    room: Vec<NamedPaint>,
    rows: Rows<'_>,
) -> Result<Vec<NamedPaint>, AllocError>
    requires wins { WinsBy rows.winners.now rows.sheets.now rows.matched.now rows.codes.now }
    requires sheets { AreWithinLimits rows.sheets.now }
    ensures { IfOk result (λ paints. paints.items
        ≡ spec.paints_of rows.entry.sheets.now rows.entry.matched.now rows.entry.codes.now) }
{
    let mut paints = room;
    paints.clear();
    push_fill(&mut paints, alloc, fill_value(rows))?;
    push_own(&mut paints, alloc, rows)?;
    Ok(paints)
}

#[tactic(auto, unfolding(fx_look::specs::Styles::styles))]
fn fill_value<'a>(rows: Rows<'a>) -> Option<Winning<'a>>
    requires wins { WinsBy rows.winners.now rows.sheets.now rows.matched.now rows.codes.now }
    ensures { option_map found_value result
        ≡ row_value rows.entry.sheets.now rows.entry.matched.now rows.entry.codes.now text_fill_row }
{
    row_value(
        rows.sheets,
        rows.matched,
        rows.codes,
        rows.winners,
        StyleKey::TextFill as usize,
    )
}

fn push_fill(
    paints: &mut Vec<NamedPaint>,
    alloc: Global,
    found: Option<Winning>,
) -> Result<(), AllocError>
    ensures { OnOk result (paints.new.items ≡ paints.old.items ++ spec.fill_paint
        (option_map found_value found.entry)) }
{
    match found {
        Some(value) => {
            let paint = paint_of(alloc, value)?;
            let name = fill_name(alloc)?;
            paints.push(NamedPaint { name, paint })?;
            Ok(())
        }
        None => Ok(()),
    }
}

fn fill_name(alloc: Global) -> Result<Text, AllocError>
    ensures { IfOk result (λ name. name ≡ letters "-fx-text-fill") }
{
    match Text::from_ascii(alloc, b"-fx-text-fill")? {
        Some(name) => Ok(name),
        None => Ok(Text::new(alloc)),
    }
}

fn push_own(paints: &mut Vec<NamedPaint>, alloc: Global, rows: Rows<'_>) -> Result<(), AllocError>
    requires wins { WinsBy rows.winners.now rows.sheets.now rows.matched.now rows.codes.now }
    requires sheets { AreWithinLimits rows.sheets.now }
    ensures { OnOk result (paints.new.items
        ≡ paints.old.items ++ spec.own_paints rows.entry.sheets.now rows.entry.matched.now rows.entry.codes.now) }
{
    let sheets = rows.sheets;
    let matched = rows.matched;
    for candidate in matched {
        push_rule(paints, alloc, rows, declarations_at(sheets, candidate))?;
    }
    Ok(())
}

fn push_rule(
    paints: &mut Vec<NamedPaint>,
    alloc: Global,
    rows: Rows<'_>,
    declarations: &[Declaration],
) -> Result<(), AllocError>
    requires wins { WinsBy rows.winners.now rows.sheets.now rows.matched.now rows.codes.now }
    requires kept { All IsKeptDeclaration declarations.now }
    ensures { OnOk result (paints.new.items ≡ paints.old.items
        ++ flat_map (spec.named_paint rows.entry.sheets.now rows.entry.matched.now rows.entry.codes.now)
        (spec.names_of declarations.now)) }
{
    for declaration in declarations {
        push_paint(paints, alloc, rows, declaration)?;
    }
    Ok(())
}

fn push_paint(
    paints: &mut Vec<NamedPaint>,
    alloc: Global,
    rows: Rows<'_>,
    declaration: &Declaration,
) -> Result<(), AllocError>
    requires wins { WinsBy rows.winners.now rows.sheets.now rows.matched.now rows.codes.now }
    requires row { declaration.now.row ≡ row_of declaration.now.name }
    ensures { OnOk result (paints.new.items ≡ paints.old.items
        ++ spec.named_paint rows.entry.sheets.now rows.entry.matched.now rows.entry.codes.now declaration.now.name) }
{
    match declaration.row {
        Some(_) => Ok(()),
        None => push_other(paints, alloc, rows, &declaration.name),
    }
}

fn push_other(
    paints: &mut Vec<NamedPaint>,
    alloc: Global,
    rows: Rows<'_>,
    name: &Text,
) -> Result<(), AllocError>
    requires wins { WinsBy rows.winners.now rows.sheets.now rows.matched.now rows.codes.now }
    requires other { style_named name.now ≡ None }
    ensures { OnOk result (paints.new.items ≡ paints.old.items
        ++ spec.paint_at rows.entry.sheets.now rows.entry.matched.now rows.entry.codes.now name.now None) }
{
    let paint = other_paint(alloc, rows, name)?;
    let name = name.copy(alloc)?;
    paints.push(NamedPaint { name, paint })?;
    Ok(())
}

fn other_paint(alloc: Global, rows: Rows<'_>, name: &Text) -> Result<Option<Paint>, AllocError>
    requires wins { WinsBy rows.winners.now rows.sheets.now rows.matched.now rows.codes.now }
    requires other { style_named name.now ≡ None }
    ensures { IfOk result (λ paint. paint ≡ spec.won_paint rows.entry.sheets.now rows.entry.matched.now
        (best_source rows.entry.sheets.now rows.entry.matched.now rows.entry.codes.now name.now)) }
{
    won_paint(alloc, rows, rows.winners.other(name))
}

fn won_paint(
    alloc: Global,
    rows: Rows<'_>,
    source: Option<Source>,
) -> Result<Option<Paint>, AllocError>
    ensures { IfOk result (λ paint. paint ≡ spec.won_paint rows.entry.sheets.now rows.entry.matched.now source) }
{
    match source {
        Some(Source::Declared(at, place)) => {
            paint_of_value(alloc, declared_value(rows.sheets, rows.matched, at, place))
        }
        _ => Ok(None),
    }
}

fn paint_of_value(alloc: Global, found: Option<Winning>) -> Result<Option<Paint>, AllocError>
    ensures { IfOk result (λ paint. paint ≡ spec.paint_of_value (option_map found_value found.entry)) }
{
    match found {
        None => Ok(None),
        Some(value) => paint_of(alloc, value),
    }
}

fn paint_of(alloc: Global, found: Winning) -> Result<Option<Paint>, AllocError>
    ensures { IfOk result (λ paint. paint ≡ spec.paint_of (found_value found.entry)) }
{
    match found {
        Winning::Code(value) => Ok(code_paint(value)),
        Winning::Declared(declared) => declared_paint(alloc, declared),
    }
}

fn code_paint(value: &Value) -> Option<Paint>
    ensures { result ≡ spec.paint_of (found.Code value.now) }
{
    match value {
        Value::Color(color) => Some(Paint::Color(*color)),
        _ => None,
    }
}

fn declared_paint(alloc: Global, declared: &Declared) -> Result<Option<Paint>, AllocError>
    ensures { IfOk result (λ paint. paint ≡ spec.paint_of (found.Declared declared.now)) }
{
    match declared {
        Declared::Paint(paint) => Ok(Some(paint.copy(alloc)?)),
        _ => Ok(None),
    }
}
