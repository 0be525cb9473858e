//! The values that win the rows of the style table.
ghost use Rattle.std.specs.Prelude.{◌≡◌, ◌<◌, ℕ, List, Some, find};
ghost use Rattle.std.specs.Option.{option_map};
ghost use Rattle.fx_cascade.specs.Sources.{best_source, row_name};
ghost use Rattle.fx_cascade.specs.Tables.{source_of};
ghost use Rattle.fx_node_style.specs.Values.{WinsBy, code_value, declared_value, found_value, row_value, value_of};

use fx_base::Value;
use fx_cascade::{Source, Winners, declarations_at};
use fx_css_types::{Candidate, Declared, SheetAt};
use fx_look::{CodeValue, STYLE_COUNT};

/// A value that wins, where it stands.
#[derive(Clone, Copy)]
pub enum Winning<'a> {
    Code(&'a Value),
    Declared(&'a Declared),
}

/// The value that wins a row.
#[inline(always)]
#[tactic(auto, unfolding(crate::specs::Values::row_value))]
pub fn row_value<'a>(
    sheets: &'a [SheetAt],
    matched: &[Candidate],
    codes: &'a [CodeValue],
    winners: &Winners,
    row: usize,
) -> Option<Winning<'a>>
    requires wins { WinsBy winners.now sheets.now matched.now codes.now }
    requires there { row < STYLE_COUNT }
    ensures { option_map found_value result ≡ row_value sheets.now matched.now codes.now row }
{
    let source = row_source(sheets, matched, codes, winners, row)?;
    value_of(sheets, matched, codes, row, source)
}

#[inline(always)]
fn row_source(
    _sheets: &[SheetAt],
    _matched: &[Candidate],
    _codes: &[CodeValue],
    winners: &Winners,
    row: usize,
) -> Option<Source>
    requires wins { WinsBy winners.now _sheets.now _matched.now _codes.now }
    requires there { row < STYLE_COUNT }
    ensures { result ≡ best_source _sheets.now _matched.now _codes.now (row_name row) }
{
    winners.row(row)
}

#[inline(never)]
fn value_of<'a>(
    sheets: &'a [SheetAt],
    matched: &[Candidate],
    codes: &'a [CodeValue],
    row: usize,
    source: Source,
) -> Option<Winning<'a>>
    ensures { option_map found_value result ≡ value_of sheets.now matched.now codes.now row source }
{
    match source {
        Source::Code(_) => code_value(codes, row),
        Source::Declared(at, place) => declared_value(sheets, matched, at, place),
    }
}

fn code_value(codes: &[CodeValue], row: usize) -> Option<Winning<'_>>
    ensures { option_map found_value result ≡ code_value codes.now row }
{
    let code = codes.iter().find(|code| code.style.0 as usize == row)?;
    Some(Winning::Code(&code.value))
}

pub fn declared_value<'a>(
    sheets: &'a [SheetAt],
    matched: &[Candidate],
    at: usize,
    place: usize,
) -> Option<Winning<'a>>
    ensures { option_map found_value result ≡ declared_value sheets.now matched.now at place }
{
    let candidate = matched.get(at)?;
    let declaration = declarations_at(sheets, candidate).get(place)?;
    Some(Winning::Declared(&declaration.value))
}
