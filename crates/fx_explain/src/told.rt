//! What is told to users of one that speaks for a property.
ghost use Rattle.std.specs.Prelude.{◌≡◌, Some, None};
ghost use Rattle.std.specs.Option.{option_copied};
ghost use Rattle.fx_explain.specs.Told.{has_origin, is_before, match_rank, rank_of, same_origin, sheet_number};

use fx_cascade::Source;
use fx_css_types::{Candidate, SheetAt, SheetOrigin};

/// What speaks for a property, as it is told: a bound value, a value that code set, or a declaration by its origin, the
/// greatest specificity by which its rule matches, and places that count from 0: of the sheet among those of its origin
/// that the node sees, of the rule in the sheet, and of the declaration in the rule.
#[derive(Clone, Copy, PartialEq, Eq, Debug)]
pub enum Rank {
    Bound,
    Code,
    Declared {
        origin: SheetOrigin,
        specificity: (u32, u32, u32),
        sheet: usize,
        rule: usize,
        place: usize,
    },
}

/// What is told of one that speaks; none of a declaration in no match. The sheets that the node sees are given by their
/// places, each once: those that it or an ancestor lists, and its inline sheet.
pub fn rank_of(
    sheets: &[SheetAt],
    seen: &[usize],
    matched: &[Candidate],
    source: Source,
) -> Option<Rank>
    ensures { result ≡ rank_of sheets.now seen.now matched.now source }
{
    match source {
        Source::Code(true) => Some(Rank::Bound),
        Source::Code(false) => Some(Rank::Code),
        Source::Declared(at, place) => match_rank(sheets, seen, matched.get(at), place),
    }
}

fn match_rank(
    sheets: &[SheetAt],
    seen: &[usize],
    candidate: Option<&Candidate>,
    place: usize,
) -> Option<Rank>
    ensures { result ≡ match_rank sheets.now seen.now (option_copied candidate.entry) place }
{
    match candidate {
        Some(candidate) => Some(Rank::Declared {
            origin: candidate.origin,
            specificity: candidate.specificity,
            sheet: sheet_number(sheets, seen, candidate),
            rule: candidate.rule,
            place,
        }),
        None => None,
    }
}

/// How many of the sheets that are seen stand before the match's own, with its origin.
fn sheet_number(sheets: &[SheetAt], seen: &[usize], candidate: &Candidate) -> usize
    ensures { result ≡ sheet_number sheets.now seen.now candidate.now }
{
    seen.iter()
        .filter(|sheet| is_before(sheets, candidate, **sheet))
        .count()
}

/// Whether a sheet stands before the match's own and has its origin.
fn is_before(sheets: &[SheetAt], candidate: &Candidate, sheet: usize) -> bool
    ensures { result ≡ is_before sheets.now candidate.now sheet }
{
    sheet < candidate.sheet && has_origin(sheets.get(sheet), candidate.origin)
}

fn has_origin(sheet: Option<&SheetAt>, origin: SheetOrigin) -> bool
    ensures { result ≡ has_origin (option_copied sheet.entry) origin }
{
    match sheet {
        Some(sheet) => same_origin(sheet.origin, origin),
        None => false,
    }
}

fn same_origin(one: SheetOrigin, other: SheetOrigin) -> bool
    ensures { result ≡ same_origin one other }
{
    match (one, other) {
        (SheetOrigin::Agent, SheetOrigin::Agent) => true,
        (SheetOrigin::Scene, SheetOrigin::Scene) => true,
        (SheetOrigin::Parent(depth), SheetOrigin::Parent(other_depth)) => depth == other_depth,
        (SheetOrigin::Inline, SheetOrigin::Inline) => true,
        _ => false,
    }
}
