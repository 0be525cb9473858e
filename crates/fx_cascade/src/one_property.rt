//! The winner of one property.
ghost use Rattle.std.specs.Prelude.{◌≡◌, ◌⊎◌, None, All, IfSome, IfNone, map};
ghost use Rattle.std.specs.Option.{option_map};
ghost use Rattle.fx_css_types.specs.Limits.{AreWithinLimits, IsKeptDeclaration};
ghost use Rattle.fx_cascade.specs.declared.sources.Source.{Source as Speaker};
ghost use Rattle.fx_cascade.specs.Sources as spec;
ghost use Rattle.fx_cascade.specs.Winners.{hear, heard};

use crate::ranks::greater;
use crate::sources::{Source, Winner};
use fx_css_types::{Candidate, Declaration, Rule, SheetAt};
use fx_look::{CodeValue, StyleName};

/// What wins the property of this name: the greatest of its code value and of its declarations in the rules that match.
/// Matches name their rules as `fx_select::RuleIndex::matched` gives them; a match that names no rule of the sheets has
/// no declarations.
pub fn best(
    sheets: &[SheetAt],
    matched: &[Candidate],
    codes: &[CodeValue],
    property: &str,
) -> Option<Winner>
    ensures found { IfSome result (λ w. (best : Speaker)
        × spec.IsBest sheets.now matched.now codes.now property.now best × (spec.winner_of best ≡ w)) }
    ensures none { IfNone result ((other : Speaker)
        → spec.Speaks sheets.now matched.now codes.now property.now other → ⊥) }
    ensures value { result
        ≡ option_map spec.winner_of (spec.best_source sheets.now matched.now codes.now property.now) }
{
    best_winner(best_source(sheets, matched, codes, property))
}

fn best_winner(best: Option<Source>) -> Option<Winner>
    ensures { result ≡ option_map spec.winner_of best }
{
    match best {
        Some(Source::Code(_)) => Some(Winner::Code),
        Some(Source::Declared(at, place)) => Some(Winner::Declared(at, place)),
        None => None,
    }
}

fn best_source(
    sheets: &[SheetAt],
    matched: &[Candidate],
    codes: &[CodeValue],
    property: &str,
) -> Option<Source>
    ensures { result ≡ spec.best_source sheets.now matched.now codes.now property.now }
{
    best_declared(
        sheets,
        matched,
        property,
        best_code(matched, codes, property),
    )
}

fn best_code(matched: &[Candidate], codes: &[CodeValue], property: &str) -> Option<Source>
    ensures { result ≡ heard matched.now property.now None (map spec.code_voice codes.now) }
{
    let mut best = None;
    for code in codes {
        best = hear(
            matched,
            best,
            property,
            row_name(code.style),
            Source::Code(code.bound),
        );
    }
    best
}

fn best_declared(
    sheets: &[SheetAt],
    matched: &[Candidate],
    property: &str,
    so_far: Option<Source>,
) -> Option<Source>
    ensures { result ≡ heard matched.now property.now so_far (spec.declared_voices sheets.now 0 matched.now) }
{
    let mut best = so_far;
    for (at, candidate) in matched.iter().enumerate() {
        best = best_in(
            declarations_at(sheets, candidate),
            matched,
            at,
            property,
            best,
        );
    }
    best
}

fn best_in(
    declarations: &[Declaration],
    matched: &[Candidate],
    at: usize,
    property: &str,
    so_far: Option<Source>,
) -> Option<Source>
    ensures { result ≡ heard matched.now property.now so_far (spec.rule_voices at 0 declarations.now) }
{
    let mut best = so_far;
    for (place, declaration) in declarations.iter().enumerate() {
        best = hear(
            matched,
            best,
            property,
            declaration.name.as_str(),
            Source::Declared(at, place),
        );
    }
    best
}

fn hear(
    matched: &[Candidate],
    best: Option<Source>,
    name: &str,
    said: &str,
    source: Source,
) -> Option<Source>
    ensures { result ≡ hear matched.now name.now best (spec.voice said.now source) }
{
    if said == name {
        greater(matched, best, source)
    } else {
        best
    }
}

/// The name of a row of the style table.
fn row_name(row: StyleName) -> &'static str
    ensures { result.now ≡ spec.row_name row.0 }
{
    match row.style() {
        Some(style) => style.name,
        None => "",
    }
}

/// The declarations of the rule that a match names, none where the sheets have no such rule.
pub fn declarations_at<'a>(sheets: &'a [SheetAt], candidate: &Candidate) -> &'a [Declaration]
    ensures { result.now ≡ spec.declarations_of (spec.rule_at sheets.now candidate.now) }
{
    match rule_at(sheets, candidate) {
        Some(rule) => rule.declarations.as_slice(),
        None => &[],
    }
}

fn rule_at<'a>(sheets: &'a [SheetAt], candidate: &Candidate) -> Option<&'a Rule>
    ensures { option_map (λ r. r.now) result ≡ spec.rule_at sheets.now candidate.now }
{
    let sheet = sheets.get(candidate.sheet)?;
    sheet.sheet.rules.as_slice().get(candidate.rule)
}
