//! Sheets, their rules and the selectors of these.
ghost use Rattle.std.specs.Prelude.{◌≡◌, ◌≤◌, ◌↔◌, IsTrue, All, length, min};
ghost use Rattle.fx_css_limits.specs.Parts.{parts_at, parts_of};
ghost use Rattle.fx_css_types.specs.Limits as limits;
ghost use Rattle.fx_css_types.specs.declared.selectors.Selector.{Selector as Chosen};

use crate::declarations::are_kept;
use fx_css_types::{Compound, Rule, Selector, Sheet, SheetAt};

/// Is every sheet within its limits, with declarations whose rows and values fit their names? Every sheet that was read
/// is so.
pub fn are_within_limits(sheets: &[SheetAt]) -> bool
    ensures { IsTrue result ↔ limits.AreWithinLimits sheets.now }
{
    for sheet in sheets {
        if !is_within_limits(&sheet.sheet) {
            return false;
        }
    }
    true
}

fn is_within_limits(sheet: &Sheet) -> bool
    ensures { IsTrue result ↔ limits.IsWithinLimits sheet.now }
{
    let rules = sheet.rules.as_slice();
    rules.len() <= 4096 && are_kept_rules(rules)
}

fn are_kept_rules(rules: &[Rule]) -> bool
    ensures { IsTrue result ↔ All limits.IsKeptRule rules.now }
{
    for rule in rules {
        if !is_kept_rule(rule) {
            return false;
        }
    }
    true
}

fn is_kept_rule(rule: &Rule) -> bool
    ensures { IsTrue result ↔ limits.IsKeptRule rule.now }
{
    let selectors = rule.selectors.as_slice();
    let declarations = rule.declarations.as_slice();
    selectors.len() <= 64
        && declarations.len() <= 256
        && have_few_compounds(selectors)
        && are_short(selectors)
        && are_kept(declarations)
}

fn have_few_compounds(selectors: &[Selector]) -> bool
    ensures { IsTrue result ↔ (All (λ (s : Chosen). length s.compounds ≤ 16) selectors.now) }
{
    for selector in selectors {
        if !has_few_compounds(selector) {
            return false;
        }
    }
    true
}

fn has_few_compounds(selector: &Selector) -> bool
    ensures { IsTrue result ↔ (length selector.now.compounds ≤ 16) }
{
    selector.compounds.as_slice().len() <= 16
}

fn are_short(selectors: &[Selector]) -> bool
    ensures { IsTrue result ↔ limits.AreShortSelectors selectors.now }
{
    for selector in selectors {
        if !is_short(selector.compounds.as_slice()) {
            return false;
        }
    }
    true
}

/// Have the compounds at most 4,194,304 parts together?
fn is_short(compounds: &[Compound]) -> bool
    ensures { IsTrue result ↔ (parts_of compounds.now ≤ 4194304) }
{
    let mut parts = 0;
    for compound in compounds {
        let more = parts_in(compound);
        if more > 4_194_304 - parts {
            return false;
        }
        parts += more;
    }
    true
}

/// How many parts a compound has, or a number past every limit.
fn parts_in(compound: &Compound) -> usize
    ensures { result ≡ min (parts_at compound.now) 4194305 }
{
    let ids = compound.ids.as_slice().len();
    let classes = compound.classes.as_slice().len();
    let pseudos = compound.pseudos.as_slice().len();
    let kind = usize::from(compound.kind.is_some());
    ids.saturating_add(classes)
        .saturating_add(pseudos)
        .saturating_add(kind)
        .min(4_194_305)
}
