//! Listed selectors that match a node, as candidates for the cascade.
//! The index collects them and gives each of their rules once.
ghost use Rattle.std.specs.Prelude.{◌≡◌, ◌++◌, ◌<◌, ◌≤◌, ◌==◌, length, OnOk, All};
ghost use Rattle.std.specs.List.{filter_map, list_any};
ghost use Rattle.std.specs.Option.{option_copied, option_to_list};
ghost use Rattle.fx_select.specs.Chains.{ParentsStandBefore, chain};
ghost use Rattle.fx_select.specs.Hits as spec;
ghost use Rattle.fx_css_types.specs.Limits.{AreShort, AreShortRules, AreShortSelectors};
ghost use Rattle.fx_css_types.specs.Specificity.{part_count};

use crate::lists::SelectorAt;
use crate::matching::{is_match, node_at};
use crate::weights::specificity;
use fx_css_types::{Candidate, Rule, Selector, SheetAt, SheetOrigin};
use fx_kinds::StyleFacts;
use std::alloc::AllocError;

/// Whether a node sees a sheet, as it was found for the selector before.
#[derive(Clone, Copy)]
pub struct Seen {
    sheet: usize,
    visible: bool,
}

/// Puts those of the selectors behind the hits that match the node at this place. `last` is what was found for the
/// selector before, and in the end what was found for the last one.
pub fn push_hits(
    hits: &mut Vec<Candidate>,
    listed: &[SelectorAt],
    sheets: &[SheetAt],
    facts: &[StyleFacts],
    at: usize,
    last: &mut Option<Seen>,
) -> Result<(), AllocError>
    requires before { ParentsStandBefore facts.now }
    requires there { at < length facts.now }
    requires short { AreShort sheets.now }
    requires last { spec.IsRight (chain facts.now at) last.old }
    ensures hits { OnOk result (hits.new.items
        ≡ hits.old.items ++ filter_map (spec.hit_of sheets.now (chain facts.now at)) listed.now) }
    ensures last { spec.IsRight (chain facts.now at) last.new }
{
    for selector in listed {
        let visible = is_seen(*last, selector.sheet, facts, at);
        push_hit(hits, hit_of(*selector, visible, sheets, facts, at))?;
        *last = Some(Seen {
            sheet: selector.sheet,
            visible,
        });
    }
    Ok(())
}

fn push_hit(hits: &mut Vec<Candidate>, hit: Option<Candidate>) -> Result<(), AllocError>
    ensures { OnOk result (hits.new.items ≡ hits.old.items ++ option_to_list hit) }
{
    match hit {
        Some(hit) => {
            hits.push(hit)?;
            Ok(())
        }
        None => Ok(()),
    }
}

/// Puts the rules without selector of the node's inline sheet behind the hits.
pub fn push_own_hits(
    hits: &mut Vec<Candidate>,
    inline: Option<usize>,
    sheets: &[SheetAt],
) -> Result<(), AllocError>
    ensures { OnOk result (hits.new.items ≡ hits.old.items ++ spec.own_hits inline sheets.now) }
{
    match inline {
        Some(own) => push_sheet_hits(hits, own, sheets.get(own)),
        None => Ok(()),
    }
}

fn push_sheet_hits(
    hits: &mut Vec<Candidate>,
    own: usize,
    sheet: Option<&SheetAt>,
) -> Result<(), AllocError>
    ensures { OnOk result (hits.new.items ≡ hits.old.items ++ spec.own_hits_at own (option_copied sheet.entry)) }
{
    match sheet {
        Some(sheet) => push_rule_hits(hits, own, sheet.origin, sheet.sheet.rules.as_slice()),
        None => Ok(()),
    }
}

fn push_rule_hits(
    hits: &mut Vec<Candidate>,
    own: usize,
    origin: SheetOrigin,
    rules: &[Rule],
) -> Result<(), AllocError>
    ensures { OnOk result (hits.new.items ≡ hits.old.items ++ spec.own_hits_in own origin rules.now) }
{
    for (place, rule) in rules.iter().enumerate() {
        push_rule_hit(hits, own, origin, place, rule.selectors.as_slice())?;
    }
    Ok(())
}

fn push_rule_hit(
    hits: &mut Vec<Candidate>,
    own: usize,
    origin: SheetOrigin,
    rule: usize,
    selectors: &[Selector],
) -> Result<(), AllocError>
    ensures { OnOk result (hits.new.items ≡ hits.old.items ++ spec.own_hit own origin rule selectors.now) }
{
    match selectors {
        [] => {
            hits.push(Candidate {
                sheet: own,
                rule,
                specificity: (0, 0, 0),
                origin,
            })?;
            Ok(())
        }
        [_, ..] => Ok(()),
    }
}

#[tactic(auto, unfolding(crate::specs::Hits::hit_of))]
fn hit_of(
    listed: SelectorAt,
    visible: bool,
    sheets: &[SheetAt],
    facts: &[StyleFacts],
    at: usize,
) -> Option<Candidate>
    requires before { ParentsStandBefore facts.now }
    requires there { at < length facts.now }
    requires short { AreShort sheets.now }
    requires seen { visible ≡ spec.is_visible (chain facts.now at) listed.sheet }
    ensures { result ≡ spec.hit_of sheets.now (chain facts.now at) listed }
{
    let sheet = sheets.get(listed.sheet)?;
    hit_in(listed, visible, sheet, facts, at)
}

#[tactic(auto, unfolding(crate::specs::Hits::hit_in))]
fn hit_in(
    listed: SelectorAt,
    visible: bool,
    sheet: &SheetAt,
    facts: &[StyleFacts],
    at: usize,
) -> Option<Candidate>
    requires before { ParentsStandBefore facts.now }
    requires there { at < length facts.now }
    requires short { AreShortRules sheet.now.sheet.rules }
    requires seen { visible ≡ spec.is_visible (chain facts.now at) listed.sheet }
    ensures { result ≡ spec.hit_in (chain facts.now at) listed sheet.now }
{
    let rule = sheet.sheet.rules.as_slice().get(listed.rule)?;
    let selectors = rule.selectors.as_slice();
    let seen = Seen {
        sheet: listed.sheet,
        visible,
    };
    let specificity = weight_at(listed.selector, seen, selectors, facts, at)?;
    Some(Candidate {
        sheet: listed.sheet,
        rule: listed.rule,
        specificity,
        origin: sheet.origin,
    })
}

#[tactic(auto, unfolding(crate::specs::Hits::weight_at))]
fn weight_at(
    place: Option<usize>,
    seen: Seen,
    selectors: &[Selector],
    facts: &[StyleFacts],
    at: usize,
) -> Option<(u32, u32, u32)>
    requires before { ParentsStandBefore facts.now }
    requires there { at < length facts.now }
    requires short { AreShortSelectors selectors.now }
    requires seen { seen.visible ≡ spec.is_visible (chain facts.now at) seen.sheet }
    ensures { result ≡ spec.weight_at (chain facts.now at) seen.sheet selectors.now place }
{
    match place {
        Some(place) => selector_weight(selectors.get(place)?, seen, facts, at),
        None => bare_weight(seen.sheet, selectors, facts, at),
    }
}

#[tactic(auto, unfolding(crate::specs::Hits::selector_weight))]
fn selector_weight(
    selector: &Selector,
    seen: Seen,
    facts: &[StyleFacts],
    at: usize,
) -> Option<(u32, u32, u32)>
    requires before { ParentsStandBefore facts.now }
    requires there { at < length facts.now }
    requires short { part_count selector.now ≤ 4194304 }
    requires seen { seen.visible ≡ spec.is_visible (chain facts.now at) seen.sheet }
    ensures { result ≡ spec.selector_weight (chain facts.now at) seen.sheet selector.now }
{
    if is_match(selector, facts, at) && seen.visible {
        Some(specificity(selector))
    } else {
        None
    }
}

fn bare_weight(
    sheet: usize,
    selectors: &[Selector],
    facts: &[StyleFacts],
    at: usize,
) -> Option<(u32, u32, u32)>
    requires before { ParentsStandBefore facts.now }
    requires there { at < length facts.now }
    ensures { result ≡ spec.bare_weight (chain facts.now at) sheet selectors.now }
{
    if selectors.is_empty() && is_own(sheet, facts, at) {
        Some((0, 0, 0))
    } else {
        None
    }
}

/// Does the node see the sheet? It is looked for where the last answer was of another one.
fn is_seen(last: Option<Seen>, sheet: usize, facts: &[StyleFacts], at: usize) -> bool
    requires before { ParentsStandBefore facts.now }
    requires there { at < length facts.now }
    requires last { spec.IsRight (chain facts.now at) last }
    ensures { result ≡ spec.is_visible (chain facts.now at) sheet }
{
    match last {
        Some(seen) if seen.sheet == sheet => seen.visible,
        _ => is_visible(sheet, facts, at),
    }
}

/// Is the sheet the node's inline sheet, or one that the node or an ancestor lists?
fn is_visible(sheet: usize, facts: &[StyleFacts], at: usize) -> bool
    requires before { ParentsStandBefore facts.now }
    requires there { at < length facts.now }
    ensures { result ≡ spec.is_visible (chain facts.now at) sheet }
{
    is_own(sheet, facts, at) || is_listed(sheet, facts, at)
}

fn is_own(sheet: usize, facts: &[StyleFacts], at: usize) -> bool
    requires before { ParentsStandBefore facts.now }
    requires there { at < length facts.now }
    ensures { result ≡ spec.is_own (chain facts.now at) sheet }
{
    is_inline(node_at(facts, at), sheet)
}

fn is_inline(node: &StyleFacts, sheet: usize) -> bool
    ensures { result ≡ spec.is_inline node.now sheet }
{
    match node.inline {
        Some(own) => own == sheet,
        None => false,
    }
}

fn is_listed(sheet: usize, facts: &[StyleFacts], at: usize) -> bool
    requires before { ParentsStandBefore facts.now }
    requires there { at < length facts.now }
    ensures { result ≡ list_any (spec.lists_sheet sheet) (chain facts.now at) }
{
    let mut above = Some(at);
    while let Some(place) = above {
        let node = node_at(facts, place);
        if lists_sheet(node, sheet) {
            return true;
        }
        above = node.parent;
    }
    false
}

fn lists_sheet(node: &StyleFacts, sheet: usize) -> bool
    ensures { result ≡ spec.lists_sheet sheet node.now }
{
    node.sheets.as_slice().contains(&sheet)
}
