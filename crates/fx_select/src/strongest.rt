//! Hits by their rules: each rule once, in order, with the greatest specificity.
//! The index gives them to the cascade.
ghost use Rattle.std.specs.Prelude.{◌≡◌, ◌++◌, ◌∷◌, List as Items, IfOk, OnOk};
ghost use Rattle.std.specs.List.Sorted.{IsPermutation, IsSortedByKey, IsStableByKey};
ghost use Rattle.fx_css_types.specs.declared.sheets.Candidate.{Candidate as Hit};
ghost use Rattle.fx_select.specs.Merged.{AreMerged, compare_places, is_before, is_same_rule, merged, merged_of, place_of, raised, rise};
ghost use Rattle.fx_select.specs.Strongest.{greater, is_weaker};

use fx_css_types::Candidate;
use std::alloc::{AllocError, Global};

/// Puts the hits in the order of their sheets and rules, and makes those of one rule one. Hits that stand so already
/// stay as they are.
pub fn merge_hits(alloc: Global, hits: &mut Vec<Candidate>) -> Result<(), AllocError>
    ensures { OnOk result (AreMerged hits.old.items hits.new.items) }
{
    if rise(hits.as_slice()) {
        return Ok(());
    }
    sort_hits(hits)?;
    if rise(hits.as_slice()) {
        return Ok(());
    }
    let found = strongest(alloc, hits.as_slice())?;
    *hits = found;
    Ok(())
}

/// Does each hit stand behind the rule of the one before it?
fn rise(hits: &[Candidate]) -> bool
    ensures { result ≡ rise hits.now }
{
    let Some((first, more)) = hits.split_first() else {
        return true;
    };
    let mut last = *first;
    for hit in more {
        if !is_before(last, *hit) {
            return false;
        }
        last = *hit;
    }
    true
}

fn is_before(one: Candidate, other: Candidate) -> bool
    ensures { result ≡ is_before one other }
{
    one.sheet < other.sheet || (one.sheet == other.sheet && one.rule < other.rule)
}

/// Puts the hits in the order of their sheets and rules, those of one rule as they stood.
fn sort_hits(hits: &mut Vec<Candidate>) -> Result<(), AllocError>
    ensures permutation { IsPermutation hits.old.items hits.new.items }
    ensures stable { IsStableByKey place_of compare_places hits.old.items hits.new.items }
    ensures sorted { OnOk result (IsSortedByKey place_of compare_places hits.new.items) }
{
    hits.sort_by_key(|hit| (hit.sheet, hit.rule))?;
    Ok(())
}

/// The hits with those of one rule, which stand behind one another, made one.
fn strongest(alloc: Global, hits: &[Candidate]) -> Result<Vec<Candidate>, AllocError>
    ensures { IfOk result (λ found. found.items ≡ merged_of hits.now) }
{
    let mut found = Vec::with_capacity(alloc, hits.len())?;
    let Some((first, more)) = hits.split_first() else {
        return Ok(found);
    };
    let mut current = *first;
    for hit in more {
        current = merge(&mut found, current, *hit)?;
    }
    found.push(current)?;
    Ok(found)
}

/// The current rule raised by a hit of its own; or that of the hit, and the current one is put behind those found.
fn merge(
    found: &mut Vec<Candidate>,
    current: Candidate,
    hit: Candidate,
) -> Result<Candidate, AllocError>
    ensures { IfOk result (λ next. (more : Items Hit) → found.new.items ++ merged next more
        ≡ found.old.items ++ merged current (hit ∷ more)) }
{
    if is_same_rule(current, hit) {
        return Ok(raised(current, hit));
    }
    found.push(current)?;
    Ok(hit)
}

fn is_same_rule(one: Candidate, other: Candidate) -> bool
    ensures { result ≡ is_same_rule one other }
{
    one.sheet == other.sheet && one.rule == other.rule
}

fn raised(one: Candidate, hit: Candidate) -> Candidate
    ensures { result ≡ raised one hit }
{
    Candidate {
        specificity: greater(one.specificity, hit.specificity),
        ..one
    }
}

fn greater(one: (u32, u32, u32), other: (u32, u32, u32)) -> (u32, u32, u32)
    ensures { result ≡ greater one other }
{
    if is_weaker(one, other) { other } else { one }
}

fn is_weaker(one: (u32, u32, u32), other: (u32, u32, u32)) -> bool
    ensures { result ≡ is_weaker one other }
{
    let (ids, classes, kinds) = one;
    ids < other.0
        || (ids == other.0 && (classes < other.1 || (classes == other.1 && kinds < other.2)))
}
