//! The styles of a node's ancestors while an update is made: fresh ones, and those that are kept.
ghost use Rattle.std.specs.Prelude.{◌≡◌, ◌++◌, ◌<◌, ◌≤◌, ℕ, IfOk, OnOk, Some, length, map, option_to_list};
ghost use Rattle.std.specs.List.{filter_map};
ghost use Rattle.std.specs.Option.{ForSome, option_copied, option_map};
ghost use Rattle.fx_select.specs.Chains.{ParentsStandBefore};
ghost use Rattle.fx_node_style.specs.Styling.{look_above};
ghost use Rattle.fx_style.specs.Above.{if_some, some_paints};
ghost use Rattle.fx_style.specs.Kept.{entry_in, fresh_at, planned_at, style_of_entry};
ghost use Rattle.fx_style.specs.Places.{parent_at, places_up};
ghost use Rattle.fx_style.specs.Plans.{AreSteps, plan_style, seen_style};

use crate::kept::{Entry, Fresh, Rest};
use fx_kinds::StyleFacts;
use fx_look::Look;
use fx_lookup::NamedPaint;
use std::alloc::{AllocError, Global};

/// The places that are styled anew, what is kept, what was made of it so far, and which fresh entry each place has so
/// far, if it has one.
#[derive(Clone, Copy)]
pub(crate) struct Plan<'a> {
    pub listed: &'a [usize],
    pub looks: &'a [Look],
    pub rest: &'a [Rest],
    pub fresh: &'a [Fresh],
    pub steps: &'a [Option<usize>],
}

/// The style of a node, where it stands.
#[derive(Clone, Copy)]
pub(crate) struct Seen<'a> {
    pub look: &'a Look,
    pub paints: &'a [NamedPaint],
}

fn fresh_style(entry: &Entry) -> Seen<'_>
    ensures { seen_style result ≡ entry.now.style }
{
    Seen {
        look: &entry.style.look,
        paints: entry.style.paints.as_slice(),
    }
}

/// The style that is kept at a place.
pub(crate) fn kept_in<'a>(looks: &'a [Look], rest: &'a [Rest], at: usize) -> Option<Seen<'a>>
    ensures { option_map seen_style result ≡ style_of_entry (entry_in looks.now rest.now at) }
{
    let look = looks.get(at)?;
    let paints = rest.get(at)?.paints.as_slice();
    Some(Seen { look, paints })
}

/// The style of a place as far as the update has come.
pub(crate) fn planned<'a>(plan: Plan<'a>, at: usize) -> Option<Seen<'a>>
    requires plan { AreSteps plan.fresh.now plan.steps.now }
    requires there { at < length plan.steps.now }
    ensures { option_map seen_style result ≡ plan_style plan.entry at }
{
    match fresh_entry(plan, at) {
        Some(entry) => Some(fresh_style(entry)),
        None => kept_in(plan.looks, plan.rest, at),
    }
}

/// The entry that was made for a place, if one was.
pub(crate) fn fresh_entry<'a>(plan: Plan<'a>, at: usize) -> Option<&'a Entry>
    requires plan { AreSteps plan.fresh.now plan.steps.now }
    requires there { at < length plan.steps.now }
    ensures { option_copied result ≡ fresh_at plan.entry.fresh.now at }
{
    let step = plan.steps[at]?;
    let fresh = plan.fresh.get(step)?;
    Some(&fresh.entry)
}

/// The look of the nearest from this place up.
pub(crate) fn look_up<'a>(
    facts: &[StyleFacts],
    plan: Plan<'a>,
    parent: Option<usize>,
) -> Option<&'a Look>
    requires before { ParentsStandBefore facts.now }
    requires plan { AreSteps plan.fresh.now plan.steps.now }
    requires few { length plan.steps.now ≤ length facts.now }
    requires there { ForSome parent (λ p. p < length plan.steps.now) }
    ensures { option_copied result
        ≡ look_above (filter_map (plan_style plan.entry) (places_up facts.now parent)) }
{
    let mut place = parent;
    while let Some(at) = place {
        if let Some(seen) = planned(plan, at) {
            return Some(seen.look);
        }
        place = parent_at(facts, at);
    }
    None
}

/// The paints of those from this place up that have some, the nearest first. Takes no memory where none has any.
pub(crate) fn paints_up<'a>(
    alloc: Global,
    facts: &[StyleFacts],
    plan: Plan<'a>,
    parent: Option<usize>,
) -> Result<Vec<&'a [NamedPaint]>, AllocError>
    requires before { ParentsStandBefore facts.now }
    requires plan { AreSteps plan.fresh.now plan.steps.now }
    requires few { length plan.steps.now ≤ length facts.now }
    requires there { ForSome parent (λ p. p < length plan.steps.now) }
    ensures { IfOk result (λ paints. map (λ n. n.now) paints.items
        ≡ some_paints (filter_map (plan_style plan.entry) (places_up facts.now parent))) }
{
    let mut paints = Vec::new(alloc);
    let mut place = parent;
    while let Some(at) = place {
        push_seen(&mut paints, planned(plan, at))?;
        place = parent_at(facts, at);
    }
    Ok(paints)
}

fn push_seen<'a>(
    paints: &mut Vec<&'a [NamedPaint]>,
    seen: Option<Seen<'a>>,
) -> Result<(), AllocError>
    ensures { OnOk result (map (λ n. n.now) paints.new.items ≡ map (λ n. n.now) paints.old.items
        ++ some_paints (option_to_list (option_map seen_style seen.entry))) }
{
    match seen {
        Some(seen) => push_paints(paints, seen.paints),
        None => Ok(()),
    }
}

fn push_paints<'a>(
    paints: &mut Vec<&'a [NamedPaint]>,
    own: &'a [NamedPaint],
) -> Result<(), AllocError>
    ensures { OnOk result (map (λ n. n.now) paints.new.items
        ≡ map (λ n. n.now) paints.old.items ++ if_some own.now) }
{
    match own {
        [] => Ok(()),
        [_, ..] => {
            paints.push(own)?;
            Ok(())
        }
    }
}

pub(crate) fn parent_at(facts: &[StyleFacts], at: usize) -> Option<usize>
    ensures { result ≡ parent_at facts.now at }
{
    facts.get(at)?.parent
}
