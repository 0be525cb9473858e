//! Nodes that are like the sibling before them, up to their keys, ids for which no selector asks, and lengths that
//! bindings give: they have its style with these lengths, and no rules are searched.
ghost use Rattle.std.specs.Prelude.{◌≡◌, ◌<◌, true, IfOk, OnOk, length};
ghost use Rattle.std.specs.Option.{ForSome, option_copied};
ghost use Rattle.fx_style.specs.Lasts.{rewritten};
ghost use Rattle.fx_style.specs.Plans.{AreSteps};
ghost use Rattle.fx_style.specs.Siblings.{HasStyleOf, IsMadeLike, IsOfSibling};

use crate::above::{Plan, fresh_entry};
use crate::kept::Entry;
use crate::making::{Turn, node_at};
use crate::recoding::is_like;
use fx_kinds::StyleFacts;
use fx_look::CodeValue;
use fx_node_style::{NodeStyle, write_bound, write_copy, write_paints};
use fx_select::RuleIndex;
use std::alloc::{AllocError, Global};

/// Makes the draft the style of a node that is like the sibling before it, if that was styled.
pub(crate) fn copy_sibling(
    alloc: Global,
    index: &RuleIndex,
    facts: &[StyleFacts],
    plan: Plan<'_>,
    turn: Turn,
    draft: &mut NodeStyle,
) -> Result<bool, AllocError>
    requires plan { AreSteps plan.fresh.now plan.steps.now }
    requires long { length plan.steps.now ≡ length facts.now }
    requires there { turn.at < length facts.now }
    requires before_it { ForSome turn.before (λ p. p < turn.at) }
    ensures { IfOk result (λ copied. copied ≡ true → HasStyleOf index.now facts.now plan.entry.fresh.now turn.before
        turn.at draft.new) }
{
    let Some(made) = sibling_entry(index, facts, plan, turn) else {
        return Ok(false);
    };
    let codes = node_at(facts, turn.at).codes.as_slice();
    write_with_lengths(alloc, &made.style, codes, draft)?;
    Ok(true)
}

/// What was made of the sibling before a node that is like it.
fn sibling_entry<'a>(
    index: &RuleIndex,
    facts: &[StyleFacts],
    plan: Plan<'a>,
    turn: Turn,
) -> Option<&'a Entry>
    requires plan { AreSteps plan.fresh.now plan.steps.now }
    requires long { length plan.steps.now ≡ length facts.now }
    requires there { turn.at < length facts.now }
    requires before_it { ForSome turn.before (λ p. p < turn.at) }
    ensures { ForSome (option_copied result)
        (IsOfSibling index.now facts.now plan.entry.fresh.now turn.before turn.at) }
{
    match turn.before {
        Some(place) => like_entry(index, facts, plan, place, turn.at),
        None => None,
    }
}

/// What was made of the node of a place, if that of another one is like it.
fn like_entry<'a>(
    index: &RuleIndex,
    facts: &[StyleFacts],
    plan: Plan<'a>,
    place: usize,
    at: usize,
) -> Option<&'a Entry>
    requires plan { AreSteps plan.fresh.now plan.steps.now }
    requires long { length plan.steps.now ≡ length facts.now }
    requires there { at < length facts.now }
    requires before_it { place < at }
    ensures { ForSome (option_copied result) (IsMadeLike index.now facts.now plan.entry.fresh.now place at) }
{
    if !is_like(index, node_at(facts, place), node_at(facts, at)) {
        return None;
    }
    fresh_entry(plan, place)
}

/// Makes the draft a style with the lengths that bindings give.
fn write_with_lengths(
    alloc: Global,
    style: &NodeStyle,
    codes: &[CodeValue],
    draft: &mut NodeStyle,
) -> Result<(), AllocError>
    ensures { OnOk result (draft.new ≡ rewritten codes.now style.now) }
{
    write_copy(alloc, &mut draft.look, &style.look)?;
    write_paints(alloc, &mut draft.paints, &style.paints)?;
    write_bound(&mut draft.look, codes);
    Ok(())
}
