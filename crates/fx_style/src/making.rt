//! The entries that an update makes anew, before anything that is kept is changed.
ghost use Rattle.std.specs.Prelude.{◌≡◌, ◌↔◌, ◌++◌, ◌∷◌, ◌+◌, ◌<◌, ◌≤◌, [], ℕ, Option as Maybe, Some, None, true, false, IfOk, IfSome, IsTrue, OnOk, is_some, length, map, slice_get, slice_index_or};
ghost use Rattle.std.specs.List.{filter_map};
ghost use Rattle.std.specs.Option.{ForSome, option_copied, option_map};
ghost use Rattle.fx_kinds.specs.declared.facts.StyleFacts.{StyleFacts as Facts};
ghost use Rattle.fx_css_types.specs.Limits.{AreShort, AreWithinLimits};
ghost use Rattle.fx_select.specs.Chains.{ParentsStandBefore, chain};
ghost use Rattle.fx_style.specs.Above.{node_under};
ghost use Rattle.fx_base.specs.Answers.{or_else};
ghost use Rattle.fx_style.specs.Kept.{HaveDifferentKeys, entry, entry_in, fresh_at, is_among, kept_at, kept_under, place_of_key, style_of_entry};
ghost use Rattle.fx_style.specs.Lasts.{AreStylesOf};
ghost use Rattle.fx_style.specs.Turns.{AreRightBelow, IsLeft};
ghost use Rattle.fx_style.specs.Places.{parent_at, places_up};
ghost use Rattle.fx_style.specs.Plans.{AreSteps, drafted, made_fresh, plan_style, put_step};
ghost use Rattle.fx_style.specs.Rules as spec;

use crate::above::{Plan, look_up, paints_up, parent_at};
use crate::entries::Entries;
use crate::kept::{Rest, all_stand, place_of_key, stands_at};
use crate::marks::{marked, marked_before};
use crate::memory::{Memory, taken_entries};
use crate::recoding::{copy_rewritten, is_calm, is_recoded};
use crate::siblings::copy_sibling;
use fx_base::{Ledgers, NodeKey, Work};
use fx_css_types::{Candidate, SheetAt, sheets_within_limits_are_short};
use fx_kinds::{StyleFacts, initial_alignment};
use fx_look::Look;
use fx_lookup::NamedPaint;
use fx_node_style::{Ground, NodeStyle, restyle, write_copy, write_paints};
use fx_select::RuleIndex;
use std::alloc::{AllocError, Global};

/// The nodes of a scene in their order, and its sheets with their index. With them perhaps the facts of which the
/// styles are kept, by the same sheets: nodes that differ from these in bound lengths alone cost less.
#[derive(Clone, Copy)]
pub struct Scene<'a> {
    pub index: &'a RuleIndex,
    pub sheets: &'a [SheetAt],
    pub facts: &'a [StyleFacts],
    pub last: Option<&'a [StyleFacts]>,
}

/// Finds the rules that match a node, in the place of those that were found before.
fn find_rules(
    alloc: Global,
    scene: Scene<'_>,
    at: usize,
    found: &mut Vec<Candidate>,
) -> Result<(), AllocError>
    requires before { ParentsStandBefore scene.facts.now }
    requires there { at < length scene.facts.now }
    requires sheets { spec.AreIndexed scene.index.now scene.sheets.now }
    ensures { OnOk result (found.new.items
        ≡ spec.matching_nodes scene.entry.sheets.now (chain scene.entry.facts.now at)) }
{
    sheets_within_limits_are_short();
    scene
        .index
        .find_matched(alloc, scene.sheets, scene.facts, at, found)
}

pub(crate) fn node_at(facts: &[StyleFacts], at: usize) -> &StyleFacts
    requires { at < length facts.now }
    ensures { slice_get facts.now at ≡ Some result.now }
{
    &facts[at]
}

/// Makes the draft the style of a node from nothing, by the rules that match it, its parent's look and the paints of
/// its ancestors.
fn draft_style<L: Ledgers>(
    alloc: Global,
    scene: Scene<'_>,
    at: usize,
    parent: Option<&Look>,
    above: &[&[NamedPaint]],
    memory: &mut Memory,
    work: &mut Work<L>,
) -> Result<(), AllocError>
    requires before { ParentsStandBefore scene.facts.now }
    requires there { at < length scene.facts.now }
    requires sheets { spec.AreIndexed scene.index.now scene.sheets.now }
    requires codes { spec.HaveRows scene.facts.now }
    ensures style { OnOk result (memory.new.draft ≡ node_under scene.entry.sheets.now (chain scene.entry.facts.now at)
        (option_copied parent.entry) (map (λ n. n.now) above.now)) }
    ensures cost { OnOk result (work.new ≡ record work.old { styled = work.old.styled + 1 }) }
{
    find_rules(alloc, scene, at, &mut memory.found)?;
    let node = node_at(scene.facts, at);
    let ground = Ground {
        sheets: scene.sheets,
        matched: memory.found.as_slice(),
        codes: node.codes.as_slice(),
        alignment: initial_alignment(node.class),
        parent,
        above,
    };
    restyle(alloc, &mut memory.draft, &mut memory.winners, ground, work)?;
    Ok(())
}

/// Makes the draft the style of a node from nothing, by the rules that match it and by what its ancestors have by now.
fn style_by_rules<L: Ledgers>(
    alloc: Global,
    scene: Scene<'_>,
    plan: Plan<'_>,
    at: usize,
    memory: &mut Memory,
    work: &mut Work<L>,
) -> Result<(), AllocError>
    requires before { ParentsStandBefore scene.facts.now }
    requires there { at < length scene.facts.now }
    requires long { length plan.steps.now ≡ length scene.facts.now }
    requires plan { AreSteps plan.fresh.now plan.steps.now }
    requires sheets { spec.AreIndexed scene.index.now scene.sheets.now }
    requires codes { spec.HaveRows scene.facts.now }
    ensures style { OnOk result (memory.new.draft ≡ spec.anew scene.entry.sheets.now scene.entry.facts.now at
        (filter_map (plan_style plan.entry) (places_up scene.entry.facts.now (parent_at scene.entry.facts.now at)))) }
    ensures cost { OnOk result (work.new ≡ record work.old { styled = work.old.styled + 1 }) }
{
    let parent = parent_at(scene.facts, at);
    let look = look_up(scene.facts, plan, parent);
    let paints = paints_up(alloc, scene.facts, plan, parent)?;
    draft_style(alloc, scene, at, look, paints.as_slice(), memory, work)?;
    Ok(())
}

/// Makes the draft the style of a node from nothing, by what its ancestors have by now: by what is kept of it where
/// just lengths that bindings give are others, or by what was made of the sibling before it where that is like it, else
/// by the rules that match it.
fn style_anew<L: Ledgers>(
    alloc: Global,
    scene: Scene<'_>,
    plan: Plan<'_>,
    turn: Turn,
    memory: &mut Memory,
    work: &mut Work<L>,
) -> Result<(), AllocError>
    requires before { ParentsStandBefore scene.facts.now }
    requires there { turn.at < length scene.facts.now }
    requires long { length plan.steps.now ≡ length scene.facts.now }
    requires plan { AreSteps plan.fresh.now plan.steps.now }
    requires sheets { spec.AreIndexed scene.index.now scene.sheets.now }
    requires codes { spec.HaveRows scene.facts.now }
    requires last { IfSome (option_copied scene.last) (AreStylesOf scene.sheets.now scene.facts.now plan.listed.now
        plan.looks.now plan.rest.now) }
    requires right { AreRightBelow scene.sheets.now scene.facts.now plan.listed.now
        (kept_at plan.looks.now plan.rest.now scene.facts.now) plan.looks.now plan.rest.now plan.fresh.now turn.at }
    requires calm { turn.calm ≡ true → (p : ℕ) → parent_at scene.facts.now turn.at ≡ Some p
        → is_among plan.listed.now p ≡ false }
    requires before_it { ForSome turn.before (λ p. (p < turn.at) × (is_among plan.listed.now p ≡ true)) }
    ensures style { OnOk result (memory.new.draft
        ≡ spec.anew scene.entry.sheets.now scene.entry.facts.now turn.at (filter_map (plan_style plan.entry)
        (places_up scene.entry.facts.now (parent_at scene.entry.facts.now turn.at)))) }
    ensures cost { OnOk result (work.new ≡ record work.old { styled = work.old.styled + 1 }) }
{
    if turn.calm && is_recoded(scene.last, scene.facts, turn.at) {
        let codes = node_at(scene.facts, turn.at).codes.as_slice();
        let draft = &mut memory.draft;
        if copy_rewritten(alloc, plan.looks, plan.rest, turn.at, codes, draft)? {
            work.styled.tick();
            return Ok(());
        }
    }
    let draft = &mut memory.draft;
    let copied = copy_sibling(alloc, scene.index, scene.facts, plan, turn, draft)?;
    if copied {
        work.styled.tick();
        return Ok(());
    }
    style_by_rules(alloc, scene, plan, turn.at, memory, work)
}

/// Copies the style that is kept at a place into the draft, if there is one.
pub(crate) fn copy_style(
    alloc: Global,
    looks: &[Look],
    rest: &[Rest],
    place: usize,
    draft: &mut NodeStyle,
) -> Result<bool, AllocError>
    ensures { IfOk result (λ copied. drafted copied draft.new ≡ style_of_entry (entry_in looks.now rest.now place)) }
{
    match (looks.get(place), rest.get(place)) {
        (Some(look), Some(rest)) => {
            write_copy(alloc, &mut draft.look, look)?;
            write_paints(alloc, &mut draft.paints, &rest.paints)?;
            Ok(true)
        }
        _ => Ok(false),
    }
}

/// What an update does with a node of this key: is it listed, is its parent not, may what is kept stay in its place,
/// where does its key stand, and is the node at the place before it listed?
#[derive(Clone, Copy)]
pub(crate) struct Turn {
    pub at: usize,
    pub key: NodeKey,
    pub listed: bool,
    pub calm: bool,
    pub stay: bool,
    pub place: Option<usize>,
    pub before: Option<usize>,
}

/// What is left of a node for an update.
#[derive(Clone, Copy)]
pub(crate) enum Left {
    /// It stays where it is.
    Stays,
    /// It moves to another place: its style is copied into the draft.
    Copied,
    /// It is to be styled anew.
    Nothing,
}

fn left_of(
    alloc: Global,
    looks: &[Look],
    rest: &[Rest],
    turn: Turn,
    draft: &mut NodeStyle,
) -> Result<Left, AllocError>
    requires place { turn.place ≡ place_of_key rest.now turn.key }
    requires stay { turn.stay ≡ true → (turn.at < length looks.now) × (turn.at < length rest.now) }
    ensures { IfOk result (IsLeft looks.now rest.now turn draft.new) }
{
    if turn.listed {
        return Ok(Left::Nothing);
    }
    let Some(place) = turn.place else {
        return Ok(Left::Nothing);
    };
    if turn.stay && place == turn.at {
        return Ok(Left::Stays);
    }
    let copied = copy_style(alloc, looks, rest, place, draft)?;
    if copied {
        return Ok(Left::Copied);
    }
    Ok(Left::Nothing)
}

/// Makes the draft the style of a node after the update, unless that is kept in its place. Is the draft its style?
fn remade<L: Ledgers>(
    alloc: Global,
    scene: Scene<'_>,
    plan: Plan<'_>,
    turn: Turn,
    memory: &mut Memory,
    work: &mut Work<L>,
) -> Result<bool, AllocError>
    requires before { ParentsStandBefore scene.facts.now }
    requires there { turn.at < length scene.facts.now }
    requires long { length plan.steps.now ≡ length scene.facts.now }
    requires plan { AreSteps plan.fresh.now plan.steps.now }
    requires sheets { spec.AreIndexed scene.index.now scene.sheets.now }
    requires codes { spec.HaveRows scene.facts.now }
    requires place { turn.place ≡ place_of_key plan.rest.now turn.key }
    requires stay { turn.stay ≡ true → (turn.at < length plan.looks.now) × (turn.at < length plan.rest.now) }
    requires last { IfSome (option_copied scene.last) (AreStylesOf scene.sheets.now scene.facts.now plan.listed.now
        plan.looks.now plan.rest.now) }
    requires right { AreRightBelow scene.sheets.now scene.facts.now plan.listed.now
        (kept_at plan.looks.now plan.rest.now scene.facts.now) plan.looks.now plan.rest.now plan.fresh.now turn.at }
    requires calm { turn.calm ≡ true → (p : ℕ) → parent_at scene.facts.now turn.at ≡ Some p
        → is_among plan.listed.now p ≡ false }
    requires before_it { ForSome turn.before (λ p. (p < turn.at) × (is_among plan.listed.now p ≡ true)) }
    ensures style { IfOk result (λ made. or_else (option_map (entry turn.key) (drafted made memory.new.draft))
        (entry_in plan.entry.looks.now plan.entry.rest.now turn.at)
        ≡ Some (entry turn.key
        (spec.renewed_by turn.listed (kept_under plan.entry.looks.now plan.entry.rest.now turn.key)
        (spec.anew scene.entry.sheets.now scene.entry.facts.now turn.at
        (filter_map (plan_style plan.entry)
        (places_up scene.entry.facts.now (parent_at scene.entry.facts.now turn.at))))))) }
    ensures made { IfOk result (λ made. turn.stay ≡ false → is_some (drafted made memory.new.draft) ≡ true) }
    ensures cost { OnOk result (work.new ≡ record work.old {
      styled = work.old.styled
          + spec.ticks (spec.needs_by turn.listed (kept_under plan.entry.looks.now plan.entry.rest.now turn.key));
    }) }
{
    match left_of(alloc, plan.looks, plan.rest, turn, &mut memory.draft)? {
        Left::Stays => Ok(false),
        Left::Copied => Ok(true),
        Left::Nothing => {
            style_anew(alloc, scene, plan, turn, memory, work)?;
            Ok(true)
        }
    }
}

/// Puts the draft, if it was made a style for the node, behind the fresh entries, and its step to its place.
fn push_made(
    alloc: Global,
    fresh: &mut Entries,
    steps: &mut Vec<Option<usize>>,
    turn: Turn,
    made: bool,
    draft: &mut NodeStyle,
) -> Result<(), AllocError>
    requires { turn.at < length steps.old.items }
    ensures fresh { OnOk result (fresh.new
        ≡ fresh.old ++ made_fresh turn.at (option_map (entry turn.key) (drafted made draft.old))) }
    ensures steps { OnOk result (steps.new.items
        ≡ put_step steps.old.items turn.at (option_map (entry turn.key) (drafted made draft.old)) (length fresh.old)) }
{
    if !made {
        return Ok(());
    }
    steps[turn.at] = Some(fresh.len());
    fresh.push(alloc, turn.at, turn.key, draft)?;
    Ok(())
}

fn next_guess(place: Option<usize>, guess: usize) -> usize {
    match place {
        Some(place) => place.wrapping_add(1),
        None => guess,
    }
}

/// What is kept, and may it stay in its places?
#[derive(Clone, Copy)]
pub(crate) struct Old<'a> {
    pub looks: &'a [Look],
    pub rest: &'a [Rest],
    pub stay: bool,
}

/// May a node of this key that isn't listed keep what it has where it stands?
#[inline]
fn is_idle(old: Old<'_>, listed: bool, key: NodeKey, at: usize) -> bool
    requires keys { HaveDifferentKeys old.rest.now }
    ensures { IsTrue result ↔ ((listed ≡ false) × (old.entry.stay ≡ true)
        × (place_of_key old.entry.rest.now key ≡ Some at)) }
{
    old.stay && !listed && stands_at(old.rest, key, at)
}

/// Is no node listed, and may each keep what it has where it stands?
fn is_still(old: Old<'_>, facts: &[StyleFacts], restyle: &[usize]) -> bool
    requires keys { HaveDifferentKeys old.rest.now }
    ensures { IsTrue result ↔ ((restyle.now ≡ []) × (old.entry.stay ≡ true)
        × ((at : ℕ) (node : Facts) → slice_get facts.now at ≡ Some node
        → place_of_key old.entry.rest.now node.key ≡ Some at)) }
{
    restyle.is_empty() && old.stay && all_stand(old.rest, facts)
}

/// Makes room for an entry of each of so many nodes, if what is kept may not stay in its places.
fn reserve_all(fresh: &mut Entries, stay: bool, count: usize) -> Result<(), AllocError>
    ensures { fresh.new ≡ fresh.old }
{
    if stay {
        return Ok(());
    }
    fresh.reserve(count)
}

/// The entries that an update makes anew, in the order of their places. Where what is kept may not stay in its places,
/// every place gets one.
pub(crate) fn made<L: Ledgers>(
    alloc: Global,
    scene: Scene<'_>,
    old: Old<'_>,
    restyle: &[usize],
    memory: &mut Memory,
    work: &mut Work<L>,
) -> Result<Entries, AllocError>
    requires before { ParentsStandBefore scene.facts.now }
    requires sheets { spec.AreIndexed scene.index.now scene.sheets.now }
    requires codes { spec.HaveRows scene.facts.now }
    requires keys { HaveDifferentKeys old.rest.now }
    requires stay { old.stay ≡ true
        → (length old.looks.now ≡ length scene.facts.now) × (length old.rest.now ≡ length scene.facts.now) }
    requires last { IfSome (option_copied scene.last) (AreStylesOf scene.sheets.now scene.facts.now restyle.now
        old.looks.now old.rest.now) }
    ensures right { IfOk result (λ fresh. AreRightBelow scene.entry.sheets.now scene.entry.facts.now restyle.now
        (kept_at old.entry.looks.now old.entry.rest.now scene.entry.facts.now) old.entry.looks.now old.entry.rest.now
        fresh (length scene.entry.facts.now)) }
    ensures all { IfOk result (λ fresh. old.entry.stay ≡ false → (at : ℕ) → at < length scene.entry.facts.now
        → is_some (fresh_at fresh at) ≡ true) }
    ensures cost { OnOk result (work.new ≡ record work.old {
      styled = work.old.styled + spec.worked
          (spec.needs restyle.now (kept_at old.entry.looks.now old.entry.rest.now scene.entry.facts.now))
          (length scene.entry.facts.now);
    }) }
{
    let facts = scene.facts;
    let mut fresh = taken_entries(memory, alloc, facts.len());
    if is_still(old, facts, restyle) {
        return Ok(fresh);
    }
    reserve_all(&mut fresh, old.stay, facts.len())?;
    let marks = marked(alloc, restyle, facts.len())?;
    let mut steps = vec![in alloc; None; facts.len()]?;
    let mut guess = 0;
    for (at, node) in facts.iter().enumerate() {
        let listed = marks[at];
        if is_idle(old, listed, node.key, at) {
            guess = at.wrapping_add(1);
            continue;
        }
        let place = place_of_key(old.rest, node.key, guess);
        guess = next_guess(place, guess);
        let turn = Turn {
            at,
            key: node.key,
            listed,
            calm: is_calm(marks.as_slice(), node.parent),
            stay: old.stay,
            place,
            before: marked_before(marks.as_slice(), at),
        };
        let done = fresh.as_slice();
        let plan = Plan {
            listed: restyle,
            looks: old.looks,
            rest: old.rest,
            fresh: done,
            steps: steps.as_slice(),
        };
        let made = remade(alloc, scene, plan, turn, memory, work)?;
        push_made(alloc, &mut fresh, &mut steps, turn, made, &mut memory.draft)?;
    }
    Ok(fresh)
}
