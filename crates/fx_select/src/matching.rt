//! Matching a selector (Selectors Level 3), from the last compound upwards.
//! The index asks it of its candidates.
ghost use Rattle.std.specs.Prelude.{◌≡◌, ◌<◌, ◌≤◌, length, reverse, slice_get, Some};
ghost use Rattle.std.specs.List.{list_all};
ghost use Rattle.std.specs.Str.{bytes_eq};
ghost use Rattle.std.specs.Option.{ForSome};
ghost use Rattle.fx_select.specs.Chains.{ParentsStandBefore, chain, upward};
ghost use Rattle.fx_select.specs.Matching.{IsVerdict, fits, fits_kind, has_text, matches_before, matches_chain, matches_up, somewhere};

use fx_base::Text;
use fx_css_types::{Combinator, Compound, Selector};
use fx_kinds::{Class, StyleFacts, name_of};

/// Texts of at most so many bytes are compared byte by byte.
const FEW_BYTES: usize = 8;

/// Does the selector match the node at this place? A selector without compounds matches nothing. With each ancestor
/// that is tried for a combinator the walk goes one call deeper, so the nodes are as few as a scene may have.
pub fn matches(selector: &Selector, facts: &[StyleFacts], at: usize) -> bool
    requires few { length facts.now ≤ 4096 }
    requires before { ParentsStandBefore facts.now }
    requires there { at < length facts.now }
    ensures { result ≡ matches_chain selector.now (chain facts.now at) }
{
    is_match(selector, facts, at)
}

pub fn is_match(selector: &Selector, facts: &[StyleFacts], at: usize) -> bool
    requires before { ParentsStandBefore facts.now }
    requires there { at < length facts.now }
    ensures { result ≡ matches_chain selector.now (chain facts.now at) }
{
    let compounds = selector.compounds.as_slice();
    let Some((last, before)) = compounds.split_last() else {
        return false;
    };
    let node = node_at(facts, at);
    if !fits(last, node) {
        return false;
    }
    match match_before(last.combinator, before, facts, node.parent) {
        Match::Here => true,
        Match::NotHere => false,
        Match::Nowhere => false,
    }
}

/// What trying compounds at a node tells of it and of its ancestors.
#[derive(Clone, Copy)]
enum Match {
    /// They match there.
    Here,
    /// They don't match there.
    NotHere,
    /// They match neither there nor at any ancestor: some descendant step ran out of ancestors, of which a start
    /// further up has fewer.
    Nowhere,
}

/// Do these compounds match, the last of them at this node? Each descendant step settles for the nearest ancestor where
/// what stands before it matches, so a selector costs at most its compounds times the node's ancestors.
#[cycle(match_up)]
fn match_up(compounds: &[Compound], facts: &[StyleFacts], at: usize) -> Match
    requires before { ParentsStandBefore facts.now }
    requires there { at < length facts.now }
    ensures { IsVerdict (matches_up (reverse compounds.now)) (chain facts.now at) result }
{
    let Some((last, before)) = compounds.split_last() else {
        return Match::Nowhere;
    };
    let node = node_at(facts, at);
    if !fits(last, node) {
        return Match::NotHere;
    }
    match_before(last.combinator, before, facts, node.parent)
}

/// Do these compounds match by the combinator behind them, above a node with this parent?
#[cycle(match_up)]
fn match_before(
    combinator: Option<Combinator>,
    before: &[Compound],
    facts: &[StyleFacts],
    parent: Option<usize>,
) -> Match
    requires before { ParentsStandBefore facts.now }
    requires there { ForSome parent (λ p. p < length facts.now) }
    ensures { IsVerdict (matches_before combinator (matches_up (reverse before.now))) (upward facts.now parent) result }
{
    let Some(combinator) = combinator else {
        return Match::Here;
    };
    match combinator {
        Combinator::Child => match_parent(before, facts, parent),
        Combinator::Descendant => match_ancestor(before, facts, parent),
    }
}

#[cycle(match_up)]
fn match_parent(before: &[Compound], facts: &[StyleFacts], parent: Option<usize>) -> Match
    requires before { ParentsStandBefore facts.now }
    requires there { ForSome parent (λ p. p < length facts.now) }
    ensures { IsVerdict (matches_up (reverse before.now)) (upward facts.now parent) result }
{
    match parent {
        None => Match::Nowhere,
        Some(place) => match_up(before, facts, place),
    }
}

#[cycle(match_up)]
fn match_ancestor(before: &[Compound], facts: &[StyleFacts], parent: Option<usize>) -> Match
    requires before { ParentsStandBefore facts.now }
    requires there { ForSome parent (λ p. p < length facts.now) }
    ensures { IsVerdict (somewhere (matches_up (reverse before.now))) (upward facts.now parent) result }
{
    let mut above = parent;
    while let Some(place) = above {
        match match_up(before, facts, place) {
            Match::Here => return Match::Here,
            Match::Nowhere => return Match::Nowhere,
            Match::NotHere => above = node_at(facts, place).parent,
        }
    }
    Match::Nowhere
}

pub fn node_at(facts: &[StyleFacts], at: usize) -> &StyleFacts
    requires { at < length facts.now }
    ensures { slice_get facts.now at ≡ Some result.now }
{
    &facts[at]
}

/// Has the node all that the compound names?
#[tactic(auto, unfolding(crate::specs::Matching::fits))]
fn fits(compound: &Compound, node: &StyleFacts) -> bool
    ensures { result ≡ fits compound.now node.now }
{
    fits_kind(&compound.kind, node.class)
        && has_each(node.classes.as_slice(), compound.classes.as_slice())
        && is_each(&node.id, compound.ids.as_slice())
        && has_each(node.pseudos.as_slice(), compound.pseudos.as_slice())
}

fn fits_kind(kind: &Option<Text>, class: Class) -> bool
    ensures { result ≡ fits_kind kind.now class }
{
    match kind {
        None => true,
        Some(kind) => is_text(kind.as_str(), name_of(class)),
    }
}

#[inline]
fn has_each(texts: &[Text], wanted: &[Text]) -> bool
    ensures { result ≡ list_all (has_text texts.now) wanted.now }
{
    for text in wanted {
        if !has_text(texts, text.as_str()) {
            return false;
        }
    }
    true
}

fn has_text(texts: &[Text], text: &str) -> bool
    ensures { result ≡ has_text texts.now text.now }
{
    for one in texts {
        if is_text(one.as_str(), text) {
            return true;
        }
    }
    false
}

/// Are the two one text? Most that aren't differ in their lengths or their first bytes, so short ones are compared
/// byte by byte, without a call.
#[inline]
#[tactic(auto, using(crate::proofs::TextLemmas::unlike))]
fn is_text(one: &str, other: &str) -> bool
    ensures { result ≡ bytes_eq one.now other.now }
{
    if one.len() != other.len() {
        return false;
    }
    if one.len() > FEW_BYTES {
        return one == other;
    }
    have_same_bytes(one.as_bytes(), other.as_bytes())
}

#[inline]
fn have_same_bytes(bytes: &[u8], others: &[u8]) -> bool
    requires { length bytes.now ≡ length others.now }
    ensures { result ≡ bytes_eq bytes.now others.now }
{
    for at in 0..bytes.len() {
        if bytes[at] != others[at] {
            return false;
        }
    }
    true
}

fn is_each(id: &Text, wanted: &[Text]) -> bool
    ensures { result ≡ list_all (λ other. bytes_eq other id.now) wanted.now }
{
    wanted.iter().all(|other| *other == *id)
}
