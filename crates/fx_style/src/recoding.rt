//! Nodes that differ from those of which the styles are kept in lengths that bindings give: these are written into a
//! copy of what is kept, and no rules are searched.
ghost use Rattle.std.specs.Prelude.{◌≡◌, ◌↔◌, ◌<◌, ℕ, false, option_and_then, IfOk, IsTrue, Some, length, slice_get, slice_index_or};
ghost use Rattle.std.specs.Option.{ForSome, option_copied, option_map};
ghost use Rattle.fx_style.specs.Kept.{entry_in, style_of_entry};
ghost use Rattle.fx_style.specs.Lasts.{DiffersInLengths, IsLike, IsRecodedAt, rewritten};
ghost use Rattle.fx_style.specs.Plans.{drafted};

use crate::kept::Rest;
use crate::making::{copy_style, node_at};
use fx_base::Same;
use fx_kinds::StyleFacts;
use fx_look::{CodeValue, Look};
use fx_node_style::{NodeStyle, are_recoded, write_bound};
use fx_select::{RuleIndex, are_alike};
use std::alloc::{AllocError, Global};

/// Is the node of a place the one that stood there, up to lengths that bindings give?
pub(crate) fn is_recoded(last: Option<&[StyleFacts]>, facts: &[StyleFacts], at: usize) -> bool
    requires { at < length facts.now }
    ensures { IsTrue result ↔ IsRecodedAt (option_copied last.entry) facts.now at }
{
    match old_at(last, at) {
        Some(old) => differs_in_lengths(old, node_at(facts, at)),
        None => false,
    }
}

fn old_at(last: Option<&[StyleFacts]>, at: usize) -> Option<&StyleFacts>
    ensures { option_copied result ≡ option_and_then (λ olds. slice_get olds at) (option_copied last.entry) }
{
    last?.get(at)
}

fn differs_in_lengths(old: &StyleFacts, node: &StyleFacts) -> bool
    ensures { IsTrue result ↔ DiffersInLengths old.now node.now }
{
    has_same_place(old, node)
        && has_same_names(old, node)
        && has_same_sheets(old, node)
        && are_recoded(old.codes.as_slice(), node.codes.as_slice())
}

fn has_same_place(old: &StyleFacts, node: &StyleFacts) -> bool
    ensures { IsTrue result ↔ ((node.now.key ≡ old.now.key) × (node.now.parent ≡ old.now.parent)
        × (node.now.class ≡ old.now.class)) }
{
    node.key == old.key && node.parent == old.parent && node.class == old.class
}

fn has_same_names(old: &StyleFacts, node: &StyleFacts) -> bool
    ensures { IsTrue result ↔ ((node.now.id ≡ old.now.id) × (node.now.classes ≡ old.now.classes)
        × (node.now.pseudos ≡ old.now.pseudos)) }
{
    node.id.is_same(&old.id)
        && node.classes.is_same(&old.classes)
        && node.pseudos.is_same(&old.pseudos)
}

fn has_same_sheets(old: &StyleFacts, node: &StyleFacts) -> bool
    ensures { IsTrue result ↔ ((node.now.inline ≡ old.now.inline) × (node.now.sheets ≡ old.now.sheets)) }
{
    node.inline == old.inline && node.sheets.as_slice() == old.sheets.as_slice()
}

/// Is a node like another one of its parent, up to its key, an id for which no selector asks, and lengths that bindings
/// give?
pub(crate) fn is_like(index: &RuleIndex, old: &StyleFacts, node: &StyleFacts) -> bool
    ensures { IsTrue result ↔ IsLike index.now old.now node.now }
{
    node.parent == old.parent
        && are_alike(old, node)
        && !index.asks_for_id(old)
        && !index.asks_for_id(node)
        && are_recoded(old.codes.as_slice(), node.codes.as_slice())
}

/// Is the parent of a node, if it has one, not marked?
pub(crate) fn is_calm(marks: &[bool], parent: Option<usize>) -> bool
    requires { ForSome parent (λ p. p < length marks.now) }
    ensures { IsTrue result ↔ ((p : ℕ) → parent ≡ Some p → slice_index_or marks.now p false ≡ false) }
{
    match parent {
        Some(parent) => !marks[parent],
        None => true,
    }
}

/// Makes the draft what is kept at a place with the lengths that bindings give, if something is kept there.
pub(crate) fn copy_rewritten(
    alloc: Global,
    looks: &[Look],
    rest: &[Rest],
    at: usize,
    codes: &[CodeValue],
    draft: &mut NodeStyle,
) -> Result<bool, AllocError>
    ensures { IfOk result (λ copied. drafted copied draft.new
        ≡ option_map (rewritten codes.now) (style_of_entry (entry_in looks.now rest.now at))) }
{
    let copied = copy_style(alloc, looks, rest, at, draft)?;
    if copied {
        write_bound(&mut draft.look, codes);
    }
    Ok(copied)
}
