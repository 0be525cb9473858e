//! Reading: a walk downwards over what is unread, with a stack of its own, so that a long chain of bindings takes no
//! deep recursion. Each value is kept, and counted once.
ghost use Rattle.std.specs.Prelude.{ℕ, ◌≡◌, ◌≤◌, ◌<◌, ◌+◌, if◌then◌else◌, Contains, length, map, slice_set, IfOk, IsTrue, OnOk, true, false};
ghost use Rattle.fx_base.specs.Names.{numbers};
ghost use Rattle.fx_expr.specs.Tree.{tree, is_within};
ghost use Rattle.fx_expr.specs.Meaning.{mean};
ghost use Rattle.fx_graph_model.specs.Uses.{entry_of, uses, bound_in, operands_in, is_binding};
ghost use Rattle.fx_graph_model.specs.Eager.{value_of_definition, eager};
ghost use Rattle.fx_graph_model.specs.Unread.{marked, bound_unread, evaluations};
ghost use Rattle.fx_graph_model.specs.Changes.{after_read, IsReadInPart};
ghost use Rattle.fx_graph.specs.Asked.{IsUnreadAmong, IsEvaluable, kept_value};
ghost use Rattle.fx_graph.specs.Store.{Holds, shown};

use crate::lists::Lists;
use fx_base::{Ledgers, Name, Value, Work};
use fx_expr::{Expr, eval, number_over};
use fx_graph_model::{Definition, Entry};
use fx_graph_refusals::asking::is_marked;
use std::alloc::{AllocError, Global};

fn first_unread(operands: &[Name], unread: &[bool]) -> Option<usize>
    ensures { IsUnreadAmong unread.now (numbers operands.now) result }
{
    for operand in operands {
        if is_marked(unread, *operand) {
            return Some(operand.0 as usize);
        }
    }
    None
}

/// What is to be read before the value that is so defined.
fn unread_operand(definition: &Definition, unread: &[bool]) -> Option<usize>
    ensures { IsUnreadAmong unread.now (operands_in definition.now) result }
{
    match definition {
        Definition::Base(_) => None,
        Definition::Bound(_, operands) => first_unread(operands.as_slice(), unread),
        Definition::Forgotten => None,
    }
}

/// Copies of what is kept of these names.
fn kept_values(alloc: Global, operands: &[Name], cache: &[Value]) -> Result<Vec<Value>, AllocError>
    requires { (name : ℕ) → Contains (numbers operands.now) name → name < length cache.now }
    ensures { IfOk result (λ values. values.items ≡ map (kept_value cache.now) (numbers operands.now)) }
{
    let mut values = Vec::with_capacity(alloc, operands.len())?;
    for operand in operands {
        values.push(cache[operand.0 as usize].copy(alloc)?)?;
    }
    Ok(values)
}

/// What the expression means over what is kept of its operands. Where numbers alone make it, nothing is copied.
fn evaluate_bound<L: Ledgers>(
    alloc: Global,
    expr: &Expr,
    operands: &[Name],
    cache: &[Value],
    work: &mut Work<L>,
) -> Result<Value, AllocError>
    requires places { IsTrue (is_within (tree expr.now) (length operands.now)) }
    requires names { (name : ℕ) → Contains (numbers operands.now) name → name < length cache.now }
    ensures value { IfOk result (λ value. value
        ≡ mean (tree expr.now) (map (kept_value cache.now) (numbers operands.now))) }
    ensures steps { OnOk result (work.new.evaluated ≡ work.old.evaluated + 1) }
    ensures most { work.new.evaluated ≤ work.old.evaluated + 1 }
    ensures others { work.new ≡ record work.old { evaluated = work.new.evaluated } }
{
    if let Some(number) = number_over(expr, operands, cache) {
        work.evaluated.tick();
        return Ok(Value::Int(number));
    }
    let values = kept_values(alloc, operands, cache)?;
    eval(alloc, expr, values.as_slice(), work)
}

/// The value that is so defined, over what is kept of its operands.
fn evaluate<L: Ledgers>(
    alloc: Global,
    definition: &Definition,
    cache: &[Value],
    work: &mut Work<L>,
) -> Result<Value, AllocError>
    requires { IsEvaluable (length cache.now) definition.now }
    ensures value { IfOk result (λ value. value ≡ value_of_definition (kept_value cache.now) definition.now) }
    ensures steps { OnOk result
        (work.new.evaluated ≡ work.old.evaluated + (if is_binding definition.now then 1 else 0)) }
    ensures most { work.new.evaluated ≤ work.old.evaluated + (if is_binding definition.now then 1 else 0) }
    ensures others { work.new ≡ record work.old { evaluated = work.new.evaluated } }
{
    match definition {
        Definition::Base(value) => value.copy(alloc),
        Definition::Bound(expr, operands) => {
            evaluate_bound(alloc, expr.as_expr(), operands.as_slice(), cache, work)
        }
        Definition::Forgotten => Ok(Value::Bool(false)),
    }
}

/// What is to be read before this one.
fn operand_at(entries: &[Entry], place: usize, unread: &[bool]) -> Option<usize>
    requires { place < length entries.now }
    ensures { IsUnreadAmong unread.now (uses entries.now place) result }
{
    unread_operand(&entries[place].definition, unread)
}

/// The value of this one, over what is kept of its operands.
fn evaluate_at<L: Ledgers>(
    alloc: Global,
    entries: &[Entry],
    place: usize,
    cache: &[Value],
    work: &mut Work<L>,
) -> Result<Value, AllocError>
    requires known { place < length entries.now }
    requires evaluable { IsEvaluable (length cache.now) (entry_of entries.now place).definition }
    ensures value { IfOk result (λ value. value
        ≡ value_of_definition (kept_value cache.now) (entry_of entries.now place).definition) }
    ensures steps { OnOk result
        (work.new.evaluated ≡ work.old.evaluated + (if bound_in entries.now place then 1 else 0)) }
    ensures most { work.new.evaluated ≤ work.old.evaluated + (if bound_in entries.now place then 1 else 0) }
    ensures others { work.new ≡ record work.old { evaluated = work.new.evaluated } }
{
    evaluate(alloc, &entries[place].definition, cache, work)
}

fn push_place(stack: &mut [usize], count: usize, place: usize)
    requires { count < length stack.old }
    ensures { stack.new ≡ slice_set stack.old count place }
{
    stack[count] = place;
}

/// Keeps the value of this one, which is read now.
fn keep(cache: &mut [Value], unread: &mut [bool], place: usize, value: Value)
    requires cache { place < length cache.old }
    requires unread { place < length unread.old }
    ensures cache { cache.new ≡ slice_set cache.old place value }
    ensures unread { unread.new ≡ slice_set unread.old place false }
{
    cache[place] = value;
    unread[place] = false;
}

/// Reads what an unread name needs, and the name.
fn settle_unread<L: Ledgers>(
    alloc: Global,
    lists: &mut Lists,
    name: usize,
    work: &mut Work<L>,
) -> Result<(), AllocError>
    requires holds { Holds lists.old }
    requires unread { marked lists.old.unread.items name ≡ true }
    ensures holds { Holds lists.new }
    ensures part { IsReadInPart name (shown lists.old) (shown lists.new) }
    ensures read { OnOk result (marked lists.new.unread.items name ≡ false) }
    ensures ok { OnOk result (shown lists.new ≡ after_read name (shown lists.old)) }
    ensures cost { work.new.evaluated
        ≤ work.old.evaluated + evaluations lists.old.entries.items name lists.old.unread.items }
    ensures steps { OnOk result (work.new.evaluated + bound_unread lists.old.entries.items lists.new.unread.items
        ≡ work.old.evaluated + bound_unread lists.old.entries.items lists.old.unread.items) }
    ensures others { work.new ≡ record work.old { evaluated = work.new.evaluated } }
{
    push_place(lists.work.as_mut_slice(), 0, name);
    let mut count = 1;
    while count > 0 {
        let top = lists.work[count - 1];
        match operand_at(lists.entries.as_slice(), top, lists.unread.as_slice()) {
            Some(operand) => {
                push_place(lists.work.as_mut_slice(), count, operand);
                count += 1;
            }
            None => {
                let value = evaluate_at(
                    alloc,
                    lists.entries.as_slice(),
                    top,
                    lists.cache.as_slice(),
                    work,
                )?;
                keep(
                    lists.cache.as_mut_slice(),
                    lists.unread.as_mut_slice(),
                    top,
                    value,
                );
                count -= 1;
            }
        }
    }
    Ok(())
}

/// Reads what the name needs, and the name.
pub fn settle<L: Ledgers>(
    alloc: Global,
    lists: &mut Lists,
    name: usize,
    work: &mut Work<L>,
) -> Result<(), AllocError>
    requires holds { Holds lists.old }
    requires known { name < length lists.old.entries.items }
    ensures holds { Holds lists.new }
    ensures part { IsReadInPart name (shown lists.old) (shown lists.new) }
    ensures again { marked lists.old.unread.items name ≡ false → shown lists.new ≡ shown lists.old }
    ensures read { OnOk result (marked lists.new.unread.items name ≡ false) }
    ensures ok { OnOk result (shown lists.new ≡ after_read name (shown lists.old)) }
    ensures cost { work.new.evaluated
        ≤ work.old.evaluated + evaluations lists.old.entries.items name lists.old.unread.items }
    ensures steps { OnOk result (work.new.evaluated + bound_unread lists.old.entries.items lists.new.unread.items
        ≡ work.old.evaluated + bound_unread lists.old.entries.items lists.old.unread.items) }
    ensures others { work.new ≡ record work.old { evaluated = work.new.evaluated } }
{
    if !lists.unread[name] {
        return Ok(());
    }
    settle_unread(alloc, lists, name, work)
}

/// The value of a known name.
pub fn value_of<L: Ledgers>(
    alloc: Global,
    lists: &mut Lists,
    name: usize,
    work: &mut Work<L>,
) -> Result<Value, AllocError>
    requires holds { Holds lists.old }
    requires known { name < length lists.old.entries.items }
    ensures holds { Holds lists.new }
    ensures part { IsReadInPart name (shown lists.old) (shown lists.new) }
    ensures again { marked lists.old.unread.items name ≡ false → shown lists.new ≡ shown lists.old }
    ensures value { IfOk result (λ value. value ≡ eager lists.old.entries.items name) }
    ensures ok { OnOk result (shown lists.new ≡ after_read name (shown lists.old)) }
    ensures cost { work.new.evaluated
        ≤ work.old.evaluated + evaluations lists.old.entries.items name lists.old.unread.items }
    ensures steps { OnOk result (work.new.evaluated + bound_unread lists.old.entries.items lists.new.unread.items
        ≡ work.old.evaluated + bound_unread lists.old.entries.items lists.old.unread.items) }
    ensures others { work.new ≡ record work.old { evaluated = work.new.evaluated } }
{
    settle(alloc, lists, name, work)?;
    lists.cache[name].copy(alloc)
}
