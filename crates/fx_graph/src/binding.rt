//! Bindings (JavaFX `bind`): tested first, then room is made for all edges, and then nothing can fail.
ghost use Rattle.std.specs.Prelude.{ℕ, ◌≡◌, ◌≤◌, ◌<◌, [], ◌∷◌, true, false, Contains, length, map, nat_lt, None, IfOk, OnOk, OnErr};
ghost use Rattle.fx_base.specs.declared.keys.Name.{Name as Named};
ghost use Rattle.fx_expr.specs.Tree.{Tree, is_within};
ghost use Rattle.fx_graph_model.specs.declared.errors.GraphError.TheVariants as error;
ghost use Rattle.fx_base.specs.Names.{numbers};
ghost use Rattle.fx_graph_model.specs.Uses.{Ranked, uses, leads};
ghost use Rattle.fx_graph_model.specs.Unread.{marked, IsClosed};
ghost use Rattle.fx_graph_model.specs.Changes.{with_binding, after_bind};
ghost use Rattle.fx_base.specs.Answers.{refused_first};
ghost use Rattle.fx_graph_model.specs.Refusals.{kind_at, fits, operand_count, fit_refusal, link_refusal, bind_refusal};
ghost use Rattle.fx_graph_model.specs.Users.{Mirrors};
ghost use Rattle.fx_graph.specs.Store.{Holds, IsMarked, IsRoomy, shown};

use crate::lists::Lists;
use crate::marking::finish;
use fx_base::{Kind, Name};
use fx_expr::{KindError, type_of};
use fx_graph_edges::{mark_one, operands_at, relink, spread, take_back};
use fx_graph_model::{Definition, Entry, Formula, GraphError, Operands, Origin};
use fx_graph_refusals::asking::{is_marked, is_read_only, is_unknown, unknown_among};
use fx_graph_refusals::refusals::{is_same_kind, kind_of};
use std::alloc::{AllocError, Global};

/// The most operands of all bindings together.
const MOST_OPERANDS: usize = 1_000_000;

fn kinds_of(alloc: Global, entries: &[Entry], operands: &[Name]) -> Result<Vec<Kind>, AllocError>
    ensures { IfOk result (λ kinds. kinds.items ≡ map (kind_at entries.now) (numbers operands.now)) }
{
    let mut kinds = Vec::with_capacity(alloc, operands.len())?;
    for operand in operands {
        kinds.push(kind_of(entries, *operand))?;
    }
    Ok(kinds)
}

/// Whether the expression has the kind of the name.
fn has_kind(
    alloc: Global,
    entries: &[Entry],
    name: Name,
    expr: &Formula,
    operands: &[Name],
) -> Result<bool, AllocError>
    requires { is_within expr.now (length operands.now) ≡ true }
    ensures { IfOk result (λ answer. answer ≡ fits entries.now name.0 expr.now (numbers operands.now)) }
{
    let kinds = kinds_of(alloc, entries, operands)?;
    match type_of(expr.as_expr(), kinds.as_slice()) {
        Ok(kind) => Ok(is_same_kind(kind, kind_of(entries, name))),
        Err(KindError::Mismatch) => Ok(false),
    }
}

fn marked_operand(operands: &[Name], flags: &[bool]) -> Option<GraphError>
    ensures { result ≡ refused_first error.Cycle (λ (operand : Named). marked flags.now operand.0) operands.now }
{
    for operand in operands {
        if is_marked(flags, *operand) {
            return Some(GraphError::Cycle(*operand));
        }
    }
    None
}

/// The first operand that is the name or reads it, as the refusal. It is found by marks from the name upwards, in the
/// spare flags.
fn cycle(lists: &mut Lists, name: usize, operands: &[Name]) -> Option<GraphError>
    requires holds { Holds lists.old }
    requires known { name < length lists.old.entries.items }
    requires operands { (operand : ℕ) → Contains (numbers operands.now) operand
        → operand < length lists.old.entries.items }
    ensures holds { Holds lists.new }
    ensures same { shown lists.new ≡ shown lists.old }
    ensures refusal { result ≡ refused_first error.Cycle
        (λ (operand : Named). leads lists.old.entries.items operand.0 name) operands.now }
{
    let count = mark_one(
        lists.spare.as_mut_slice(),
        lists.work.as_mut_slice(),
        0,
        name,
    );
    let end = spread(
        lists.entries.as_slice(),
        lists.users.as_slice(),
        lists.spare.as_mut_slice(),
        lists.work.as_mut_slice(),
        count,
    );
    let refusal = marked_operand(operands, lists.spare.as_slice());
    take_back(lists.spare.as_mut_slice(), lists.work.as_slice(), end);
    refusal
}

/// Whether all bindings together would have too many operands with these for the name.
fn is_full(entries: &[Entry], total: usize, name: usize, operands: &[Name]) -> bool
    requires known { name < length entries.now }
    requires counted { total ≡ operand_count entries.now }
    requires few { total ≤ 1000000 }
    ensures { (expr : Tree) → result
        ≡ nat_lt 1000000 (operand_count (with_binding name expr (numbers operands.now) entries.now)) }
{
    let others = total - operands_at(entries, name);
    operands.len() > MOST_OPERANDS - others
}

/// Why the operands aren't known, the name may not be bound, or the expression isn't of its kind, if it is so.
#[tactic(auto, unfolding(fx_graph_model::specs::Refusals::fit_refusal))]
pub fn unfit(
    alloc: Global,
    entries: &[Entry],
    name: Name,
    expr: &Formula,
    operands: &[Name],
) -> Result<Option<GraphError>, AllocError>
    requires { is_within expr.now (length operands.now) ≡ true }
    ensures { IfOk result (λ refusal. refusal ≡ fit_refusal name expr.now operands.now entries.now) }
{
    if is_unknown(entries, name) {
        return Ok(Some(GraphError::Unknown(name)));
    }
    if let Some(unknown) = unknown_among(entries, operands) {
        return Ok(Some(unknown));
    }
    if is_read_only(entries, name) {
        return Ok(Some(GraphError::ReadOnly(name)));
    }
    let fits = has_kind(alloc, entries, name, expr, operands)?;
    if !fits {
        return Ok(Some(GraphError::WrongKind(name)));
    }
    Ok(None)
}

/// Why the edges from the operands to the name may not be made, if they may not.
#[tactic(auto, unfolding(fx_graph_model::specs::Refusals::link_refusal))]
fn unlinkable(lists: &mut Lists, name: Name, operands: &[Name]) -> Option<GraphError>
    requires holds { Holds lists.old }
    requires known { name.0 < length lists.old.entries.items }
    requires operands { (operand : ℕ) → Contains (numbers operands.now) operand
        → operand < length lists.old.entries.items }
    ensures holds { Holds lists.new }
    ensures same { shown lists.new ≡ shown lists.old }
    ensures refusal { (expr : Tree)
        → result ≡ link_refusal name expr operands.now lists.old.entries.items }
{
    let place = name.0 as usize;
    if let Some(cycle) = cycle(lists, place, operands) {
        return Some(cycle);
    }
    if is_full(
        lists.entries.as_slice(),
        lists.operand_count,
        place,
        operands,
    ) {
        return Some(GraphError::Full);
    }
    None
}

/// Why the name may not be bound so, if it may not.
#[tactic(auto, unfolding(fx_graph_model::specs::Refusals::bind_refusal))]
pub fn refusal(
    alloc: Global,
    lists: &mut Lists,
    name: Name,
    expr: &Formula,
    operands: &[Name],
) -> Result<Option<GraphError>, AllocError>
    requires holds { Holds lists.old }
    requires within { is_within expr.now (length operands.now) ≡ true }
    ensures holds { Holds lists.new }
    ensures same { shown lists.new ≡ shown lists.old }
    ensures refusal { IfOk result (λ refusal. refusal
        ≡ bind_refusal name expr.now operands.now lists.old.entries.items) }
{
    let unfit = unfit(alloc, lists.entries.as_slice(), name, expr, operands)?;
    match unfit {
        Some(unfit) => return Ok(Some(unfit)),
        None => {}
    }
    Ok(unlinkable(lists, name, operands))
}

fn write_binding(entries: &mut [Entry], name: usize, expr: Formula, operands: Vec<Name>)
    requires { name < length entries.old }
    ensures { entries.new ≡ with_binding name expr (numbers operands.items) entries.old }
{
    let entry = &entries[name];
    let kind = entry.kind;
    let read_only = entry.read_only;
    entries[name] = Entry {
        kind,
        read_only,
        origin: Origin::Bound,
        definition: Definition::Bound(expr, Operands::from_vec(operands)),
    };
}

/// Writes the binding and marks the name. The edges are made already.
fn bind_linked(lists: &mut Lists, name: usize, expr: Formula, operands: Vec<Name>)
    requires ranks { (rank : ℕ → ℕ)
        × Ranked (with_binding name expr (numbers operands.items) lists.old.entries.items) rank }
    requires mirrors { Mirrors (with_binding name expr (numbers operands.items) lists.old.entries.items)
        lists.old.users.items }
    requires closed { IsClosed lists.old.entries.items lists.old.unread.items }
    requires known { name < length lists.old.entries.items }
    requires roomy { IsRoomy lists.old }
    ensures kept { lists.new ≡ record lists.old {
      entries = lists.new.entries;
      unread = lists.new.unread;
      work = lists.new.work;
      newly = lists.new.newly;
      newly_count = lists.new.newly_count;
    } }
    ensures entries { lists.new.entries.items
        ≡ with_binding name expr (numbers operands.items) lists.old.entries.items }
    ensures roomy { IsRoomy lists.new }
    ensures few { lists.new.newly_count ≤ length lists.old.entries.items }
    ensures marked { IsMarked (name ∷ []) lists.old.unread.items lists.new }
{
    write_binding(lists.entries.as_mut_slice(), name, expr, operands);
    let count = mark_one(
        lists.unread.as_mut_slice(),
        lists.work.as_mut_slice(),
        0,
        name,
    );
    finish(lists, count);
}

/// Binds the name where nothing speaks against it, marks it, and lists the names that became unread.
pub fn bind_name(
    lists: &mut Lists,
    name: Name,
    expr: Formula,
    operands: Vec<Name>,
) -> Result<(), AllocError>
    requires holds { Holds lists.old }
    requires places { is_within expr (length operands.items) ≡ true }
    requires allowed { bind_refusal name expr operands.items lists.old.entries.items ≡ None }
    ensures holds { Holds lists.new }
    ensures ok { OnOk result (shown lists.new ≡ after_bind name.0 expr (numbers operands.items) (shown lists.old)) }
    ensures err { OnErr result (shown lists.new ≡ shown lists.old) }
{
    let place = name.0 as usize;
    let others = lists.operand_count - operands_at(lists.entries.as_slice(), place);
    let total = others + operands.len();
    relink(
        lists.entries.as_slice(),
        lists.users.as_mut_slice(),
        operands.as_slice(),
        place,
    )?;
    lists.operand_count = total;
    bind_linked(lists, place, expr, operands);
    Ok(())
}
