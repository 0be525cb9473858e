//! What is asked of a store of properties, and what it tells of it.
ghost use Rattle.std.specs.Prelude.{◌≡◌, IfOk};

use fx_base::{List, Name, Value};
use fx_graph_model::Formula;
use fx_handles::Owner;
use fx_listen::ListenKind;
use std::alloc::{AllocError, Global};

/// A change of the store of properties.
#[derive(Drop)]
pub enum Change {
    /// Gives the property, and all that are joined with it, this value.
    Set(Name, Value),
    /// Gives read-only properties their values, all at once.
    Publish(List<(Name, Value)>),
    /// Binds the property to the formula over the operands (JavaFX `bind`).
    Bind(Name, Formula, List<Name>),
    /// Ends the binding; the property keeps its value (JavaFX `unbind`).
    Unbind(Name),
    /// Joins the two: the first, and all that are joined with it, take the value of the second (JavaFX
    /// `bindBidirectional`).
    Pair(Name, Name),
    /// Ends the first pair of the two, in either order (JavaFX `unbindBidirectional`).
    Unpair(Name, Name),
    /// Adds a listener with this tag.
    Listen(Name, ListenKind, Option<Owner>, u32),
    /// Removes the first listener that was added so.
    Unlisten(Name, ListenKind, Option<Owner>, u32),
    /// Takes the properties away, with their pairs and their listeners.
    Forget(List<Name>),
}

impl Change {
    /// The same change.
    pub fn copy(&self, alloc: Global) -> Result<Change, AllocError>
        ensures { IfOk result (λ copy. copy ≡ self.now) }
    {
        match self {
            Change::Set(name, value) => Ok(Change::Set(*name, value.copy(alloc)?)),
            Change::Publish(pairs) => Ok(Change::Publish(copy_pairs(alloc, pairs)?)),
            Change::Bind(name, expr, operands) => {
                let expr = expr.copy(alloc)?;
                Ok(Change::Bind(*name, expr, copy_names(alloc, operands)?))
            }
            Change::Unbind(name) => Ok(Change::Unbind(*name)),
            Change::Pair(one, other) => Ok(Change::Pair(*one, *other)),
            Change::Unpair(one, other) => Ok(Change::Unpair(*one, *other)),
            Change::Listen(name, kind, owner, tag) => {
                Ok(Change::Listen(*name, *kind, *owner, *tag))
            }
            Change::Unlisten(name, kind, owner, tag) => {
                Ok(Change::Unlisten(*name, *kind, *owner, *tag))
            }
            Change::Forget(names) => Ok(Change::Forget(copy_names(alloc, names)?)),
        }
    }
}

fn copy_names(alloc: Global, names: &List<Name>) -> Result<List<Name>, AllocError>
    ensures { IfOk result (λ copy. copy ≡ names.now) }
{
    let names = Vec::from_slice(alloc, names.as_slice())?;
    Ok(List::from_vec(names))
}

fn copy_pairs(alloc: Global, pairs: &List<(Name, Value)>) -> Result<List<(Name, Value)>, AllocError>
    ensures { IfOk result (λ copy. copy ≡ pairs.now) }
{
    let copies = copy_each_pair(alloc, pairs.as_slice())?;
    Ok(List::from_vec(copies))
}

fn copy_each_pair(alloc: Global, pairs: &[(Name, Value)]) -> Result<Vec<(Name, Value)>, AllocError>
    ensures { IfOk result (λ copies. copies.items ≡ pairs.now) }
{
    let mut copies = Vec::with_capacity(alloc, pairs.len())?;
    for pair in pairs {
        copies.push((pair.0, pair.1.copy(alloc)?))?;
    }
    Ok(copies)
}

/// What one change tells, in this order.
#[derive(Drop)]
pub struct Notices {
    /// The number of the listener that was added.
    pub added: Option<u32>,
    /// For each property that became unread its invalidation listeners, by property and then by number.
    pub invalid: List<(Name, u32)>,
    /// For each property that has another value its change listeners, by property and then by number, with the value
    /// before and the value after.
    pub changed: List<(Name, u32, Value, Value)>,
}

impl Notices {
    /// The same notices.
    pub fn copy(&self, alloc: Global) -> Result<Notices, AllocError>
        ensures { IfOk result (λ copy. copy ≡ self.now) }
    {
        let invalid = Vec::from_slice(alloc, self.invalid.as_slice())?;
        let changed = copy_each_notice(alloc, self.changed.as_slice())?;
        Ok(Notices {
            added: self.added,
            invalid: List::from_vec(invalid),
            changed: List::from_vec(changed),
        })
    }
}

fn copy_each_notice(
    alloc: Global,
    notices: &[(Name, u32, Value, Value)],
) -> Result<Vec<(Name, u32, Value, Value)>, AllocError>
    ensures { IfOk result (λ copies. copies.items ≡ notices.now) }
{
    let mut copies = Vec::with_capacity(alloc, notices.len())?;
    for notice in notices {
        let before = notice.2.copy(alloc)?;
        let after = notice.3.copy(alloc)?;
        copies.push((notice.0, notice.1, before, after))?;
    }
    Ok(copies)
}
