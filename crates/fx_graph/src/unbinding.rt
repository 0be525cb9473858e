//! The end of a binding (JavaFX `unbind`): the property is read and keeps that value as its own.
ghost use Rattle.std.specs.Prelude.{◌≡◌, ◌≤◌, ◌+◌, true, OnOk, OnErr};
ghost use Rattle.fx_graph_model.specs.Uses.{bound_in};
ghost use Rattle.fx_graph_model.specs.Changes.{after_unbind, IsReadInPart};
ghost use Rattle.fx_graph_model.specs.Unread.{bound_unread, evaluations};
ghost use Rattle.fx_graph.specs.Store.{Holds, shown};

use crate::giving::write_value;
use crate::lists::Lists;
use crate::reading::value_of;
use fx_base::{Ledgers, Work};
use fx_graph_edges::{operands_at, release_at};
use std::alloc::{AllocError, Global};

/// Reads a bound name, and gives it its value for its own.
pub fn unbind_name<L: Ledgers>(
    alloc: Global,
    lists: &mut Lists,
    name: usize,
    work: &mut Work<L>,
) -> Result<(), AllocError>
    requires holds { Holds lists.old }
    requires bound { bound_in lists.old.entries.items name ≡ true }
    ensures holds { Holds lists.new }
    ensures ok { OnOk result (shown lists.new ≡ after_unbind name (shown lists.old)) }
    ensures part { OnErr result (IsReadInPart name (shown lists.old) (shown lists.new)) }
    ensures cost { work.new.evaluated
        ≤ work.old.evaluated + evaluations lists.old.entries.items name lists.old.unread.items }
    ensures steps { OnOk result (work.new.evaluated + bound_unread lists.old.entries.items lists.new.unread.items
        ≡ work.old.evaluated + bound_unread lists.old.entries.items lists.old.unread.items) }
    ensures others { work.new ≡ record work.old { evaluated = work.new.evaluated } }
{
    let value = value_of(alloc, lists, name, work)?;
    let left = lists.operand_count - operands_at(lists.entries.as_slice(), name);
    release_at(lists.entries.as_slice(), lists.users.as_mut_slice(), name);
    write_value(lists.entries.as_mut_slice(), name, value, true);
    lists.operand_count = left;
    Ok(())
}
