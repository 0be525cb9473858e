//! Properties that are declared: room is made in all lists before any grows, so that nothing can fail then. Of several
//! that are declared one after another, room is made once for all.
ghost use Rattle.std.specs.Prelude.{ℕ, ◌≡◌, ◌≤◌, ◌<◌, ◌+◌, length, OnErr, OnOk};
ghost use Rattle.fx_base.specs.Printing.{kind_of};
ghost use Rattle.fx_graph_model.specs.Changes.{after_declare};
ghost use Rattle.fx_graph.specs.Together.{AreFirstDeclared, HasRoom, after_rows};
ghost use Rattle.fx_graph.specs.Store.{Holds, shown};

use crate::lists::Lists;
use crate::room::reserve_both;
use fx_base::{Kind, Name, Value};
use fx_graph_edges::Users;
use fx_graph_model::{Definition, Entry, Origin};
use std::alloc::{AllocError, Global};

/// Properties that are declared one after another.
pub trait Rows {
    ghost use Rattle.std.specs.Prelude.{◌≡◌, ◌<◌, Bool, List, Some, length, slice_get};
    ghost use Rattle.fx_base.specs.declared.values.Value.{Value};

    /// Of each whether only the player changes it, and its value.
    ghost rows: { Self → List (Bool × Value) };

    /// How many they are.
    fn count(&self) -> usize
        ensures { result ≡ length (rows self.now) };

    /// Whether only the player changes the one at this place, and its value.
    fn row(&self, alloc: Global, place: usize) -> (bool, Value)
        requires { place < length (rows self.now) }
        ensures { slice_get (rows self.now) place ≡ Some result };
}

/// Makes room in all lists for so many more properties.
pub fn reserve_rows(lists: &mut Lists, more: usize) -> Result<(), AllocError>
    requires holds { Holds lists.old }
    ensures holds { Holds lists.new }
    ensures same { shown lists.new ≡ shown lists.old }
    ensures room { OnOk result (HasRoom more lists.new) }
{
    reserve_both(&mut lists.entries, &mut lists.users, more)?;
    reserve_both(&mut lists.unread, &mut lists.spare, more)?;
    reserve_both(&mut lists.newly, &mut lists.cache, more)?;
    lists.work.reserve(more)
}

/// Puts a property with this value behind the others, where all lists have room. It isn't unread.
pub fn push_row(
    alloc: Global,
    lists: &mut Lists,
    kind: Kind,
    read_only: bool,
    value: Value,
    kept: Value,
)
    requires holds { Holds lists.old }
    requires few { length lists.old.entries.items < 4000000 }
    requires room { HasRoom 1 lists.old }
    requires kind { kind_of value ≡ kind }
    requires kept { kept ≡ value }
    ensures holds { Holds lists.new }
    ensures declared { shown lists.new ≡ after_declare kind read_only value (shown lists.old) }
    ensures room { (more : ℕ) → HasRoom (more + 1) lists.old → HasRoom more lists.new }
{
    let entry = Entry {
        kind,
        read_only,
        origin: Origin::Initial,
        definition: Definition::Base(value),
    };
    lists.entries.push_reserved(entry);
    lists.users.push_reserved(Users::new(alloc));
    lists.unread.push_reserved(false);
    lists.spare.push_reserved(false);
    lists.newly.push_reserved(Name(0));
    lists.cache.push_reserved(kept);
    lists.work.push_reserved(0);
}

/// Declares these properties one after another.
pub fn declare_rows<R: Rows>(alloc: Global, lists: &mut Lists, rows: &R) -> Result<(), AllocError>
    requires holds { Holds lists.old }
    requires few { length lists.old.entries.items + length (R.rows rows.now) ≤ 4000000 }
    ensures holds { Holds lists.new }
    ensures ok { OnOk result (shown lists.new ≡ after_rows (R.rows rows.now) (shown lists.old)) }
    ensures first { AreFirstDeclared (R.rows rows.now) (shown lists.old) (shown lists.new) }
{
    let count = rows.count();
    reserve_rows(lists, count)?;
    for place in 0..count {
        let (read_only, value) = rows.row(alloc, place);
        let kept = value.copy(alloc)?;
        push_row(alloc, lists, value.kind(), read_only, value, kept);
    }
    Ok(())
}
