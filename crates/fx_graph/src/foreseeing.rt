//! What a change would make unread, before it is made: marks are set as the change would set them, what they reach is
//! listed, and they are taken back. The store of listeners looks at these names before each change.
ghost use Rattle.std.specs.Prelude.{ℕ, ◌≡◌, ◌<◌, Contains, length};
ghost use Rattle.fx_base.specs.Names.{numbers};
ghost use Rattle.fx_graph_model.specs.Changes.{clear_all};
ghost use Rattle.fx_graph_model.specs.Unread.{newly_marked};
ghost use Rattle.fx_graph.specs.Store.{Holds, shown};

use crate::lists::Lists;
use crate::marking::{finish, mark_names};
use fx_base::Name;

/// Takes the marks of these names back.
fn clear_marks(unread: &mut [bool], names: &[Name])
    requires { (name : ℕ) → Contains (numbers names.now) name → name < length unread.old }
    ensures { unread.new ≡ clear_all (numbers names.now) unread.old }
{
    for name in names {
        unread[name.0 as usize] = false;
    }
}

/// Lists what would become unread if these known names changed. All flags stay as they are.
pub fn foresee(lists: &mut Lists, names: &[Name])
    requires holds { Holds lists.old }
    requires known { (name : ℕ) → Contains (numbers names.now) name → name < length lists.old.entries.items }
    ensures holds { Holds lists.new }
    ensures foreseen { shown lists.new ≡ record (shown lists.old) {
      newly = newly_marked lists.old.entries.items (numbers names.now) lists.old.unread.items;
    } }
{
    let count = mark_names(
        names,
        lists.unread.as_mut_slice(),
        lists.work.as_mut_slice(),
    );
    finish(lists, count);
    clear_marks(
        lists.unread.as_mut_slice(),
        &lists.newly.as_slice()[..lists.newly_count],
    );
}
