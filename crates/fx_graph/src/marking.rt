//! Names that are marked, and the end of each change: marks spread to all that reads what changed, and the names that
//! became unread are listed.
ghost use Rattle.std.specs.Prelude.{ℕ, List, Bool, ◌≡◌, ◌≤◌, ◌<◌, Contains, length, take};
ghost use Rattle.fx_base.specs.Names.{numbers};
ghost use Rattle.fx_graph_model.specs.Uses.{Ranked};
ghost use Rattle.fx_graph_model.specs.Unread.{after_marking, newly_marked};
ghost use Rattle.fx_graph_model.specs.Marking.{MarksAll, IsClosedBut};
ghost use Rattle.fx_graph_model.specs.Users.{Mirrors};
ghost use Rattle.fx_graph.specs.Store.{IsMarked, IsRoomy};

use crate::lists::Lists;
use fx_base::Name;
use fx_graph_edges::{list_newly, mark_one, spread};

/// Marks these names, and lists those that weren't marked in the front of the work list: how many there are.
pub fn mark_names(names: &[Name], flags: &mut [bool], work: &mut [usize]) -> usize
    requires known { (name : ℕ) → Contains (numbers names.now) name → name < length flags.old }
    requires room { length flags.old ≤ length work.old }
    ensures { MarksAll (numbers names.now) flags.old work.old 0 flags.new work.new result }
{
    let mut end = 0;
    for name in names {
        end = mark_one(flags, work, end, name.0 as usize);
    }
    end
}

/// Marks who reads one of the first `count` of the work list, and who reads those, to the end, and lists all that
/// became unread. The names that were marked before it, and in which flags, are whatever they were.
pub fn finish(lists: &mut Lists, count: usize)
    requires ranks { (rank : ℕ → ℕ) × Ranked lists.old.entries.items rank }
    requires mirrors { Mirrors lists.old.entries.items lists.old.users.items }
    requires roomy { IsRoomy lists.old }
    requires begun { (names : List ℕ) × (w : List ℕ) × (was : List Bool)
        × IsClosedBut lists.old.entries.items was names
        × MarksAll names was w 0 lists.old.unread.items lists.old.work.items count }
    ensures kept { lists.new ≡ record lists.old {
      unread = lists.new.unread;
      work = lists.new.work;
      newly = lists.new.newly;
      newly_count = lists.new.newly_count;
    } }
    ensures roomy { IsRoomy lists.new }
    ensures few { lists.new.newly_count ≤ length lists.old.entries.items }
    ensures marked { (names w : List ℕ) (was : List Bool) → IsClosedBut lists.old.entries.items was names
        → MarksAll names was w 0 lists.old.unread.items lists.old.work.items count
        → IsMarked names was lists.new }
{
    let end = spread(
        lists.entries.as_slice(),
        lists.users.as_slice(),
        lists.unread.as_mut_slice(),
        lists.work.as_mut_slice(),
        count,
    );
    list_newly(lists.work.as_mut_slice(), end, lists.newly.as_mut_slice());
    lists.newly_count = end;
}
