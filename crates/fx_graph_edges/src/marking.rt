//! Marking: what is to be read anew after a change. It goes upwards along the edges, and stops at what is unread
//! already. Every change of a value or a binding ends with it.
ghost use Rattle.std.specs.Prelude.{◌≡◌, ◌+◌, ◌<◌, ◌≤◌, ℕ, List, Bool, true, false, All, length, replicate, slice_set, if◌then◌else◌};
ghost use Rattle.fx_graph_model.specs.Uses.{Ranked};
ghost use Rattle.fx_graph_model.specs.Unread.{marked, unmarked, after_marking};
ghost use Rattle.fx_graph_model.specs.Marking.{Listed, MarksAll, IsClosedBut};
ghost use Rattle.fx_graph_model.specs.Users.{Mirrors};

use crate::users::Users;
use fx_graph_model::Entry;

/// Marks one, and puts it behind the first `count` of the list if it wasn't marked.
pub fn mark_one(unread: &mut [bool], work: &mut [usize], count: usize, name: usize) -> usize
    requires known { name < length unread.old }
    requires room { count + unmarked unread.old ≤ length work.old }
    ensures flags { unread.new ≡ slice_set unread.old name true }
    ensures work { work.new ≡ (if marked unread.old name then work.old else slice_set work.old count name) }
    ensures count { result ≡ (if marked unread.old name then count else count + 1) }
{
    if unread[name] {
        return count;
    }
    unread[name] = true;
    work[count] = name;
    count + 1
}

/// Marks these, and lists those that weren't marked behind the first `count`.
pub fn mark_all(names: &[usize], unread: &mut [bool], work: &mut [usize], count: usize) -> usize
    requires known { All (λ name. name < length unread.old) names.now }
    requires room { count + unmarked unread.old ≤ length work.old }
    ensures { MarksAll names.now unread.old work.old count unread.new work.new result }
{
    let mut end = count;
    for name in names {
        end = mark_one(unread, work, end, *name);
    }
    end
}

/// Marks who reads one of the first `count` of the list, and who reads those, to the end: how many the list has then.
/// The names that were marked before it, and in which flags, are whatever they were.
pub fn spread(
    entries: &[Entry],
    users: &[Users],
    unread: &mut [bool],
    work: &mut [usize],
    count: usize,
) -> usize
    requires ranks { (rank : ℕ → ℕ) × Ranked entries.now rank }
    requires mirrors { Mirrors entries.now users.now }
    requires flags { length unread.old ≡ length entries.now }
    requires places { length work.old ≡ length entries.now }
    requires begun { (names : List ℕ) × (w : List ℕ) × (was : List Bool) × IsClosedBut entries.now was names
        × MarksAll names was w 0 unread.old work.old count }
    ensures flags { length unread.new ≡ length unread.old }
    ensures places { length work.new ≡ length work.old }
    ensures end { result ≤ length work.new }
    ensures marks { (names w : List ℕ) (was : List Bool) → IsClosedBut entries.now was names
        → MarksAll names was w 0 unread.old work.old count → unread.new ≡ after_marking entries.now names was }
    ensures listed { (names w : List ℕ) (was : List Bool) → IsClosedBut entries.now was names
        → MarksAll names was w 0 unread.old work.old count → Listed was unread.new work.new result }
{
    let _entries = entries;
    let mut end = count;
    let mut done = 0;
    while done < end {
        let name = work[done];
        end = mark_all(users[name].as_slice(), unread, work, end);
        done += 1;
    }
    end
}

/// Takes back the marks of the first `count` of the list, in flags in which nothing else is marked.
pub fn take_back(flags: &mut [bool], work: &[usize], count: usize)
    requires places { count ≤ length work.now }
    requires listed { Listed (replicate (length flags.old) false) flags.old work.now count }
    ensures { flags.new ≡ replicate (length flags.old) false }
{
    for place in 0..count {
        flags[work[place]] = false;
    }
}
