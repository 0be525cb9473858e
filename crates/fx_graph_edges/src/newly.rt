//! The names that became unread in a change, rising. The work list has each of them once in its front, so this is
//! sorted, in place: no memory is taken, and no other name is looked at. The store of listeners reads them.
ghost use Rattle.std.specs.Prelude.{◌≡◌, ◌<◌, ◌≤◌, ◌^◌, ℕ, All, length, take, slice_set};
ghost use Rattle.std.specs.List.Sorted.{IsPermutation, IsNonDecreasing};
ghost use Rattle.fx_base.specs.Names.{numbers, name_of};
ghost use Rattle.fx_graph_model.specs.Marking.{at};

use fx_base::Name;

/// Sorts the first `count` of the list, and writes them as names to the front of `newly`.
pub fn list_newly(work: &mut [usize], count: usize, newly: &mut [Name])
    requires listed { count ≤ length work.old }
    requires room { count ≤ length newly.old }
    requires few { (i : ℕ) → i < count → at work.old i < 4000000 }
    ensures places { length work.new ≡ length work.old }
    ensures newly_length { length newly.new ≡ length newly.old }
    ensures moved { IsPermutation (take count work.old) (numbers (take count newly.new)) }
    ensures rising { IsNonDecreasing (numbers (take count newly.new)) }
{
    sort_front(work, count);
    write_names(&work[..count], newly);
}

fn sort_front(work: &mut [usize], count: usize)
    requires { count ≤ length work.old }
    ensures places { length work.new ≡ length work.old }
    ensures moved { IsPermutation (take count work.old) (take count work.new) }
    ensures rising { IsNonDecreasing (take count work.new) }
{
    let (listed, _) = work.split_at_mut(count);
    listed.sort_unstable();
}

/// Writes the numbers as names to the front of the list.
fn write_names(listed: &[usize], newly: &mut [Name])
    requires room { length listed.now ≤ length newly.old }
    requires few { All (λ (place : ℕ). place < 2 ^ 32) listed.now }
    ensures newly_length { length newly.new ≡ length newly.old }
    ensures names { numbers (take (length listed.now) newly.new) ≡ listed.now }
{
    for place in 0..listed.len() {
        write_name(newly, place, listed[place]);
    }
}

fn write_name(newly: &mut [Name], place: usize, number: usize)
    requires room { place < length newly.old }
    requires few { number < 2 ^ 32 }
    ensures { newly.new ≡ slice_set newly.old place (name_of number) }
{
    newly[place] = Name(number as u32);
}
