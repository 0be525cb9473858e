//! Room in lists that grow together.
ghost use Rattle.std.specs.Prelude.{◌≡◌, ◌≤◌, ◌+◌, OnOk, vec_len, vec_capacity};

use std::alloc::AllocError;

/// Makes room in both for so many more.
#[inline]
pub fn reserve_both<A, B>(
    first: &mut Vec<A>,
    second: &mut Vec<B>,
    more: usize,
) -> Result<(), AllocError>
    ensures first_items { first.new.items ≡ first.old.items }
    ensures second_items { second.new.items ≡ second.old.items }
    ensures first_room { OnOk result (vec_len first.new + more ≤ vec_capacity first.new) }
    ensures second_room { OnOk result (vec_len second.new + more ≤ vec_capacity second.new) }
{
    first.reserve(more)?;
    second.reserve(more)
}
