//! Copies of rectangles, made a block at a time. The C library copies a long list by one instruction that is repeated
//! for each byte; a block of two thousand bytes goes by wide registers.
ghost use Rattle.std.specs.Prelude.{◌≡◌, IfOk};

use fx_base::Rect;
use std::alloc::{AllocError, Global};

/// How many rectangles are copied at once.
const BLOCK: usize = 64;

/// A copy of these rectangles.
pub(crate) fn copied(alloc: Global, rects: &[Rect]) -> Result<Vec<Rect>, AllocError>
    ensures { IfOk result (λ copy. copy.items ≡ rects.now) }
{
    let mut copy = Vec::with_capacity(alloc, rects.len())?;
    let mut rest = rects;
    while rest.len() > BLOCK {
        let (block, later) = rest.split_at(BLOCK);
        copy.extend_from_slice(block)?;
        rest = later;
    }
    copy.extend_from_slice(rest)?;
    Ok(copy)
}
