//! One colour over a whole row.
//! It stands by itself, below the canvas.
ghost use Rattle.std.specs.Prelude.{◌≡◌, length, replicate};

use std::simd::prelude::*;

/// Writes a colour, 0x00RRGGBB, to every pixel of a row.
pub fn fill(row: &mut [u32], color: u32)
    ensures { row.new ≡ replicate (length row.old) color }
{
    let lanes = u32x16::splat(color);
    let mut at = 0;
    while row.len() - at >= 16 {
        lanes.copy_to_slice(&mut row[at..]);
        at += 16;
    }
    for i in at..row.len() {
        row[i] = color;
    }
}
