//! Whether two rows are the same.
//! It stands by itself, below the stream of changes.
ghost use Rattle.std.specs.Prelude.{◌≡◌, ◌↔◌, IsTrue};

use std::simd::prelude::*;

/// Whether two rows have the same length and the same pixels.
#[inline(never)]
pub fn equal(a: &[u32], b: &[u32]) -> bool
    ensures { IsTrue result ↔ (a.now ≡ b.now) }
{
    if a.len() != b.len() {
        return false;
    }
    let mut at = 0;
    while a.len() - at >= 32 {
        if !is_same(u32x32::from_slice(&a[at..]), u32x32::from_slice(&b[at..])) {
            return false;
        }
        at += 32;
    }
    for i in at..a.len() {
        if a[i] != b[i] {
            return false;
        }
    }
    true
}

#[inline(always)]
fn is_same(a: u32x32, b: u32x32) -> bool
    ensures { IsTrue result ↔ (a ≡ b) }
{
    a.simd_eq(b).all()
}
