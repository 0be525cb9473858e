//! Equality of what shapes hold, in few steps: a colour is compared as one number, and a short text byte by byte.
ghost use Rattle.std.specs.Prelude.{◌≡◌, ◌+◌, ◌*◌, ◌↔◌, IsTrue, length};

use fx_base::{Color, Rect};

/// Texts of fewer bytes are compared byte by byte.
const FEW: usize = 4;

/// Whether two rectangles are one.
#[inline(always)]
pub(crate) fn same_rect(one: Rect, other: Rect) -> bool
    ensures { IsTrue result ↔ (one ≡ other) }
{
    one == other
}

/// Whether two colours are one.
#[inline(always)]
pub(crate) fn same_color(one: Color, other: Color) -> bool
    ensures { IsTrue result ↔ (one ≡ other) }
{
    packed(one) == packed(other)
}

/// A colour as one number, which no other colour has.
#[inline(always)]
fn packed(color: Color) -> u32
    ensures { result ≡ color.r + color.g * 256 + color.b * 65536 + color.a * 16777216 }
{
    u32::from_le_bytes([color.r, color.g, color.b, color.a])
}

/// Whether two texts are one.
#[inline(always)]
pub(crate) fn same_text(one: &str, other: &str) -> bool
    ensures { IsTrue result ↔ (one.now ≡ other.now) }
{
    if one.len() < FEW {
        return same_bytes(one.as_bytes(), other.as_bytes());
    }
    one == other
}

#[inline(always)]
fn same_bytes(bytes: &[u8], others: &[u8]) -> bool
    ensures { IsTrue result ↔ (bytes.now ≡ others.now) }
{
    bytes.len() == others.len() && same_pairs(bytes, others)
}

/// Whether the bytes that stand at one place are the same.
#[inline(always)]
fn same_pairs(bytes: &[u8], others: &[u8]) -> bool
    requires { length bytes.now ≡ length others.now }
    ensures { IsTrue result ↔ (bytes.now ≡ others.now) }
{
    for at in 0..bytes.len() {
        if bytes[at] != others[at] {
            return false;
        }
    }
    true
}
