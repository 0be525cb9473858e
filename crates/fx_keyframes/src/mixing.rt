//! What lies between two values, at a part of the time between them.
ghost use Rattle.std.specs.Prelude.{◌≡◌, ◌-◌, ◌*◌, ◌/◌, ◌^◌, ◌<◌, ◌≤◌, pos, negsuc, ◌+ℤ◌, ◌-ℤ◌, ◌≤ℤ◌, IfOk};
ghost use Rattle.fx_keyframes.specs.Mixing.{between, channel, color_between, towards};

use fx_base::{Color, Value};
use std::alloc::{AllocError, Global};

/// The value at a part of the whole time from one value to another. Numbers and colours move, and other values stay.
#[tactic(auto, unfolding(crate::specs::Mixing::between))]
pub fn between(
    alloc: Global,
    from: &Value,
    to: &Value,
    part: u32,
    whole: u32,
) -> Result<Value, AllocError>
    requires within { part ≤ whole }
    requires some { 0 < whole }
    ensures { IfOk result (λ value. value ≡ between from.now to.now part whole) }
{
    match (from, to) {
        (Value::Int(a), Value::Int(b)) => Ok(Value::Int(towards(*a, *b, part, whole))),
        (Value::Color(a), Value::Color(b)) => Ok(Value::Color(color_between(*a, *b, part, whole))),
        _ => from.copy(alloc),
    }
}

/// A number moved towards another by a part of the whole way; what is left of a step is cut off.
pub fn towards(a: i64, b: i64, part: u32, whole: u32) -> i64
    requires within { part ≤ whole }
    requires some { 0 < whole }
    ensures value { result ≡ towards a b part whole }
    ensures rising { a ≤ℤ b → (a ≤ℤ result) × (result ≤ℤ b) }
    ensures falling { b ≤ℤ a → (b ≤ℤ result) × (result ≤ℤ a) }
{
    if a <= b {
        above(a, moved(b.abs_diff(a), part, whole))
    } else {
        below(a, moved(a.abs_diff(b), part, whole))
    }
}

/// The number so far above another.
fn above(a: i64, way: u64) -> i64
    requires { (a +ℤ pos way) ≤ℤ pos (2 ^ 63 - 1) }
    ensures { result ≡ a +ℤ pos way }
{
    narrowed(i128::from(a) + i128::from(way))
}

/// The number so far below another.
fn below(a: i64, way: u64) -> i64
    requires { negsuc (2 ^ 63 - 1) ≤ℤ (a -ℤ pos way) }
    ensures { result ≡ a -ℤ pos way }
{
    narrowed(i128::from(a) - i128::from(way))
}

fn narrowed(n: i128) -> i64
    requires most { n ≤ℤ pos (2 ^ 63 - 1) }
    requires least { negsuc (2 ^ 63 - 1) ≤ℤ n }
    ensures { result ≡ n }
{
    n as i64
}

/// A part of a way, rounded down to whole steps.
fn moved(way: u64, part: u32, whole: u32) -> u64
    requires within { part ≤ whole }
    requires some { 0 < whole }
    ensures value { result ≡ way * part / whole }
    ensures most { result ≤ way }
{
    (u128::from(way) * u128::from(part) / u128::from(whole)) as u64
}

fn color_between(a: Color, b: Color, part: u32, whole: u32) -> Color
    requires within { part ≤ whole }
    requires some { 0 < whole }
    ensures { result ≡ color_between a b part whole }
{
    Color {
        r: channel(a.r, b.r, part, whole),
        g: channel(a.g, b.g, part, whole),
        b: channel(a.b, b.b, part, whole),
        a: channel(a.a, b.a, part, whole),
    }
}

fn channel(a: u8, b: u8, part: u32, whole: u32) -> u8
    requires within { part ≤ whole }
    requires some { 0 < whole }
    ensures { result ≡ channel a b part whole }
{
    if a <= b {
        a + moved(u64::from(b - a), part, whole) as u8
    } else {
        a - moved(u64::from(a - b), part, whole) as u8
    }
}
