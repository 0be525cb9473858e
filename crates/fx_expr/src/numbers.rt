//! Expressions of numbers alone, over values where they stand.
ghost use Rattle.std.specs.Prelude.{ℕ, ◌≡◌, ◌<◌, Contains, IfSome, IsTrue, length, slice_index_or};
ghost use Rattle.fx_base.specs.Names.{numbers};
ghost use Rattle.fx_expr.specs.Tree.{tree, is_within};
ghost use Rattle.fx_expr.specs.Meaning.{mean, no_value, unary_of, binary_of};
ghost use Rattle.fx_expr.specs.Numbers.{values_at};

use crate::meaning::arithmetic;
use crate::tree::{BinarySign, Expr, UnarySign};
use fx_base::{Name, Value};

/// The number that the expression means over the values at these names, where numbers alone make it. No value is
/// copied. None, the answer where a text or a truth takes part, says nothing of the meaning.
pub fn number_over(expr: &Expr, operands: &[Name], values: &[Value]) -> Option<i64>
    requires places { IsTrue (is_within (tree expr.now) (length operands.now)) }
    requires names { (name : ℕ) → Contains (numbers operands.now) name → name < length values.now }
    ensures { IfSome result (λ n. mean (tree expr.now) (values_at values.now (numbers operands.now)) ≡ Value.Int n) }
{
    match expr {
        Expr::Const(value) => number_of(value),
        Expr::Operand(place) => number_at(*place, operands, values),
        Expr::Unary(sign, inner) => {
            let inner = number_over(inner, operands, values)?;
            opposite(*sign, inner)
        }
        Expr::Binary(sign, left, right) => {
            let left = number_over(left, operands, values)?;
            let right = number_over(right, operands, values)?;
            between(*sign, left, right)
        }
    }
}

/// The number that the value is, if it is one.
fn number_of(value: &Value) -> Option<i64>
    ensures { IfSome result (λ n. value.now ≡ Value.Int n) }
{
    match value {
        Value::Int(number) => Some(*number),
        _ => None,
    }
}

/// The number that stands at the name of this place, if it is one.
fn number_at(place: usize, operands: &[Name], values: &[Value]) -> Option<i64>
    requires place { place < length operands.now }
    requires names { (name : ℕ) → Contains (numbers operands.now) name → name < length values.now }
    ensures { IfSome result
        (λ n. slice_index_or (values_at values.now (numbers operands.now)) place no_value ≡ Value.Int n) }
{
    number_of(&values[operands[place].0 as usize])
}

fn opposite(sign: UnarySign, n: i64) -> Option<i64>
    ensures { IfSome result (λ k. unary_of sign (Value.Int n) ≡ Value.Int k) }
{
    match sign {
        UnarySign::Minus => Some(n.saturating_neg()),
        UnarySign::Not => None,
    }
}

fn between(sign: BinarySign, m: i64, n: i64) -> Option<i64>
    ensures { IfSome result (λ k. binary_of sign (Value.Int m) (Value.Int n) ≡ Value.Int k) }
{
    arithmetic(sign, m, n)
}
