//! What the signs mean. Each result is total: a value of a kind that a sign doesn't take counts as nothing.
ghost use Rattle.std.specs.Prelude.{◌≡◌, ◌++◌, ℕ, IfOk, IsTrue, MatchOption, take, length, encode_utf8_all, ◌≤◌};
ghost use Rattle.std.specs.Str.{chars};
ghost use Rattle.std.specs.String.{string_bytes};
ghost use Rattle.fx_expr.specs.Tree.{tree, is_within};
ghost use Rattle.fx_expr.specs.Meaning as spec;

use crate::tree::{BinarySign, Expr, UnarySign};
use fx_base::{Text, Value};
use std::alloc::{AllocError, Global};

/// The meaning of the expression over its operands.
pub fn value_of(alloc: Global, expr: &Expr, operands: &[Value]) -> Result<Value, AllocError>
    requires { IsTrue (is_within (tree expr.now) (length operands.now)) }
    ensures { IfOk result (λ value. value ≡ spec.mean (tree expr.now) operands.now) }
{
    match expr {
        Expr::Const(value) => value.copy(alloc),
        Expr::Operand(place) => operands[*place].copy(alloc),
        Expr::Unary(sign, inner) => {
            let inner = value_of(alloc, inner, operands)?;
            Ok(unary(*sign, &inner))
        }
        Expr::Binary(sign, left, right) => {
            let left = value_of(alloc, left, operands)?;
            let right = value_of(alloc, right, operands)?;
            binary(alloc, *sign, &left, &right)
        }
    }
}

fn unary(sign: UnarySign, value: &Value) -> Value
    ensures { result ≡ spec.unary_of sign value.now }
{
    match sign {
        UnarySign::Minus => minus(value),
        UnarySign::Not => negation(value),
    }
}

fn minus(value: &Value) -> Value
    ensures { result ≡ spec.negated value.now }
{
    match value {
        Value::Int(number) => Value::Int(number.saturating_neg()),
        _ => Value::Bool(false),
    }
}

fn negation(value: &Value) -> Value
    ensures { result ≡ spec.denied value.now }
{
    match value {
        Value::Bool(truth) => Value::Bool(!*truth),
        _ => Value::Bool(false),
    }
}

fn binary(alloc: Global, sign: BinarySign, left: &Value, right: &Value) -> Result<Value, AllocError>
    ensures { IfOk result (λ value. value ≡ spec.binary_of sign left.now right.now) }
{
    match sign {
        BinarySign::Or => Ok(Value::Bool(is_true(left) || is_true(right))),
        BinarySign::And => Ok(Value::Bool(is_true(left) && is_true(right))),
        BinarySign::Equal => Ok(Value::Bool(are_same(left, right))),
        BinarySign::Differ => Ok(Value::Bool(!are_same(left, right))),
        BinarySign::Plus => plus(alloc, left, right),
        BinarySign::Greater => Ok(of_numbers(BinarySign::Greater, left, right)),
        BinarySign::GreaterEqual => Ok(of_numbers(BinarySign::GreaterEqual, left, right)),
        BinarySign::Less => Ok(of_numbers(BinarySign::Less, left, right)),
        BinarySign::LessEqual => Ok(of_numbers(BinarySign::LessEqual, left, right)),
        BinarySign::Minus => Ok(of_numbers(BinarySign::Minus, left, right)),
        BinarySign::Times => Ok(of_numbers(BinarySign::Times, left, right)),
        BinarySign::Over => Ok(of_numbers(BinarySign::Over, left, right)),
        BinarySign::Rest => Ok(of_numbers(BinarySign::Rest, left, right)),
    }
}

fn is_true(value: &Value) -> bool
    ensures { result ≡ spec.holds value.now }
{
    match value {
        Value::Bool(truth) => *truth,
        _ => false,
    }
}

fn are_same(left: &Value, right: &Value) -> bool
    ensures { result ≡ spec.same left.now right.now }
{
    match (left, right) {
        (Value::Int(m), Value::Int(n)) => *m == *n,
        (Value::Bool(a), Value::Bool(b)) => *a == *b,
        (Value::Text(s), Value::Text(t)) => s.as_str() == t.as_str(),
        _ => false,
    }
}

fn of_numbers(sign: BinarySign, left: &Value, right: &Value) -> Value
    ensures { result ≡ spec.numeric sign left.now right.now }
{
    match (left, right) {
        (Value::Int(m), Value::Int(n)) => over(sign, *m, *n),
        _ => Value::Bool(false),
    }
}

fn over(sign: BinarySign, m: i64, n: i64) -> Value
    ensures { result ≡ spec.over_numbers sign m n }
{
    match arithmetic(sign, m, n) {
        Some(number) => Value::Int(number),
        None => compared(sign, m, n),
    }
}

/// What one of the five signs of arithmetic makes of two numbers. None for another sign.
pub fn arithmetic(sign: BinarySign, m: i64, n: i64) -> Option<i64>
    ensures { MatchOption result (spec.over_numbers sign m n ≡ spec.compared sign m n)
        (λ k. spec.over_numbers sign m n ≡ Value.Int k) }
{
    match sign {
        BinarySign::Plus => Some(m.saturating_add(n)),
        BinarySign::Minus => Some(m.saturating_sub(n)),
        BinarySign::Times => Some(m.saturating_mul(n)),
        BinarySign::Over => Some(quotient(m, n)),
        BinarySign::Rest => Some(remainder(m, n)),
        _ => None,
    }
}

fn compared(sign: BinarySign, m: i64, n: i64) -> Value
    ensures { result ≡ spec.compared sign m n }
{
    match sign {
        BinarySign::Greater => Value::Bool(m > n),
        BinarySign::GreaterEqual => Value::Bool(m >= n),
        BinarySign::Less => Value::Bool(m < n),
        BinarySign::LessEqual => Value::Bool(m <= n),
        _ => Value::Bool(false),
    }
}

fn quotient(m: i64, n: i64) -> i64
    ensures { Value.Int result ≡ spec.quotient_of m n }
{
    if n == 0 {
        return 0;
    }
    match m.checked_div(n) {
        Some(number) => number,
        None => i64::MAX,
    }
}

fn remainder(m: i64, n: i64) -> i64
    ensures { Value.Int result ≡ spec.rest_of m n }
{
    if n == 0 {
        return 0;
    }
    m.wrapping_rem(n)
}

fn plus(alloc: Global, left: &Value, right: &Value) -> Result<Value, AllocError>
    ensures { IfOk result (λ value. value ≡ spec.sum_of left.now right.now) }
{
    match sum_of_numbers(left, right) {
        Some(number) => Ok(Value::Int(number)),
        None => Ok(Value::Text(joined_text(alloc, left, right)?)),
    }
}

fn sum_of_numbers(left: &Value, right: &Value) -> Option<i64>
    ensures { result ≡ spec.number_sum left.now right.now }
{
    match (left, right) {
        (Value::Int(m), Value::Int(n)) => Some(m.saturating_add(*n)),
        _ => None,
    }
}

fn joined_text(alloc: Global, left: &Value, right: &Value) -> Result<Text, AllocError>
    ensures { IfOk result (λ text. text ≡ spec.joined (spec.shown left.now) (spec.shown right.now)) }
{
    let left = shown_text(alloc, left)?;
    let right = shown_text(alloc, right)?;
    let both = cut(alloc, left.as_str(), right.as_str())?;
    match Text::from_string(both) {
        Some(text) => Ok(text),
        None => unreachable!(),
    }
}

fn cut(alloc: Global, left: &str, right: &str) -> Result<String, AllocError>
    ensures text { IfOk result (λ both. string_bytes both ≡ spec.joined left.now right.now) }
    ensures short { IfOk result (λ both. length (chars (string_bytes both)) ≤ 4096) }
{
    joined_front(alloc, left, right)
}

fn joined_front(alloc: Global, left: &str, right: &str) -> Result<String, AllocError>
    ensures { IfOk result (λ both. string_bytes both ≡ spec.joined left.now right.now) }
{
    left.chars().chain(right.chars()).take(4096).collect(alloc)
}

fn shown_text(alloc: Global, value: &Value) -> Result<String, AllocError>
    ensures { IfOk result (λ text. string_bytes text ≡ spec.shown value.now) }
{
    match value {
        Value::Int(number) => {
            let number = *number;
            format!(in alloc; "{number}")
        }
        Value::Bool(true) => String::from_str(alloc, "true"),
        Value::Bool(false) => String::from_str(alloc, "false"),
        Value::Text(text) => String::from_str(alloc, text.as_str()),
        _ => Ok(String::new(alloc)),
    }
}
