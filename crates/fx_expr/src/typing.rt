//! The kind of an expression.
ghost use Rattle.std.specs.Prelude.{◌≡◌, IsTrue, length};
ghost use Rattle.std.specs.Result.{result_ok};
ghost use Rattle.fx_expr.specs.Tree.{tree, is_within};
ghost use Rattle.fx_expr.specs.Typing.{kind_in, unary_kind, binary_kind, sum_kind, numeric_kind, same_kind, truth_kind};

use crate::tree::{BinarySign, Expr, UnarySign};
use fx_base::Kind;
use thiserror::Error;

/// Why an expression has no kind.
#[derive(Debug, Drop, Error, PartialEq)]
pub enum KindError {
    /// A sign is given what it doesn't take.
    #[error("a sign is given a kind that it doesn't take")]
    Mismatch,
}

/// The kind of the expression over operands of these kinds.
pub fn type_of(expr: &Expr, kinds: &[Kind]) -> Result<Kind, KindError>
    requires { IsTrue (is_within (tree expr.now) (length kinds.now)) }
    ensures { result_ok result ≡ kind_in (tree expr.now) kinds.now }
{
    match expr {
        Expr::Const(value) => Ok(value.kind()),
        Expr::Operand(place) => Ok(kinds[*place]),
        Expr::Unary(sign, inner) => {
            let inner = type_of(inner, kinds)?;
            unary(*sign, inner).ok_or(KindError::Mismatch)
        }
        Expr::Binary(sign, left, right) => {
            let left = type_of(left, kinds)?;
            let right = type_of(right, kinds)?;
            binary(*sign, left, right).ok_or(KindError::Mismatch)
        }
    }
}

fn unary(sign: UnarySign, kind: Kind) -> Option<Kind>
    ensures { result ≡ unary_kind sign kind }
{
    match (sign, kind) {
        (UnarySign::Minus, Kind::Int) => Some(Kind::Int),
        (UnarySign::Not, Kind::Bool) => Some(Kind::Bool),
        _ => None,
    }
}

fn binary(sign: BinarySign, left: Kind, right: Kind) -> Option<Kind>
    ensures { result ≡ binary_kind sign left right }
{
    match sign {
        BinarySign::Or | BinarySign::And => of_truths(left, right),
        BinarySign::Equal | BinarySign::Differ => of_same(left, right),
        BinarySign::Plus => of_sum(left, right),
        BinarySign::Greater | BinarySign::GreaterEqual | BinarySign::Less | BinarySign::LessEqual =>
            of_numbers(Kind::Bool, left, right),
        BinarySign::Minus | BinarySign::Times | BinarySign::Over | BinarySign::Rest => {
            of_numbers(Kind::Int, left, right)
        }
    }
}

fn of_truths(left: Kind, right: Kind) -> Option<Kind>
    ensures { result ≡ truth_kind left right }
{
    match (left, right) {
        (Kind::Bool, Kind::Bool) => Some(Kind::Bool),
        _ => None,
    }
}

fn of_same(left: Kind, right: Kind) -> Option<Kind>
    ensures { result ≡ same_kind left right }
{
    match (left, right) {
        (Kind::Int, Kind::Int) => Some(Kind::Bool),
        (Kind::Bool, Kind::Bool) => Some(Kind::Bool),
        (Kind::Text, Kind::Text) => Some(Kind::Bool),
        _ => None,
    }
}

fn of_sum(left: Kind, right: Kind) -> Option<Kind>
    ensures { result ≡ sum_kind left right }
{
    match (left, right) {
        (Kind::Int, Kind::Int) => Some(Kind::Int),
        (Kind::Int, Kind::Text) => Some(Kind::Text),
        (Kind::Bool, Kind::Text) => Some(Kind::Text),
        (Kind::Text, Kind::Int) => Some(Kind::Text),
        (Kind::Text, Kind::Bool) => Some(Kind::Text),
        (Kind::Text, Kind::Text) => Some(Kind::Text),
        _ => None,
    }
}

fn of_numbers(answer: Kind, left: Kind, right: Kind) -> Option<Kind>
    ensures { result ≡ numeric_kind answer left right }
{
    match (left, right) {
        (Kind::Int, Kind::Int) => Some(answer),
        _ => None,
    }
}
