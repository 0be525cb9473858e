//! Expressions with some operands known, and expressions as texts.
ghost use Rattle.std.specs.Prelude.{◌≡◌, ◌≤◌, ◌<◌, ℕ, IfOk, IsTrue, List, [], length, take, None, slice_index_or};
ghost use Rattle.fx_base.specs.declared.values.Value.{Value as Content};
ghost use Rattle.fx_base.specs.declared.values.Value.TheVariants as value;
ghost use Rattle.fx_expr.specs.declared.tree.BinarySign.TheVariants as binary;
ghost use Rattle.fx_expr.specs.Tree.{tree, is_within, Leaf, Two};
ghost use Rattle.fx_expr.specs.Meaning.{mean};
ghost use Rattle.fx_expr.specs.Filling.{filled, filled_operand, merged, unknowns};

use crate::tree::{BinarySign, Expr, Parsed};
use fx_base::{Text, Value};
use std::alloc::{AllocError, Global};

/// The expression with the known values as constants and the other operands numbered anew in their order.
/// There is one entry for each path.
pub fn fill(alloc: Global, parsed: Parsed, known: Vec<Option<Value>>) -> Result<Expr, AllocError>
    requires entries { length known.items ≡ length parsed.paths }
    requires places { IsTrue (is_within (tree parsed.expr) (length known.items)) }
    ensures filled { IfOk result (λ e. tree e ≡ filled known.items (tree parsed.expr)) }
    ensures within { IfOk result (λ e. IsTrue (is_within (tree e) (unknowns known.items))) }
    ensures meaning { IfOk result (λ e. (left : List Content) → length left ≡ unknowns known.items
        → mean (tree e) left ≡ mean (tree parsed.expr) (merged known.items left)) }
{
    let Parsed { expr, paths: _ } = parsed;
    filled_with(alloc, expr, known.as_slice())
}

/// The expression with the known values in it. Where none is known it stays as it is.
#[tactic(auto, using(crate::proofs::FillingLemmas::none_filled))]
fn filled_with(alloc: Global, expr: Expr, known: &[Option<Value>]) -> Result<Expr, AllocError>
    requires { IsTrue (is_within (tree expr) (length known.now)) }
    ensures { IfOk result (λ e. tree e ≡ filled known.now (tree expr)) }
{
    if count_unknown(known) == known.len() {
        return Ok(expr);
    }
    filled_in(alloc, expr, known)
}

fn filled_in(alloc: Global, expr: Expr, known: &[Option<Value>]) -> Result<Expr, AllocError>
    requires { IsTrue (is_within (tree expr) (length known.now)) }
    ensures { IfOk result (λ e. tree e ≡ filled known.now (tree expr)) }
{
    match expr {
        Expr::Const(value) => Ok(Expr::Const(value)),
        Expr::Operand(place) => operand(alloc, place, known),
        Expr::Unary(sign, inner) => {
            let inner = filled_in(alloc, Box::into_inner(inner), known)?;
            Ok(Expr::Unary(sign, Box::new(alloc, inner)?))
        }
        Expr::Binary(sign, left, right) => {
            let left = filled_in(alloc, Box::into_inner(left), known)?;
            let right = filled_in(alloc, Box::into_inner(right), known)?;
            let left = Box::new(alloc, left)?;
            Ok(Expr::Binary(sign, left, Box::new(alloc, right)?))
        }
    }
}

fn operand(alloc: Global, place: usize, known: &[Option<Value>]) -> Result<Expr, AllocError>
    requires { place < length known.now }
    ensures { IfOk result (λ e. tree e ≡ filled_operand (slice_index_or known.now place None)
        (unknowns (take place known.now))) }
{
    match &known[place] {
        Some(value) => Ok(Expr::Const(value.copy(alloc)?)),
        None => Ok(Expr::Operand(count_unknown(&known[..place]))),
    }
}

fn count_unknown(known: &[Option<Value>]) -> usize
    ensures { result ≡ unknowns known.now }
{
    known.iter().filter(|value| value.is_none()).count()
}

/// The expression as a text: `'' + (e)`.
pub fn as_text(alloc: Global, expr: Expr) -> Result<Expr, AllocError>
    ensures { IfOk result (λ e. tree e ≡ Two binary.Plus (Leaf (value.Text [])) (tree expr)) }
{
    let empty = Expr::Const(Value::Text(Text::new(alloc)));
    let left = Box::new(alloc, empty)?;
    Ok(Expr::Binary(BinarySign::Plus, left, Box::new(alloc, expr)?))
}
