//! Evaluation, counted.
ghost use Rattle.std.specs.Prelude.{◌≡◌, ◌+◌, IfOk, IsTrue, length};
ghost use Rattle.fx_expr.specs.Tree.{tree, is_within};
ghost use Rattle.fx_expr.specs.Meaning.{mean};

use crate::meaning::value_of;
use crate::tree::Expr;
use fx_base::{Ledgers, Value, Work};
use std::alloc::{AllocError, Global};

/// The meaning of the expression over its operands, counted as one evaluation, also where memory runs out.
pub fn eval<L: Ledgers>(
    alloc: Global,
    expr: &Expr,
    operands: &[Value],
    work: &mut Work<L>,
) -> Result<Value, AllocError>
    requires { IsTrue (is_within (tree expr.now) (length operands.now)) }
    ensures value { IfOk result (λ value. value ≡ mean (tree expr.now) operands.now) }
    ensures work { work.new ≡ record work.old { evaluated = work.old.evaluated + 1 } }
{
    work.evaluated.tick();
    value_of(alloc, expr, operands)
}
