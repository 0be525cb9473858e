//! Whether an expression has all its operands.
ghost use Rattle.std.specs.Prelude.{◌≡◌};
ghost use Rattle.fx_expr.specs.Tree.{is_within, tree};

use fx_expr::Expr;

/// Is each operand of the expression one of so many?
pub fn has_operands(expr: &Expr, count: usize) -> bool
    ensures { result ≡ is_within (tree expr.now) count }
{
    match expr {
        Expr::Const(_) => true,
        Expr::Operand(place) => *place < count,
        Expr::Unary(_, inner) => has_operands(inner, count),
        Expr::Binary(_, left, right) => has_operands(left, count) && has_operands(right, count),
    }
}
