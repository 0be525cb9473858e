//! Reading an expression.
ghost use Rattle.std.specs.Prelude.{◌≡◌, IfOk, IsTrue, length};
ghost use Rattle.std.specs.Str.{chars};
ghost use Rattle.fx_expr.specs.Reading.{reading_of};
ghost use Rattle.fx_expr.specs.Tree.{is_within, tree};
ghost use Rattle.fx_scene_bindings.specs.Bindings.{Reads};

use fx_expr::{ExprError, Parsed, read_expr};
use std::alloc::Global;

/// The expression that the text is, or why it is none.
pub(crate) fn read(alloc: Global, text: &str) -> Result<Parsed, ExprError>
    ensures reads { Reads (reading_of (chars text.now)) result }
    ensures within { IfOk result (λ p. IsTrue (is_within (tree p.expr) (length p.paths))) }
{
    read_expr(alloc, text)
}
