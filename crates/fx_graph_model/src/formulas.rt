//! Expressions of bindings. The property graph keeps one for each bound name.
ghost use Rattle.std.specs.Prelude.{◌≡◌, IfOk};
ghost use Rattle.fx_expr.specs.Tree.{tree};

use fx_expr::Expr;
use std::alloc::{AllocError, Global};
use std::marker::Model;

/// An expression, of which contracts see the tree, wherever its parts lie in memory. So two bindings of one tree are
/// one definition. It stands in memory of its own, since few properties are bound, and the graph's entry of every other
/// property would have room for it.
#[derive(Drop)]
pub struct Formula {
    expr: Box<Expr>,
}

impl Model for Formula {
    ghost use Rattle.fx_expr.specs.Tree.{Tree, tree};
    ghost use Rattle.fx_graph_model.specs.Formulas.{coded_tree};

    ghost Value = { Tree };

    ghost coded = { coded_tree };

    ghost view = { λ f. tree f.expr.value };
}

impl Formula {
    /// The formula of this expression.
    pub fn new(alloc: Global, expr: Expr) -> Result<Formula, AllocError>
        ensures { IfOk result (λ formula. formula ≡ tree expr) }
    {
        Ok(Formula {
            expr: Box::new(alloc, expr)?,
        })
    }

    /// Lends the expression.
    pub fn as_expr(&self) -> &Expr
        ensures { tree result.now ≡ self.now }
    {
        &self.expr
    }

    /// A formula of the same tree.
    pub fn copy(&self, alloc: Global) -> Result<Formula, AllocError>
        ensures { IfOk result (λ copy. copy ≡ self.now) }
    {
        Formula::new(alloc, self.as_expr().copy(alloc)?)
    }
}
