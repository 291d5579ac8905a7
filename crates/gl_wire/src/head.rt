// The calls of the expression that a path begins with.
ghost use Rattle.std.specs.Prelude.{◌≡◌, IfOk};
ghost use Rattle.gl_wire.specs.View.{expr_view};

use crate::{Head, WireExpr};
use std::alloc::{AllocError, Global};

impl Head {
    /// The head that is this expression.
    pub fn new(alloc: Global, expr: WireExpr) -> Result<Head, AllocError>
        ensures { IfOk result (λ h. h ≡ expr_view expr) }
    {
        let expr = Box::new(alloc, expr)?;
        Ok(Head { expr })
    }

    pub fn expr(&self) -> &WireExpr
        ensures { expr_view result.now ≡ self.now }
    {
        &self.expr
    }
}
