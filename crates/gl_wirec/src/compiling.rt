// The wire of a template, and of an expression.
ghost use Rattle.std.specs.Prelude.{◌≡◌, [], IfOk};
ghost use Rattle.gl_ast.specs.Template.{body_of};
ghost use Rattle.gl_ast.specs.View.{expr_view};
ghost use Rattle.gl_wire.specs.Symbols.{symbols_of};
ghost use Rattle.gl_wire.specs.View.{wire_view, expr_wire_view};
ghost use Rattle.gl_wire.specs.WireOf.{wire_of, expr_wire_of};

use crate::body_mentions::note_body;
use crate::expr_wire::expr_wire;
use crate::mentions::note_expr;
use crate::names::Names;
use crate::stmt_wire::body_wire;
use gl_ast::{Body, Expr, Template};
use gl_value::Texts;
use gl_wire::{ExprWire, Wire};
use std::alloc::{AllocError, Global};

// The symbols of statements.
fn symbols_of(alloc: Global, body: &Body) -> Result<Names, AllocError>
    ensures { IfOk result (λ n. n ≡ symbols_of (body_of body.now)) }
{
    let mut symbols = Names::new(alloc);
    note_body(alloc, body, &mut symbols)?;
    Ok(symbols)
}

/// The wire of a template. It takes time in proportion to the template. Want of memory alone fails.
pub fn compile(alloc: Global, template: &Template) -> Result<Wire, AllocError>
    ensures { IfOk result (λ w. wire_view w ≡ wire_of (body_of template.now.body)) }
{
    let symbols = symbols_of(alloc, template.body())?;
    let mut scope = Names::new(alloc);
    let body = body_wire(alloc, &symbols, &mut scope, template.body())?;
    Ok(Wire::new(symbols.to_texts(alloc)?, body))
}

/// The wire of an expression by itself, where these parameters are in scope. Want of memory alone fails.
pub fn expression(alloc: Global, expr: &Expr, params: &Texts) -> Result<ExprWire, AllocError>
    ensures { IfOk result (λ w. expr_wire_view w ≡ expr_wire_of params.now (expr_view expr.now)) }
{
    let mut scope = Names::new(alloc);
    scope.add_all(alloc, params)?;
    let mut names = Names::new(alloc);
    note_expr(alloc, &scope, expr, &mut names)?;
    let value = expr_wire(alloc, &names, &scope, false, expr)?;
    let symbols = names.to_texts(alloc)?;
    Ok(ExprWire { symbols, value })
}
