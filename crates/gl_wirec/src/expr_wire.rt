// The wire's form of expressions.
ghost use Rattle.std.specs.Prelude.{◌≡◌, ◌∷◌, ℕ, false, IfOk};
ghost use Rattle.gl_base.specs.Names.{has_text};
ghost use Rattle.gl_ast.specs.Template.{exprs_of, named_of};
ghost use Rattle.gl_ast.specs.View.{expr_view};
ghost use Rattle.gl_wire.specs.Symbols.{place_of};
ghost use Rattle.gl_wire.specs.View as wire;
ghost use Rattle.gl_wire.specs.Wire as w;
ghost use Rattle.gl_wire.specs.WireOf.{followed, path_of, places_of, expr_wire, exprs_wire, named_wire};

use crate::mentions::marked;
use crate::names::Names;
use gl_ast::{Expr, Exprs, Lit, Pairs};
use gl_value::{Text, Texts};
use gl_wire::{Head, Symbols, WireExpr, WireExprs, WirePair, WirePairs};
use std::alloc::{AllocError, Global};

fn copy_literal(literal: &Lit) -> Result<Lit, AllocError>
    ensures { IfOk result (λ l. l ≡ literal.now) }
{
    match literal {
        Lit::Undefined => Ok(Lit::Undefined),
        Lit::Null => Ok(Lit::Null),
        Lit::Bool(b) => Ok(Lit::Bool(*b)),
        Lit::Int(number) => Ok(Lit::Int(*number)),
        Lit::Str(text) => Ok(Lit::Str(text.copy()?)),
    }
}

fn copy_texts(alloc: Global, texts: &Texts) -> Result<Texts, AllocError>
    ensures { IfOk result (λ t. t ≡ texts.now) }
{
    let mut copies = Texts::new(alloc);
    for text in texts.as_slice() {
        copies.push(text.copy()?)?;
    }
    Ok(copies)
}

/// The places of names among the symbols.
pub fn places_of(alloc: Global, symbols: &Names, names: &Texts) -> Result<Symbols, AllocError>
    ensures { IfOk result (λ p. p ≡ places_of symbols.now names.now) }
{
    let mut places = Symbols::new(alloc);
    for name in names.as_slice() {
        places.push(symbols.place(name)?)?;
    }
    Ok(places)
}

// The expression with the segments that follow it, where there are any.
fn followed(alloc: Global, first: WireExpr, rest: &Texts) -> Result<WireExpr, AllocError>
    ensures { IfOk result (λ e. wire.expr_view e ≡ followed (wire.expr_view first) rest.now) }
{
    match rest.as_slice() {
        [] => Ok(first),
        _ => {
            let of = Head::new(alloc, first)?;
            let rest = copy_texts(alloc, rest)?;
            Ok(WireExpr::Get { of, rest })
        }
    }
}

fn call_alone(alloc: Global, name: &Text) -> Result<WireExpr, AllocError>
    ensures { IfOk result (λ e. wire.expr_view e ≡ w.call name.now w.no_exprs w.no_named) }
{
    Ok(WireExpr::Call {
        name: name.copy()?,
        args: WireExprs::new(alloc),
        named: Box::new(alloc, WirePairs::new(alloc))?,
    })
}

// A path that begins with a name that isn't in scope.
fn free_path(alloc: Global, whole: bool, name: &Text, rest: &Texts) -> Result<WireExpr, AllocError>
    ensures { IfOk result (λ e. (place : ℕ) → wire.expr_view e ≡ path_of false whole place name.now rest.now) }
{
    if whole && rest.len() == 0 {
        return call_alone(alloc, name);
    }
    followed(alloc, WireExpr::Free(name.copy()?), rest)
}

// A path that begins with a name.
fn path_of(
    alloc: Global,
    symbols: &Names,
    scope: &Names,
    whole: bool,
    name: &Text,
    rest: &Texts,
) -> Result<WireExpr, AllocError>
    ensures { IfOk result (λ e. wire.expr_view e ≡ path_of (has_text name.now scope.now) whole (place_of symbols.now name.now) name.now rest.now) }
{
    if scope.has(name) {
        followed(alloc, WireExpr::Sym(symbols.place(name)?), rest)
    } else {
        free_path(alloc, whole, name, rest)
    }
}

fn argument_path(
    alloc: Global,
    symbols: &Names,
    name: &Text,
    rest: &Texts,
) -> Result<WireExpr, AllocError>
    ensures { IfOk result (λ e. wire.expr_view e ≡ followed (w.symbol (place_of symbols.now (64 ∷ name.now))) rest.now) }
{
    let name = marked(alloc, name)?;
    followed(alloc, WireExpr::Sym(symbols.place(&name)?), rest)
}

#[cycle(expression)]
fn call_wire(
    alloc: Global,
    symbols: &Names,
    scope: &Names,
    name: &Text,
    args: &Exprs,
    named: &Pairs,
) -> Result<WireExpr, AllocError>
    ensures { IfOk result (λ e. wire.expr_view e ≡ w.call name.now (exprs_wire symbols.now scope.now false (exprs_of args.now)) (named_wire symbols.now scope.now (named_of named.now))) }
{
    Ok(WireExpr::Call {
        name: name.copy()?,
        args: exprs_wire(alloc, symbols, scope, false, args)?,
        named: Box::new(alloc, named_wire(alloc, symbols, scope, named)?)?,
    })
}

/// The wire's form of an expression, by the symbols and the parameters in scope, and whether it is a whole mustache.
#[cycle(expression)]
pub fn expr_wire(
    alloc: Global,
    symbols: &Names,
    scope: &Names,
    whole: bool,
    expr: &Expr,
) -> Result<WireExpr, AllocError>
    ensures { IfOk result (λ e. wire.expr_view e ≡ expr_wire symbols.now scope.now whole (expr_view expr.now)) }
{
    match expr {
        Expr::Lit(literal) => Ok(WireExpr::Lit(copy_literal(literal)?)),
        Expr::This { member, rest } => followed(alloc, WireExpr::This(member.copy()?), rest),
        Expr::Arg { name, rest } => argument_path(alloc, symbols, name, rest),
        Expr::Bare { name, rest } => path_of(alloc, symbols, scope, whole, name, rest),
        Expr::Call { name, args, named } => call_wire(alloc, symbols, scope, name, args, &**named),
        Expr::Cat(parts) => Ok(WireExpr::Cat(exprs_wire(alloc, symbols, scope, true, parts)?)),
    }
}

/// The wire's form of expressions.
#[cycle(expression)]
pub fn exprs_wire(
    alloc: Global,
    symbols: &Names,
    scope: &Names,
    whole: bool,
    exprs: &Exprs,
) -> Result<WireExprs, AllocError>
    ensures { IfOk result (λ l. w.exprs_of l ≡ exprs_wire symbols.now scope.now whole (exprs_of exprs.now)) }
{
    let mut list = WireExprs::new(alloc);
    for item in exprs.as_slice() {
        list.push(expr_wire(alloc, symbols, scope, whole, item)?)?;
    }
    Ok(list)
}

/// The wire's form of named expressions.
#[cycle(expression)]
pub fn named_wire(
    alloc: Global,
    symbols: &Names,
    scope: &Names,
    pairs: &Pairs,
) -> Result<WirePairs, AllocError>
    ensures { IfOk result (λ l. w.named_of l ≡ named_wire symbols.now scope.now (named_of pairs.now)) }
{
    let mut list = WirePairs::new(alloc);
    for pair in pairs.as_slice() {
        let name = pair.name.copy()?;
        let value = expr_wire(alloc, symbols, scope, false, &pair.value)?;
        list.push(WirePair { name, value })?;
    }
    Ok(list)
}
