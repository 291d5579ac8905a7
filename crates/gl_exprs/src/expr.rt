// Expressions.
ghost use Rattle.std.specs.Prelude.{◌≡◌, length, IfOk};
ghost use Rattle.gl_base.specs.Answers.{Gives};
ghost use Rattle.gl_ast.specs.Template.{exprs_of, named_of};
ghost use Rattle.gl_ast.specs.View.{expr_view, named_view};
ghost use Rattle.gl_exprs.specs.Fault.{Fails};
ghost use Rattle.gl_exprs.specs.ReadExpr as read;

use crate::Misread;
use crate::cursor::Cursor;
use crate::name::{name, stands_name};
use crate::operand::operand;
use gl_ast::{Expr, Exprs, NamedExpr, Names, Pairs, Str, TokenKind};
use std::alloc::{AllocError, Global};

/// How deep calls in parentheses may nest in a template or an expression.
pub const DEEPEST_CALLS: u32 = 16;

/// The arguments of a call, the positional ones and the named ones.
#[derive(Drop)]
pub struct Given {
    pub args: Exprs,
    pub named: Pairs,
}

// Whether a name and `=` come next.
#[tactic(auto, unfolding(crate::specs::ReadExpr::stands_named))]
fn stands_named(tokens: &Cursor) -> bool
    ensures { result ≡ read.stands_named tokens.now }
{
    stands_name(tokens) && tokens.ahead().stands(TokenKind::Equals)
}

// Whether the first token of an expression comes next, and no name before `=`.
#[tactic(auto, unfolding(crate::specs::ReadExpr::starts_expr))]
fn starts_expr(tokens: &Cursor) -> bool
    ensures { result ≡ read.starts_expr tokens.now }
{
    (tokens.stands(TokenKind::Path)
        || tokens.stands(TokenKind::Number)
        || tokens.stands(TokenKind::StringLit)
        || tokens.stands(TokenKind::OpenParen))
        && !stands_named(tokens)
}

/// An expression, where so many calls may nest.
#[cycle(calls)]
#[tactic(auto, unfolding(crate::specs::ReadExpr::read_expr))]
pub fn expr(alloc: Global, tokens: &mut Cursor, calls: u32) -> Result<Expr, Misread>
    ensures { Gives Fails (λ e. (expr_view e, tokens.new)) result (read.read_expr calls tokens.old) }
{
    if calls == 0 || !tokens.stands(TokenKind::OpenParen) {
        return operand(alloc, tokens);
    }
    call(alloc, tokens, calls - 1)
}

// A call in parentheses, in which so many calls may nest.
#[cycle(calls)]
#[tactic(auto, unfolding(crate::specs::ReadExpr::read_call))]
fn call(alloc: Global, tokens: &mut Cursor, calls: u32) -> Result<Expr, Misread>
    ensures { Gives Fails (λ e. (expr_view e, tokens.new)) result (read.read_call (read.read_expr calls) tokens.old) }
{
    let _ = tokens.take(TokenKind::OpenParen)?;
    let name = name(alloc, tokens)?;
    let given = arguments(alloc, tokens, calls)?;
    let _ = tokens.take(TokenKind::CloseParen)?;
    Ok(Expr::Call {
        name,
        args: given.args,
        named: Box::new(alloc, given.named)?,
    })
}

/// Positional arguments, then named ones, as many as come next, in which so many calls may nest.
#[cycle(calls)]
#[tactic(auto, unfolding(crate::specs::ReadExpr::read_arguments))]
pub fn arguments(alloc: Global, tokens: &mut Cursor, calls: u32) -> Result<Given, Misread>
    ensures { Gives Fails (λ g. ((exprs_of g.args, named_of g.named), tokens.new)) result (read.read_arguments (read.read_expr calls) tokens.old) }
{
    let args = exprs(alloc, tokens, calls)?;
    let named = pairs(alloc, tokens, calls)?;
    Ok(Given { args, named })
}

/// Expressions one after another, as many as come next, in each of which so many calls may nest.
#[cycle(calls)]
pub fn exprs(alloc: Global, tokens: &mut Cursor, calls: u32) -> Result<Exprs, Misread>
    ensures { Gives Fails (λ es. (es, tokens.new)) result (read.read_exprs (read.read_expr calls) (length tokens.old) tokens.old) }
{
    let mut list = Exprs::new(alloc);
    while starts_expr(tokens) {
        let next = expr(alloc, tokens, calls)?;
        list.push(next)?;
    }
    Ok(list)
}

// Expressions, each after its name and `=`.
#[cycle(calls)]
fn pairs(alloc: Global, tokens: &mut Cursor, calls: u32) -> Result<Pairs, Misread>
    ensures { Gives Fails (λ ns. (ns, tokens.new)) result (read.read_named (read.read_expr calls) (length tokens.old) tokens.old) }
{
    let mut list = Pairs::new(alloc);
    while stands_name(tokens) {
        let next = pair(alloc, tokens, calls)?;
        list.push(next)?;
    }
    Ok(list)
}

// An expression after its name and `=`.
#[cycle(calls)]
#[tactic(auto, unfolding(crate::specs::ReadExpr::read_pair))]
fn pair(alloc: Global, tokens: &mut Cursor, calls: u32) -> Result<NamedExpr, Misread>
    ensures { Gives Fails (λ p. (named_view p, tokens.new)) result (read.read_pair (read.read_expr calls) tokens.old) }
{
    let name = name(alloc, tokens)?;
    let _ = tokens.take(TokenKind::Equals)?;
    let value = expr(alloc, tokens, calls)?;
    Ok(NamedExpr { name, value })
}

// A name with arguments is a call, and a lone name is bare.
fn called(alloc: Global, name: Str, given: Given) -> Result<Expr, AllocError>
    ensures { IfOk result (λ e. expr_view e ≡ read.called name (exprs_of given.args) (named_of given.named)) }
{
    if given.args.is_empty() && given.named.is_empty() {
        Ok(Expr::Bare {
            name,
            rest: Names::new(alloc),
        })
    } else {
        Ok(Expr::Call {
            name,
            args: given.args,
            named: Box::new(alloc, given.named)?,
        })
    }
}

// A name with arguments, and no parentheses.
#[tactic(auto, unfolding(crate::specs::ReadExpr::read_called))]
fn read_called(alloc: Global, tokens: &mut Cursor) -> Result<Expr, Misread>
    ensures { Gives Fails (λ e. (expr_view e, tokens.new)) result (read.read_called tokens.old) }
{
    let name = name(alloc, tokens)?;
    let given = arguments(alloc, tokens, DEEPEST_CALLS)?;
    Ok(called(alloc, name, given)?)
}

// What stands in a mustache.
#[tactic(auto, unfolding(crate::specs::ReadExpr::read_inner))]
fn inner(alloc: Global, tokens: &mut Cursor) -> Result<Expr, Misread>
    ensures { Gives Fails (λ e. (expr_view e, tokens.new)) result (read.read_inner tokens.old) }
{
    if stands_name(tokens) {
        read_called(alloc, tokens)
    } else {
        expr(alloc, tokens, DEEPEST_CALLS)
    }
}

/// A mustache: `{{`, an expression or a name with arguments, `}}`.
#[tactic(auto, unfolding(crate::specs::ReadExpr::read_mustache))]
pub fn mustache(alloc: Global, tokens: &mut Cursor) -> Result<Expr, Misread>
    ensures { Gives Fails (λ e. (expr_view e, tokens.new)) result (read.read_mustache tokens.old) }
{
    let _ = tokens.take(TokenKind::OpenMustache)?;
    let inside = inner(alloc, tokens)?;
    let _ = tokens.take(TokenKind::CloseMustache)?;
    Ok(inside)
}
