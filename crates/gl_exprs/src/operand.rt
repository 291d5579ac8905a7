// Expressions of one token.
ghost use Rattle.std.specs.Prelude.{◌≡◌, ◌∷◌, IfOk, is_some, option_map};
ghost use Rattle.gl_base.specs.Answers.{Gives};
ghost use Rattle.gl_ast.specs.View.{expr_view, lit_view};
ghost use Rattle.gl_ast.specs.TokenText.{names_of};
ghost use Rattle.gl_exprs.specs.Fault.{Fails};
ghost use Rattle.gl_exprs.specs.ReadExpr as read;

use crate::Misread;
use crate::cursor::Cursor;
use crate::name::{is_argument, is_reserved, is_text};
use crate::number::whole_of;
use crate::path::{Path, names_of};
use crate::words::{string_of, without_first};
use gl_ast::{Expr, Lit, Names, Slice, Token, TokenKind};
use std::alloc::{AllocError, Global};

// The constant that a word stands for.
#[tactic(auto, unfolding(crate::specs::ReadExpr::constant_of))]
fn constant_of(name: &Slice) -> Option<Lit>
    ensures { option_map lit_view result ≡ read.constant_of name.now }
{
    if is_text(name, "true") {
        Some(Lit::Bool(true))
    } else if is_text(name, "false") {
        Some(Lit::Bool(false))
    } else if is_text(name, "null") {
        Some(Lit::Null)
    } else if is_text(name, "undefined") {
        Some(Lit::Undefined)
    } else {
        None
    }
}

// The path of these names after `this`.
fn this_path(rest: Names) -> Result<Expr, Misread>
    ensures { Gives Fails expr_view result (read.this_path rest) }
{
    let mut list = rest.into_vec();
    if list.is_empty() {
        return Err(Misread::NotSpelled);
    }
    let member = list.remove(0);
    list.shrink_to_fit();
    Ok(Expr::This {
        member,
        rest: Names::from_vec(list),
    })
}

// The constant of a word that no names follow.
fn constant_path(name: &Slice, rest: &Names) -> Result<Expr, Misread>
    ensures { Gives Fails expr_view result (read.constant_path name.now rest.now) }
{
    if rest.len() != 0 {
        return Err(Misread::NotSpelled);
    }
    match constant_of(name) {
        Some(lit) => Ok(Expr::Lit(lit)),
        None => Err(Misread::NotSpelled),
    }
}

// The expression that a path's names are.
#[tactic(auto, unfolding(crate::specs::ReadExpr::path_expr))]
fn path_expr(alloc: Global, path: Path) -> Result<Expr, Misread>
    ensures { Gives Fails expr_view result (read.path_expr (path.head ∷ path.rest)) }
{
    let Path { head, rest } = path;
    let name = Slice::of(&head);
    if is_argument(&name) {
        return Ok(Expr::Arg {
            name: without_first(alloc, &name)?,
            rest,
        });
    }
    if is_text(&name, "this") {
        return this_path(rest);
    }
    if is_reserved(&name) {
        return constant_path(&name, &rest);
    }
    Ok(Expr::Bare { name: head, rest })
}

// The expression that a path is.
fn whole_path(alloc: Global, token: &Token) -> Result<Expr, Misread>
    ensures { Gives Fails expr_view result (read.path_expr (names_of token.now.text)) }
{
    let path = names_of(alloc, &token.text)?;
    path_expr(alloc, path)
}

// The expression that one token is.
#[tactic(auto, unfolding(crate::specs::ReadExpr::token_expr))]
fn token_expr(alloc: Global, token: &Token) -> Result<Expr, Misread>
    ensures { Gives Fails expr_view result (read.token_expr token.now.kind token.now.text) }
{
    if token.kind == TokenKind::Path {
        whole_path(alloc, token)
    } else if token.kind == TokenKind::Number {
        match whole_of(&token.text) {
            Some(number) => Ok(Expr::Lit(Lit::Int(number))),
            None => Err(Misread::NotSpelled),
        }
    } else if token.kind == TokenKind::StringLit {
        Ok(Expr::Lit(Lit::Str(string_of(alloc, &token.text)?)))
    } else {
        Err(Misread::NotSpelled)
    }
}

/// Whether the token is an expression.
pub fn is_operand(alloc: Global, token: &Token) -> Result<bool, AllocError>
    ensures { IfOk result (λ b. b ≡ is_some (read.token_expr token.now.kind token.now.text)) }
{
    match token_expr(alloc, token) {
        Ok(_) => Ok(true),
        Err(Misread::NotSpelled) => Ok(false),
        Err(Misread::Memory) => Err(AllocError),
    }
}

/// An expression of one token.
#[tactic(auto, unfolding(crate::specs::ReadExpr::read_token))]
pub fn operand(alloc: Global, tokens: &mut Cursor) -> Result<Expr, Misread>
    ensures { Gives Fails (λ e. (expr_view e, tokens.new)) result (read.read_token tokens.old) }
{
    match tokens.first() {
        Some(token) => {
            *tokens = tokens.ahead();
            token_expr(alloc, token)
        }
        None => Err(Misread::NotSpelled),
    }
}
