// What a token leaves due in a mustache or an expression. Each function answers whether the token can stand there, and
// puts what is due after it in front of the list.
ghost use Rattle.std.specs.Prelude.{◌≡◌, ◌&&◌, IfOk, IsTrue};
ghost use Rattle.gl_ast.specs.TokenText.{string_of, is_block_name};
ghost use Rattle.gl_ast.specs.declared.token.TokenKind.TheVariants as k;
ghost use Rattle.gl_exprs.specs.Take.{same_kind};
ghost use Rattle.gl_base.specs.Texts.{is_ascii_text};
ghost use Rattle.gl_parse.specs.Due as d;
ghost use Rattle.gl_parse.specs.Dues.{seen, Meets};

use crate::due::Due;
use crate::stack::due;
use gl_ast::{Slice, Token, TokenKind};
use gl_exprs::expr::DEEPEST_CALLS;
use gl_exprs::name::{is_block_name, is_lone, is_text};
use gl_exprs::operand::is_operand;
use gl_exprs::words::string_of;
use std::alloc::{AllocError, Global};

/// Whether the token is a path of one name that is not reserved.
pub fn is_lone_path(token: &Token) -> bool
    ensures { result ≡ d.is_lone_path token.now }
{
    token.kind == TokenKind::Path && is_lone(&token.text)
}

/// Whether it is a path that is this word of ASCII.
pub fn is_word(word: &str, token: &Token) -> bool
    requires { IsTrue (is_ascii_text word.now) }
    ensures { result ≡ d.is_path_word word.now token.now }
{
    token.kind == TokenKind::Path && is_text(&token.text, word)
}

fn after_paren(list: &mut Vec<Due>, calls: u32) -> Result<bool, AllocError>
    ensures { Meets result (d.after_paren calls) (seen list.old.items) (seen list.new.items) }
{
    if calls == 0 {
        return Ok(false);
    }
    due(list, Due::Called(calls - 1, TokenKind::CloseParen))?;
    Ok(true)
}

/// The first token of an expression in which so many calls may nest.
#[tactic(auto, unfolding(crate::specs::Due::starts_one), using(crate::proofs::Meeting::meeting))]
pub fn one(
    alloc: Global,
    list: &mut Vec<Due>,
    calls: u32,
    token: &Token,
) -> Result<bool, AllocError>
    ensures { Meets result (d.starts_one calls token.now) (seen list.old.items) (seen list.new.items) }
{
    if token.kind == TokenKind::OpenParen {
        return after_paren(list, calls);
    }
    is_operand(alloc, token)
}

/// A token of arguments up to a token of the kind `end`.
#[tactic(auto, unfolding(crate::specs::Due::starts_arguments), using(crate::proofs::Meeting::meeting))]
pub fn arguments(
    alloc: Global,
    list: &mut Vec<Due>,
    calls: u32,
    end: TokenKind,
    token: &Token,
) -> Result<bool, AllocError>
    ensures { Meets result (d.starts_arguments calls end token.now) (seen list.old.items) (seen list.new.items) }
{
    if token.kind == end {
        return Ok(true);
    }
    if is_lone_path(token) {
        due(list, Due::AfterName(calls, end))?;
        return Ok(true);
    }
    due(list, Due::Arguments(calls, end))?;
    one(alloc, list, calls, token)
}

/// The same after a name.
#[tactic(auto, unfolding(crate::specs::Due::starts_after_name), using(crate::proofs::Meeting::meeting))]
pub fn after_name(
    alloc: Global,
    list: &mut Vec<Due>,
    calls: u32,
    end: TokenKind,
    token: &Token,
) -> Result<bool, AllocError>
    ensures { Meets result (d.starts_after_name calls end token.now) (seen list.old.items) (seen list.new.items) }
{
    if token.kind == TokenKind::Equals {
        due(list, Due::Named(calls, end))?;
        due(list, Due::Expr(calls))?;
        return Ok(true);
    }
    arguments(alloc, list, calls, end, token)
}

/// A token of named arguments.
#[tactic(auto, unfolding(crate::specs::Due::starts_named), using(crate::proofs::Meeting::meeting))]
pub fn named(
    list: &mut Vec<Due>,
    calls: u32,
    end: TokenKind,
    token: &Token,
) -> Result<bool, AllocError>
    ensures { Meets result (d.starts_named calls end token.now) (seen list.old.items) (seen list.new.items) }
{
    if token.kind == end {
        return Ok(true);
    }
    if !is_lone_path(token) {
        return Ok(false);
    }
    due(list, Due::Named(calls, end))?;
    due(list, Due::Expr(calls))?;
    due(list, Due::Kind(TokenKind::Equals))?;
    Ok(true)
}

/// The name of a call.
#[tactic(auto, unfolding(crate::specs::Due::starts_called), using(crate::proofs::Meeting::meeting))]
pub fn called(
    list: &mut Vec<Due>,
    calls: u32,
    end: TokenKind,
    token: &Token,
) -> Result<bool, AllocError>
    ensures { Meets result (d.starts_called calls end token.now) (seen list.old.items) (seen list.new.items) }
{
    if !is_lone_path(token) {
        return Ok(false);
    }
    due(list, Due::Arguments(calls, end))?;
    Ok(true)
}

/// The first token of what stands in a mustache.
#[tactic(auto, unfolding(crate::specs::Due::starts_inner), using(crate::proofs::Meeting::meeting))]
pub fn inner(alloc: Global, list: &mut Vec<Due>, token: &Token) -> Result<bool, AllocError>
    ensures { Meets result (d.starts_inner token.now) (seen list.old.items) (seen list.new.items) }
{
    if is_lone_path(token) {
        due(
            list,
            Due::Arguments(DEEPEST_CALLS, TokenKind::CloseMustache),
        )?;
        return Ok(true);
    }
    due(list, Due::Kind(TokenKind::CloseMustache))?;
    one(alloc, list, DEEPEST_CALLS, token)
}

/// A token of a yield's expressions up to the end of its mustache.
#[tactic(auto, unfolding(crate::specs::Due::starts_values), using(crate::proofs::Meeting::meeting))]
pub fn values(alloc: Global, list: &mut Vec<Due>, token: &Token) -> Result<bool, AllocError>
    ensures { Meets result (d.starts_values token.now) (seen list.old.items) (seen list.new.items) }
{
    if token.kind == TokenKind::CloseMustache {
        return Ok(true);
    }
    if is_word("to", token) {
        due(list, Due::AfterTo)?;
        return Ok(true);
    }
    due(list, Due::Values)?;
    one(alloc, list, DEEPEST_CALLS, token)
}

/// The same after `to`.
#[tactic(auto, unfolding(crate::specs::Due::starts_after_to), using(crate::proofs::Meeting::meeting))]
pub fn after_to(alloc: Global, list: &mut Vec<Due>, token: &Token) -> Result<bool, AllocError>
    ensures { Meets result (d.starts_after_to token.now) (seen list.old.items) (seen list.new.items) }
{
    if token.kind == TokenKind::Equals {
        due(list, Due::Kind(TokenKind::CloseMustache))?;
        due(list, Due::Target)?;
        return Ok(true);
    }
    values(alloc, list, token)
}

/// Whether the token is a string that is the name of a block.
pub fn target(alloc: Global, token: &Token) -> Result<bool, AllocError>
    ensures { IfOk result (λ b. b ≡ (same_kind token.now.kind k.StringLit && is_block_name (string_of token.now.text))) }
{
    if token.kind != TokenKind::StringLit {
        return Ok(false);
    }
    let name = string_of(alloc, &token.text)?;
    Ok(is_block_name(&Slice::of(&name)))
}
