// What stands in a block round its body: its front and its end.
ghost use Rattle.std.specs.Prelude.{◌≡◌, IsTrue};
ghost use Rattle.gl_base.specs.Answers.{Gives};
ghost use Rattle.gl_base.specs.Texts.{is_ascii_text};
ghost use Rattle.gl_ast.specs.View.{expr_view, stmt_view};
ghost use Rattle.gl_exprs.specs.Fault.{Fails};
ghost use Rattle.gl_parse.specs.ReadStmt.{read_key, read_two, read_if, read_each, read_let, read_front, take_closing, word_of};
ghost use Rattle.gl_parse.specs.View.{front_view};

use crate::item::parameters;
use crate::statement::ascii;
use gl_ast::{Expr, Exprs, Names, Stmt, Str, TokenKind};
use gl_exprs::expr::{DEEPEST_CALLS, expr, exprs};
use gl_exprs::name::is_text;
use gl_exprs::words::string_of;
use gl_exprs::{Cursor, Misread};
use std::alloc::Global;

/// What stands in a block from its word up to its `}}`.
#[derive(Drop)]
pub enum Front {
    If { test: Expr, unless: bool },
    Each { list: Expr, key: Str, params: Names },
    Let { values: Exprs, params: Names },
}

// The key of an each, which is `@identity` where it is not written.
#[tactic(auto, unfolding(crate::specs::ReadStmt::read_key))]
fn key(alloc: Global, tokens: &mut Cursor) -> Result<Str, Misread>
    ensures { Gives Fails (λ k. (k, tokens.new)) result (read_key tokens.old) }
{
    if tokens.stands_word("key") {
        tokens.take_word("key")?;
        tokens.take(TokenKind::Equals)?;
        let raw = tokens.take(TokenKind::StringLit)?;
        Ok(string_of(alloc, raw)?)
    } else {
        Ok(ascii(alloc, "@identity")?)
    }
}

// At most two parameters.
#[tactic(auto, unfolding(crate::specs::ReadStmt::read_two))]
fn two(alloc: Global, tokens: &mut Cursor) -> Result<Names, Misread>
    ensures { Gives Fails (λ ns. (ns, tokens.new)) result (read_two tokens.old) }
{
    let names = parameters(alloc, tokens)?;
    if names.len() <= 2 {
        Ok(names)
    } else {
        Err(Misread::NotSpelled)
    }
}

// After the word of an if or unless.
#[tactic(auto, unfolding(crate::specs::ReadStmt::read_if))]
fn if_front(alloc: Global, tokens: &mut Cursor, unless: bool) -> Result<Front, Misread>
    ensures { Gives Fails (λ f. (front_view f, tokens.new)) result (read_if unless tokens.old) }
{
    let test = expr(alloc, tokens, DEEPEST_CALLS)?;
    Ok(Front::If { test, unless })
}

#[tactic(auto, unfolding(crate::specs::ReadStmt::read_each))]
fn each_front(alloc: Global, tokens: &mut Cursor) -> Result<Front, Misread>
    ensures { Gives Fails (λ f. (front_view f, tokens.new)) result (read_each tokens.old) }
{
    let list = expr(alloc, tokens, DEEPEST_CALLS)?;
    let key = key(alloc, tokens)?;
    let params = two(alloc, tokens)?;
    Ok(Front::Each { list, key, params })
}

// A let has at least one value.
#[tactic(auto, unfolding(crate::specs::ReadStmt::read_let))]
fn let_front(alloc: Global, tokens: &mut Cursor) -> Result<Front, Misread>
    ensures { Gives Fails (λ f. (front_view f, tokens.new)) result (read_let tokens.old) }
{
    let values = exprs(alloc, tokens, DEEPEST_CALLS)?;
    if values.is_empty() {
        return Err(Misread::NotSpelled);
    }
    let params = parameters(alloc, tokens)?;
    Ok(Front::Let { values, params })
}

/// A block from its word up to its `}}`.
#[tactic(auto, unfolding(crate::specs::ReadStmt::read_front))]
pub fn open_block(alloc: Global, tokens: &mut Cursor) -> Result<Front, Misread>
    ensures { Gives Fails (λ f. (front_view f, tokens.new)) result (read_front tokens.old) }
{
    let word = tokens.take(TokenKind::Path)?;
    if is_text(word, "if") {
        return if_front(alloc, tokens, false);
    }
    if is_text(word, "unless") {
        return if_front(alloc, tokens, true);
    }
    if is_text(word, "each") {
        return each_front(alloc, tokens);
    }
    if is_text(word, "let") {
        return let_front(alloc, tokens);
    }
    Err(Misread::NotSpelled)
}

// The word that closes the block.
fn word_of(block: &Stmt) -> &'static str
    ensures value { result.now ≡ word_of (stmt_view block.now) }
    ensures ascii { IsTrue (is_ascii_text result.now) }
{
    match block {
        Stmt::If { unless: true, .. } => "unless",
        Stmt::If { unless: false, .. } => "if",
        Stmt::Each { .. } => "each",
        _ => "let",
    }
}

/// The end of this block.
#[tactic(auto, unfolding(crate::specs::ReadStmt::take_closing))]
pub fn take_closing(tokens: &mut Cursor, block: &Stmt) -> Result<(), Misread>
    ensures { Gives Fails (λ _. tokens.new) result (take_closing (word_of (stmt_view block.now)) tokens.old) }
{
    tokens.take(TokenKind::OpenClosing)?;
    tokens.take_word(word_of(block))?;
    tokens.take(TokenKind::CloseMustache)?;
    Ok(())
}
