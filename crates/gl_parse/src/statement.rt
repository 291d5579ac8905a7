// Statements without another in them.
ghost use Rattle.std.specs.Prelude.{◌≡◌, IfOk, IsTrue};
ghost use Rattle.gl_base.specs.Answers.{Gives};
ghost use Rattle.gl_base.specs.Texts.{is_ascii_text};
ghost use Rattle.gl_ast.specs.View.{stmt_view};
ghost use Rattle.gl_exprs.specs.Fault.{Fails};
ghost use Rattle.gl_parse.specs.ReadStmt.{stands_opened, read_target, read_yield, read_flat};

use gl_ast::{Slice, Stmt, Str, TokenKind};
use gl_exprs::expr::{DEEPEST_CALLS, exprs, mustache};
use gl_exprs::name::is_block_name;
use gl_exprs::words::{comment_of, string_of};
use gl_exprs::{Cursor, Misread, decoded};
use std::alloc::{AllocError, Global};

/// Whether `{{` and this word of ASCII come next.
#[tactic(auto, unfolding(crate::specs::ReadStmt::stands_opened))]
pub fn stands_opened(tokens: &Cursor, word: &str) -> bool
    requires { IsTrue (is_ascii_text word.now) }
    ensures { result ≡ stands_opened word.now tokens.now }
{
    tokens.stands(TokenKind::OpenMustache) && tokens.ahead().stands_word(word)
}

/// A text of ASCII.
#[tactic(auto, using(gl_base::proofs::Chars::chars_of_ascii))]
pub fn ascii(alloc: Global, word: &str) -> Result<Str, AllocError>
    requires { IsTrue (is_ascii_text word.now) }
    ensures { IfOk result (λ t. t ≡ word.now) }
{
    Str::from_str(alloc, word)
}

// The block that a yield names, which is `default` where it is not written.
#[tactic(auto, unfolding(crate::specs::ReadStmt::read_target))]
fn target(alloc: Global, tokens: &mut Cursor) -> Result<Str, Misread>
    ensures { Gives Fails (λ n. (n, tokens.new)) result (read_target tokens.old) }
{
    if tokens.stands_word("to") {
        tokens.take_word("to")?;
        tokens.take(TokenKind::Equals)?;
        let raw = tokens.take(TokenKind::StringLit)?;
        let name = string_of(alloc, raw)?;
        if !is_block_name(&Slice::of(&name)) {
            return Err(Misread::NotSpelled);
        }
        Ok(name)
    } else {
        Ok(ascii(alloc, "default")?)
    }
}

// `{{`, the word yield, values, the name of a block, `}}`.
#[tactic(auto, unfolding(crate::specs::ReadStmt::read_yield))]
fn yielding(alloc: Global, tokens: &mut Cursor) -> Result<Stmt, Misread>
    ensures { Gives Fails (λ s. (stmt_view s, tokens.new)) result (read_yield tokens.old) }
{
    tokens.take(TokenKind::OpenMustache)?;
    tokens.take_word("yield")?;
    let values = exprs(alloc, tokens, DEEPEST_CALLS)?;
    let to = target(alloc, tokens)?;
    tokens.take(TokenKind::CloseMustache)?;
    Ok(Stmt::Yield { values, to })
}

/// A statement without another in it: a text, a comment, a yield or a mustache.
#[tactic(auto, unfolding(crate::specs::ReadStmt::read_flat))]
pub fn flat(alloc: Global, tokens: &mut Cursor) -> Result<Stmt, Misread>
    ensures { Gives Fails (λ s. (stmt_view s, tokens.new)) result (read_flat tokens.old) }
{
    if tokens.stands(TokenKind::Text) {
        let raw = tokens.take(TokenKind::Text)?;
        return Ok(Stmt::Text(decoded(alloc, raw)?));
    }
    if tokens.stands(TokenKind::HtmlComment) {
        let raw = tokens.take(TokenKind::HtmlComment)?;
        return Ok(Stmt::Comment(comment_of(alloc, raw)?));
    }
    if stands_opened(tokens, "yield") {
        return yielding(alloc, tokens);
    }
    Ok(Stmt::Put(mustache(alloc, tokens)?))
}
