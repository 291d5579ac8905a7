// Values of attributes and arguments.
ghost use Rattle.std.specs.Prelude.{◌≡◌, length};
ghost use Rattle.gl_base.specs.Answers.{Gives};
ghost use Rattle.gl_ast.specs.View.{attr_view, expr_view};
ghost use Rattle.gl_ast.specs.declared.token.TokenKind.TheVariants as k;
ghost use Rattle.gl_exprs.specs.Fault.{Fails};
ghost use Rattle.gl_parse.specs.ReadValue as read;
ghost use Rattle.gl_exprs.specs.Take.{stands, read_many, with_front};

use gl_ast::{AttrValue, Expr, Exprs, Lit, Str, TokenKind};
use gl_exprs::expr::mustache;
use gl_exprs::{Cursor, Misread, decoded};
use std::alloc::Global;

// A text, and after it the quote that closes the value.
#[tactic(auto, unfolding(crate::specs::ReadValue::stands_plain))]
fn stands_plain(tokens: &Cursor) -> bool
    ensures { result ≡ read.stands_plain tokens.now }
{
    tokens.stands(TokenKind::Text) && tokens.ahead().stands(TokenKind::CloseQuote)
}

// A value that is a text.
#[tactic(auto, unfolding(crate::specs::ReadValue::read_fixed))]
fn fixed(alloc: Global, tokens: &mut Cursor, kind: TokenKind) -> Result<AttrValue, Misread>
    ensures { Gives Fails (λ a. (attr_view a, tokens.new)) result (read.read_fixed kind tokens.old) }
{
    let raw = tokens.take(kind)?;
    Ok(AttrValue::Fixed(decoded(alloc, raw)?))
}

// A text of a quoted value.
#[tactic(auto, unfolding(crate::specs::ReadValue::read_quoted_text))]
fn quoted_text(alloc: Global, tokens: &mut Cursor) -> Result<Expr, Misread>
    ensures { Gives Fails (λ e. (expr_view e, tokens.new)) result (read.read_quoted_text tokens.old) }
{
    let raw = tokens.take(TokenKind::Text)?;
    Ok(Expr::Lit(Lit::Str(decoded(alloc, raw)?)))
}

// Whether a text or a mustache of a quoted value comes next.
#[tactic(auto, unfolding(crate::specs::ReadValue::starts_quoted))]
fn starts_quoted(tokens: &Cursor) -> bool
    ensures { result ≡ read.starts_quoted tokens.now }
{
    tokens.stands(TokenKind::Text) || tokens.stands(TokenKind::OpenMustache)
}

// A text or a mustache of a quoted value.
#[tactic(auto, unfolding(crate::specs::ReadValue::read_quoted))]
fn quoted(alloc: Global, tokens: &mut Cursor) -> Result<Expr, Misread>
    ensures { Gives Fails (λ e. (expr_view e, tokens.new)) result (read.read_quoted tokens.old) }
{
    if tokens.stands(TokenKind::Text) {
        quoted_text(alloc, tokens)
    } else {
        mustache(alloc, tokens)
    }
}

// The texts that come next.
fn quoted_texts(alloc: Global, tokens: &mut Cursor) -> Result<Exprs, Misread>
    ensures { Gives Fails (λ es. (es, tokens.new)) result (read_many (stands k.Text) read.read_quoted_text (length tokens.old) tokens.old) }
{
    let mut list = Exprs::new(alloc);
    while tokens.stands(TokenKind::Text) {
        let next = quoted_text(alloc, tokens)?;
        list.push(next)?;
    }
    Ok(list)
}

// Adds the texts and mustaches that come next.
fn add_quoted(alloc: Global, tokens: &mut Cursor, list: &mut Exprs) -> Result<(), Misread>
    ensures { Gives Fails (λ _. (list.new, tokens.new)) result (with_front list.old (read_many read.starts_quoted read.read_quoted (length tokens.old) tokens.old)) }
{
    while starts_quoted(tokens) {
        let next = quoted(alloc, tokens)?;
        list.push(next)?;
    }
    Ok(())
}

// A value of texts and mustaches.
#[tactic(auto, unfolding(crate::specs::ReadValue::read_cat))]
fn cat(alloc: Global, tokens: &mut Cursor) -> Result<AttrValue, Misread>
    ensures { Gives Fails (λ a. (attr_view a, tokens.new)) result (read.read_cat tokens.old) }
{
    let mut list = quoted_texts(alloc, tokens)?;
    let first = mustache(alloc, tokens)?;
    list.push(first)?;
    add_quoted(alloc, tokens, &mut list)?;
    Ok(AttrValue::Live(Box::new(alloc, Expr::Cat(list))?))
}

// What stands between quotes.
#[tactic(auto, unfolding(crate::specs::ReadValue::read_between))]
fn between(alloc: Global, tokens: &mut Cursor) -> Result<AttrValue, Misread>
    ensures { Gives Fails (λ a. (attr_view a, tokens.new)) result (read.read_between tokens.old) }
{
    if tokens.stands(TokenKind::CloseQuote) {
        Ok(AttrValue::Fixed(Str::new(alloc)))
    } else if stands_plain(tokens) {
        fixed(alloc, tokens, TokenKind::Text)
    } else {
        cat(alloc, tokens)
    }
}

// A value in quotes.
#[tactic(auto, unfolding(crate::specs::ReadValue::read_quote))]
fn quote(alloc: Global, tokens: &mut Cursor) -> Result<AttrValue, Misread>
    ensures { Gives Fails (λ a. (attr_view a, tokens.new)) result (read.read_quote tokens.old) }
{
    let _ = tokens.take(TokenKind::OpenQuote)?;
    let inside = between(alloc, tokens)?;
    let _ = tokens.take(TokenKind::CloseQuote)?;
    Ok(inside)
}

// A value.
#[tactic(auto, unfolding(crate::specs::ReadValue::read_value))]
fn any_value(alloc: Global, tokens: &mut Cursor) -> Result<AttrValue, Misread>
    ensures { Gives Fails (λ a. (attr_view a, tokens.new)) result (read.read_value tokens.old) }
{
    if tokens.stands(TokenKind::Unquoted) {
        fixed(alloc, tokens, TokenKind::Unquoted)
    } else if tokens.stands(TokenKind::OpenMustache) {
        let shown = mustache(alloc, tokens)?;
        Ok(AttrValue::Live(Box::new(alloc, shown)?))
    } else {
        quote(alloc, tokens)
    }
}

/// `=` and a value; without them the empty text.
#[tactic(auto, unfolding(crate::specs::ReadValue::read_given))]
pub fn given(alloc: Global, tokens: &mut Cursor) -> Result<AttrValue, Misread>
    ensures { Gives Fails (λ a. (attr_view a, tokens.new)) result (read.read_given tokens.old) }
{
    if tokens.stands(TokenKind::Equals) {
        let _ = tokens.take(TokenKind::Equals)?;
        any_value(alloc, tokens)
    } else {
        Ok(AttrValue::Fixed(Str::new(alloc)))
    }
}
