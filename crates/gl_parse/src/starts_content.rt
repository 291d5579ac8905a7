// What a token leaves due in the content, and in the heads of blocks, as in a mustache.
ghost use Rattle.std.specs.Prelude.{◌≡◌, ◌&&◌, IfOk, IsTrue, length, nat_le};
ghost use Rattle.gl_base.specs.Texts.{is_ascii_text};
ghost use Rattle.gl_ast.specs.TokenText.{parameters_of};
ghost use Rattle.gl_ast.specs.declared.token.TokenKind.TheVariants as k;
ghost use Rattle.gl_exprs.specs.Take.{same_kind};
ghost use Rattle.gl_parse.specs.Due as d;
ghost use Rattle.gl_parse.specs.Dues.{seen, Meets, stop_view, word_text};

use crate::due::{Due, Stop, Word};
use crate::stack::due;
use crate::starts::{inner, is_word, one};
use crate::starts_tag::{name_in, opening};
use gl_ast::{Token, TokenKind};
use gl_exprs::expr::DEEPEST_CALLS;
use gl_exprs::words::{is_end_of, parameters_of};
use std::alloc::{AllocError, Global};

/// The word itself.
pub fn text_of(word: Word) -> &'static str
    ensures value { result.now ≡ word_text word }
    ensures ascii { IsTrue (is_ascii_text result.now) }
{
    match word {
        Word::If => "if",
        Word::Unless => "unless",
        Word::Each => "each",
        Word::Let => "let",
    }
}

// Whether the end tag is the one that ends the statements.
fn is_end(stop: Stop, token: &Token) -> bool
    ensures { result ≡ d.is_end_of (stop_view stop.entry) token.now }
{
    match stop {
        Stop::Tag(opening) => is_end_of(&token.text, &name_in(opening)),
        _ => false,
    }
}

// The end of a block, where it ends the statements.
fn takes_closing(list: &mut Vec<Due>, stop: Stop) -> Result<bool, AllocError>
    ensures { Meets result (d.takes_closing (stop_view stop.entry)) (seen list.old.items) (seen list.new.items) }
{
    match stop {
        Stop::Block(word, _) => {
            due(list, Due::Kind(TokenKind::CloseMustache))?;
            due(list, Due::Word(word))?;
            Ok(true)
        }
        _ => Ok(false),
    }
}

// Whether the token is a statement, or a comment that gives none.
fn is_flat(token: &Token) -> bool
    ensures { result ≡ d.is_flat token.now }
{
    matches!(
        token.kind,
        TokenKind::Text | TokenKind::HtmlComment | TokenKind::MustacheComment
    )
}

// A block or a tag, where one may stand.
#[tactic(auto, unfolding(crate::specs::Due::starts_nested), using(crate::proofs::Meeting::meeting))]
fn nested<'a>(
    list: &mut Vec<Due<'a>>,
    depth: u32,
    stop: Stop<'a>,
    token: &'a Token<'a>,
) -> Result<bool, AllocError>
    ensures { Meets result (d.starts_nested depth (stop_view stop.entry) token.now) (seen list.old.items) (seen list.new.items) }
{
    if depth == 0 {
        return Ok(false);
    }
    due(list, Due::Content(depth, stop))?;
    if token.kind == TokenKind::OpenBlock {
        due(list, Due::Head(depth - 1))?;
        return Ok(true);
    }
    opening(list, depth - 1, &token.text)
}

/// A token of the content.
#[tactic(auto, unfolding(crate::specs::Due::starts_content), using(crate::proofs::Meeting::meeting))]
pub fn content<'a>(
    list: &mut Vec<Due<'a>>,
    depth: u32,
    stop: Stop<'a>,
    token: &'a Token<'a>,
) -> Result<bool, AllocError>
    ensures { Meets result (d.starts_content depth (stop_view stop.entry) token.now) (seen list.old.items) (seen list.new.items) }
{
    if is_flat(token) {
        due(list, Due::Content(depth, stop))?;
        return Ok(true);
    }
    if token.kind == TokenKind::OpenMustache {
        due(list, Due::Opened(depth, stop))?;
        return Ok(true);
    }
    if token.kind == TokenKind::OpenBlock || token.kind == TokenKind::TagOpening {
        return nested(list, depth, stop, token);
    }
    if token.kind == TokenKind::EndTag {
        return Ok(is_end(stop, token));
    }
    if token.kind == TokenKind::OpenClosing {
        return takes_closing(list, stop);
    }
    Ok(false)
}

// The word else.
fn takes_else<'a>(list: &mut Vec<Due<'a>>, depth: u32, stop: Stop<'a>) -> Result<bool, AllocError>
    ensures { Meets result (d.takes_else depth (stop_view stop.entry)) (seen list.old.items) (seen list.new.items) }
{
    match stop {
        Stop::Block(word, true) => {
            due(list, Due::AfterElse(depth, word))?;
            Ok(true)
        }
        _ => Ok(false),
    }
}

/// The token after `{{` in the content.
#[tactic(auto, unfolding(crate::specs::Due::starts_opened), using(crate::proofs::Meeting::meeting))]
pub fn opened<'a>(
    alloc: Global,
    list: &mut Vec<Due<'a>>,
    depth: u32,
    stop: Stop<'a>,
    token: &Token,
) -> Result<bool, AllocError>
    ensures { Meets result (d.starts_opened depth (stop_view stop.entry) token.now) (seen list.old.items) (seen list.new.items) }
{
    if is_word("else", token) {
        return takes_else(list, depth, stop);
    }
    due(list, Due::Content(depth, stop))?;
    if is_word("yield", token) {
        due(list, Due::Values)?;
        return Ok(true);
    }
    inner(alloc, list, token)
}

// What is due after the word if or unless, in a block that this word closes.
fn test_head(list: &mut Vec<Due>, depth: u32, word: Word) -> Result<bool, AllocError>
    ensures { Meets result (d.test_head depth (word_text word)) (seen list.old.items) (seen list.new.items) }
{
    due(list, Due::Content(depth, Stop::Block(word, true)))?;
    due(list, Due::Kind(TokenKind::CloseMustache))?;
    due(list, Due::Expr(DEEPEST_CALLS))?;
    Ok(true)
}

fn each_head(list: &mut Vec<Due>, depth: u32, word: Word) -> Result<bool, AllocError>
    ensures { Meets result (d.each_head depth (word_text word)) (seen list.old.items) (seen list.new.items) }
{
    due(list, Due::EachKey(depth, Stop::Block(word, true)))?;
    due(list, Due::Expr(DEEPEST_CALLS))?;
    Ok(true)
}

fn let_head(list: &mut Vec<Due>, depth: u32, word: Word) -> Result<bool, AllocError>
    ensures { Meets result (d.let_head depth (word_text word)) (seen list.old.items) (seen list.new.items) }
{
    due(list, Due::FirstValue(depth, Stop::Block(word, false)))?;
    Ok(true)
}

/// The word after `{{#`.
#[tactic(auto, unfolding(crate::specs::Due::starts_head), using(crate::proofs::Meeting::meeting))]
pub fn head(list: &mut Vec<Due>, depth: u32, token: &Token) -> Result<bool, AllocError>
    ensures { Meets result (d.starts_head depth token.now) (seen list.old.items) (seen list.new.items) }
{
    if is_word("if", token) {
        return test_head(list, depth, Word::If);
    }
    if is_word("unless", token) {
        return test_head(list, depth, Word::Unless);
    }
    if is_word("each", token) {
        return each_head(list, depth, Word::Each);
    }
    if is_word("let", token) {
        return let_head(list, depth, Word::Let);
    }
    Ok(false)
}

// The word after else, in a block that another word closes.
#[tactic(auto, unfolding(crate::specs::Due::starts_chained), using(crate::proofs::Meeting::meeting))]
fn chained(list: &mut Vec<Due>, word: Word, depth: u32, token: &Token) -> Result<bool, AllocError>
    ensures { Meets result (d.starts_chained (word_text word) depth token.now) (seen list.old.items) (seen list.new.items) }
{
    if is_word("if", token) || is_word("unless", token) {
        return test_head(list, depth, word);
    }
    if is_word("each", token) {
        return each_head(list, depth, word);
    }
    if is_word("let", token) {
        return let_head(list, depth, word);
    }
    Ok(false)
}

/// The token after else.
#[tactic(auto, unfolding(crate::specs::Due::starts_after_else), using(crate::proofs::Meeting::meeting))]
pub fn after_else(
    list: &mut Vec<Due>,
    depth: u32,
    word: Word,
    token: &Token,
) -> Result<bool, AllocError>
    ensures { Meets result (d.starts_after_else depth (word_text word) token.now) (seen list.old.items) (seen list.new.items) }
{
    if token.kind == TokenKind::CloseMustache {
        due(list, Due::Content(depth, Stop::Block(word, false)))?;
        return Ok(true);
    }
    if depth == 0 {
        return Ok(false);
    }
    chained(list, word, depth - 1, token)
}

/// The first value of a let.
#[tactic(auto, unfolding(crate::specs::Due::starts_first), using(crate::proofs::Meeting::meeting))]
pub fn first_value<'a>(
    alloc: Global,
    list: &mut Vec<Due<'a>>,
    depth: u32,
    stop: Stop<'a>,
    token: &Token,
) -> Result<bool, AllocError>
    ensures { Meets result (d.starts_first depth (stop_view stop.entry) token.now) (seen list.old.items) (seen list.new.items) }
{
    due(list, Due::MoreValues(depth, stop))?;
    one(alloc, list, DEEPEST_CALLS, token)
}

/// A token after the first value of a let.
#[tactic(auto, unfolding(crate::specs::Due::starts_more), using(crate::proofs::Meeting::meeting))]
pub fn more_values<'a>(
    alloc: Global,
    list: &mut Vec<Due<'a>>,
    depth: u32,
    stop: Stop<'a>,
    token: &Token,
) -> Result<bool, AllocError>
    ensures { Meets result (d.starts_more depth (stop_view stop.entry) token.now) (seen list.old.items) (seen list.new.items) }
{
    if token.kind == TokenKind::CloseMustache {
        due(list, Due::Content(depth, stop))?;
        return Ok(true);
    }
    if token.kind == TokenKind::Parameters {
        due(list, Due::Content(depth, stop))?;
        due(list, Due::Kind(TokenKind::CloseMustache))?;
        return Ok(true);
    }
    due(list, Due::MoreValues(depth, stop))?;
    one(alloc, list, DEEPEST_CALLS, token)
}

// Whether the token has two parameters at most.
fn are_two(alloc: Global, token: &Token) -> Result<bool, AllocError>
    ensures { IfOk result (λ b. b ≡ (same_kind token.now.kind k.Parameters && nat_le (length (parameters_of token.now.text)) 2)) }
{
    if token.kind != TokenKind::Parameters {
        return Ok(false);
    }
    Ok(parameters_of(alloc, &token.text)?.len() <= 2)
}

/// The parameters of an each, or the end of its head.
#[tactic(auto, unfolding(crate::specs::Due::starts_each_parameters), using(crate::proofs::Meeting::meeting))]
pub fn each_parameters<'a>(
    alloc: Global,
    list: &mut Vec<Due<'a>>,
    depth: u32,
    stop: Stop<'a>,
    token: &Token,
) -> Result<bool, AllocError>
    ensures { Meets result (d.starts_each_parameters depth (stop_view stop.entry) token.now) (seen list.old.items) (seen list.new.items) }
{
    if token.kind == TokenKind::CloseMustache {
        due(list, Due::Content(depth, stop))?;
        return Ok(true);
    }
    if !are_two(alloc, token)? {
        return Ok(false);
    }
    due(list, Due::Content(depth, stop))?;
    due(list, Due::Kind(TokenKind::CloseMustache))?;
    Ok(true)
}

/// The key of an each, or what stands after it.
#[tactic(auto, unfolding(crate::specs::Due::starts_key), using(crate::proofs::Meeting::meeting))]
pub fn each_key<'a>(
    alloc: Global,
    list: &mut Vec<Due<'a>>,
    depth: u32,
    stop: Stop<'a>,
    token: &Token,
) -> Result<bool, AllocError>
    ensures { Meets result (d.starts_key depth (stop_view stop.entry) token.now) (seen list.old.items) (seen list.new.items) }
{
    if is_word("key", token) {
        due(list, Due::EachParameters(depth, stop))?;
        due(list, Due::Kind(TokenKind::StringLit))?;
        due(list, Due::Kind(TokenKind::Equals))?;
        return Ok(true);
    }
    each_parameters(alloc, list, depth, stop, token)
}
