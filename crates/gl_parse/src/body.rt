// Statements with others in them, and bodies.
ghost use Rattle.std.specs.Prelude.{◌≡◌};
ghost use Rattle.gl_base.specs.Answers.{Gives};
ghost use Rattle.gl_ast.specs.Grammar.{is_silent};
ghost use Rattle.gl_ast.specs.Template.{body_of, slots_of};
ghost use Rattle.gl_ast.specs.View.{stmt_view, slot_view};
ghost use Rattle.gl_exprs.specs.Fault.{Fails};
ghost use Rattle.gl_parse.specs.ReadStmt.{is_end, stands_silent, read_body, read_tag, read_slot, read_slots, read_filling, read_block, read_block_with, read_else, read_nested, read_stmt, read_chained};

use crate::block::{Front, open_block, take_closing};
use crate::names::NameSet;
use crate::slot::{SlotOpening, open_slot, skip_gaps, stands_next, stands_slot};
use crate::statement::{flat, stands_opened};
use crate::tag::{open_tag, take_end_of, take_end_tag};
use gl_ast::{Block, Body, EachHead, Slot, Slots, Stmt, Token, TokenKind};
use gl_exprs::{Cursor, Misread};
use std::alloc::Global;

/// How deep elements and blocks may nest.
pub const DEEPEST_NESTING: u32 = 100;

// Whether the token gives no statement: a mustache comment, or a text of which nothing is left.
fn is_silent(token: &Token) -> bool
    ensures { result ≡ is_silent token.now }
{
    match token.kind {
        TokenKind::MustacheComment => true,
        TokenKind::Text => token.text.is_empty(),
        _ => false,
    }
}

// Whether the next token gives no statement.
fn stands_silent(tokens: &Cursor) -> bool
    ensures { result ≡ stands_silent tokens.now }
{
    match tokens.first() {
        Some(token) => is_silent(token),
        None => false,
    }
}

// Whether a body ends here.
#[tactic(auto, unfolding(crate::specs::ReadStmt::ends_body))]
fn is_end(tokens: &Cursor) -> bool
    ensures { result ≡ is_end tokens.now }
{
    tokens.is_empty()
        || tokens.stands(TokenKind::EndTag)
        || tokens.stands(TokenKind::OpenClosing)
        || stands_opened(tokens, "else")
}

/// Statements up to where a body ends, where elements and blocks may nest so deep.
#[cycle(nesting)]
pub fn body(alloc: Global, tokens: &mut Cursor, depth: u32) -> Result<Body, Misread>
    ensures { Gives Fails (λ b. (body_of b, tokens.new)) result (read_body (read_stmt depth) tokens.old) }
{
    let mut list = Body::new(alloc);
    while !is_end(tokens) {
        if stands_silent(tokens) {
            *tokens = tokens.ahead();
        } else {
            list.push(statement(alloc, tokens, depth)?)?;
        }
    }
    Ok(list)
}

#[cycle(nesting)]
fn statement(alloc: Global, tokens: &mut Cursor, depth: u32) -> Result<Stmt, Misread>
    ensures { Gives Fails (λ s. (stmt_view s, tokens.new)) result (read_stmt depth tokens.old) }
{
    if depth > 0 {
        return nested(alloc, tokens, depth - 1);
    }
    flat(alloc, tokens)
}

// A statement, where elements and blocks may nest so deep in it.
#[cycle(nesting)]
#[tactic(auto, unfolding(crate::specs::ReadStmt::read_nested))]
fn nested(alloc: Global, tokens: &mut Cursor, depth: u32) -> Result<Stmt, Misread>
    ensures { Gives Fails (λ s. (stmt_view s, tokens.new)) result (read_nested (read_body (read_stmt depth)) (read_filling depth) (read_block_with (read_stmt depth) (read_chained depth)) tokens.old) }
{
    if tokens.stands(TokenKind::OpenBlock) {
        return block(alloc, tokens, depth);
    }
    if tokens.stands(TokenKind::TagOpening) {
        return tag(alloc, tokens, depth);
    }
    flat(alloc, tokens)
}

// An element or a component.
#[cycle(nesting)]
#[tactic(auto, unfolding(crate::specs::ReadStmt::read_tag, crate::specs::ReadStmt::read_after_opening, crate::specs::ReadStmt::read_content, crate::specs::ReadStmt::read_filled, crate::specs::ReadStmt::read_tagged))]
fn tag(alloc: Global, tokens: &mut Cursor, depth: u32) -> Result<Stmt, Misread>
    ensures { Gives Fails (λ s. (stmt_view s, tokens.new)) result (read_tag (read_body (read_stmt depth)) (read_filling depth) tokens.old) }
{
    let opening = open_tag(alloc, tokens)?;
    if tokens.stands(TokenKind::SelfEnd) {
        tokens.take(TokenKind::SelfEnd)?;
        return Ok(opening.into_empty(alloc)?);
    }
    tokens.take(TokenKind::TagEnd)?;
    if opening.is_void() {
        return Ok(opening.into_empty(alloc)?);
    }
    if opening.takes_slots() && stands_next(tokens) {
        let slots = filling(alloc, tokens, depth)?;
        take_end_tag(tokens, opening.name())?;
        return Ok(opening.into_filled(alloc, slots)?);
    }
    let body = body(alloc, tokens, depth)?;
    take_end_tag(tokens, opening.name())?;
    Ok(opening.into_full(alloc, body)?)
}

// Blocks that are passed, where such may stand.
#[cycle(nesting)]
fn filling(alloc: Global, tokens: &mut Cursor, depth: u32) -> Result<Slots, Misread>
    ensures { Gives Fails (λ ss. (slots_of ss, tokens.new)) result (read_filling depth tokens.old) }
{
    if depth > 0 {
        return slots(alloc, tokens, depth - 1);
    }
    Err(Misread::NotSpelled)
}

// Blocks that are passed, each of another name, and the gaps round them.
#[cycle(nesting)]
fn slots(alloc: Global, tokens: &mut Cursor, depth: u32) -> Result<Slots, Misread>
    ensures { Gives Fails (λ ss. (slots_of ss, tokens.new)) result (read_slots (read_body (read_stmt depth)) tokens.old) }
{
    let mut list = Slots::new(alloc);
    let mut names = NameSet::new(alloc);
    skip_gaps(tokens);
    while stands_slot(tokens) {
        let next = slot(alloc, tokens, depth)?;
        if !names.add(alloc, next.name.as_str())? {
            return Err(Misread::NotSpelled);
        }
        list.push(next)?;
        skip_gaps(tokens);
    }
    Ok(list)
}

// A block that is passed.
#[cycle(nesting)]
#[tactic(auto, unfolding(crate::specs::ReadStmt::read_slot))]
fn slot(alloc: Global, tokens: &mut Cursor, depth: u32) -> Result<Slot, Misread>
    ensures { Gives Fails (λ s. (slot_view s, tokens.new)) result (read_slot (read_body (read_stmt depth)) tokens.old) }
{
    let opening = open_slot(alloc, tokens)?;
    let body = body(alloc, tokens, depth)?;
    take_end_of(tokens, &opening.label)?;
    let SlotOpening { name, params, .. } = opening;
    Ok(Slot {
        name,
        block: Block { params, body },
    })
}

#[cycle(nesting)]
#[tactic(auto, unfolding(crate::specs::ReadStmt::read_block))]
fn block(alloc: Global, tokens: &mut Cursor, depth: u32) -> Result<Stmt, Misread>
    ensures { Gives Fails (λ s. (stmt_view s, tokens.new)) result (read_block (read_block_with (read_stmt depth) (read_chained depth)) tokens.old) }
{
    tokens.take(TokenKind::OpenBlock)?;
    let block = head(alloc, tokens, depth)?;
    take_closing(tokens, &block)?;
    Ok(block)
}

// A block from its word on, up to what closes it.
#[cycle(nesting)]
#[tactic(auto, unfolding(crate::specs::ReadStmt::read_block_with, crate::specs::ReadStmt::read_head, crate::specs::ReadStmt::read_opened, crate::specs::ReadStmt::read_after_body))]
fn head(alloc: Global, tokens: &mut Cursor, depth: u32) -> Result<Stmt, Misread>
    ensures { Gives Fails (λ s. (stmt_view s, tokens.new)) result (read_block_with (read_stmt depth) (read_chained depth) tokens.old) }
{
    let front = open_block(alloc, tokens)?;
    tokens.take(TokenKind::CloseMustache)?;
    let body = body(alloc, tokens, depth)?;
    match front {
        Front::If { test, unless } => {
            let otherwise = otherwise(alloc, tokens, depth)?;
            Ok(Stmt::If {
                test: Box::new(alloc, test)?,
                unless,
                body,
                otherwise,
            })
        }
        Front::Each { list, key, params } => {
            let otherwise = otherwise(alloc, tokens, depth)?;
            let head = EachHead { list, key, params };
            Ok(Stmt::Each {
                head: Box::new(alloc, head)?,
                body,
                otherwise,
            })
        }
        Front::Let { values, params } => Ok(Stmt::Let {
            values,
            params,
            body,
        }),
    }
}

// An else, if there is one.
#[cycle(nesting)]
#[tactic(auto, unfolding(crate::specs::ReadStmt::read_else, crate::specs::ReadStmt::read_after_else, crate::specs::ReadStmt::read_opened))]
fn otherwise(alloc: Global, tokens: &mut Cursor, depth: u32) -> Result<Body, Misread>
    ensures { Gives Fails (λ b. (body_of b, tokens.new)) result (read_else (read_body (read_stmt depth)) (read_chained depth) tokens.old) }
{
    let mut list = Body::new(alloc);
    if !stands_opened(tokens, "else") {
        return Ok(list);
    }
    tokens.take(TokenKind::OpenMustache)?;
    tokens.take_word("else")?;
    if tokens.stands(TokenKind::CloseMustache) {
        tokens.take(TokenKind::CloseMustache)?;
        return body(alloc, tokens, depth);
    }
    list.push(chained(alloc, tokens, depth)?)?;
    Ok(list)
}

// The block that is the head of an else.
#[cycle(nesting)]
fn chained(alloc: Global, tokens: &mut Cursor, depth: u32) -> Result<Stmt, Misread>
    ensures { Gives Fails (λ s. (stmt_view s, tokens.new)) result (read_chained depth tokens.old) }
{
    if depth > 0 {
        return head(alloc, tokens, depth - 1);
    }
    Err(Misread::NotSpelled)
}
