// The openings of blocks that are passed, and the gaps round such blocks.
ghost use Rattle.std.specs.Prelude.{◌≡◌, ◌∷◌, IfOk};
ghost use Rattle.std.specs.List.{list_all};
ghost use Rattle.gl_base.specs.Answers.{Gives};
ghost use Rattle.gl_ast.specs.Grammar.{is_gap, after_gaps};
ghost use Rattle.gl_ast.specs.Marks.{is_white};
ghost use Rattle.gl_exprs.specs.Fault.{Fails};
ghost use Rattle.gl_parse.specs.ReadStmt.{slot_name, is_slot_opening, stands_slot, stands_gap, stands_next, read_slot_opening};

use crate::item::parameters;
use crate::starts_tag::name_in;
use gl_ast::{Names, Slice, Str, Token, TokenKind};
use gl_exprs::{Cursor, Misread, Scan};
use std::alloc::Global;

/// What stands in the opening of a block that is passed. The label is the name with its `:`.
#[derive(Drop)]
pub struct SlotOpening<'a> {
    pub label: Scan<'a>,
    pub name: Str,
    pub params: Names,
}

// Whether all characters that are left are white space.
fn all_white(scan: &mut Scan) -> bool
    ensures { result ≡ list_all is_white scan.old }
{
    while let Some(c) = scan.next() {
        if !matches!(c, ' ' | '\t' | '\n' | '\x0c' | '\r') {
            return false;
        }
    }
    true
}

/// Whether the token gives nothing among blocks that are passed: a mustache comment, or a text of white space.
pub fn is_gap(token: &Token) -> bool
    ensures { result ≡ is_gap token.now }
{
    match token.kind {
        TokenKind::MustacheComment => true,
        TokenKind::Text => all_white(&mut Scan::new(&token.text)),
        _ => false,
    }
}

/// The name after `<:`, where these stand.
#[tactic(auto, unfolding(crate::specs::ReadStmt::slot_name, crate::specs::ReadStmt::opened_name))]
pub fn slot_name<'a>(opening: &Slice<'a>) -> Option<Scan<'a>>
    ensures { result ≡ slot_name opening.now }
{
    let mut scan = Scan::new(opening);
    if !matches!(scan.next(), Some('<')) {
        return None;
    }
    if !matches!(scan.next(), Some(':')) {
        return None;
    }
    Some(scan)
}

/// Whether the token opens a block that is passed.
pub fn is_slot_opening(token: &Token) -> bool
    ensures { result ≡ is_slot_opening token.now }
{
    token.kind == TokenKind::TagOpening && slot_name(&token.text).is_some()
}

// Whether a gap comes next.
fn stands_gap(tokens: &Cursor) -> bool
    ensures { result ≡ stands_gap tokens.now }
{
    match tokens.first() {
        Some(token) => is_gap(token),
        None => false,
    }
}

/// Passes over gaps.
pub fn skip_gaps(tokens: &mut Cursor)
    ensures { tokens.new ≡ after_gaps tokens.old }
{
    while stands_gap(tokens) {
        *tokens = tokens.ahead();
    }
}

/// Whether the opening of a block that is passed comes next.
#[tactic(auto, unfolding(crate::specs::ReadStmt::stands_slot))]
pub fn stands_slot(tokens: &Cursor) -> bool
    ensures { result ≡ stands_slot tokens.now }
{
    match tokens.first() {
        Some(token) => is_slot_opening(token),
        None => false,
    }
}

/// Whether it comes after gaps or none.
pub fn stands_next(tokens: &Cursor) -> bool
    ensures { result ≡ stands_next tokens.now }
{
    let mut ahead = tokens.copy();
    skip_gaps(&mut ahead);
    stands_slot(&ahead)
}

/// The opening of a block that is passed, with its end.
#[tactic(auto, unfolding(crate::specs::ReadStmt::read_slot_opening), using(crate::proofs::Labels::labelled))]
pub fn open_slot<'a>(alloc: Global, tokens: &mut Cursor<'a>) -> Result<SlotOpening<'a>, Misread>
    ensures read { Gives Fails (λ o. ((o.name, o.params), tokens.new)) result (read_slot_opening tokens.old) }
    ensures label { IfOk result (λ o. o.label ≡ 58 ∷ o.name) }
{
    let raw = tokens.take(TokenKind::TagOpening)?;
    match slot_name(raw) {
        Some(scan) => {
            let name = Str::from_str(alloc, scan.as_str())?;
            let params = parameters(alloc, tokens)?;
            tokens.take(TokenKind::TagEnd)?;
            let label = name_in(raw);
            Ok(SlotOpening {
                label,
                name,
                params,
            })
        }
        None => Err(Misread::NotSpelled),
    }
}
