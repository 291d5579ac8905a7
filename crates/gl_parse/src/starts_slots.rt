// What a token leaves due in a component, as in a mustache: blocks that are passed, or statements.
ghost use Rattle.std.specs.Prelude.{◌≡◌, ◌&&◌, drop};
ghost use Rattle.std.specs.Str.{bytes_eq};
ghost use Rattle.gl_ast.specs.TokenText.{end_name_of};
ghost use Rattle.gl_ast.specs.declared.token.TokenKind.TheVariants as k;
ghost use Rattle.gl_exprs.specs.Take.{same_kind};
ghost use Rattle.gl_parse.specs.Due as d;
ghost use Rattle.gl_parse.specs.Dues.{seen, Meets};
ghost use Rattle.gl_parse.specs.ReadStmt.{slot_name};

use crate::due::{Due, Stop};
use crate::names::NameSet;
use crate::slot::{is_gap, is_slot_opening, slot_name};
use crate::stack::due;
use crate::starts_content::content;
use crate::starts_tag::name_in;
use gl_ast::{Slice, Token, TokenKind};
use gl_exprs::words::is_end_of;
use std::alloc::{AllocError, Global};

// The opening of a block that is passed, where none of the names is its own.
#[tactic(auto, using(crate::proofs::Meeting::meeting, crate::proofs::Labels::labelled))]
fn slot<'a>(
    alloc: Global,
    list: &mut Vec<Due<'a>>,
    depth: u32,
    component: &'a Slice<'a>,
    names: NameSet,
    opening: &'a Slice<'a>,
) -> Result<bool, AllocError>
    ensures { Meets result (d.slot_due depth (drop 1 component.now) names (slot_name opening.now)) (seen list.old.items) (seen list.new.items) }
{
    let mut names = names;
    match slot_name(opening) {
        None => Ok(false),
        Some(name) => {
            if depth == 0 {
                return Ok(false);
            }
            if !names.add(alloc, name.as_str())? {
                return Ok(false);
            }
            due(list, Due::Slots(depth, component, names))?;
            due(list, Due::SlotTag(depth - 1, opening))?;
            Ok(true)
        }
    }
}

/// A token in a component, where nothing but gaps stands before it.
#[tactic(auto, unfolding(crate::specs::Due::starts_filling), using(crate::proofs::Meeting::meeting))]
pub fn filling<'a>(
    alloc: Global,
    list: &mut Vec<Due<'a>>,
    depth: u32,
    component: &'a Slice<'a>,
    token: &'a Token<'a>,
) -> Result<bool, AllocError>
    ensures { Meets result (d.starts_filling depth (drop 1 component.now) token.now) (seen list.old.items) (seen list.new.items) }
{
    if is_gap(token) {
        due(list, Due::Filling(depth, component))?;
        return Ok(true);
    }
    if is_slot_opening(token) {
        let names = NameSet::new(alloc);
        return slot(alloc, list, depth, component, names, &token.text);
    }
    content(list, depth, Stop::Tag(component), token)
}

// Whether the token is the end tag of the component.
fn is_end(component: &Slice, token: &Token) -> bool
    ensures { result ≡ (same_kind token.now.kind k.EndTag && bytes_eq (end_name_of token.now.text) (drop 1 component.now)) }
{
    token.kind == TokenKind::EndTag && is_end_of(&token.text, &name_in(component))
}

/// A token after blocks of these names.
#[tactic(auto, unfolding(crate::specs::Due::starts_slots), using(crate::proofs::Meeting::meeting))]
pub fn slots<'a>(
    alloc: Global,
    list: &mut Vec<Due<'a>>,
    depth: u32,
    component: &'a Slice<'a>,
    names: NameSet,
    token: &'a Token<'a>,
) -> Result<bool, AllocError>
    ensures { Meets result (d.starts_slots depth (drop 1 component.now) names token.now) (seen list.old.items) (seen list.new.items) }
{
    if is_gap(token) {
        due(list, Due::Slots(depth, component, names))?;
        return Ok(true);
    }
    if is_slot_opening(token) {
        return slot(alloc, list, depth, component, names, &token.text);
    }
    Ok(is_end(component, token))
}

/// A token in the opening of a block that is passed.
#[tactic(auto, unfolding(crate::specs::Due::starts_slot_tag), using(crate::proofs::Meeting::meeting))]
pub fn slot_tag<'a>(
    list: &mut Vec<Due<'a>>,
    depth: u32,
    opening: &'a Slice<'a>,
    token: &Token,
) -> Result<bool, AllocError>
    ensures { Meets result (d.starts_slot_tag depth (drop 1 opening.now) token.now) (seen list.old.items) (seen list.new.items) }
{
    if token.kind == TokenKind::TagEnd {
        due(list, Due::Content(depth, Stop::Tag(opening)))?;
        return Ok(true);
    }
    if token.kind == TokenKind::Parameters {
        due(list, Due::Content(depth, Stop::Tag(opening)))?;
        due(list, Due::Kind(TokenKind::TagEnd))?;
        return Ok(true);
    }
    Ok(false)
}
