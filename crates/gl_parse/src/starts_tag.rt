// What a token leaves due in a tag, as in a mustache.
ghost use Rattle.std.specs.Prelude.{◌≡◌, IfOk, drop};
ghost use Rattle.gl_ast.specs.TokenText.{parameters_of};
ghost use Rattle.gl_parse.specs.Due as d;
ghost use Rattle.gl_parse.specs.Dues.{seen, Meets, quoted_view, name_of, due_view};
ghost use Rattle.gl_parse.specs.ReadStmt.{is_no_name};

use crate::due::{Due, Quoted, Stop, Tag};
use crate::stack::due;
use gl_ast::{Slice, Token, TokenKind};
use gl_exprs::Scan;
use gl_exprs::expr::DEEPEST_CALLS;
use gl_exprs::name::is_argument;
use gl_exprs::words::parameters_of;
use std::alloc::{AllocError, Global};

/// The first token of a value.
#[tactic(auto, unfolding(crate::specs::Due::starts_value), using(crate::proofs::Meeting::meeting))]
pub fn value(list: &mut Vec<Due>, token: &Token) -> Result<bool, AllocError>
    ensures { Meets result (d.starts_value token.now) (seen list.old.items) (seen list.new.items) }
{
    if token.kind == TokenKind::Unquoted {
        return Ok(true);
    }
    if token.kind == TokenKind::OpenMustache {
        due(list, Due::Inner)?;
        return Ok(true);
    }
    if token.kind == TokenKind::OpenQuote {
        due(list, Due::Quoted(Quoted::Nothing))?;
        return Ok(true);
    }
    Ok(false)
}

// A text more.
fn and_text(quoted: Quoted) -> Quoted
    ensures { quoted_view result ≡ d.and_text (quoted_view quoted) }
{
    match quoted {
        Quoted::Nothing => Quoted::Text,
        Quoted::Text | Quoted::Texts => Quoted::Texts,
        Quoted::Live => Quoted::Live,
    }
}

// Texts alone are one at most.
fn may_end(quoted: Quoted) -> bool
    ensures { result ≡ d.may_end (quoted_view quoted) }
{
    match quoted {
        Quoted::Texts => false,
        _ => true,
    }
}

/// A token of a quoted value.
#[tactic(auto, unfolding(crate::specs::Due::starts_quoted), using(crate::proofs::Meeting::meeting))]
pub fn quoted(list: &mut Vec<Due>, quoted: Quoted, token: &Token) -> Result<bool, AllocError>
    ensures { Meets result (d.starts_quoted (quoted_view quoted) token.now) (seen list.old.items) (seen list.new.items) }
{
    if token.kind == TokenKind::CloseQuote {
        return Ok(may_end(quoted));
    }
    if token.kind == TokenKind::Text {
        due(list, Due::Quoted(and_text(quoted)))?;
        return Ok(true);
    }
    if token.kind == TokenKind::OpenMustache {
        due(list, Due::Quoted(Quoted::Live))?;
        due(list, Due::Inner)?;
        return Ok(true);
    }
    Ok(false)
}

/// The name of an opening, which stands after `<`.
pub fn name_in<'a>(opening: &Slice<'a>) -> Scan<'a>
    ensures { result ≡ drop 1 opening.now }
{
    let mut scan = Scan::new(opening);
    let _ = scan.next();
    scan
}

// Whether the tag has a body: that of an element is missing where the element has no end tag.
#[tactic(auto, unfolding(gl_ast::specs::Void::void_names, gl_names::specs::Void::void_rows))]
fn has_body(tag: Tag) -> bool
    ensures { result ≡ d.has_body (name_of tag.entry) tag.entry.component }
{
    tag.component
        || !gl_names::void()
            .find(name_in(tag.opening).as_str())
            .is_some()
}

// What stands in a tag. In a component without parameters blocks may be passed.
fn inside<'a>(bare: bool, depth: u32, opening: &'a Slice<'a>) -> Due<'a>
    ensures { due_view result ≡ d.inside bare depth (drop 1 opening.now) }
{
    if bare {
        Due::Filling(depth, opening)
    } else {
        Due::Content(depth, Stop::Tag(opening))
    }
}

/// The end of a tag, which may be that of a component without parameters.
#[tactic(auto, unfolding(crate::specs::Due::ends_tag), using(crate::proofs::Meeting::meeting))]
pub fn tag_end<'a>(
    list: &mut Vec<Due<'a>>,
    tag: Tag<'a>,
    bare: bool,
    token: &Token,
) -> Result<bool, AllocError>
    ensures { Meets result (d.ends_tag (name_of tag.entry) tag.entry.component bare tag.entry.depth token.now) (seen list.old.items) (seen list.new.items) }
{
    if token.kind == TokenKind::SelfEnd {
        return Ok(true);
    }
    if token.kind != TokenKind::TagEnd {
        return Ok(false);
    }
    if has_body(tag) {
        due(list, inside(bare, tag.depth, tag.opening))?;
    }
    Ok(true)
}

// Whether the parameters have no name.
fn are_none(alloc: Global, parameters: &Slice) -> Result<bool, AllocError>
    ensures { IfOk result (λ b. b ≡ is_no_name (parameters_of parameters.now)) }
{
    Ok(parameters_of(alloc, parameters)?.len() == 0)
}

// Whether the token is the name of an argument.
fn is_at_name(token: &Token) -> bool
    ensures { result ≡ d.is_at_name token.now }
{
    token.kind == TokenKind::Argument && is_argument(&token.text)
}

// A mustache comment or `...attributes`.
fn is_plain(token: &Token) -> bool
    ensures { result ≡ d.is_plain token.now }
{
    token.kind == TokenKind::Spread || token.kind == TokenKind::MustacheComment
}

/// A token between the opening of a tag and its end.
#[tactic(auto, unfolding(crate::specs::Due::starts_item), using(crate::proofs::Meeting::meeting))]
pub fn items<'a>(
    alloc: Global,
    list: &mut Vec<Due<'a>>,
    tag: Tag<'a>,
    token: &Token,
) -> Result<bool, AllocError>
    ensures { Meets result (d.starts_item (name_of tag.entry) tag.entry.component tag.entry.depth token.now) (seen list.old.items) (seen list.new.items) }
{
    if token.kind == TokenKind::Attribute || (tag.component && is_at_name(token)) {
        due(list, Due::Given(tag))?;
        return Ok(true);
    }
    if token.kind == TokenKind::OpenMustache {
        due(list, Due::Items(tag))?;
        due(list, Due::Called(DEEPEST_CALLS, TokenKind::CloseMustache))?;
        return Ok(true);
    }
    if is_plain(token) {
        due(list, Due::Items(tag))?;
        return Ok(true);
    }
    if tag.component && token.kind == TokenKind::Parameters {
        let none = are_none(alloc, &token.text)?;
        due(list, Due::TagEnd(tag, none))?;
        return Ok(true);
    }
    tag_end(list, tag, tag.component, token)
}

/// The same after the name of an attribute or argument.
#[tactic(auto, unfolding(crate::specs::Due::starts_given), using(crate::proofs::Meeting::meeting))]
pub fn given<'a>(
    alloc: Global,
    list: &mut Vec<Due<'a>>,
    tag: Tag<'a>,
    token: &Token,
) -> Result<bool, AllocError>
    ensures { Meets result (d.starts_given (name_of tag.entry) tag.entry.component tag.entry.depth token.now) (seen list.old.items) (seen list.new.items) }
{
    if token.kind == TokenKind::Equals {
        due(list, Due::Items(tag))?;
        due(list, Due::Value)?;
        return Ok(true);
    }
    items(alloc, list, tag, token)
}

/// An opening, in the tag of which elements and blocks may nest so deep.
#[tactic(auto, unfolding(crate::specs::Due::after_opening), using(crate::proofs::Meeting::meeting))]
pub fn opening<'a>(
    list: &mut Vec<Due<'a>>,
    depth: u32,
    opening: &'a Slice<'a>,
) -> Result<bool, AllocError>
    ensures { Meets result (d.after_opening depth opening.now) (seen list.old.items) (seen list.new.items) }
{
    let mut scan = Scan::new(opening);
    if !matches!(scan.next(), Some('<')) {
        return Ok(false);
    }
    let component = match scan.next() {
        Some('A'..='Z') => true,
        Some('a'..='z') => false,
        _ => return Ok(false),
    };
    due(
        list,
        Due::Items(Tag {
            opening,
            component,
            depth,
        }),
    )?;
    Ok(true)
}
