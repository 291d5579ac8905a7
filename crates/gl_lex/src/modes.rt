// The token that stands at a place.
ghost use Rattle.std.specs.Prelude.{◌≡◌, option_map};
ghost use Rattle.gl_ast.specs.Modes as m;
ghost use Rattle.gl_lex.specs.Clear.{IsClear};
ghost use Rattle.gl_lex.specs.Found.{found_of};

use crate::found::Found;
use crate::marks::{
    after_comment, after_end_tag, after_html_comment, after_mustache, after_opening,
    after_tag_opening,
};
use crate::scan::{after, after_run};
use crate::sign::{Sign, byte_of};
use crate::words::{
    after_argument, after_attribute, after_number, after_parameters, after_path, after_string,
    after_unquoted,
};
use gl_ast::{Around, Mode, Quote, TokenKind};

// What goes on after a mustache.
fn after_around(around: Around) -> Mode
    ensures { result ≡ m.after_around around }
{
    match around {
        Around::Content => Mode::Content,
        Around::Tag => Mode::Tag,
        Around::ValueEnd => Mode::ValueEnd,
        Around::Value(quote) => Mode::Value(quote),
    }
}

/// Whether white space between tokens is none.
pub fn skips_white(mode: Mode) -> bool
    ensures { result ≡ m.skips_white mode }
{
    match mode {
        Mode::Content | Mode::Value(_) => false,
        _ => true,
    }
}

/// The place after white space.
pub fn spaced(mode: Mode) -> Mode
    ensures { result ≡ m.spaced mode }
{
    match mode {
        Mode::ValueEnd => Mode::Tag,
        _ => mode,
    }
}

// The token of the content of a template. In the last `clear` bytes no comment of the long form ends.
#[tactic(auto, unfolding(gl_ast::specs::Modes::content_token))]
fn content_token<'a>(bytes: &'a [u8], clear: &mut usize) -> Option<Found<'a>>
    requires { IsClear clear.old bytes.now }
    ensures value { option_map found_of result ≡ m.content_token bytes.now }
    ensures clear { IsClear clear.new bytes.now }
{
    if let Some(rest) = after_run(Sign::TextEnd, bytes) {
        return Some(Found {
            kind: TokenKind::Text,
            rest,
            next: Mode::Content,
        });
    }
    if let Some(rest) = after_html_comment(bytes) {
        return Some(Found {
            kind: TokenKind::HtmlComment,
            rest,
            next: Mode::Content,
        });
    }
    if let Some(rest) = after_end_tag(bytes) {
        return Some(Found {
            kind: TokenKind::EndTag,
            rest,
            next: Mode::Content,
        });
    }
    if let Some(rest) = after_tag_opening(bytes) {
        return Some(Found {
            kind: TokenKind::TagOpening,
            rest,
            next: Mode::Tag,
        });
    }
    if let Some(rest) = after_comment(bytes, clear) {
        return Some(Found {
            kind: TokenKind::MustacheComment,
            rest,
            next: Mode::Content,
        });
    }
    content_opening(bytes)
}

// The opening of a mustache in the content.
#[tactic(auto, unfolding(gl_ast::specs::Modes::content_opening))]
fn content_opening(bytes: &[u8]) -> Option<Found<'_>>
    ensures { option_map found_of result ≡ m.content_opening bytes.now }
{
    let rest = after_opening(bytes)?;
    let next = Mode::Mustache(Around::Content);
    if let Some(rest) = after(b"#", rest) {
        return Some(Found {
            kind: TokenKind::OpenBlock,
            rest,
            next,
        });
    }
    if let Some(rest) = after(b"/", rest) {
        return Some(Found {
            kind: TokenKind::OpenClosing,
            rest,
            next,
        });
    }
    Some(Found {
        kind: TokenKind::OpenMustache,
        rest,
        next,
    })
}

// The token in a tag. In the last `clear` bytes no comment of the long form ends.
#[tactic(auto, unfolding(gl_ast::specs::Modes::tag_token))]
fn tag_token<'a>(bytes: &'a [u8], clear: &mut usize) -> Option<Found<'a>>
    requires { IsClear clear.old bytes.now }
    ensures value { option_map found_of result ≡ m.tag_token bytes.now }
    ensures clear { IsClear clear.new bytes.now }
{
    if let Some(rest) = after_parameters(bytes) {
        return Some(Found {
            kind: TokenKind::Parameters,
            rest,
            next: Mode::Tag,
        });
    }
    if let Some(rest) = after_attribute(bytes) {
        return Some(Found {
            kind: TokenKind::Attribute,
            rest,
            next: Mode::Tag,
        });
    }
    if let Some(rest) = after_argument(bytes) {
        return Some(Found {
            kind: TokenKind::Argument,
            rest,
            next: Mode::Tag,
        });
    }
    if let Some(found) = tag_mark(bytes) {
        return Some(found);
    }
    if let Some(rest) = after_comment(bytes, clear) {
        return Some(Found {
            kind: TokenKind::MustacheComment,
            rest,
            next: Mode::Tag,
        });
    }
    let rest = after_opening(bytes)?;
    let next = Mode::Mustache(Around::Tag);
    Some(Found {
        kind: TokenKind::OpenMustache,
        rest,
        next,
    })
}

// `...attributes`, `=` and what ends a tag.
#[tactic(auto, unfolding(gl_ast::specs::Modes::tag_mark))]
fn tag_mark(bytes: &[u8]) -> Option<Found<'_>>
    ensures { option_map found_of result ≡ m.tag_mark bytes.now }
{
    if let Some(rest) = after(b"...attributes", bytes) {
        return Some(Found {
            kind: TokenKind::Spread,
            rest,
            next: Mode::Tag,
        });
    }
    if let Some(rest) = after(b"=", bytes) {
        return Some(Found {
            kind: TokenKind::Equals,
            rest,
            next: Mode::Equals,
        });
    }
    value_end_token(bytes)
}

// The token after `=` in a tag.
#[tactic(auto, unfolding(gl_ast::specs::Modes::equals_token))]
fn equals_token(bytes: &[u8]) -> Option<Found<'_>>
    ensures { option_map found_of result ≡ m.equals_token bytes.now }
{
    if let Some(rest) = after_unquoted(bytes) {
        return Some(Found {
            kind: TokenKind::Unquoted,
            rest,
            next: Mode::ValueEnd,
        });
    }
    if let Some(rest) = after(b"\"", bytes) {
        return Some(Found {
            kind: TokenKind::OpenQuote,
            rest,
            next: Mode::Value(Quote::Double),
        });
    }
    if let Some(rest) = after(b"'", bytes) {
        return Some(Found {
            kind: TokenKind::OpenQuote,
            rest,
            next: Mode::Value(Quote::Single),
        });
    }
    let rest = after_opening(bytes)?;
    let next = Mode::Mustache(Around::ValueEnd);
    Some(Found {
        kind: TokenKind::OpenMustache,
        rest,
        next,
    })
}

// The token directly after a value: the end of the tag.
#[tactic(auto, unfolding(gl_ast::specs::Modes::value_end_token))]
fn value_end_token(bytes: &[u8]) -> Option<Found<'_>>
    ensures { option_map found_of result ≡ m.value_end_token bytes.now }
{
    if let Some(rest) = after(b">", bytes) {
        return Some(Found {
            kind: TokenKind::TagEnd,
            rest,
            next: Mode::Content,
        });
    }
    let rest = after(b"/>", bytes)?;
    Some(Found {
        kind: TokenKind::SelfEnd,
        rest,
        next: Mode::Content,
    })
}

// The token in a quoted value.
#[tactic(auto, unfolding(gl_ast::specs::Modes::value_token))]
fn value_token(quote: Quote, bytes: &[u8]) -> Option<Found<'_>>
    ensures { option_map found_of result ≡ m.value_token quote bytes.now }
{
    if let Some(rest) = after(&[byte_of(quote)], bytes) {
        return Some(Found {
            kind: TokenKind::CloseQuote,
            rest,
            next: Mode::ValueEnd,
        });
    }
    if let Some(rest) = after_run(Sign::QuotedEnd(quote), bytes) {
        return Some(Found {
            kind: TokenKind::Text,
            rest,
            next: Mode::Value(quote),
        });
    }
    let rest = after_opening(bytes)?;
    let next = Mode::Mustache(Around::Value(quote));
    Some(Found {
        kind: TokenKind::OpenMustache,
        rest,
        next,
    })
}

// The token of an expression, which goes on in this mode.
#[tactic(auto, unfolding(gl_ast::specs::Modes::expression_token))]
fn expression_token(next: Mode, bytes: &[u8]) -> Option<Found<'_>>
    ensures { option_map found_of result ≡ m.expression_token next bytes.now }
{
    if let Some(rest) = after_parameters(bytes) {
        return Some(Found {
            kind: TokenKind::Parameters,
            rest,
            next,
        });
    }
    if let Some(rest) = after_path(bytes) {
        return Some(Found {
            kind: TokenKind::Path,
            rest,
            next,
        });
    }
    if let Some(rest) = after_number(bytes) {
        return Some(Found {
            kind: TokenKind::Number,
            rest,
            next,
        });
    }
    if let Some(rest) = after_string(b'"', bytes) {
        return Some(Found {
            kind: TokenKind::StringLit,
            rest,
            next,
        });
    }
    if let Some(rest) = after_string(b'\'', bytes) {
        return Some(Found {
            kind: TokenKind::StringLit,
            rest,
            next,
        });
    }
    expression_mark(next, bytes)
}

// `(`, `)` and `=`.
#[tactic(auto, unfolding(gl_ast::specs::Modes::expression_mark))]
fn expression_mark(next: Mode, bytes: &[u8]) -> Option<Found<'_>>
    ensures { option_map found_of result ≡ m.expression_mark next bytes.now }
{
    if let Some(rest) = after(b"(", bytes) {
        return Some(Found {
            kind: TokenKind::OpenParen,
            rest,
            next,
        });
    }
    if let Some(rest) = after(b")", bytes) {
        return Some(Found {
            kind: TokenKind::CloseParen,
            rest,
            next,
        });
    }
    let rest = after(b"=", bytes)?;
    Some(Found {
        kind: TokenKind::Equals,
        rest,
        next,
    })
}

// The token in a mustache.
#[tactic(auto, unfolding(gl_ast::specs::Modes::mustache_token))]
fn mustache_token(around: Around, bytes: &[u8]) -> Option<Found<'_>>
    ensures { option_map found_of result ≡ m.mustache_token around bytes.now }
{
    if let Some(found) = expression_token(Mode::Mustache(around), bytes) {
        return Some(found);
    }
    let rest = after_mustache(bytes)?;
    let next = after_around(around);
    Some(Found {
        kind: TokenKind::CloseMustache,
        rest,
        next,
    })
}

/// The token that stands at the front of the bytes. In the last `clear` bytes no comment of the long form ends.
#[tactic(auto, unfolding(gl_ast::specs::Modes::token))]
pub fn token<'a>(mode: Mode, bytes: &'a [u8], clear: &mut usize) -> Option<Found<'a>>
    requires { IsClear clear.old bytes.now }
    ensures value { option_map found_of result ≡ m.token mode bytes.now }
    ensures clear { IsClear clear.new bytes.now }
{
    match mode {
        Mode::Content => content_token(bytes, clear),
        Mode::Tag => tag_token(bytes, clear),
        Mode::Equals => equals_token(bytes),
        Mode::ValueEnd => value_end_token(bytes),
        Mode::Value(quote) => value_token(quote, bytes),
        Mode::Mustache(around) => mustache_token(around, bytes),
        Mode::Expression => expression_token(Mode::Expression, bytes),
    }
}
