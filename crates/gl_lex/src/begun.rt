// Where the text ends within a token.
ghost use Rattle.std.specs.Prelude.{◌≡◌};
ghost use Rattle.gl_ast.specs.Modes.{quote_byte};
ghost use Rattle.gl_lex.specs.Begun as d;

use crate::class::Class;
use crate::scan::{after, after_word, begins};
use crate::words::{after_element_name, after_name, after_white, is_barred, read_part};
use gl_ast::Mode;

// Whether nothing is left after the name of an end tag but white space, or where it is a class the front of `::`.
fn class_begun(end: &[u8]) -> bool
    ensures { result ≡ d.class_begun end.now }
{
    after_white(end).is_empty() || begins(end, b"::")
}

// Whether the bytes after `</:` may go on to the end of an end tag.
#[tactic(auto, unfolding(crate::specs::Begun::slot_begun))]
fn slot_begun(bytes: &[u8]) -> bool
    ensures { result ≡ d.slot_begun bytes.now }
{
    match after_name(bytes) {
        Some(end) => block_begun(bytes, end),
        None => bytes.is_empty(),
    }
}

// Whether nothing is left after a name in the end tag of a block, or white space after the name of a block.
fn block_begun(bytes: &[u8], end: &[u8]) -> bool
    ensures { result ≡ d.block_begun bytes.now end.now }
{
    end.is_empty() || after_white(end).is_empty() && !is_barred(read_part(bytes, end))
}

// Whether the bytes after `</` may go on to the end of an end tag.
#[tactic(auto, unfolding(crate::specs::Begun::name_begun))]
fn name_begun(bytes: &[u8]) -> bool
    ensures { result ≡ d.name_begun bytes.now }
{
    if let Some(end) = after_word(Class::Small, Class::Tag, bytes) {
        return after_white(end).is_empty();
    }
    if let Some(end) = after_element_name(bytes) {
        return class_begun(end);
    }
    match after(b":", bytes) {
        Some(name) => slot_begun(name),
        None => bytes.is_empty(),
    }
}

#[tactic(auto, unfolding(crate::specs::Begun::end_tag_begun))]
fn end_tag_begun(bytes: &[u8]) -> bool
    ensures { result ≡ d.end_tag_begun bytes.now }
{
    match after(b"</", bytes) {
        Some(name) => name_begun(name),
        None => begins(bytes, b"</"),
    }
}

#[tactic(auto, unfolding(crate::specs::Begun::content_begun))]
fn content_begun(bytes: &[u8]) -> bool
    ensures { result ≡ d.content_begun bytes.now }
{
    begins(bytes, b"<!--") || begins(b"<!--", bytes) || end_tag_begun(bytes) || begins(bytes, b"<:")
}

#[tactic(auto, unfolding(crate::specs::Begun::tag_begun))]
fn tag_begun(bytes: &[u8]) -> bool
    ensures { result ≡ d.tag_begun bytes.now }
{
    begins(bytes, b"...attributes")
        || begins(bytes, b"@")
        || begins(bytes, b"/")
        || begins(bytes, b"{")
}

#[tactic(auto, unfolding(crate::specs::Begun::expression_begun))]
fn expression_begun(bytes: &[u8]) -> bool
    ensures { result ≡ d.expression_begun bytes.now }
{
    begins(bytes, b"@") || begins(bytes, b"-") || begins(b"\"", bytes) || begins(b"'", bytes)
}

/// Whether bytes at which no token stands would be one with more bytes after them.
#[tactic(auto, unfolding(crate::specs::Begun::is_begun))]
pub fn is_begun(mode: Mode, bytes: &[u8]) -> bool
    ensures { result ≡ d.is_begun mode bytes.now }
{
    match mode {
        Mode::Content => content_begun(bytes),
        Mode::Tag => tag_begun(bytes),
        Mode::Equals => begins(bytes, b"{"),
        Mode::ValueEnd => begins(bytes, b"/"),
        Mode::Value(_) => false,
        Mode::Mustache(_) => expression_begun(bytes)
            || begins(bytes, b"~}}")
            || begins(bytes, b"}"),
        Mode::Expression => expression_begun(bytes),
    }
}
