// The pass over the tokens.
ghost use Rattle.std.specs.Prelude.{◌≡◌, ◌<◌, length};
ghost use Rattle.gl_ast.specs.Settling.{settled, begins_anew, within_tag, opens_tag, closes_tag, is_text};
ghost use Rattle.gl_space.specs.Turn as t;

use crate::mark::{is_mark, next_edge, right_edge};
use crate::trim::kept;
use gl_ast::{Edge, Slice, Token, TokenKind, Tokens};

/// The tokens of a template, each text of the content without the white space that is removed from it: what stands
/// before `{{~` and after `~}}`, and the line of a block's tag or of a comment that has it for itself. Spans stay. It takes no
/// memory.
#[tactic(auto, unfolding(gl_ast::specs::Settling::settled))]
pub fn settle<'a>(text: &'a str, tokens: Tokens<'a>) -> Tokens<'a>
    ensures { result ≡ settled text.now tokens.entry }
{
    let bytes = text.as_bytes();
    let mut list = tokens.into_vec();
    let mut tag = false;
    let mut front = Edge::Keep;
    for at in 0..list.len() {
        let (_, left) = list.as_slice().split_at(at);
        let text = changed(bytes, tag, front, left);
        front = front_after(bytes, tag, front, left);
        tag = tag_after(tag, left);
        put_at(at, text, &mut list);
    }
    Tokens::from_vec(list)
}

// The new text of the first of the tokens, or `None` where it keeps its own.
#[tactic(auto, unfolding(crate::specs::Turn::changed))]
fn changed<'a>(bytes: &[u8], tag: bool, front: Edge, tokens: &[Token<'a>]) -> Option<Slice<'a>>
    ensures { result ≡ t.changed bytes.now tag front tokens.now }
{
    match tokens {
        [token, after @ ..] => {
            if tag || !is_text(token.kind) {
                return None;
            }
            let back = next_edge(bytes, after);
            Some(Slice::new(kept(front, back, token.text.as_str())))
        }
        [] => None,
    }
}

// What is removed at the front of a text after the first of the tokens.
#[tactic(auto, unfolding(crate::specs::Turn::front_after))]
fn front_after(bytes: &[u8], tag: bool, front: Edge, tokens: &[Token]) -> Edge
    ensures { result ≡ t.front_after bytes.now tag front tokens.now }
{
    match tokens {
        [token, after @ ..] => {
            if tag || begins_anew(token.kind) {
                return Edge::Keep;
            }
            if is_mark(token.kind) {
                return right_edge(bytes, token, after);
            }
            front
        }
        [] => Edge::Keep,
    }
}

// Whether what follows the first of the tokens stands in a tag.
fn tag_after(tag: bool, tokens: &[Token]) -> bool
    ensures { result ≡ t.tag_after tag tokens.now }
{
    match tokens {
        [token, ..] if tag => !closes_tag(token.kind),
        [token, ..] => opens_tag(token.kind),
        [] => false,
    }
}

// Gives the token at a place a new text, where there is one.
fn put_at<'a>(place: usize, text: Option<Slice<'a>>, list: &mut Vec<Token<'a>>)
    requires { place < length list.old.items }
    ensures { list.new.items ≡ t.put_at place text.entry list.old.items }
{
    if let Some(text) = text {
        list[place].text = text;
    }
}

fn is_text(kind: TokenKind) -> bool
    ensures { result ≡ is_text kind }
{
    match kind {
        TokenKind::Text => true,
        _ => false,
    }
}

// Whether a text after the token begins anew: the token is no part of a mustache.
fn begins_anew(kind: TokenKind) -> bool
    ensures { result ≡ begins_anew kind }
{
    match kind {
        TokenKind::Text | TokenKind::HtmlComment | TokenKind::EndTag | TokenKind::TagOpening =>
            true,
        _ => false,
    }
}

fn opens_tag(kind: TokenKind) -> bool
    ensures { result ≡ opens_tag kind }
{
    match kind {
        TokenKind::TagOpening => true,
        _ => false,
    }
}

fn closes_tag(kind: TokenKind) -> bool
    ensures { result ≡ closes_tag kind }
{
    match kind {
        TokenKind::TagEnd | TokenKind::SelfEnd => true,
        _ => false,
    }
}
