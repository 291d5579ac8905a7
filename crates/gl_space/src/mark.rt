// What mustaches and comments remove beside them.
ghost use Rattle.std.specs.Prelude.{◌≡◌, ◌||◌, option_map};
ghost use Rattle.gl_ast.specs.Settling as s;

use crate::line::alone;
use gl_ast::{Edge, Token, TokenKind};

fn is_comment(kind: TokenKind) -> bool
    ensures { result ≡ s.is_comment kind }
{
    match kind {
        TokenKind::MustacheComment => true,
        _ => false,
    }
}

// Whether it opens or ends a block.
fn opens_block(kind: TokenKind) -> bool
    ensures { result ≡ s.opens_block kind }
{
    match kind {
        TokenKind::OpenBlock | TokenKind::OpenClosing => true,
        _ => false,
    }
}

fn opens_mustache(kind: TokenKind) -> bool
    ensures { result ≡ s.opens_mustache kind }
{
    match kind {
        TokenKind::OpenMustache => true,
        _ => opens_block(kind),
    }
}

fn closes_mustache(kind: TokenKind) -> bool
    ensures { result ≡ s.closes_mustache kind }
{
    match kind {
        TokenKind::CloseMustache => true,
        _ => false,
    }
}

/// Whether it is a comment or opens a mustache.
pub fn is_mark(kind: TokenKind) -> bool
    ensures { result ≡ s.is_comment kind || s.opens_mustache kind }
{
    is_comment(kind) || opens_mustache(kind)
}

fn is_path(kind: TokenKind) -> bool
    ensures { result ≡ s.is_path kind }
{
    match kind {
        TokenKind::Path => true,
        _ => false,
    }
}

// The token that closes a mustache.
fn closing<'t, 'a>(tokens: &'t [Token<'a>]) -> Option<&'t Token<'a>>
    ensures { option_map (λ t. t.now) result ≡ s.closing tokens.now }
{
    let mut rest = tokens;
    while let [token, after @ ..] = rest {
        if closes_mustache(token.kind) {
            return Some(token);
        }
        rest = after;
    }
    None
}

// Whether a mustache with these tokens is an else.
fn is_else(tokens: &[Token]) -> bool
    ensures { result ≡ s.is_else tokens.now }
{
    match tokens {
        [token, ..] => is_path(token.kind) && token.text.as_str() == "else",
        [] => false,
    }
}

fn may_be_lone(token: &Token, tokens: &[Token]) -> bool
    ensures { result ≡ s.may_be_lone token.now tokens.now }
{
    opens_block(token.kind) || is_else(tokens)
}

fn opens_tilde(token: &Token) -> bool
    ensures { result ≡ s.opens_tilde token.now }
{
    match token.text.as_str().as_bytes() {
        [b'{', b'{', b'~', ..] => true,
        _ => false,
    }
}

fn closes_tilde(token: &Token) -> bool
    ensures { result ≡ s.closes_tilde token.now }
{
    let text = token.text.as_str().as_bytes();
    let end = &text[text.len().saturating_sub(3)..];
    match end {
        [b'~', b'}', b'}', ..] => true,
        _ => false,
    }
}

// What is removed on a side.
fn edge(strips: bool, lone: bool) -> Edge
    ensures { result ≡ s.edge strips lone }
{
    if strips {
        return Edge::White;
    }
    if lone { Edge::Line } else { Edge::Keep }
}

// Whether the mustache that is opened by `token` and closed by `close` has its line for itself.
fn is_lone(bytes: &[u8], token: &Token, tokens: &[Token], close: &Token) -> bool
    ensures { result ≡ s.is_lone bytes.now token.now tokens.now close.now }
{
    if !may_be_lone(token, tokens) {
        return false;
    }
    alone(bytes, token.start, close.end)
}

/// What the token, with `tokens` after it, removes from the text before it.
#[tactic(auto, unfolding(gl_ast::specs::Settling::left_edge))]
pub fn left_edge(bytes: &[u8], token: &Token, tokens: &[Token]) -> Edge
    ensures { result ≡ s.left_edge bytes.now token.now tokens.now }
{
    if is_comment(token.kind) {
        return edge(opens_tilde(token), alone(bytes, token.start, token.end));
    }
    if !opens_mustache(token.kind) {
        return Edge::Keep;
    }
    match closing(tokens) {
        Some(close) => edge(opens_tilde(token), is_lone(bytes, token, tokens, close)),
        None => Edge::Keep,
    }
}

/// What the token, or the mustache that it opens, removes from the text after it.
#[tactic(auto, unfolding(gl_ast::specs::Settling::right_edge))]
pub fn right_edge(bytes: &[u8], token: &Token, tokens: &[Token]) -> Edge
    ensures { result ≡ s.right_edge bytes.now token.now tokens.now }
{
    if is_comment(token.kind) {
        return edge(closes_tilde(token), alone(bytes, token.start, token.end));
    }
    if !opens_mustache(token.kind) {
        return Edge::Keep;
    }
    match closing(tokens) {
        Some(close) => edge(closes_tilde(close), is_lone(bytes, token, tokens, close)),
        None => Edge::Keep,
    }
}

/// What the tokens remove from the text before them.
pub fn next_edge(bytes: &[u8], tokens: &[Token]) -> Edge
    ensures { result ≡ s.next_edge bytes.now tokens.now }
{
    match tokens {
        [token, after @ ..] => left_edge(bytes, token, after),
        [] => Edge::Keep,
    }
}
