// The tokens of a text.
ghost use Rattle.std.specs.Prelude.{◌≡◌, ◌≤◌, ◌+◌, ◌++◌, ◌∷◌, [], OnOk, IfOk, IfErr, length, drop, ◌<◌, ◌^◌};
ghost use Rattle.std.specs.Str.{chars, IsCharBoundary};
ghost use Rattle.gl_base.specs.Answers.{Gives};
ghost use Rattle.gl_ast.specs.Modes.{skips_white};
ghost use Rattle.gl_ast.specs.declared.mode.Mode.TheVariants as m;
ghost use Rattle.gl_ast.specs.TokenReading.{stands_white, template_tokens, lone_tokens};
ghost use Rattle.gl_ast.specs.Spans.{Spans};
ghost use Rattle.gl_ast.specs.Tokens.{IsTokens, IsLoneTokens};
ghost use Rattle.gl_lex.specs.Fault.{Fails, IsWithin, Tells};
ghost use Rattle.gl_lex.specs.Front.{front_from, stop_at};
ghost use Rattle.gl_lex.specs.Stops.{GivesFront, NamesStop};

use crate::begun::is_begun;
use crate::class::is_white;
use crate::fault::LexFault;
use crate::modes::{skips_white, spaced, token};
use gl_ast::{Mode, Slice, Token, TokenKind, Tokens};
use std::alloc::{AllocError, Global};

/// The tokens of a text up to where none stands.
#[derive(Drop)]
pub struct Front<'a> {
    /// They, in order.
    pub tokens: Tokens<'a>,
    /// The first place where no token stands, counted in bytes from 0, if there is one. It is the text's length where
    /// the bytes from there on would be a token with more bytes after them.
    pub stop: Option<u64>,
}

/// The tokens of a template: at each place the longest that may stand there, with the slice of its span. `NoToken`
/// exactly where the text has no such reading. Its offset counts bytes: it is that of the first place where no token
/// stands, or the text's length where the bytes from there on are the beginning of a token.
#[tactic(auto, unfolding(gl_ast::specs::TokenReading::template_tokens))]
pub fn tokens<'a>(alloc: Global, text: &'a str) -> Result<Tokens<'a>, LexFault>
    ensures reading { Tells (IsTokens text.now) result }
    ensures spans { IfOk result (Spans text.now 0) }
    ensures value { Gives Fails (λ list. list) result (template_tokens text.now) }
    ensures place { IfErr result (NamesStop m.Content text.now) }
    ensures within { IfErr result (IsWithin (length text.now)) }
{
    let front = read(alloc, Mode::Content, text)?;
    whole(front)
}

/// The tokens of an expression that stands alone: those of a mustache, without its end. `NoToken` as for a template.
#[tactic(auto, unfolding(gl_ast::specs::TokenReading::lone_tokens))]
pub fn expression_tokens<'a>(alloc: Global, text: &'a str) -> Result<Tokens<'a>, LexFault>
    ensures reading { Tells (IsLoneTokens text.now) result }
    ensures spans { IfOk result (Spans text.now 0) }
    ensures value { Gives Fails (λ list. list) result (lone_tokens text.now) }
    ensures place { IfErr result (NamesStop m.Expression text.now) }
    ensures within { IfErr result (IsWithin (length text.now)) }
{
    let front = read(alloc, Mode::Expression, text)?;
    whole(front)
}

/// The tokens of a template up to where none stands.
pub fn template_front<'a>(alloc: Global, text: &'a str) -> Result<Front<'a>, AllocError>
    ensures { IfOk result (λ f. (f.tokens, f.stop) ≡ front_from m.Content 0 0 text.now) }
{
    read(alloc, Mode::Content, text)
}

/// The tokens of an expression that stands alone, up to where none stands.
pub fn expression_front<'a>(alloc: Global, text: &'a str) -> Result<Front<'a>, AllocError>
    ensures { IfOk result (λ f. (f.tokens, f.stop) ≡ front_from m.Expression 0 0 text.now) }
{
    read(alloc, Mode::Expression, text)
}

// All tokens, where one stands at each place.
fn whole<'a>(front: Front<'a>) -> Result<Tokens<'a>, LexFault>
    ensures { GivesFront (front.entry.tokens, front.entry.stop) result }
{
    match front.stop {
        None => Ok(front.tokens),
        Some(offset) => Err(LexFault::NoToken { offset }),
    }
}

// The tokens of a text that begins in this mode, up to where none stands.
fn read<'a>(alloc: Global, mode: Mode, text: &'a str) -> Result<Front<'a>, AllocError>
    ensures { IfOk result (λ f. (f.tokens, f.stop) ≡ front_from mode 0 0 text.now) }
{
    let mut tokens = Tokens::new(alloc);
    let mut mode = mode;
    let mut rest = text;
    let mut at: usize = 0;
    // no comment of the long form ends in so many last bytes
    let mut clear: usize = 0;
    while !rest.is_empty() {
        let bytes = rest.as_bytes();
        if stands_white(mode, bytes) {
            mode = spaced(mode);
            rest = after_byte(rest);
            at += 1;
        } else {
            match token(mode, bytes, &mut clear) {
                None => {
                    let stop = Some(stop_at(mode, at, bytes));
                    return Ok(Front { tokens, stop });
                }
                Some(found) => {
                    let width = rest.len() - found.rest.len();
                    let (front, left) = rest.split_at(width);
                    add(&mut tokens, found.kind, at, front)?;
                    mode = found.next;
                    rest = left;
                    at += width;
                }
            }
        }
    }
    Ok(Front { tokens, stop: None })
}

// The place that is told where no token stands at these bytes.
fn stop_at(mode: Mode, at: usize, bytes: &[u8]) -> u64
    requires { at + length bytes.now < 2 ^ 64 }
    ensures { result ≡ stop_at mode at bytes.now }
{
    if is_begun(mode, bytes) {
        return (at + bytes.len()) as u64;
    }
    at as u64
}

// Whether white space between tokens stands at the front.
fn stands_white(mode: Mode, bytes: &[u8]) -> bool
    ensures { result ≡ stands_white mode bytes.now }
{
    match bytes {
        [] => false,
        [b, ..] => skips_white(mode) && is_white(*b),
    }
}

// What follows a byte of white space.
fn after_byte(text: &str) -> &str
    requires { IsCharBoundary text.now 1 }
    ensures { result.now ≡ drop 1 text.now }
{
    text.split_at(1).1
}

// Adds a token with its slice.
fn add<'a>(
    tokens: &mut Tokens<'a>,
    kind: TokenKind,
    start: usize,
    front: &'a str,
) -> Result<(), AllocError>
    requires { start + length front.now < 2 ^ 64 }
    ensures ok { OnOk result (tokens.new ≡ tokens.old ++ record { kind = kind; start = start; end = start + length front.now; text = chars front.now } ∷ []) }
{
    let end = start + front.len();
    tokens.push(Token {
        kind,
        start: start as u64,
        end: end as u64,
        text: Slice::new(front),
    })
}
