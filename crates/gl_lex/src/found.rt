// What was found at a place.
use gl_ast::{Mode, TokenKind};

/// A token that was read: what it is, what is left after it, and what may follow it.
#[derive(Clone, Copy)]
pub struct Found<'a> {
    pub kind: TokenKind,
    pub rest: &'a [u8],
    pub next: Mode,
}
