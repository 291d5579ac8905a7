// A text that is lent.
ghost use Rattle.std.specs.Prelude.{◌≡◌, ◌↔◌, [], IfOk, IsTrue, encode_utf8_all, length};
ghost use Rattle.std.specs.Str.{chars, bytes_eq, IsUtf8};

use crate::Str;
use std::alloc::{AllocError, Global};
use std::marker::Model;

/// A text that stands in another one, as that of a token in its template. Contracts see the list of its characters.
#[derive(Debug, Drop)]
pub struct Slice<'a> {
    inner: &'a str,
}

impl<'a> Model for Slice<'a> {
    ghost use Rattle.std.specs.Prelude.{ℕ, List};
    ghost use Rattle.std.specs.Str.{chars, IsUtf8};

    ghost Value = { List ℕ };

    ghost view = { λ t. chars t.inner.now };

    ghost invariant = { λ t. IsUtf8 t.inner.now };
}

#[tactic(auto, using(gl_base::proofs::Chars::char_laws))]
impl<'a> Slice<'a> {
    /// The text of a string slice. It takes no memory.
    pub fn new(text: &'a str) -> Slice<'a>
        ensures { result ≡ chars text.now }
    {
        Slice { inner: text }
    }

    /// The whole of a text. It takes no memory.
    pub fn of(text: &'a Str) -> Slice<'a>
        ensures { result ≡ text.now }
    {
        Slice {
            inner: text.as_str(),
        }
    }

    /// The text as Rust's string slice.
    pub fn as_str(&self) -> &'a str
        ensures bytes { result.now ≡ encode_utf8_all self.now }
        ensures value { chars result.now ≡ self.now }
        ensures utf8 { IsUtf8 result.now }
    {
        self.inner
    }

    /// Whether it has no character.
    pub fn is_empty(&self) -> bool
        ensures { IsTrue result ↔ (self.now ≡ []) }
    {
        self.inner.chars().next().is_none()
    }

    /// How many characters it has.
    pub fn len(&self) -> usize
        ensures { result ≡ length self.now }
    {
        self.inner.chars().count()
    }

    /// A text of its own with the same characters.
    pub fn copy(&self, alloc: Global) -> Result<Str, AllocError>
        ensures { IfOk result (λ t. t ≡ self.now) }
    {
        Str::from_str(alloc, self.inner)
    }

    /// Whether it has the characters of `text`.
    #[tactic(auto, using(gl_base::proofs::Chars::equal_laws))]
    pub fn is(&self, text: &str) -> bool
        ensures { result ≡ bytes_eq (chars text.now) self.now }
    {
        text == self.inner
    }
}
