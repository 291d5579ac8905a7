// A place among tokens.
ghost use Rattle.std.specs.Prelude.{◌≡◌, ◌↔◌, ◌&&◌, [], IsTrue, drop, slice_get};
ghost use Rattle.std.specs.Option.{option_copied};
ghost use Rattle.std.specs.Str.{bytes_eq};
ghost use Rattle.gl_ast.specs.declared.token.TokenKind.TheVariants as k;
ghost use Rattle.gl_base.specs.Answers.{Gives};
ghost use Rattle.gl_base.specs.Texts.{is_ascii_text};
ghost use Rattle.gl_exprs.specs.Fault.{Fails};
ghost use Rattle.gl_exprs.specs.Take.{same_kind, stands, take_kind, stands_word, take_word};

use crate::Misread;
use gl_ast::{Slice, Token, TokenKind};
use std::marker::Model;

/// The tokens that are left to read. Contracts see their list.
#[derive(Drop)]
pub struct Cursor<'a> {
    rest: &'a [Token<'a>],
}

impl<'a> Model for Cursor<'a> {
    ghost use Rattle.std.specs.Prelude.{List};
    ghost use Rattle.gl_ast.specs.declared.token.Token.{Token};
    ghost use Rattle.std.specs.Coded.{coded_list};
    ghost use Rattle.gl_ast.specs.TokenCode.{token_code};

    ghost Value = { List Token };

    ghost coded = { coded_list token_code };

    ghost view = { λ c. c.rest.now };
}

// Whether the two are one kind.
fn same_kind(a: TokenKind, b: TokenKind) -> bool
    ensures { result ≡ same_kind a b }
{
    a == b
}

// Whether the token is a path that is this word.
#[tactic(auto, using(gl_base::proofs::Chars::chars_of_ascii))]
fn is_word(token: &Token, word: &str) -> bool
    requires { IsTrue (is_ascii_text word.now) }
    ensures { result ≡ (same_kind token.now.kind k.Path && bytes_eq word.now token.now.text) }
{
    same_kind(token.kind, TokenKind::Path) && token.text.is(word)
}

impl<'a> Cursor<'a> {
    /// A cursor before these tokens.
    pub fn new(list: &'a [Token<'a>]) -> Cursor<'a>
        ensures { result ≡ list.now }
    {
        Cursor { rest: list }
    }

    /// Whether no token is left.
    pub fn is_empty(&self) -> bool
        ensures { IsTrue result ↔ (self.now ≡ []) }
    {
        self.rest.is_empty()
    }

    /// Another cursor before the same tokens.
    pub fn copy(&self) -> Cursor<'a>
        ensures { result ≡ self.now }
    {
        Cursor { rest: self.rest }
    }

    /// A cursor after the next token, if there is one.
    pub fn ahead(&self) -> Cursor<'a>
        ensures { result ≡ drop 1 self.now }
    {
        match self.rest {
            [] => Cursor { rest: self.rest },
            [_, tail @ ..] => Cursor { rest: tail },
        }
    }

    /// Whether the next token is of this kind.
    #[tactic(auto, unfolding(crate::specs::Take::stands))]
    pub fn stands(&self, kind: TokenKind) -> bool
        ensures { result ≡ stands kind self.now }
    {
        match self.rest {
            [] => false,
            [token, ..] => same_kind(token.kind, kind),
        }
    }

    /// Takes the next token, which is of this kind, and gives its text.
    #[tactic(auto, unfolding(crate::specs::Take::take_kind))]
    pub fn take(&mut self, kind: TokenKind) -> Result<&'a Slice<'a>, Misread>
        ensures { Gives Fails (λ t. (t.now, self.new)) result (take_kind kind self.old) }
    {
        match self.rest {
            [token, tail @ ..] if same_kind(token.kind, kind) => {
                self.rest = tail;
                Ok(&token.text)
            }
            _ => Err(Misread::NotSpelled),
        }
    }

    /// Whether the next token is a path that is this word of ASCII.
    #[tactic(auto, unfolding(crate::specs::Take::stands_word))]
    pub fn stands_word(&self, word: &str) -> bool
        requires { IsTrue (is_ascii_text word.now) }
        ensures { result ≡ stands_word word.now self.now }
    {
        match self.rest {
            [] => false,
            [token, ..] => is_word(token, word),
        }
    }

    /// Takes the next token, which is a path that is this word of ASCII.
    #[tactic(auto, unfolding(crate::specs::Take::take_word))]
    pub fn take_word(&mut self, word: &str) -> Result<(), Misread>
        requires { IsTrue (is_ascii_text word.now) }
        ensures { Gives Fails (λ _. self.new) result (take_word word.now self.old) }
    {
        match self.rest {
            [token, tail @ ..] if is_word(token, word) => {
                self.rest = tail;
                Ok(())
            }
            _ => Err(Misread::NotSpelled),
        }
    }

    /// The next token, if there is one.
    pub fn first(&self) -> Option<&'a Token<'a>>
        ensures { option_copied result ≡ slice_get self.now 0 }
    {
        self.rest.first()
    }
}
