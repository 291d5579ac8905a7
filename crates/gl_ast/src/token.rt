// Tokens of a template.
ghost use Rattle.std.specs.Prelude.{◌≡◌, [], ◌∷◌, ◌++◌, OnOk, OnErr, length, slice_get, option_map};

use crate::Slice;
use std::alloc::{AllocError, Global};
use std::marker::Model;

/// What a token is. `Text` serves the content of a template and quoted values. White space between tokens is no
/// token.
#[derive(Clone, Copy, Debug, PartialEq, Eq)]
pub enum TokenKind {
    /// A run of plain characters.
    Text,
    /// `<!--` up to the first `-->`.
    HtmlComment,
    /// `{{!--` up to the first `--}}` or `--~}}`, or `{{!` up to the first `}}`.
    MustacheComment,
    /// `</`, a name, or `:` and the name of a block, and `>`.
    EndTag,
    /// `<` and a name, or `<:` and the name of a block.
    TagOpening,
    /// `{{` or `{{~`.
    OpenMustache,
    /// `{{#` or `{{~#`.
    OpenBlock,
    /// `{{/` or `{{~/`.
    OpenClosing,
    /// An attribute's name.
    Attribute,
    /// `@` and a name, in a tag.
    Argument,
    /// `...attributes`.
    Spread,
    /// `=`.
    Equals,
    /// A value without quotes.
    Unquoted,
    /// The quote that opens a value.
    OpenQuote,
    /// The quote that closes a value.
    CloseQuote,
    /// `>`.
    TagEnd,
    /// `/>`.
    SelfEnd,
    /// `as |..|`.
    Parameters,
    /// A name and its segments.
    Path,
    /// A whole number.
    Number,
    /// A text in quotes, within a mustache.
    StringLit,
    /// `(`.
    OpenParen,
    /// `)`.
    CloseParen,
    /// `}}` or `~}}`.
    CloseMustache,
}

/// A token: what it is, the places of its first byte and of the one after its last, counted from 0, and its text,
/// which is the slice of the template between them, or what of it is not removed.
#[derive(Debug, Drop)]
pub struct Token<'a> {
    pub kind: TokenKind,
    pub start: u64,
    pub end: u64,
    pub text: Slice<'a>,
}

/// A list of tokens.
#[derive(Debug, Drop)]
pub struct Tokens<'a> {
    list: Vec<Token<'a>>,
}

impl<'a> Model for Tokens<'a> {
    ghost use Rattle.std.specs.Prelude.{List};
    ghost use Rattle.gl_ast.specs.declared.token.Token.{Token};
    ghost use Rattle.std.specs.Coded.{coded_list};
    ghost use Rattle.gl_ast.specs.TokenCode.{token_code};

    ghost Value = { List Token };

    ghost coded = { coded_list token_code };

    ghost view = { λ t. t.list.items };
}

impl<'a> Tokens<'a> {
    /// The empty list. It takes no memory.
    pub fn new(alloc: Global) -> Tokens<'a>
        ensures { result ≡ [] }
    {
        Tokens {
            list: Vec::new(alloc),
        }
    }

    /// The list of the tokens of a vector. It takes no memory.
    pub fn from_vec(list: Vec<Token<'a>>) -> Tokens<'a>
        ensures { result ≡ list.entry.items }
    {
        Tokens { list }
    }

    /// Gives the vector back. It takes no memory.
    pub fn into_vec(self) -> Vec<Token<'a>>
        ensures { result.items ≡ self.entry }
    {
        self.list
    }

    pub fn as_slice(&self) -> &[Token<'a>]
        ensures { result.now ≡ self.now }
    {
        self.list.as_slice()
    }

    pub fn len(&self) -> usize
        ensures { result ≡ length self.now }
    {
        self.list.len()
    }

    /// Adds a token at the end.
    pub fn push(&mut self, token: Token<'a>) -> Result<(), AllocError>
        ensures ok { OnOk result (self.new ≡ self.old ++ token.entry ∷ []) }
        ensures err { OnErr result (self.new ≡ self.old) }
    {
        self.list.push(token)?;
        Ok(())
    }
}
