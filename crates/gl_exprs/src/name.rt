// Names that are not reserved.
ghost use Rattle.std.specs.Prelude.{◌≡◌, ◌==◌, IsTrue, map};
ghost use Rattle.std.specs.List.{list_any, list_all};
ghost use Rattle.std.specs.Str.{bytes_eq};
ghost use Rattle.gl_base.specs.Answers.{Gives};
ghost use Rattle.gl_base.specs.Names.{has_text};
ghost use Rattle.gl_base.specs.Texts.{is_ascii_text};
ghost use Rattle.gl_ast.specs.Marks.{starts_name, in_name};
ghost use Rattle.gl_ast.specs.TokenText as text;
ghost use Rattle.gl_ast.specs.Words.{reserved, barred};
ghost use Rattle.gl_exprs.specs.Fault.{Fails};
ghost use Rattle.gl_exprs.specs.Pieces.{ascii_words};
ghost use Rattle.gl_exprs.specs.ReadExpr as read;

use crate::Misread;
use crate::cursor::Cursor;
use crate::scan::Scan;
use gl_ast::{Slice, Str, TokenKind};
use std::alloc::Global;

const RESERVED: [&str; 7] = [
    "this",
    "true",
    "false",
    "null",
    "undefined",
    "else",
    "yield",
];

// Whether the name is one of the words, by bytes.
fn has_bytes(words: &[&str], name: &str) -> bool
    ensures { result ≡ list_any (λ word. bytes_eq name.now word.now) words.now }
{
    words.iter().any(|word| name == *word)
}

// Whether the name is one of the words, which are ASCII.
fn is_one_of(words: &[&str], name: &Slice) -> bool
    requires { IsTrue (ascii_words words.now) }
    ensures { result ≡ has_text name.now (map (λ word. word.now) words.now) }
{
    has_bytes(words, name.as_str())
}

// Whether no block has the name.
fn is_barred(name: &Slice) -> bool
    ensures { result ≡ has_text name.now barred }
{
    is_one_of(&["inverse"], name) || is_reserved(name)
}

// Whether the name is reserved.
pub(crate) fn is_reserved(name: &Slice) -> bool
    ensures { result ≡ has_text name.now reserved }
{
    is_one_of(&RESERVED, name)
}

/// Whether the name is this word of ASCII.
#[tactic(auto, using(gl_base::proofs::Chars::chars_of_ascii))]
pub fn is_text(name: &Slice, word: &str) -> bool
    requires { IsTrue (is_ascii_text word.now) }
    ensures { result ≡ bytes_eq word.now name.now }
{
    name.is(word)
}

// Whether a name may begin with the character.
fn starts_name(c: char) -> bool
    ensures { result ≡ starts_name c }
{
    c.is_ascii_alphabetic() || c == '_' || c == '$'
}

// Whether a name may go on with the character.
fn in_name(c: char) -> bool
    ensures { result ≡ in_name c }
{
    starts_name(c) || c.is_ascii_digit() || c == '-'
}

// Whether a name may go on with all characters that are left.
fn all_in_name(scan: &mut Scan) -> bool
    ensures { result ≡ list_all in_name scan.old }
{
    while let Some(c) = scan.next() {
        if !in_name(c) {
            return false;
        }
    }
    true
}

// Whether the text is a name.
fn is_name(name: &Slice) -> bool
    ensures { result ≡ text.is_name name.now }
{
    let mut scan = Scan::new(name);
    match scan.next() {
        Some(c) => starts_name(c) && all_in_name(&mut scan),
        None => false,
    }
}

/// Whether the text is the name of a block: a name that is neither reserved nor `inverse`.
pub fn is_block_name(name: &Slice) -> bool
    ensures { result ≡ text.is_block_name name.now }
{
    is_name(name) && !is_barred(name)
}

// Whether a dot stands in the text.
fn has_dot(raw: &Slice) -> bool
    ensures { result ≡ text.has_char 46 raw.now }
{
    let mut scan = Scan::new(raw);
    while let Some(c) = scan.next() {
        if c == '.' {
            return true;
        }
    }
    false
}

/// Whether an `@` begins the name.
pub fn is_argument(name: &Slice) -> bool
    ensures { result ≡ text.leads (λ c. c == 64) name.now }
{
    let mut scan = Scan::new(name);
    match scan.next() {
        Some(c) => c == '@',
        None => false,
    }
}

/// Whether a path is one name that is not reserved.
pub fn is_lone(raw: &Slice) -> bool
    ensures { result ≡ read.is_lone raw.now }
{
    !has_dot(raw) && !is_argument(raw) && !is_reserved(raw)
}

// Whether such a path comes next.
#[tactic(auto, unfolding(crate::specs::ReadExpr::stands_name))]
pub(crate) fn stands_name(tokens: &Cursor) -> bool
    ensures { result ≡ read.stands_name tokens.now }
{
    match tokens.first() {
        Some(token) => token.kind == TokenKind::Path && is_lone(&token.text),
        None => false,
    }
}

/// Takes the next token, which is a path of one name that is not reserved, and gives the name.
#[tactic(auto, unfolding(crate::specs::ReadExpr::read_name))]
pub fn name(alloc: Global, tokens: &mut Cursor) -> Result<Str, Misread>
    ensures { Gives Fails (λ n. (n, tokens.new)) result (read.read_name tokens.old) }
{
    let raw = tokens.take(TokenKind::Path)?;
    if !is_lone(raw) {
        return Err(Misread::NotSpelled);
    }
    Ok(raw.copy(alloc)?)
}
