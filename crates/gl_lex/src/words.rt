// The words of a template: names, paths, numbers, strings and parameters. Each function gives what is left after one.
ghost use Rattle.std.specs.Prelude.{◌≡◌, ◌∷◌, ◌-◌, [], IsTrue, option_map, map, length, drop};
ghost use Rattle.std.specs.List.{list_any};
ghost use Rattle.std.specs.Str.{bytes_eq};
ghost use Rattle.gl_base.specs.Names.{has_text};
ghost use Rattle.gl_ast.specs.Marks.{is_white};
ghost use Rattle.gl_ast.specs.Scans.{after_all};
ghost use Rattle.gl_ast.specs.Words as w;

use crate::class::{Class, in_name};
use crate::pieces::{Piece, after_pieces};
use crate::scan::{after, after_all, after_any, after_closing, after_word};

const RESERVED: [&str; 7] = [
    "this",
    "true",
    "false",
    "null",
    "undefined",
    "else",
    "yield",
];

/// What was read where `rest` is left.
pub fn read_part<'a>(bytes: &'a [u8], rest: &[u8]) -> &'a [u8]
    ensures { result.now ≡ w.read_part bytes.now rest.now }
{
    &bytes[..bytes.len().saturating_sub(rest.len())]
}

// Whether the name is one of the words.
fn is_one_of(words: &[&str], name: &[u8]) -> bool
    ensures { result ≡ list_any (λ word. bytes_eq name.now word.now) words.now }
{
    words.iter().any(|word| name == word.as_bytes())
}

// Whether the name is reserved.
fn is_reserved(name: &[u8]) -> bool
    ensures { result ≡ has_text name.now w.reserved }
{
    is_one_of(&RESERVED, name)
}

/// Whether no block has the name.
pub fn is_barred(name: &[u8]) -> bool
    ensures { result ≡ has_text name.now w.barred }
{
    name == b"inverse".as_slice() || is_reserved(name)
}

/// After white space, or none.
pub fn after_white(bytes: &[u8]) -> &[u8]
    ensures { result.now ≡ after_all is_white bytes.now }
{
    after_all(Class::White, bytes)
}

// After at least one character of white space.
fn after_space(bytes: &[u8]) -> Option<&[u8]>
    ensures { option_map (λ r. r.now) result ≡ w.after_space bytes.now }
{
    after_word(Class::White, Class::White, bytes)
}

/// After a name.
pub fn after_name(bytes: &[u8]) -> Option<&[u8]>
    ensures { option_map (λ r. r.now) result ≡ w.after_name bytes.now }
{
    after_word(Class::NameStart, Class::Name, bytes)
}

// After a name that is not reserved.
#[tactic(auto, unfolding(gl_ast::specs::Words::after_free_name))]
fn after_free_name(bytes: &[u8]) -> Option<&[u8]>
    ensures { option_map (λ r. r.now) result ≡ w.after_free_name bytes.now }
{
    let rest = after_name(bytes)?;
    if is_reserved(read_part(bytes, rest)) {
        return None;
    }
    Some(rest)
}

// What is left of a name without its last character, where `rest` is left of it.
fn from_last<'a>(bytes: &'a [u8], rest: &[u8]) -> &'a [u8]
    ensures { result.now ≡ drop (length bytes.now - length rest.now - 1) bytes.now }
{
    &bytes[bytes.len().saturating_sub(rest.len()).saturating_sub(1)..]
}

// After the longest name of a block.
#[tactic(auto, unfolding(gl_ast::specs::Words::after_block_name))]
fn after_block_name(bytes: &[u8]) -> Option<&[u8]>
    ensures { option_map (λ r. r.now) result ≡ w.after_block_name bytes.now }
{
    let rest = after_name(bytes)?;
    if is_barred(read_part(bytes, rest)) {
        return Some(from_last(bytes, rest));
    }
    Some(rest)
}

// After `:` and the name of a block.
#[tactic(auto, unfolding(gl_ast::specs::Words::after_slot_name))]
fn after_slot_name(bytes: &[u8]) -> Option<&[u8]>
    ensures { option_map (λ r. r.now) result ≡ w.after_slot_name bytes.now }
{
    let name = after(b":", bytes)?;
    after_block_name(name)
}

// After a part of a class name.
fn after_class_part(bytes: &[u8]) -> Option<&[u8]>
    ensures { option_map (λ r. r.now) result ≡ w.after_class_part bytes.now }
{
    after_word(Class::Capital, Class::ClassPart, bytes)
}

/// After a further part of a class name.
#[tactic(auto, unfolding(gl_ast::specs::Words::after_more_class))]
pub fn after_more_class(bytes: &[u8]) -> Option<&[u8]>
    ensures { option_map (λ r. r.now) result ≡ w.after_more_class bytes.now }
{
    let part = after(b"::", bytes)?;
    after_class_part(part)
}

#[tactic(auto, unfolding(gl_ast::specs::Words::after_class))]
fn after_class(bytes: &[u8]) -> Option<&[u8]>
    ensures { option_map (λ r. r.now) result ≡ w.after_class bytes.now }
{
    let more = after_class_part(bytes)?;
    Some(after_pieces(Piece::ClassPart, more))
}

/// After the name of an element or of a class.
#[tactic(auto, unfolding(gl_ast::specs::Words::after_element_name))]
pub fn after_element_name(bytes: &[u8]) -> Option<&[u8]>
    ensures { option_map (λ r. r.now) result ≡ w.after_element_name bytes.now }
{
    match after_word(Class::Small, Class::Tag, bytes) {
        Some(rest) => Some(rest),
        None => after_class(bytes),
    }
}

/// After what a tag names: an element, a class, or a block that is passed.
#[tactic(auto, unfolding(gl_ast::specs::Words::after_label))]
pub fn after_label(bytes: &[u8]) -> Option<&[u8]>
    ensures { option_map (λ r. r.now) result ≡ w.after_label bytes.now }
{
    match after_element_name(bytes) {
        Some(rest) => Some(rest),
        None => after_slot_name(bytes),
    }
}

/// After `@` and a name.
#[tactic(auto, unfolding(gl_ast::specs::Words::after_argument))]
pub fn after_argument(bytes: &[u8]) -> Option<&[u8]>
    ensures { option_map (λ r. r.now) result ≡ w.after_argument bytes.now }
{
    let name = after(b"@", bytes)?;
    after_name(name)
}

/// After white space and a name that is not reserved.
#[tactic(auto, unfolding(gl_ast::specs::Words::after_spaced_name))]
pub fn after_spaced_name(bytes: &[u8]) -> Option<&[u8]>
    ensures { option_map (λ r. r.now) result ≡ w.after_spaced_name bytes.now }
{
    let name = after_space(bytes)?;
    after_free_name(name)
}

// After the names of parameters and the white space round them.
#[tactic(auto, unfolding(gl_ast::specs::Words::after_names))]
fn after_names(bytes: &[u8]) -> Option<&[u8]>
    ensures { option_map (λ r. r.now) result ≡ w.after_names bytes.now }
{
    let more = after_free_name(after_white(bytes))?;
    Some(after_white(after_pieces(Piece::Name, more)))
}

/// After parameters: `as`, white space, `|`, names, `|`.
#[tactic(auto, unfolding(gl_ast::specs::Words::after_parameters))]
pub fn after_parameters(bytes: &[u8]) -> Option<&[u8]>
    ensures { option_map (λ r. r.now) result ≡ w.after_parameters bytes.now }
{
    let space = after(b"as", bytes)?;
    let bar = after_space(space)?;
    let names = after(b"|", bar)?;
    let end = after_names(names)?;
    after(b"|", end)
}

// After digits.
fn after_digits(bytes: &[u8]) -> Option<&[u8]>
    ensures { option_map (λ r. r.now) result ≡ w.after_digits bytes.now }
{
    after_word(Class::Digit, Class::Digit, bytes)
}

// After `@` and a name, or after a name.
#[tactic(auto, unfolding(gl_ast::specs::Words::after_head))]
fn after_head(bytes: &[u8]) -> Option<&[u8]>
    ensures { option_map (λ r. r.now) result ≡ w.after_head bytes.now }
{
    match after_argument(bytes) {
        Some(rest) => Some(rest),
        None => after_name(bytes),
    }
}

// After a name or digits.
fn after_member(bytes: &[u8]) -> Option<&[u8]>
    ensures { option_map (λ r. r.now) result ≡ w.after_member bytes.now }
{
    match after_name(bytes) {
        Some(rest) => Some(rest),
        None => after_digits(bytes),
    }
}

/// After `.` and a segment.
#[tactic(auto, unfolding(gl_ast::specs::Words::after_segment))]
pub fn after_segment(bytes: &[u8]) -> Option<&[u8]>
    ensures { option_map (λ r. r.now) result ≡ w.after_segment bytes.now }
{
    let member = after(b".", bytes)?;
    after_member(member)
}

/// After a path.
#[tactic(auto, unfolding(gl_ast::specs::Words::after_path))]
pub fn after_path(bytes: &[u8]) -> Option<&[u8]>
    ensures { option_map (λ r. r.now) result ≡ w.after_path bytes.now }
{
    let segments = after_head(bytes)?;
    Some(after_pieces(Piece::Segment, segments))
}

// Whether a character of a name comes next.
fn goes_on(bytes: &[u8]) -> bool
    ensures { result ≡ w.goes_on bytes.now }
{
    match bytes {
        [b, ..] => in_name(*b),
        [] => false,
    }
}

// Whether the digits spell a number that is not too large.
#[tactic(auto, unfolding(gl_ast::specs::Words::fits))]
fn fits(digits: &[u8]) -> bool
    ensures { result ≡ w.fits digits.now }
{
    let mut number: u64 = 0;
    let mut rest = digits;
    while let [digit, tail @ ..] = rest {
        if number > GREATEST {
            return false;
        }
        number = number * 10 + digit.saturating_sub(b'0') as u64;
        rest = tail;
    }
    number <= GREATEST
}

// The greatest whole number of a template.
const GREATEST: u64 = 9_007_199_254_740_991;

// After digits of a number that is not too large, with no name's character after them.
#[tactic(auto, unfolding(gl_ast::specs::Words::after_natural))]
fn after_natural(bytes: &[u8]) -> Option<&[u8]>
    ensures { option_map (λ r. r.now) result ≡ w.after_natural bytes.now }
{
    let rest = after_digits(bytes)?;
    if goes_on(rest) {
        return None;
    }
    if !fits(read_part(bytes, rest)) {
        return None;
    }
    Some(rest)
}

/// After a number.
#[tactic(auto, unfolding(gl_ast::specs::Words::after_number))]
pub fn after_number(bytes: &[u8]) -> Option<&[u8]>
    ensures { option_map (λ r. r.now) result ≡ w.after_number bytes.now }
{
    after_natural(after_any(b"-", bytes))
}

/// After a string in this quote.
#[tactic(auto, unfolding(gl_ast::specs::Words::after_string))]
pub fn after_string(quote: u8, bytes: &[u8]) -> Option<&[u8]>
    ensures { option_map (λ r. r.now) result ≡ w.after_string quote bytes.now }
{
    let inner = after(&[quote], bytes)?;
    after_closing(quote, inner)
}

/// After an attribute's name.
pub fn after_attribute(bytes: &[u8]) -> Option<&[u8]>
    ensures { option_map (λ r. r.now) result ≡ w.after_attribute bytes.now }
{
    after_word(Class::AttributeStart, Class::Attribute, bytes)
}

/// After a value without quotes.
pub fn after_unquoted(bytes: &[u8]) -> Option<&[u8]>
    ensures { option_map (λ r. r.now) result ≡ w.after_unquoted bytes.now }
{
    after_word(Class::Unquoted, Class::Unquoted, bytes)
}
