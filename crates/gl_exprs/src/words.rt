// What the texts of tokens stand for.
ghost use Rattle.std.specs.Prelude.{◌≡◌, ◌++◌, ◌==◌, [], IfOk, OnOk, drop, take};
ghost use Rattle.std.specs.Str.{bytes_eq};
ghost use Rattle.std.specs.List.{prefix_len};
ghost use Rattle.gl_ast.specs.Marks.{is_white};
ghost use Rattle.gl_ast.specs.TokenText as text;
ghost use Rattle.gl_exprs.specs.Pieces.{is_none_left, is_kept, front, some_word};

use crate::scan::Scan;
use gl_ast::{Names, Slice, Str};
use std::alloc::{AllocError, Global};

// White space: blank, tab, line feed, form feed and carriage return.
fn is_white(c: char) -> bool
    ensures { result ≡ is_white c }
{
    matches!(c, ' ' | '\t' | '\n' | '\x0c' | '\r')
}

// Whether no character is left.
pub(crate) fn is_end(scan: &Scan) -> bool
    ensures { result ≡ is_none_left scan.now }
{
    let mut ahead = scan.copy();
    ahead.next().is_none()
}

// Passes over two characters.
fn skip_two(scan: &mut Scan)
    ensures { scan.new ≡ drop 2 scan.old }
{
    let _ = scan.next();
    let _ = scan.next();
}

/// The text without its first character.
pub fn without_first(alloc: Global, raw: &Slice) -> Result<Str, AllocError>
    ensures { IfOk result (λ t. t ≡ drop 1 raw.now) }
{
    let mut scan = Scan::new(raw);
    let _ = scan.next();
    Str::from_str(alloc, scan.as_str())
}

// Whether this character comes next, and is not the last.
fn stands_inside(scan: &Scan, wanted: char) -> bool
    ensures { result ≡ text.leads (λ c. wanted == c) (front scan.now) }
{
    let mut ahead = scan.copy();
    match ahead.next() {
        Some(c) => wanted == c && !is_end(&ahead),
        None => false,
    }
}

// Whether the character of a string before these stands for itself.
fn is_kept(quote: char, c: char, scan: &Scan) -> bool
    ensures { result ≡ is_kept quote c scan.now }
{
    !is_end(scan) && !(c == '\\' && stands_inside(scan, quote))
}

// Adds the characters up to the one before the last, where a `\` directly before a quote stands for the quote alone.
fn push_unescaped(out: &mut Str, scan: &mut Scan, quote: char) -> Result<(), AllocError>
    ensures { OnOk result (out.new ≡ out.old ++ text.unescaped quote (front scan.old)) }
{
    while let Some(c) = scan.next() {
        if is_kept(quote, c, scan) {
            out.push_char(c)?;
        }
    }
    Ok(())
}

/// The text that a string stands for: what is between its quotes, where a `\` directly before such a quote is left out.
pub fn string_of(alloc: Global, raw: &Slice) -> Result<Str, AllocError>
    ensures { IfOk result (λ t. t ≡ text.string_of raw.now) }
{
    let mut out = Str::new(alloc);
    let mut scan = Scan::new(raw);
    if let Some(quote) = scan.next() {
        push_unescaped(&mut out, &mut scan, quote)?;
    }
    Ok(out)
}

// Adds so many of the characters that come next, or all of them where there are fewer.
fn push_first(out: &mut Str, scan: &mut Scan, count: usize) -> Result<(), AllocError>
    ensures { OnOk result (out.new ≡ out.old ++ take count scan.old) }
{
    for _ in 0..count {
        if let Some(c) = scan.next() {
            out.push_char(c)?;
        }
    }
    Ok(())
}

/// The text of a comment, which stands between `<!--` and `-->`.
pub fn comment_of(alloc: Global, raw: &Slice) -> Result<Str, AllocError>
    ensures { IfOk result (λ t. t ≡ text.comment_of raw.now) }
{
    let mut out = Str::new(alloc);
    let mut scan = Scan::new(raw);
    let count = raw.len().saturating_sub(7);
    skip_two(&mut scan);
    skip_two(&mut scan);
    push_first(&mut out, &mut scan, count)?;
    Ok(out)
}

// What ends the name of an end tag.
fn ends_tag_name(c: char) -> bool
    ensures { result ≡ text.ends_tag_name c }
{
    is_white(c) || c == '>'
}

/// Whether the text of an end tag has the name that these characters are.
pub fn is_end_of(tag: &Slice, name: &Scan) -> bool
    ensures { result ≡ bytes_eq (text.end_name_of tag.now) name.now }
{
    let mut rest = Scan::new(tag);
    let mut want = name.copy();
    skip_two(&mut rest);
    while let Some(c) = rest.next() {
        if ends_tag_name(c) {
            return is_end(&want);
        }
        match want.next() {
            Some(d) if d == c => {}
            _ => return false,
        }
    }
    is_end(&want)
}

// Passes over the characters up to the first bar, and over the bar.
fn skip_past_bar(scan: &mut Scan)
    ensures { scan.new ≡ text.beyond 124 scan.old }
{
    while let Some(c) = scan.next() {
        if c == '|' {
            break;
        }
    }
}

// Adds a word, where it is not empty, and gives the empty one.
fn add_word(alloc: Global, names: &mut Names, word: Str) -> Result<Str, AllocError>
    ensures added { OnOk result (names.new ≡ names.old ++ some_word word) }
    ensures empty { IfOk result (λ w. w ≡ []) }
{
    if word.is_empty() {
        return Ok(word);
    }
    names.push(word)?;
    Ok(Str::new(alloc))
}

// The words up to the first bar.
fn words_to_bar(alloc: Global, scan: &mut Scan) -> Result<Names, AllocError>
    ensures { IfOk result (λ ns. ns ≡ text.words (text.up_to 124 scan.old)) }
{
    let mut names = Names::new(alloc);
    let mut word = Str::new(alloc);
    while let Some(c) = scan.next() {
        if c == '|' {
            break;
        }
        if is_white(c) {
            word = add_word(alloc, &mut names, word)?;
        } else {
            word.push_char(c)?;
        }
    }
    let _ = add_word(alloc, &mut names, word)?;
    Ok(names)
}

/// The names of parameters, which stand between two bars with white space between them.
pub fn parameters_of(alloc: Global, raw: &Slice) -> Result<Names, AllocError>
    ensures { IfOk result (λ ns. ns ≡ text.parameters_of raw.now) }
{
    let mut scan = Scan::new(raw);
    skip_past_bar(&mut scan);
    words_to_bar(alloc, &mut scan)
}
