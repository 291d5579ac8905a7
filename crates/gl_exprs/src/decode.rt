// Character references.
ghost use Rattle.std.specs.Prelude.{◌≡◌, ◌<◌, ◌==◌, IfOk, IfSome, MatchOption, None, drop};
ghost use Rattle.std.specs.Str.{chars};
ghost use Rattle.gl_base.specs.Names.{named};
ghost use Rattle.gl_ast.specs.Marks.{is_between};
ghost use Rattle.gl_ast.specs.References.{references};
ghost use Rattle.gl_ast.specs.TokenText as text;
ghost use Rattle.gl_exprs.specs.Referring.{digit_in, code_in, IsReference};

use crate::scan::Scan;
use crate::words::is_end;
use gl_ast::{Slice, Str};
use std::alloc::{AllocError, Global};

// The greatest code point.
const GREATEST: u32 = 1114111;

// A code point from 1 on that is no surrogate.
fn referable(n: u32) -> Option<char>
    ensures { result ≡ text.referable n }
{
    if n == 0 {
        return None;
    }
    char::from_u32(n)
}

fn is_between(low: char, high: char, c: char) -> bool
    ensures { result ≡ is_between low high c }
{
    low <= c && c <= high
}

// The value of a digit.
fn digit_in(hexadecimal: bool, c: char) -> Option<u32>
    ensures value { result ≡ digit_in hexadecimal c }
    ensures within { IfSome result (λ d. d < 16) }
{
    if is_between('0', '9', c) {
        Some(c as u32 - 48)
    } else if hexadecimal && is_between('a', 'f', c) {
        Some(c as u32 - 87)
    } else if hexadecimal && is_between('A', 'F', c) {
        Some(c as u32 - 55)
    } else {
        None
    }
}

// The code point that digits spell, at least one.
fn code_in(hexadecimal: bool, scan: &mut Scan) -> Option<char>
    ensures { result ≡ code_in hexadecimal scan.old }
{
    if is_end(scan) {
        return None;
    }
    let base = if hexadecimal { 16 } else { 10 };
    let mut n: u32 = 0;
    while let Some(c) = scan.next() {
        match digit_in(hexadecimal, c) {
            Some(digit) => n = n * base + digit,
            None => return None,
        }
        if n > GREATEST {
            return None;
        }
    }
    referable(n)
}

// After `#`: digits, or `x` or `X` and hexadecimal digits.
#[tactic(auto, using(crate::proofs::References::codes))]
fn numeric_code(scan: &mut Scan) -> Option<char>
    ensures { result ≡ text.numeric_code scan.old }
{
    let mut ahead = scan.copy();
    match ahead.next() {
        None => None,
        Some('x') => code_in(true, &mut ahead),
        Some('X') => code_in(true, &mut ahead),
        Some(_) => code_in(false, scan),
    }
}

// The code point of a name.
fn named_code(name: &str) -> Option<char>
    ensures { result ≡ named (chars name.now) references }
{
    match gl_names::references().find(name) {
        Some(number) => char::from_u32(u32::from(number)),
        None => None,
    }
}

// What stands between `&` and `;`.
fn reference_code(name: &str) -> Option<char>
    ensures { result ≡ text.reference_code (chars name.now) }
{
    let mut scan = Scan::of(name);
    match scan.next() {
        None => None,
        Some('#') => numeric_code(&mut scan),
        Some(_) => named_code(name),
    }
}

// Whether `;` comes next.
fn ends(scan: &Scan) -> bool
    ensures { result ≡ text.leads (λ c. c == 59) scan.now }
{
    let mut ahead = scan.copy();
    match ahead.next() {
        Some(c) => c == ';',
        None => false,
    }
}

// The character of a reference whose `&` stands before these characters, and what follows it.
fn reference_in<'a>(scan: &Scan<'a>) -> Option<(char, Scan<'a>)>
    ensures { MatchOption result (text.reference_in scan.now ≡ None) (IsReference scan.now) }
{
    let mut ahead = scan.copy();
    let name = ahead.run();
    if ends(&ahead) {
        let _ = ahead.next();
        match reference_code(name) {
            Some(c) => Some((c, ahead)),
            None => None,
        }
    } else {
        None
    }
}

// What an `&` before these characters stands for; a reference's characters are passed over.
fn reference(scan: &mut Scan) -> char
    ensures value { result ≡ (text.reference_or_sign (text.reference_in scan.old) scan.old).0 }
    ensures rest { scan.new ≡ drop (text.reference_or_sign (text.reference_in scan.old) scan.old).1 scan.old }
{
    match reference_in(scan) {
        Some((c, rest)) => {
            *scan = rest;
            c
        }
        None => '&',
    }
}

/// The text with its character references decoded, once.
#[tactic(auto, unfolding(gl_ast::specs::TokenText::decoded))]
pub fn decoded(alloc: Global, raw: &Slice) -> Result<Str, AllocError>
    ensures { IfOk result (λ t. t ≡ text.decoded raw.now) }
{
    let mut out = Str::new(alloc);
    let mut scan = Scan::new(raw);
    while let Some(c) = scan.next() {
        if c == '&' {
            out.push_char(reference(&mut scan))?;
        } else {
            out.push_char(c)?;
        }
    }
    Ok(out)
}
