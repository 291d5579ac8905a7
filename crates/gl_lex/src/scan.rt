// Reading forward: each function gives what is left after something that stands at the front of the bytes.
ghost use Rattle.std.specs.Prelude.{◌≡◌, false, option_map};
ghost use Rattle.gl_ast.specs.Scans.{after, begins, after_any, after_all, after_word, from_first, up_to_first, after_run, after_closing};
ghost use Rattle.gl_lex.specs.Class.{test, shows};

use crate::class::Class;
use crate::sign::Sign;

/// After the bytes of `front`.
pub fn after<'a>(front: &[u8], bytes: &'a [u8]) -> Option<&'a [u8]>
    ensures { option_map (λ r. r.now) result ≡ after front.now bytes.now }
{
    bytes.strip_prefix(front)
}

/// Whether the bytes begin with those of `front`.
pub fn begins(front: &[u8], bytes: &[u8]) -> bool
    ensures { result ≡ begins front.now bytes.now }
{
    bytes.starts_with(front)
}

/// After the bytes of `front`, where they stand there.
pub fn after_any<'a>(front: &[u8], bytes: &'a [u8]) -> &'a [u8]
    ensures { result.now ≡ after_any front.now bytes.now }
{
    match after(front, bytes) {
        Some(rest) => rest,
        None => bytes,
    }
}

/// After all bytes of the kind.
pub fn after_all(class: Class, bytes: &[u8]) -> &[u8]
    ensures { result.now ≡ after_all (test class) bytes.now }
{
    let mut rest = bytes;
    while let [b, tail @ ..] = rest {
        if !class.has(*b) {
            return rest;
        }
        rest = tail;
    }
    rest
}

/// After a byte of the first kind and all that follow it and are of the second.
pub fn after_word(first: Class, more: Class, bytes: &[u8]) -> Option<&[u8]>
    ensures { option_map (λ r. r.now) result ≡ after_word (test first) (test more) bytes.now }
{
    match bytes {
        [b, tail @ ..] if first.has(*b) => Some(after_all(more, tail)),
        _ => None,
    }
}

/// From the first place on at which the sign shows.
pub fn from_first(sign: Sign, bytes: &[u8]) -> Option<&[u8]>
    ensures { option_map (λ r. r.now) result ≡ from_first (shows sign) bytes.now }
{
    let mut rest = bytes;
    while let [_, tail @ ..] = rest {
        if sign.shows(rest) {
            return Some(rest);
        }
        rest = tail;
    }
    None
}

/// The same, or nothing where there is no such place.
pub fn up_to_first(sign: Sign, bytes: &[u8]) -> &[u8]
    ensures { result.now ≡ up_to_first (shows sign) bytes.now }
{
    let mut rest = bytes;
    while let [_, tail @ ..] = rest {
        if sign.shows(rest) {
            return rest;
        }
        rest = tail;
    }
    rest
}

/// After a run of at least one byte, up to the first place at which the sign shows.
pub fn after_run(sign: Sign, bytes: &[u8]) -> Option<&[u8]>
    ensures { option_map (λ r. r.now) result ≡ after_run (shows sign) bytes.now }
{
    match bytes {
        [_, tail @ ..] if !sign.shows(bytes) => Some(up_to_first(sign, tail)),
        _ => None,
    }
}

/// After the quote that closes a string. A `\` directly before a quote takes away its meaning.
pub fn after_closing(quote: u8, bytes: &[u8]) -> Option<&[u8]>
    ensures { option_map (λ r. r.now) result ≡ after_closing quote false bytes.now }
{
    let mut rest = bytes;
    let mut escaped = false;
    while let [b, tail @ ..] = rest {
        if *b == quote && !escaped {
            return Some(tail);
        }
        escaped = *b == b'\\';
        rest = tail;
    }
    None
}
