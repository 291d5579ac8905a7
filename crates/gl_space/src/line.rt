// Tags that have a line for themselves.
ghost use Rattle.std.specs.Prelude.{◌≡◌, take, drop};
ghost use Rattle.gl_ast.specs.Settling as s;

use crate::trim::is_blank;

// Whether only blanks stand at the end of `front`, back to a line feed or its start.
fn opens_line(front: &[u8]) -> bool
    ensures { result ≡ s.opens_line front.now }
{
    let mut rest = front;
    while let [before @ .., b] = rest {
        if !is_blank(*b) {
            return *b == b'\n';
        }
        rest = before;
    }
    true
}

// Whether a line break stands at the front.
fn breaks_line(back: &[u8]) -> bool
    ensures { result ≡ s.breaks_line back.now }
{
    match back {
        [] => true,
        [b'\n', ..] => true,
        [b'\r', b'\n', ..] => true,
        _ => false,
    }
}

// Whether only blanks stand at the front of `back`, up to a line break or its end.
#[tactic(auto, unfolding(gl_ast::specs::Settling::closes_line))]
fn closes_line(back: &[u8]) -> bool
    ensures { result ≡ s.closes_line back.now }
{
    let mut rest = back;
    while let [b, after @ ..] = rest {
        if !is_blank(*b) {
            return breaks_line(rest);
        }
        rest = after;
    }
    true
}

// The bytes before a place, or all where there are fewer.
fn before(bytes: &[u8], place: u64) -> &[u8]
    ensures { result.now ≡ take place bytes.now }
{
    if place < bytes.len() as u64 {
        &bytes[..place as usize]
    } else {
        bytes
    }
}

// The bytes from a place on, or none where there are fewer.
fn from(bytes: &[u8], place: u64) -> &[u8]
    ensures { result.now ≡ drop place bytes.now }
{
    if place < bytes.len() as u64 {
        &bytes[place as usize..]
    } else {
        &[]
    }
}

/// Whether only blanks stand before the place `start` and after the place `end` on their lines.
#[tactic(auto, unfolding(gl_ast::specs::Settling::alone))]
pub fn alone(bytes: &[u8], start: u64, end: u64) -> bool
    ensures { result ≡ s.alone bytes.now start end }
{
    if !opens_line(before(bytes, start)) {
        return false;
    }
    closes_line(from(bytes, end))
}
