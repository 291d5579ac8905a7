// Texts that are short, which take no memory of their own.
ghost use Rattle.std.specs.Prelude.{◌≡◌, ◌++◌, ◌+◌, ◌≤◌, [], false, IsTrue, length, take};
ghost use Rattle.std.specs.Str.{IsUtf8};

use std::marker::Model;
use std::str;

// How many bytes a short text has at most.
const MOST: usize = 22;

// A text of at most 22 bytes, which stand in the value itself. Contracts see its bytes.
#[derive(Debug, Drop)]
pub(crate) struct ShortText {
    len: u8,
    bytes: [u8; 22],
}

impl Model for ShortText {
    ghost use Rattle.std.specs.Prelude.{◌≡◌, ◌≤◌, ℕ, List, length, take, IsUtf8};

    ghost Value = { List ℕ };

    ghost view = { λ s. take s.len s.bytes };

    ghost invariant = { λ s. (s.len ≤ 22) × (length s.bytes ≡ 22) × ∥ IsUtf8 (take s.len s.bytes) ∥₁ };
}

// Writes bytes over those from `start` on.
#[inline]
fn copy_in(bytes: &mut [u8; 22], start: usize, source: &[u8])
    requires { start + length source.now ≤ 22 }
    ensures front { take (start + length source.now) bytes.new ≡ take start bytes.old ++ source.now }
    ensures len { length bytes.new ≡ 22 }
{
    bytes[start..start + source.len()].copy_from_slice(source);
}

impl ShortText {
    // The empty text.
    pub(crate) fn new() -> ShortText
        ensures { result ≡ [] }
    {
        ShortText {
            len: 0,
            bytes: [0; 22],
        }
    }

    // The text as Rust's string slice.
    #[inline]
    pub(crate) fn as_str(&self) -> &str
        ensures { result.now ≡ self.now }
    {
        unsafe { str::from_utf8_unchecked(&self.bytes[..usize::from(self.len)]) }
    }

    // Adds the bytes of `text` at the end where there is room, and tells whether there was.
    #[inline]
    pub(crate) fn push_str(&mut self, text: &str) -> bool
        ensures fits { IsTrue result → self.new ≡ self.old ++ text.now }
        ensures full { result ≡ false → self.new ≡ self.old }
        ensures utf8 { IsUtf8 self.old }
    {
        let len = usize::from(self.len);
        if MOST - len < text.len() {
            return false;
        }
        copy_in(&mut self.bytes, len, text.as_bytes());
        self.len = (len + text.len()) as u8;
        true
    }
}
