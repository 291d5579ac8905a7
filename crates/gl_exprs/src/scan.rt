// A place in a text.
ghost use Rattle.std.specs.Prelude.{◌≡◌, ◌≤◌, ◌∷◌, [], MatchOption, length};
ghost use Rattle.std.specs.List.{prefix_len};
ghost use Rattle.std.specs.Str.{chars};
ghost use Rattle.gl_ast.specs.Scans.{after_all};
ghost use Rattle.gl_exprs.specs.Referring.{in_reference, run};

use gl_ast::Slice;
use std::marker::Model;

/// The characters of a text that are left to read. Contracts see their list.
#[derive(Drop)]
pub struct Scan<'a> {
    rest: &'a str,
}

impl<'a> Model for Scan<'a> {
    ghost use Rattle.std.specs.Prelude.{ℕ, List};
    ghost use Rattle.std.specs.Str.{chars, IsUtf8};

    ghost Value = { List ℕ };

    ghost view = { λ s. chars s.rest.now };

    ghost invariant = { λ s. IsUtf8 s.rest.now };
}

// Whether the byte may stand in a character reference.
fn in_reference(b: u8) -> bool
    ensures { result ≡ in_reference b }
{
    b.is_ascii_alphanumeric() || b == b'#'
}

// How many such bytes come first.
#[tactic(auto, using(crate::proofs::Scanned::fronts))]
fn run_len(bytes: &[u8]) -> usize
    ensures value { result ≡ prefix_len in_reference bytes.now }
    ensures within { result ≤ length bytes.now }
{
    bytes.iter().take_while(|b| in_reference(**b)).count()
}

#[tactic(auto, using(gl_base::proofs::Chars::char_laws))]
impl<'a> Scan<'a> {
    /// Before all characters of a text.
    pub fn new(text: &Slice<'a>) -> Scan<'a>
        ensures { result ≡ text.now }
    {
        Scan {
            rest: text.as_str(),
        }
    }

    // Before all characters of a slice.
    pub(crate) fn of(text: &'a str) -> Scan<'a>
        ensures { result ≡ chars text.now }
    {
        Scan { rest: text }
    }

    // Another place that is the same.
    pub(crate) fn copy(&self) -> Scan<'a>
        ensures { result ≡ self.now }
    {
        Scan { rest: self.rest }
    }

    /// What is left, as a slice.
    pub fn as_str(&self) -> &'a str
        ensures { chars result.now ≡ self.now }
    {
        self.rest
    }

    /// Takes the next character, if there is one.
    pub fn next(&mut self) -> Option<char>
        ensures { MatchOption result ((self.old ≡ []) × (self.new ≡ [])) (λ c. self.old ≡ c ∷ self.new) }
    {
        let mut characters = self.rest.chars();
        let first = characters.next();
        self.rest = characters.as_str();
        first
    }

    // Takes the characters that may stand in a character reference, as many as come next.
    pub(crate) fn run(&mut self) -> &'a str
        ensures value { chars result.now ≡ run self.old }
        ensures rest { self.new ≡ after_all in_reference self.old }
    {
        let text = self.rest;
        let count = run_len(text.as_bytes());
        let (front, back) = text.split_at(count);
        self.rest = back;
        front
    }
}
