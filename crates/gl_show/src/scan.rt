// A place in a text.
ghost use Rattle.std.specs.Prelude.{◌≡◌, ◌∷◌, [], MatchOption};

use gl_value::Text;
use std::marker::Model;

/// The characters of a text that are left to read. Contracts see their list.
#[derive(Drop)]
pub struct Scan<'a> {
    rest: &'a str,
}

impl<'a> Model for Scan<'a> {
    ghost use Rattle.std.specs.Prelude.{ℕ, List};
    ghost use Rattle.std.specs.Str.{chars, IsUtf8};

    ghost Value = { List ℕ };

    ghost view = { λ s. chars s.rest.now };

    ghost invariant = { λ s. IsUtf8 s.rest.now };
}

#[tactic(auto, using(gl_base::proofs::Chars::char_laws))]
impl<'a> Scan<'a> {
    /// Before all characters of a text.
    pub fn new(text: &'a Text) -> Scan<'a>
        ensures { result ≡ text.now }
    {
        Scan {
            rest: text.as_str(),
        }
    }

    /// Takes the next character, if there is one.
    pub fn next(&mut self) -> Option<char>
        ensures { MatchOption result ((self.old ≡ []) × (self.new ≡ [])) (λ c. self.old ≡ c ∷ self.new) }
    {
        let mut characters = self.rest.chars();
        let first = characters.next();
        self.rest = characters.as_str();
        first
    }
}
