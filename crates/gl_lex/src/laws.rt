//! Laws that the definitions keep, each the contract of a function that does nothing.
ghost use Rattle.std.specs.Prelude.{ℕ, List, ◌≡◌, ◌<◌, true, length};
ghost use Rattle.gl_ast.specs.Tokens.{forms, IsTokens, IsLoneTokens};
ghost use Rattle.gl_ast.specs.declared.mode.Mode.{Mode};
ghost use Rattle.gl_ast.specs.declared.token.Token.{Token};
ghost use Rattle.gl_lex.specs.Begins.{BeginsToken};
ghost use Rattle.gl_lex.specs.Begun.{is_begun};
ghost use Rattle.gl_lex.specs.Stops.{NoneStands, Stops};

/// A text has at most one reading as a template.
pub fn one_reading()
    ensures { (text : List ℕ) (list other : List Token) → IsTokens text list → IsTokens text other → list ≡ other }
{}

/// A text has at most one reading as an expression that stands alone.
pub fn one_lone_reading()
    ensures { (text : List ℕ) (list other : List Token) → IsLoneTokens text list → IsLoneTokens text other → list ≡ other }
{}

/// A text lacks a token at one place, and then it has one list of tokens in front of that.
pub fn one_stop()
    ensures { (mode : Mode) (text : List ℕ) (list other : List Token) (place there : ℕ) → Stops mode 0 text list place → Stops mode 0 text other there → (list ≡ other) × (place ≡ there) }
{}

/// Where no token of a mode stands at some bytes, they are told to be begun exactly where more bytes make them one.
pub fn begun_as_told()
    ensures goes_on { (mode : Mode) (bytes : List ℕ) → NoneStands (forms mode bytes) → is_begun mode bytes ≡ true → BeginsToken mode bytes }
    ensures told { (mode : Mode) (bytes : List ℕ) → 0 < length bytes → NoneStands (forms mode bytes) → BeginsToken mode bytes → is_begun mode bytes ≡ true }
{}
