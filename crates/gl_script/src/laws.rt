//! What is read, as a relation. The law is the contract of a function that does nothing.
ghost use Rattle.std.specs.Prelude.{◌≡◌, ℕ, List};
ghost use Rattle.gl_meaning.specs.App as a;
ghost use Rattle.gl_meaning.specs.ScriptOf.{Fields, script_reading, script};
ghost use Rattle.gl_script.specs.ScriptIs.{Holds};

/// Bytes are read as events just where they hold JSON of these events, each the one that its object says, and each field
/// that an event sets is there.
pub fn reads_what_they_hold()
    ensures held { (fields : Fields) (bytes : List ℕ) (es : List a.Event) → script_reading fields bytes ≡ script es → Holds fields bytes es }
    ensures read { (fields : Fields) (bytes : List ℕ) (es : List a.Event) → Holds fields bytes es → script_reading fields bytes ≡ script es }
{}
