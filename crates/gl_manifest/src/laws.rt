//! Laws of what bytes say, each the contract of a function that does nothing.
ghost use Rattle.std.specs.Prelude.{ℕ, List, ◌≡◌};
ghost use Rattle.gl_base.specs.Texts.{Text};
ghost use Rattle.gl_meaning.specs.Laws.{NoRepeat};
ghost use Rattle.gl_meaning.specs.Manifest as m;
ghost use Rattle.gl_meaning.specs.ManifestOf.{read_manifest, said};
ghost use Rattle.gl_parse.specs.ReadStmt.{expression_of};
ghost use Rattle.gl_manifest.specs.Holds.{Holds};
ghost use Rattle.gl_meaning.specs.Order.{Rise, NamesRise};

/// Bytes say a manifest exactly where they hold JSON of the form of a manifest, and it is the manifest of that JSON.
#[tactic(auto, using(crate::proofs::Holding::held))]
pub fn says_what_it_holds()
    ensures held { (bytes : List ℕ) (x : m.Manifest) → read_manifest expression_of bytes ≡ said x → Holds bytes x }
    ensures said { (bytes : List ℕ) (x : m.Manifest) → Holds bytes x → read_manifest expression_of bytes ≡ said x }
{}

/// The names of a manifest that bytes say rise by bytes: those of its classes, and in each class those of its fields, of
/// its getters and of its actions. Texts that rise are different ones.
pub fn names_rise()
    ensures read { (bytes : List ℕ) (x : m.Manifest) → read_manifest expression_of bytes ≡ said x → NamesRise x }
    ensures differ { (names : List Text) → Rise names → NoRepeat names }
{}
