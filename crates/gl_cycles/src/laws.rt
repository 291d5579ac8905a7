//! Laws of the definitions, each the contract of a function that does nothing.
ghost use Rattle.std.specs.Prelude.{◌≡◌, Option};
ghost use Rattle.gl_base.specs.Texts.{Text};
ghost use Rattle.gl_meaning.specs.Manifest.{Manifest};
ghost use Rattle.gl_cycles.specs.Cycles.{IsCycleOf};
ghost use Rattle.gl_cycles.specs.Through.{cycle_of};

/// The first getter that reaches itself is the one that the function finds, and there is none where it finds none.
pub fn first_cycle()
    ensures { (m : Manifest) (answer : Option (Text × Text)) → IsCycleOf m answer → answer ≡ cycle_of m.classes }
{}
