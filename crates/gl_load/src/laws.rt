//! What loading gives, as a relation. The law is the contract of a function that does nothing.
ghost use Rattle.std.specs.Prelude.{◌≡◌, ℕ, List, Ok, Err};
ghost use Rattle.gl_base.specs.Texts.{Text};
ghost use Rattle.gl_outside.specs.Shelf.{Entry};
ghost use Rattle.gl_load.specs.IsLoaded.{IsLoaded, IsLoadedWith, LeavesGrammar};
ghost use Rattle.gl_load.specs.Load.{Parts, Whole, app_in, template_in, whole_in};
ghost use Rattle.gl_load.specs.Refusal.{not_in_grammar};

/// What loading gives of files is just what these stand for: a manifest whose file holds it, for each class the template that its
/// file spells, with which every name is known and no getter reaches itself; and the events that the script's file holds.
pub fn loaded_as_said()
    ensures app { (files : List Entry) (name : Text) (parts : Parts) → app_in files name ≡ Ok parts → IsLoaded files name parts }
    ensures app_given { (files : List Entry) (name : Text) (parts : Parts) → IsLoaded files name parts → app_in files name ≡ Ok parts }
    ensures whole { (files : List Entry) (name script : Text) (whole : Whole) → whole_in files name script ≡ Ok whole → IsLoadedWith files name script whole }
    ensures whole_given { (files : List Entry) (name script : Text) (whole : Whole) → IsLoadedWith files name script whole → whole_in files name script ≡ Ok whole }
{}

/// Loading tells a place at which a template's file leaves the grammar just where its bytes spell no template, and it is that place.
pub fn refused_as_said()
    ensures template { (files : List Entry) (name : Text) (place : ℕ) → template_in files name ≡ Err (not_in_grammar place) → LeavesGrammar files name place }
    ensures template_given { (files : List Entry) (name : Text) (place : ℕ) → LeavesGrammar files name place → template_in files name ≡ Err (not_in_grammar place) }
{}
