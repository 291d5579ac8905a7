//! Laws that the JSON of wires keeps, and those of writing and reading again, each the contract of a function that does nothing.
ghost use Rattle.std.specs.Prelude.{◌≡◌, ℕ, List, Some, None, Result, IfOk, IfErr};
ghost use Rattle.serde_json.specs.Data.{Data};
ghost use Rattle.gl_base.specs.Texts.{bytes_of};
ghost use Rattle.gl_ast.specs.Canon.{canonical};
ghost use Rattle.gl_ast.specs.Grammar.{Spells};
ghost use Rattle.gl_ast.specs.Template.{Body};
ghost use Rattle.gl_parse.specs.ReadStmt.{template_of};
ghost use Rattle.gl_wire.specs.IsWire.{IsWire};
ghost use Rattle.gl_wire.specs.Versions.{IsJsonOf};
ghost use Rattle.gl_wire.specs.Wire.{Wire};
ghost use Rattle.gl_wire.specs.WireOf.{wire_of};
ghost use Rattle.gl_wirein.specs.Answer.{wire_in, Tells};
ghost use Rattle.gl_wirein.specs.Again.{IsTemplateWire};
ghost use Rattle.gl_wirein.specs.declared.fault.WireFault.{WireFault};
ghost use Rattle.gl_wirein.specs.declared.fault.WireFault.TheVariants.{Memory};

/// The wires of two templates that have one JSON, in version 1 or 2, are one wire.
pub fn one_wire()
    ensures { (bytes other : List ℕ) (b c : Body) (d : Data) → Spells bytes b → Spells other c → IsJsonOf (wire_of b) d → IsJsonOf (wire_of c) d → wire_of b ≡ wire_of c }
{}

/// What is found for JSON is the wire of a template, and that is its JSON; for the JSON of a template's wire it is found.
pub fn found_as_said()
    ensures is { (d : Data) (w : Wire) → wire_in d ≡ Some w → IsWire w × IsJsonOf w d }
    ensures of { (bytes : List ℕ) (b : Body) (d : Data) → Spells bytes b → IsJsonOf (wire_of b) d → wire_in d ≡ Some (wire_of b) }
    ensures any { (w : Wire) (d : Data) → IsWire w → IsJsonOf w d → wire_in d ≡ None → ⊥ }
{}

/// A template that is shown and read again is the same, and has the same wire; its canonical spelling spells no other.
pub fn shown_is_read()
    ensures read { (bytes : List ℕ) (b : Body) → Spells bytes b → template_of (bytes_of (canonical b)) ≡ Some b }
    ensures only { (bytes : List ℕ) (b c : Body) → Spells bytes b → Spells (bytes_of (canonical b)) c → c ≡ b }
    ensures wire { (bytes : List ℕ) (b c : Body) → Spells bytes b → template_of (bytes_of (canonical b)) ≡ Some c → wire_of c ≡ wire_of b }
{}

/// The wire of a template that is written as JSON, in version 2 or, where it has JSON in that, in version 1, and read again is the same:
/// what a reading tells of that JSON is this wire, or memory is wanting.
pub fn written_is_read()
    ensures wire { (bytes : List ℕ) (b : Body) (d : Data) (answer : Result Wire WireFault) → Spells bytes b → IsJsonOf (wire_of b) d
        → IfOk answer IsTemplateWire → Tells (λ w. w) d answer → IfOk answer (λ w. w ≡ wire_of b) }
    ensures fault { (bytes : List ℕ) (b : Body) (d : Data) (answer : Result Wire WireFault) → Spells bytes b → IsJsonOf (wire_of b) d
        → Tells (λ w. w) d answer → IfErr answer (λ e. e ≡ Memory) }
{}
