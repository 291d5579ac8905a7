//! Laws on the size of wires, each the contract of a function that does nothing.
ghost use Rattle.std.specs.Prelude.{◌≡◌, ◌≤◌, ◌<◌, ◌⊎◌, ℕ, List, length};
ghost use Rattle.gl_ast.specs.Grammar.{Spells, SpellsExpr};
ghost use Rattle.gl_ast.specs.Template.{Body, Expr};
ghost use Rattle.gl_wire.specs.Size.{size, names_of, expr_wire_size, expr_names_of};
ghost use Rattle.gl_wire.specs.WireOf.{wire_of, expr_wire_of};

/// The wire of a template is no larger than a text that spells it, and has fewer names than that has bytes, or none.
pub fn within_template()
    ensures size { (bytes : List ℕ) (b : Body) → Spells bytes b → size (wire_of b) ≤ length bytes }
    ensures names { (bytes : List ℕ) (b : Body) → Spells bytes b → (names_of (wire_of b) ≡ 0) ⊎ (names_of (wire_of b) < length bytes) }
{}

/// The wire of an expression is no larger than a text that spells it, and has no more names than that has bytes,
/// whatever is in scope.
pub fn within_expression()
    ensures size { (bytes : List ℕ) (e : Expr) (params : List (List ℕ)) → SpellsExpr bytes e → expr_wire_size (expr_wire_of params e) ≤ length bytes }
    ensures names { (bytes : List ℕ) (e : Expr) (params : List (List ℕ)) → SpellsExpr bytes e → expr_names_of (expr_wire_of params e) ≤ length bytes }
{}
