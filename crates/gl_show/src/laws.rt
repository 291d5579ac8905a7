//! Laws that the canonical spelling keeps, each the contract of a function that does nothing.
ghost use Rattle.std.specs.Prelude.{ℕ, List};
ghost use Rattle.gl_base.specs.Texts.{bytes_of};
ghost use Rattle.gl_ast.specs.Canon.{canonical, expr_text};
ghost use Rattle.gl_ast.specs.Grammar.{deepest_calls, deepest_nesting, Spells, SpellsExpr};
ghost use Rattle.gl_ast.specs.Template.{Body, Expr};
ghost use Rattle.gl_show.specs.Spellable.{CanBody, CanExpr};

/// The canonical spelling of a tree that some bytes spell spells it.
pub fn spelled_again()
    ensures { (bytes : List ℕ) (b : Body) → Spells bytes b → Spells (bytes_of (canonical b)) b }
{}

/// The canonical spelling of an expression that some bytes spell spells it.
pub fn expression_spelled_again()
    ensures { (bytes : List ℕ) (e : Expr) → SpellsExpr bytes e → SpellsExpr (bytes_of (expr_text e)) e }
{}

/// Which trees some bytes spell: those of such names, texts and numbers, and not nested too deep.
pub fn spellable()
    ensures spelled { (bytes : List ℕ) (b : Body) → Spells bytes b → CanBody deepest_nesting b }
    ensures spells { (b : Body) → CanBody deepest_nesting b → Spells (bytes_of (canonical b)) b }
{}

/// Which expressions some bytes spell.
pub fn spellable_expression()
    ensures spelled { (bytes : List ℕ) (e : Expr) → SpellsExpr bytes e → CanExpr deepest_calls e }
    ensures spells { (e : Expr) → CanExpr deepest_calls e → SpellsExpr (bytes_of (expr_text e)) e }
{}
