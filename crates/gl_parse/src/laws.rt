//! Laws that the grammar keeps, each the contract of a function that does nothing.
ghost use Rattle.std.specs.Prelude.{ℕ, List, Some, true, ◌≡◌};
ghost use Rattle.std.specs.Str.{is_utf8};
ghost use Rattle.gl_ast.specs.Grammar.{Spells, SpellsExpr};
ghost use Rattle.gl_ast.specs.Template.{Body, Expr};
ghost use Rattle.gl_parse.specs.FaultPlace.{template_place, expression_place};
ghost use Rattle.gl_parse.specs.Place.{IsTemplatePlace, IsExpressionPlace};
ghost use Rattle.gl_parse.specs.ReadStmt.{template_of, expression_of};

/// No bytes spell two templates.
pub fn one_template()
    ensures { (bytes : List ℕ) (tree other : Body) → Spells bytes tree → Spells bytes other → tree ≡ other }
{}

/// No text spells two expressions.
pub fn one_expression()
    ensures { (text : List ℕ) (expr other : Expr) → SpellsExpr text expr → SpellsExpr text other → expr ≡ other }
{}

/// The functions by which the parser reads give exactly what the grammar's relation says: the tree of a template's bytes is the one that they spell, and
/// none where they spell none; the expression of a text in UTF-8 likewise.
pub fn read_as_spelled()
    ensures read { (bytes : List ℕ) (tree : Body) → template_of bytes ≡ Some tree → Spells bytes tree }
    ensures spelled { (bytes : List ℕ) (tree : Body) → Spells bytes tree → template_of bytes ≡ Some tree }
    ensures read_expression { (text : List ℕ) (expr : Expr) → is_utf8 text ≡ true → expression_of text ≡ Some expr → SpellsExpr text expr }
    ensures spelled_expression { (text : List ℕ) (expr : Expr) → SpellsExpr text expr → expression_of text ≡ Some expr }
{}

/// The place that a refused template is told with is that of the first token which no template has after those before it,
/// or else that at which its tokens end; of bytes that are not UTF-8 it is that of the first that isn't.
pub fn place_of_template()
    ensures { (bytes : List ℕ) → IsTemplatePlace bytes (template_place bytes) }
{}

/// The same of an expression.
pub fn place_of_expression()
    ensures { (text : List ℕ) → IsExpressionPlace text (expression_place text) }
{}

/// There is no other such place.
pub fn one_place()
    ensures template { (bytes : List ℕ) (place other : ℕ) → IsTemplatePlace bytes place → IsTemplatePlace bytes other → place ≡ other }
    ensures expression { (text : List ℕ) (place other : ℕ) → IsExpressionPlace text place → IsExpressionPlace text other → place ≡ other }
{}
