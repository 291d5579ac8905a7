//! Laws of programs and of the numbers in them, each the contract of a function that does nothing.
ghost use Rattle.std.specs.Prelude.{◌≡◌, ◌<◌, ◌↔◌, ℕ, List, [], Some, IsTrue};
ghost use Rattle.gl_base.specs.Texts.{Text, text_less};
ghost use Rattle.gl_ast.specs.Template.{Body, Expr};
ghost use Rattle.gl_meaning.specs.Manifest.{Manifest, ClassEntry};
ghost use Rattle.gl_meaning.specs.Order.{Rise};
ghost use Rattle.gl_program.specs.Program.{Program};
ghost use Rattle.gl_opc.specs.Lowers.{Lowers, LowersExpr};
ghost use Rattle.gl_opc.specs.Numbers.{number_in};
ghost use Rattle.gl_opc.specs.TreeFaults.{template_faults, expr_faults};

/// Where a program lowers a template, or an expression with parameters in scope, every name in it is known.
pub fn lowered_is_known()
    ensures template { (p : Program) (b : Body) (m : Manifest) (c : ClassEntry) → Lowers p b m c → template_faults m c b ≡ [] }
    ensures expression { (p : Program) (e : Expr) (params : List Text) (m : Manifest) (c : ClassEntry) → LowersExpr p e params m c → expr_faults m c params e ≡ [] }
{}

/// Where names rise by bytes, as those of an application's classes, and of a class's fields, getters and actions do, their numbers are by that order:
/// the number of one is less than that of another exactly where the name is.
pub fn numbers_rise()
    ensures { (names : List Text) → Rise names → (m n : Text) (i k : ℕ) → number_in names m ≡ Some i → number_in names n ≡ Some k → (i < k) ↔ IsTrue (text_less m n) }
{}
