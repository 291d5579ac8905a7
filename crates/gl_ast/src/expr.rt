// Expressions and literals.
use gl_value::{Text, Texts};
use std::marker::Model;

/// A text of a template.
pub type Str = Text;

/// A list of texts of a template.
pub type Names = Texts;

/// A literal.
#[derive(Drop)]
pub enum Lit {
    Undefined,
    Null,
    Bool(bool),
    Int(i64),
    Str(Str),
}

/// An expression: a literal, a member of `this`, an argument, a name, each of these three with the names that
/// follow its first, a call of a helper, or a text joined of several expressions.
#[derive(Drop)]
#[cycle(expr)]
pub enum Expr {
    Lit(Lit),
    This {
        member: Str,
        rest: Names,
    },
    Arg {
        name: Str,
        rest: Names,
    },
    Bare {
        name: Str,
        rest: Names,
    },
    Call {
        name: Str,
        args: Exprs,
        named: Box<Pairs>,
    },
    Cat(Exprs),
}

/// A list of expressions. Contracts see the expressions as definitions see them.
#[derive(Drop)]
#[cycle(expr)]
pub struct Exprs {
    pub(crate) list: Vec<Expr>,
}

/// A name with an expression: a named argument.
#[derive(Drop)]
#[cycle(expr)]
pub struct NamedExpr {
    pub name: Str,
    pub value: Expr,
}

/// Names with expressions. Contracts see the expressions as definitions see them.
#[derive(Drop)]
#[cycle(expr)]
pub struct Pairs {
    pub(crate) list: Vec<NamedExpr>,
}

impl Model for Exprs {
    ghost use Rattle.std.specs.Prelude.{suc, List};
    ghost use Rattle.std.specs.Coded.{coded_list};
    ghost use Rattle.gl_ast.specs.Template as t;
    ghost use Rattle.gl_ast.specs.Depth.{exprs_depth};
    ghost use Rattle.gl_ast.specs.ExprCode.{expr_code};

    ghost Value = { List t.Expr };

    ghost coded = { coded_list expr_code };

    ghost use Rattle.gl_ast.specs.View.{seen_exprs};

    ghost view = { λ a. seen_exprs a.list.items };

    ghost size = { λ es. suc (exprs_depth (t.exprs_of es)) };

    ghost use Rattle.gl_ast.specs.ExprFalls.{exprs_falls};

    ghost size_decreases = { λ a h. exprs_falls a };
}

impl Model for Pairs {
    ghost use Rattle.std.specs.Prelude.{ℕ, suc, List};
    ghost use Rattle.std.specs.Coded.{coded_list, coded×, coded_ℕ};
    ghost use Rattle.gl_ast.specs.Template as t;
    ghost use Rattle.gl_ast.specs.Depth.{named_depth};
    ghost use Rattle.gl_ast.specs.ExprCode.{expr_code};

    ghost Value = { List (List ℕ × t.Expr) };

    ghost coded = { coded_list (coded× (coded_list coded_ℕ) expr_code) };

    ghost use Rattle.gl_ast.specs.View.{seen_pairs};

    ghost view = { λ a. seen_pairs a.list.items };

    ghost size = { λ ns. suc (named_depth (t.named_of ns)) };

    ghost use Rattle.gl_ast.specs.ExprFalls.{pairs_falls};

    ghost size_decreases = { λ a h. pairs_falls a };
}
