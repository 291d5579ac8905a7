// Expressions of a wire.
use gl_ast::Lit;
use gl_value::{Text, Texts};
use std::marker::Model;

/// An expression: a literal, a symbol by its place, a member of `this`, one of these or a free name with the segments
/// that follow it, a name that no block has as a parameter, a call of a helper, or a text joined of several
/// expressions.
#[derive(Drop)]
#[cycle(expr)]
pub enum WireExpr {
    Lit(Lit),
    Sym(u32),
    This(Text),
    Get {
        of: Head,
        rest: Texts,
    },
    Free(Text),
    Call {
        name: Text,
        args: WireExprs,
        named: Box<WirePairs>,
    },
    Cat(WireExprs),
}

/// The expression that a path begins with. Contracts see it as definitions see it.
#[derive(Drop)]
#[cycle(expr)]
pub struct Head {
    pub(crate) expr: Box<WireExpr>,
}

/// A list of expressions. Contracts see the expressions as definitions see them.
#[derive(Drop)]
#[cycle(expr)]
pub struct WireExprs {
    pub(crate) list: Vec<WireExpr>,
}

/// A name with an expression: a named argument of a call, or an argument of a component.
#[derive(Drop)]
#[cycle(expr)]
pub struct WirePair {
    pub name: Text,
    pub value: WireExpr,
}

/// Names with expressions. Contracts see the expressions as definitions see them.
#[derive(Drop)]
#[cycle(expr)]
pub struct WirePairs {
    pub(crate) list: Vec<WirePair>,
}

impl Model for Head {
    ghost use Rattle.std.specs.Prelude.{suc};
    ghost use Rattle.gl_wire.specs.Wire as w;
    ghost use Rattle.gl_wire.specs.Depth.{expr_depth};
    ghost use Rattle.gl_wire.specs.ExprCode.{expr_code};

    ghost Value = { w.Expr };

    ghost coded = { expr_code };

    ghost use Rattle.gl_wire.specs.View.{expr_view};

    ghost view = { λ a. expr_view a.expr.value };

    ghost size = { λ e. suc (expr_depth e) };

    ghost use Rattle.gl_wire.specs.ExprFalls.{head_falls};

    ghost size_decreases = { λ a h. head_falls a };
}

impl Model for WireExprs {
    ghost use Rattle.std.specs.Prelude.{suc, List};
    ghost use Rattle.std.specs.Coded.{coded_list};
    ghost use Rattle.gl_wire.specs.Wire as w;
    ghost use Rattle.gl_wire.specs.Depth.{exprs_depth};
    ghost use Rattle.gl_wire.specs.ExprCode.{expr_code};

    ghost Value = { List w.Expr };

    ghost coded = { coded_list expr_code };

    ghost use Rattle.gl_wire.specs.View.{seen_exprs};

    ghost view = { λ a. seen_exprs a.list.items };

    ghost size = { λ es. suc (exprs_depth (w.exprs_of es)) };

    ghost use Rattle.gl_wire.specs.ExprFalls.{exprs_falls};

    ghost size_decreases = { λ a h. exprs_falls a };
}

impl Model for WirePairs {
    ghost use Rattle.std.specs.Prelude.{ℕ, suc, List};
    ghost use Rattle.std.specs.Coded.{coded_list, coded×, coded_ℕ};
    ghost use Rattle.gl_wire.specs.Wire as w;
    ghost use Rattle.gl_wire.specs.Depth.{named_depth};
    ghost use Rattle.gl_wire.specs.ExprCode.{expr_code};

    ghost Value = { List (List ℕ × w.Expr) };

    ghost coded = { coded_list (coded× (coded_list coded_ℕ) expr_code) };

    ghost use Rattle.gl_wire.specs.View.{seen_pairs};

    ghost view = { λ a. seen_pairs a.list.items };

    ghost size = { λ ns. suc (named_depth (w.named_of ns)) };

    ghost use Rattle.gl_wire.specs.ExprFalls.{pairs_falls};

    ghost size_decreases = { λ a h. pairs_falls a };
}
