// Statements and bodies.
use crate::{Args, Expr, Exprs, Names, Parts, Str};
use std::marker::Model;

/// A statement of a template. `Put` shows the text of an expression; a component has the blocks that are passed to
/// it as slots; `unless` turns the test of an `If`; `Each` has the name of its key; `Yield` names the slot that it
/// shows.
#[derive(Drop)]
#[cycle(tree)]
pub enum Stmt {
    Text(Str),
    Comment(Str),
    Put(Expr),
    Element {
        tag: Str,
        parts: Parts,
        body: Body,
    },
    Component {
        class: Str,
        parts: Parts,
        args: Box<Args>,
        slots: Box<Slots>,
    },
    If {
        test: Box<Expr>,
        unless: bool,
        body: Body,
        otherwise: Body,
    },
    Each {
        head: Box<EachHead>,
        body: Body,
        otherwise: Body,
    },
    Let {
        values: Exprs,
        params: Names,
        body: Body,
    },
    Yield {
        values: Exprs,
        to: Str,
    },
}

/// What an `each` goes through: its list, the name of its key, and the names of its parameters.
#[derive(Drop)]
pub struct EachHead {
    pub list: Expr,
    pub key: Str,
    pub params: Names,
}

/// A list of statements. Contracts see the statements as definitions see them.
#[derive(Drop)]
#[cycle(tree)]
pub struct Body {
    pub(crate) list: Vec<Stmt>,
}

/// A body with the names of its parameters.
#[derive(Drop)]
#[cycle(tree)]
pub struct Block {
    pub params: Names,
    pub body: Body,
}

/// A block that is passed to a component, with its name.
#[derive(Drop)]
#[cycle(tree)]
pub struct Slot {
    pub name: Str,
    pub block: Block,
}

/// A list of slots. Contracts see the bodies as definitions see them.
#[derive(Drop)]
#[cycle(tree)]
pub struct Slots {
    pub(crate) list: Vec<Slot>,
}

impl Model for Body {
    ghost use Rattle.std.specs.Prelude.{suc, List};
    ghost use Rattle.std.specs.Coded.{coded_list};
    ghost use Rattle.gl_ast.specs.Template as t;
    ghost use Rattle.gl_ast.specs.Depth.{body_depth};
    ghost use Rattle.gl_ast.specs.StmtCode.{stmt_code};

    ghost Value = { List t.Stmt };

    ghost coded = { coded_list stmt_code };

    ghost use Rattle.gl_ast.specs.View.{seen_stmts};

    ghost view = { λ a. seen_stmts a.list.items };

    ghost size = { λ ss. suc (body_depth (t.body_of ss)) };

    ghost use Rattle.gl_ast.specs.StmtFalls.{body_falls};

    ghost size_decreases = { λ a h. body_falls a };
}

impl Model for Slots {
    ghost use Rattle.std.specs.Prelude.{ℕ, suc, List};
    ghost use Rattle.std.specs.Coded.{coded_list};
    ghost use Rattle.gl_ast.specs.Template as t;
    ghost use Rattle.gl_ast.specs.Depth.{slots_depth};
    ghost use Rattle.gl_ast.specs.StmtCode.{slot_code};

    ghost Value = { List (List ℕ × (List (List ℕ) × t.Body)) };

    ghost coded = { coded_list slot_code };

    ghost use Rattle.gl_ast.specs.View.{seen_slots};

    ghost view = { λ a. seen_slots a.list.items };

    ghost size = { λ ss. suc (slots_depth (t.slots_of ss)) };

    ghost use Rattle.gl_ast.specs.StmtFalls.{slots_falls};

    ghost size_decreases = { λ a h. slots_falls a };
}
