// What stands in a tag: attributes, modifiers and arguments.
use crate::{Expr, Exprs, Pairs, Str};
use std::marker::Model;

/// The value of an attribute or an argument: a text, or an expression.
#[derive(Drop)]
pub enum AttrValue {
    Fixed(Str),
    Live(Box<Expr>),
}

/// A part of a tag: an attribute, a modifier, or `...attributes`.
#[derive(Drop)]
pub enum Part {
    Attr {
        name: Str,
        value: AttrValue,
    },
    Mod {
        name: Str,
        args: Exprs,
        named: Box<Pairs>,
    },
    Spread,
}

/// A list of parts of a tag. Contracts see the parts as definitions see them.
#[derive(Drop)]
pub struct Parts {
    pub(crate) list: Vec<Part>,
}

/// An argument of a component: its name without the `@`, and its value.
#[derive(Drop)]
pub struct Argument {
    pub name: Str,
    pub value: AttrValue,
}

/// A list of arguments. Contracts see names with values as definitions see them.
#[derive(Drop)]
pub struct Args {
    pub(crate) list: Vec<Argument>,
}

impl Model for Parts {
    ghost use Rattle.std.specs.Prelude.{List};
    ghost use Rattle.std.specs.Coded.{coded_list};
    ghost use Rattle.gl_ast.specs.Template as t;
    ghost use Rattle.gl_ast.specs.PartCode.{part_code};

    ghost Value = { List t.Part };

    ghost coded = { coded_list part_code };

    ghost use Rattle.gl_ast.specs.View.{seen_parts};

    ghost view = { λ a. seen_parts a.list.items };
}

impl Model for Args {
    ghost use Rattle.std.specs.Prelude.{ℕ, List};
    ghost use Rattle.std.specs.Coded.{coded_list, coded×, coded_ℕ};
    ghost use Rattle.gl_ast.specs.Template as t;
    ghost use Rattle.gl_ast.specs.PartCode.{attr_code};

    ghost Value = { List (List ℕ × t.AttrValue) };

    ghost coded = { coded_list (coded× (coded_list coded_ℕ) attr_code) };

    ghost use Rattle.gl_ast.specs.View.{seen_args};

    ghost view = { λ a. seen_args a.list.items };
}
