// What stands in a tag.
use crate::{WireExpr, WireExprs, WirePairs};
use gl_value::Text;
use std::marker::Model;

/// A part of a tag: an attribute with a text, one with an expression, a modifier, or the place of the attributes
/// that a component was given.
#[derive(Drop)]
pub enum WirePart {
    Attr {
        name: Text,
        value: Text,
    },
    Live {
        name: Text,
        value: Box<WireExpr>,
    },
    Mod {
        name: Text,
        args: WireExprs,
        named: Box<WirePairs>,
    },
    Spread,
}

/// A list of parts of a tag. Contracts see the parts as definitions see them.
#[derive(Drop)]
pub struct WireParts {
    pub(crate) list: Vec<WirePart>,
}

impl Model for WireParts {
    ghost use Rattle.std.specs.Prelude.{List};
    ghost use Rattle.std.specs.Coded.{coded_list};
    ghost use Rattle.gl_wire.specs.Wire as w;
    ghost use Rattle.gl_wire.specs.PartCode.{part_code};

    ghost Value = { List w.Part };

    ghost coded = { coded_list part_code };

    ghost use Rattle.gl_wire.specs.View.{seen_parts};

    ghost view = { λ a. seen_parts a.list.items };
}
