// Statements of a wire.
use crate::{Symbols, WireExpr, WireExprs, WirePairs, WireParts};
use gl_value::Text;
use std::marker::Model;

/// A statement. `Put` shows the text of an expression; a component has the blocks that are passed to it as slots;
/// `unless` turns the test of an `If`; `Each` has the name of its key; `Yield` names the slot that it shows.
/// Parameters stand by their places among the symbols.
#[derive(Drop)]
#[cycle(tree)]
pub enum WireStmt {
    Text(Text),
    Comment(Text),
    Put(WireExpr),
    Element {
        tag: Text,
        parts: WireParts,
        body: WireBody,
    },
    Component {
        class: Text,
        parts: WireParts,
        args: Box<WirePairs>,
        slots: Box<WireSlots>,
    },
    If {
        test: Box<WireExpr>,
        unless: bool,
        body: WireBody,
        otherwise: WireBody,
    },
    Each {
        head: Box<WireEachHead>,
        body: WireBody,
        otherwise: WireBody,
    },
    Let {
        values: WireExprs,
        params: Symbols,
        body: WireBody,
    },
    Yield {
        values: WireExprs,
        to: Text,
    },
}

/// What an `each` goes through: its list, the name of its key, and its parameters by their places among the symbols.
#[derive(Drop)]
pub struct WireEachHead {
    pub list: WireExpr,
    pub key: Text,
    pub params: Symbols,
}

/// A list of statements. Contracts see the statements as definitions see them.
#[derive(Drop)]
#[cycle(tree)]
pub struct WireBody {
    pub(crate) list: Vec<WireStmt>,
}

/// A block that is passed to a component: its name, its parameters and its body.
#[derive(Drop)]
#[cycle(tree)]
pub struct WireSlot {
    pub name: Text,
    pub params: Symbols,
    pub body: WireBody,
}

/// A list of slots. Contracts see the bodies as definitions see them.
#[derive(Drop)]
#[cycle(tree)]
pub struct WireSlots {
    pub(crate) list: Vec<WireSlot>,
}

impl Model for WireBody {
    ghost use Rattle.std.specs.Prelude.{suc, List};
    ghost use Rattle.std.specs.Coded.{coded_list};
    ghost use Rattle.gl_wire.specs.Wire as w;
    ghost use Rattle.gl_wire.specs.Depth.{body_depth};
    ghost use Rattle.gl_wire.specs.StmtCode.{stmt_code};

    ghost Value = { List w.Stmt };

    ghost coded = { coded_list stmt_code };

    ghost use Rattle.gl_wire.specs.View.{seen_stmts};

    ghost view = { λ a. seen_stmts a.list.items };

    ghost size = { λ ss. suc (body_depth (w.body_of ss)) };

    ghost use Rattle.gl_wire.specs.StmtFalls.{body_falls};

    ghost size_decreases = { λ a h. body_falls a };
}

impl Model for WireSlots {
    ghost use Rattle.std.specs.Prelude.{ℕ, suc, List};
    ghost use Rattle.std.specs.Coded.{coded_list};
    ghost use Rattle.gl_wire.specs.Wire as w;
    ghost use Rattle.gl_wire.specs.Depth.{slots_depth};
    ghost use Rattle.gl_wire.specs.StmtCode.{slot_code};

    ghost Value = { List (List ℕ × (List ℕ × w.Body)) };

    ghost coded = { coded_list slot_code };

    ghost use Rattle.gl_wire.specs.View.{seen_slots};

    ghost view = { λ a. seen_slots a.list.items };

    ghost size = { λ ss. suc (slots_depth (w.slots_of ss)) };

    ghost use Rattle.gl_wire.specs.StmtFalls.{slots_falls};

    ghost size_decreases = { λ a h. slots_falls a };
}
