// The wire of a template, and of an expression.
ghost use Rattle.std.specs.Prelude.{◌≡◌};
ghost use Rattle.gl_wire.specs.IsWire.{IsWireOf};
ghost use Rattle.gl_wire.specs.Wire.{body_of};

use crate::{WireBody, WireExpr};
use gl_value::Texts;

/// The wire of a template: its symbols, and its tree. It keeps that it is the wire of some template.
#[derive(Drop)]
pub struct Wire {
    symbols: Texts,
    body: WireBody,
    pub ghost made: { IsWireOf symbols (body_of body) },
}

/// The wire of one expression.
#[derive(Drop)]
pub struct ExprWire {
    pub symbols: Texts,
    pub value: WireExpr,
}

impl Wire {
    /// The wire with these symbols and statements, which is that of some template. It takes no memory.
    pub fn new(symbols: Texts, body: WireBody) -> Wire
        requires { IsWireOf symbols (body_of body) }
        ensures symbols { result.symbols ≡ symbols }
        ensures body { result.body ≡ body }
    {
        Wire { symbols, body }
    }

    pub fn symbols(&self) -> &Texts
        ensures { result.now ≡ self.now.symbols }
    {
        &self.symbols
    }

    /// The symbols and the statements. It takes no memory.
    pub fn into_parts(self) -> (Texts, WireBody)
        ensures symbols { result.0 ≡ self.symbols }
        ensures body { result.1 ≡ self.body }
    {
        (self.symbols, self.body)
    }

    pub fn body(&self) -> &WireBody
        ensures { result.now ≡ self.now.body }
    {
        &self.body
    }
}
