// Whether a wire has JSON in version 1.
ghost use Rattle.std.specs.Prelude.{◌≡◌};
ghost use Rattle.gl_wire.specs.Unnamed.{is_default, is_unnamed_stmt, is_unnamed_body, is_unnamed_slots, is_unnamed};
ghost use Rattle.gl_wire.specs.View.{stmt_view, wire_view};
ghost use Rattle.gl_wire.specs.Wire.{body_of, slots_of};

use crate::{Wire, WireBody, WireSlots, WireStmt};
use gl_value::Text;

fn is_default(name: &Text) -> bool
    ensures { result ≡ is_default name.now }
{
    name.is("default")
}

#[cycle(unnamed)]
fn is_unnamed_slots(slots: &WireSlots) -> bool
    ensures { result ≡ is_unnamed_slots (slots_of slots.now) }
{
    match slots.as_slice() {
        [] => true,
        [slot] => is_default(&slot.name) && is_unnamed_body(&slot.body),
        _ => false,
    }
}

#[cycle(unnamed)]
fn is_unnamed_stmt(stmt: &WireStmt) -> bool
    ensures { result ≡ is_unnamed_stmt (stmt_view stmt.now) }
{
    match stmt {
        WireStmt::Text(_) | WireStmt::Comment(_) | WireStmt::Put(_) => true,
        WireStmt::Element { body, .. } => is_unnamed_body(body),
        WireStmt::Component { slots, .. } => is_unnamed_slots(&**slots),
        WireStmt::If {
            body,
            otherwise,
            ..
        } => is_unnamed_body(body) && is_unnamed_body(otherwise),
        WireStmt::Each {
            body,
            otherwise,
            ..
        } => is_unnamed_body(body) && is_unnamed_body(otherwise),
        WireStmt::Let { body, .. } => is_unnamed_body(body),
        WireStmt::Yield { to, .. } => is_default(to),
    }
}

#[cycle(unnamed)]
fn is_unnamed_body(body: &WireBody) -> bool
    ensures { result ≡ is_unnamed_body (body_of body.now) }
{
    for stmt in body.as_slice() {
        if !is_unnamed_stmt(stmt) {
            return false;
        }
    }
    true
}

/// Whether the components of a wire have at most the block `default`, and its yields name that: whether it has JSON in version 1.
/// It takes no memory.
pub fn is_unnamed(wire: &Wire) -> bool
    ensures { result ≡ is_unnamed (wire_view wire.now) }
{
    is_unnamed_body(wire.body())
}
