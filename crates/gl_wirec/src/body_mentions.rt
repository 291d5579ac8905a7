// The names that the statements of a template mention.
ghost use Rattle.std.specs.Prelude.{◌≡◌, [], ◌++◌, OnOk};
ghost use Rattle.gl_ast.specs.Template.{exprs_of, named_of, body_of, slots_of};
ghost use Rattle.gl_ast.specs.View.{expr_view, attr_view, part_view, stmt_view};
ghost use Rattle.gl_wire.specs.Symbols.{with_names, expr_mentions, exprs_mentions, named_mentions, value_mentions, part_mentions, parts_mentions, arguments_mentions, stmt_mentions, body_mentions, slots_mentions};

use crate::mentions::{note_call, note_expr, note_exprs};
use crate::names::Names;
use gl_ast::{Args, AttrValue, Body, Part, Parts, Slots, Stmt};
use std::alloc::{AllocError, Global};

fn note_value(alloc: Global, value: &AttrValue, symbols: &mut Names) -> Result<(), AllocError>
    ensures { OnOk result (symbols.new ≡ with_names symbols.old (value_mentions (attr_view value.now))) }
{
    match value {
        AttrValue::Fixed(_) => Ok(()),
        AttrValue::Live(expr) => note_expr(alloc, &Names::new(alloc), &**expr, symbols),
    }
}

fn note_part(alloc: Global, part: &Part, symbols: &mut Names) -> Result<(), AllocError>
    ensures { OnOk result (symbols.new ≡ with_names symbols.old (part_mentions (part_view part.now))) }
{
    match part {
        Part::Attr { value, .. } => note_value(alloc, value, symbols),
        Part::Mod { args, named, .. } => {
            note_call(alloc, &Names::new(alloc), args, &**named, symbols)
        }
        Part::Spread => Ok(()),
    }
}

fn note_parts(alloc: Global, parts: &Parts, symbols: &mut Names) -> Result<(), AllocError>
    ensures { OnOk result (symbols.new ≡ with_names symbols.old (parts_mentions parts.now)) }
{
    for part in parts.as_slice() {
        note_part(alloc, part, symbols)?;
    }
    Ok(())
}

fn note_args(alloc: Global, args: &Args, symbols: &mut Names) -> Result<(), AllocError>
    ensures { OnOk result (symbols.new ≡ with_names symbols.old (arguments_mentions args.now)) }
{
    for arg in args.as_slice() {
        note_value(alloc, &arg.value, symbols)?;
    }
    Ok(())
}

// Adds the names of two bodies.
#[cycle(statement)]
#[tactic(auto, using(crate::proofs::Once::once_laws))]
fn note_bodies(
    alloc: Global,
    body: &Body,
    otherwise: &Body,
    symbols: &mut Names,
) -> Result<(), AllocError>
    ensures { OnOk result (symbols.new ≡ with_names symbols.old (body_mentions (body_of body.now) ++ body_mentions (body_of otherwise.now))) }
{
    note_body(alloc, body, symbols)?;
    note_body(alloc, otherwise, symbols)
}

#[cycle(statement)]
#[tactic(auto, using(crate::proofs::Once::once_laws))]
fn note_stmt(alloc: Global, stmt: &Stmt, symbols: &mut Names) -> Result<(), AllocError>
    ensures { OnOk result (symbols.new ≡ with_names symbols.old (stmt_mentions (stmt_view stmt.now))) }
{
    match stmt {
        Stmt::Text(_) | Stmt::Comment(_) => Ok(()),
        Stmt::Put(expr) => note_expr(alloc, &Names::new(alloc), expr, symbols),
        Stmt::Element { parts, body, .. } => {
            note_parts(alloc, parts, symbols)?;
            note_body(alloc, body, symbols)
        }
        Stmt::Component {
            parts,
            args,
            slots,
            ..
        } => {
            note_args(alloc, &**args, symbols)?;
            note_parts(alloc, parts, symbols)?;
            note_slots(alloc, &**slots, symbols)
        }
        Stmt::If {
            test,
            body,
            otherwise,
            ..
        } => {
            note_expr(alloc, &Names::new(alloc), &**test, symbols)?;
            note_bodies(alloc, body, otherwise, symbols)
        }
        Stmt::Each {
            head,
            body,
            otherwise,
        } => {
            note_expr(alloc, &Names::new(alloc), &head.list, symbols)?;
            symbols.add_all(alloc, &head.params)?;
            note_bodies(alloc, body, otherwise, symbols)
        }
        Stmt::Let {
            values,
            params,
            body,
        } => {
            note_exprs(alloc, &Names::new(alloc), values, symbols)?;
            symbols.add_all(alloc, params)?;
            note_body(alloc, body, symbols)
        }
        Stmt::Yield { values, .. } => note_exprs(alloc, &Names::new(alloc), values, symbols),
    }
}

/// Adds the names that statements mention, in the order of the canonical spelling.
#[cycle(statement)]
pub fn note_body(alloc: Global, body: &Body, symbols: &mut Names) -> Result<(), AllocError>
    ensures { OnOk result (symbols.new ≡ with_names symbols.old (body_mentions (body_of body.now))) }
{
    for stmt in body.as_slice() {
        note_stmt(alloc, stmt, symbols)?;
    }
    Ok(())
}

#[cycle(statement)]
fn note_slots(alloc: Global, slots: &Slots, symbols: &mut Names) -> Result<(), AllocError>
    ensures { OnOk result (symbols.new ≡ with_names symbols.old (slots_mentions (slots_of slots.now))) }
{
    for slot in slots.as_slice() {
        symbols.add_all(alloc, &slot.block.params)?;
        note_body(alloc, &slot.block.body, symbols)?;
    }
    Ok(())
}
