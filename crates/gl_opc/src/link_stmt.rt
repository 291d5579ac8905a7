// Linking of statements.
ghost use Rattle.std.specs.Prelude.{◌≡◌, IfOk, OnOk, option_map};
ghost use Rattle.gl_ops.specs.declared.op.Op.TheVariants as op;
ghost use Rattle.gl_wire.specs.View.{expr_view, stmt_view};
ghost use Rattle.gl_wire.specs.Wire.{exprs_of, named_of, body_of, slots_of, put, element, component_stmt, if_stmt, each, let_stmt, yield};
ghost use Rattle.gl_opc.specs.Coding.{item_symbol};
ghost use Rattle.gl_opc.specs.Linked.{Meets, item_added, params_linked, bare_linked, met, item_linked, slot_linked, stmt_linked, body_linked, slots_linked, started, text_op_added};
ghost use Rattle.gl_opc.specs.Spans.{if_op};
ghost use Rattle.gl_opc.specs.State.{context_view, state_view};

use crate::LinkFault;
use crate::context::Context;
use crate::link_expr::{count_exprs, link_expr, link_exprs};
use crate::link_part::{link_arguments, link_parts};
use crate::linker::Linker;
use crate::lookup::{class_number, known, next};
use gl_meaning::Kind;
use gl_ops::Op;
use gl_value::Text;
use gl_wire::{
    Symbols, WireBody, WireExpr, WireExprs, WirePairs, WireParts, WireSlot, WireSlots, WireStmt,
};
use std::alloc::AllocError;

fn if_op(unless: bool, b: u32) -> Op
    ensures { result ≡ if_op unless b }
{
    if unless {
        Op::Unless { b }
    } else {
        Op::If { b }
    }
}

// The symbol of a parameter plus one, 0 where there is none.
fn item_symbol(symbol: Option<&u32>) -> Result<u32, AllocError>
    ensures { IfOk result (λ n. n ≡ item_symbol (option_map (λ i. i.now) symbol.entry)) }
{
    match symbol {
        Some(symbol) => next(*symbol),
        None => Ok(0),
    }
}

// Adds the start of an item, by the parameters of its `each`.
fn push_item(params: &Symbols, out: &mut Linker) -> Result<(), AllocError>
    ensures { OnOk result (state_view out.new ≡ item_added params.now (state_view out.old)) }
{
    let a = item_symbol(params.get(0))?;
    let b = item_symbol(params.get(1))?;
    out.push_op(Op::Item { a, b })
}

// Adds an opcode for each parameter of a `let`.
fn push_bindings(params: &Symbols, out: &mut Linker) -> Result<(), AllocError>
    ensures { OnOk result (state_view out.new ≡ params_linked op.Bind params.now (state_view out.old)) }
{
    for symbol in params.as_slice() {
        out.push_op(Op::Bind { a: *symbol })?;
    }
    Ok(())
}

// Adds an opcode for each parameter of a block.
fn push_params(params: &Symbols, out: &mut Linker) -> Result<(), AllocError>
    ensures { OnOk result (state_view out.new ≡ params_linked op.Param params.now (state_view out.old)) }
{
    for symbol in params.as_slice() {
        out.push_op(Op::Param { a: *symbol })?;
    }
    Ok(())
}

// Ends a second branch: fills the gap at the end of the first one.
fn meet(at: u32, out: &mut Linker) -> Result<(), AllocError>
    ensures { OnOk result (state_view out.new ≡ met at (state_view out.old)) }
{
    let b = out.here()?;
    out.fill(at, Op::Else { b });
    Ok(())
}

fn link_text(text: &Text, out: &mut Linker) -> Result<(), AllocError>
    ensures { OnOk result (state_view out.new ≡ text_op_added op.Text text.now (started (state_view out.old))) }
{
    out.begin()?;
    let b = out.push_text(text)?;
    out.push_op(Op::Text { b })
}

fn link_comment(text: &Text, out: &mut Linker) -> Result<(), AllocError>
    ensures { OnOk result (state_view out.new ≡ text_op_added op.Comment text.now (started (state_view out.old))) }
{
    out.begin()?;
    let b = out.push_text(text)?;
    out.push_op(Op::Comment { b })
}

fn link_put(context: &Context, expr: &WireExpr, out: &mut Linker) -> Result<(), LinkFault>
    ensures { Meets (λ u. state_view out.new) result (stmt_linked (context_view context.now) (put (expr_view expr.now)) (state_view out.old)) }
{
    let place = out.begin()?;
    link_expr(context, place, expr, out)?;
    out.push_op(Op::Put)?;
    Ok(())
}

#[cycle(statement)]
fn link_element(
    context: &Context,
    tag: &Text,
    parts: &WireParts,
    body: &WireBody,
    out: &mut Linker,
) -> Result<(), LinkFault>
    ensures { Meets (λ u. state_view out.new) result (stmt_linked (context_view context.now) (element tag.now parts.now (body_of body.now)) (state_view out.old)) }
{
    let place = out.begin()?;
    let b = out.push_text(tag)?;
    out.push_op(Op::Open { b })?;
    link_parts(context, place, parts, out)?;
    out.push_op(Op::Flush)?;
    link_body(context, body, out)?;
    out.push_op(Op::Close)?;
    Ok(())
}

fn push_bare(slots: &WireSlots, out: &mut Linker) -> Result<(), AllocError>
    ensures { OnOk result (state_view out.new ≡ bare_linked (slots_of slots.now) (state_view out.old)) }
{
    match slots.as_slice() {
        [] => out.push_op(Op::Bare),
        [_, ..] => Ok(()),
    }
}

#[cycle(statement)]
fn link_component(
    context: &Context,
    class: &Text,
    parts: &WireParts,
    args: &WirePairs,
    slots: &WireSlots,
    out: &mut Linker,
) -> Result<(), LinkFault>
    ensures { Meets (λ u. state_view out.new) result (stmt_linked (context_view context.now) (component_stmt class.now parts.now (named_of args.now) (slots_of slots.now)) (state_view out.old)) }
{
    let place = out.begin()?;
    let number = class_number(context, class)?;
    let a = known(place, Kind::Component, class, number)?;
    out.push_op(Op::Comp { a })?;
    link_arguments(context, place, args, out)?;
    link_parts(context, place, parts, out)?;
    link_slots(context, slots, out)?;
    push_bare(slots, out)?;
    out.push_op(Op::Invoke)?;
    Ok(())
}

#[cycle(statement)]
fn link_if(
    context: &Context,
    test: &WireExpr,
    unless: bool,
    body: &WireBody,
    otherwise: &WireBody,
    out: &mut Linker,
) -> Result<(), LinkFault>
    ensures { Meets (λ u. state_view out.new) result (stmt_linked (context_view context.now) (if_stmt (expr_view test.now) unless (body_of body.now) (body_of otherwise.now)) (state_view out.old)) }
{
    let place = out.begin()?;
    link_expr(context, place, test, out)?;
    let at = out.push_gap()?;
    link_body(context, body, out)?;
    let turn = out.push_gap()?;
    let other = out.here()?;
    out.fill(at, if_op(unless, other));
    link_body(context, otherwise, out)?;
    meet(turn, out)?;
    out.push_op(Op::EndIf)?;
    Ok(())
}

// Links the first branch of an `each`, up to its end.
#[cycle(statement)]
fn link_item(
    context: &Context,
    params: &Symbols,
    body: &WireBody,
    out: &mut Linker,
) -> Result<(), LinkFault>
    ensures { Meets (λ u. state_view out.new) result (item_linked (context_view context.now) params.now (body_of body.now) (state_view out.old)) }
{
    push_item(params, out)?;
    link_body(context, body, out)?;
    out.push_op(Op::EndItem)?;
    Ok(())
}

#[cycle(statement)]
fn link_each(
    context: &Context,
    list: &WireExpr,
    key: &Text,
    params: &Symbols,
    body: &WireBody,
    otherwise: &WireBody,
    out: &mut Linker,
) -> Result<(), LinkFault>
    ensures { Meets (λ u. state_view out.new) result (stmt_linked (context_view context.now) (each (expr_view list.now) key.now params.now (body_of body.now) (body_of otherwise.now)) (state_view out.old)) }
{
    let place = out.begin()?;
    link_expr(context, place, list, out)?;
    let a = out.push_name(key)?;
    let at = out.push_gap()?;
    link_item(context, params, body, out)?;
    let turn = out.push_gap()?;
    let b = out.here()?;
    out.fill(at, Op::Each { a, b });
    link_body(context, otherwise, out)?;
    meet(turn, out)?;
    out.push_op(Op::EndEach)?;
    Ok(())
}

#[cycle(statement)]
fn link_let(
    context: &Context,
    values: &WireExprs,
    params: &Symbols,
    body: &WireBody,
    out: &mut Linker,
) -> Result<(), LinkFault>
    ensures { Meets (λ u. state_view out.new) result (stmt_linked (context_view context.now) (let_stmt (exprs_of values.now) params.now (body_of body.now)) (state_view out.old)) }
{
    let place = out.begin()?;
    link_exprs(context, place, values, out)?;
    let a = count_exprs(values)?;
    out.push_op(Op::Let { a })?;
    push_bindings(params, out)?;
    link_body(context, body, out)?;
    out.push_op(Op::EndLet)?;
    Ok(())
}

fn link_yield(
    context: &Context,
    values: &WireExprs,
    to: &Text,
    out: &mut Linker,
) -> Result<(), LinkFault>
    ensures { Meets (λ u. state_view out.new) result (stmt_linked (context_view context.now) (yield (exprs_of values.now) to.now) (state_view out.old)) }
{
    let place = out.begin()?;
    link_exprs(context, place, values, out)?;
    let a = count_exprs(values)?;
    let b = out.push_name(to)?;
    out.push_op(Op::Yield { a, b })?;
    Ok(())
}

#[cycle(statement)]
fn link_stmt(context: &Context, stmt: &WireStmt, out: &mut Linker) -> Result<(), LinkFault>
    ensures { Meets (λ u. state_view out.new) result (stmt_linked (context_view context.now) (stmt_view stmt.now) (state_view out.old)) }
{
    match stmt {
        WireStmt::Text(text) => Ok(link_text(text, out)?),
        WireStmt::Comment(text) => Ok(link_comment(text, out)?),
        WireStmt::Put(expr) => link_put(context, expr, out),
        WireStmt::Element { tag, parts, body } => link_element(context, tag, parts, body, out),
        WireStmt::Component {
            class,
            parts,
            args,
            slots,
        } => link_component(context, class, parts, &**args, &**slots, out),
        WireStmt::If {
            test,
            unless,
            body,
            otherwise,
        } => link_if(context, &**test, *unless, body, otherwise, out),
        WireStmt::Each {
            head,
            body,
            otherwise,
        } => link_each(
            context,
            &head.list,
            &head.key,
            &head.params,
            body,
            otherwise,
            out,
        ),
        WireStmt::Let {
            values,
            params,
            body,
        } => link_let(context, values, params, body, out),
        WireStmt::Yield { values, to } => link_yield(context, values, to, out),
    }
}

/// Links statements, one after another.
#[cycle(statement)]
pub fn link_body(context: &Context, body: &WireBody, out: &mut Linker) -> Result<(), LinkFault>
    ensures { Meets (λ u. state_view out.new) result (body_linked (context_view context.now) (body_of body.now) (state_view out.old)) }
{
    for stmt in body.as_slice() {
        link_stmt(context, stmt, out)?;
    }
    Ok(())
}

// Links a block that is passed to a component.
#[cycle(statement)]
fn link_slot(context: &Context, slot: &WireSlot, out: &mut Linker) -> Result<(), LinkFault>
    ensures { Meets (λ u. state_view out.new) result (slot_linked (context_view context.now) slot.now.name slot.now.params (body_of slot.now.body) (state_view out.old)) }
{
    let a = out.push_name(&slot.name)?;
    let at = out.push_gap()?;
    push_params(&slot.params, out)?;
    link_body(context, &slot.body, out)?;
    out.push_op(Op::EndBlock)?;
    let b = out.here()?;
    out.fill(at, Op::Block { a, b });
    Ok(())
}

#[cycle(statement)]
fn link_slots(context: &Context, slots: &WireSlots, out: &mut Linker) -> Result<(), LinkFault>
    ensures { Meets (λ u. state_view out.new) result (slots_linked (context_view context.now) (slots_of slots.now) (state_view out.old)) }
{
    for slot in slots.as_slice() {
        link_slot(context, slot, out)?;
    }
    Ok(())
}
