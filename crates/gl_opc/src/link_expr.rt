// Linking of expressions.
ghost use Rattle.std.specs.Prelude.{◌≡◌, IfOk, OnOk, slice_get};
ghost use Rattle.gl_ast.specs.View.{lit_view};
ghost use Rattle.gl_wire.specs.View.{expr_view};
ghost use Rattle.gl_wire.specs.Wire.{exprs_of, named_of, this, get, call, cat};
ghost use Rattle.gl_opc.specs.Coding.{count_exprs, count_both};
ghost use Rattle.gl_opc.specs.Linked.{Meets, literal_linked, segments_linked, symbol_linked, expr_linked, exprs_linked, named_linked, both_linked};
ghost use Rattle.gl_opc.specs.State.{context_view, state_view};

use crate::LinkFault;
use crate::context::Context;
use crate::linker::{Linker, number32};
use crate::lookup::{argument_name, helper_number, known, member_op};
use gl_ast::Lit;
use gl_meaning::Kind;
use gl_ops::Op;
use gl_value::{Text, Texts};
use gl_wire::{Head, WireExpr, WireExprs, WirePairs};
use std::alloc::AllocError;

fn link_literal(literal: &Lit, out: &mut Linker) -> Result<(), AllocError>
    ensures { OnOk result (state_view out.new ≡ literal_linked (lit_view literal.now) (state_view out.old)) }
{
    match literal {
        Lit::Undefined => out.push_op(Op::Undef),
        Lit::Null => out.push_op(Op::Null),
        Lit::Bool(true) => out.push_op(Op::True),
        Lit::Bool(false) => out.push_op(Op::False),
        Lit::Int(number) => {
            let b = out.push_int(*number)?;
            out.push_op(Op::Int { b })
        }
        Lit::Str(text) => {
            let b = out.push_text(text)?;
            out.push_op(Op::Str { b })
        }
    }
}

// Adds an opcode for each segment of a path.
fn link_segments(segments: &Texts, out: &mut Linker) -> Result<(), AllocError>
    ensures { OnOk result (state_view out.new ≡ segments_linked segments.now (state_view out.old)) }
{
    for segment in segments.as_slice() {
        let b = out.push_text(segment)?;
        out.push_op(Op::Prop { b })?;
    }
    Ok(())
}

// Adds the reference of a symbol: of an argument by its name, else of a parameter by its place.
fn link_symbol(context: &Context, place: u32, out: &mut Linker) -> Result<(), AllocError>
    ensures { OnOk result (state_view out.new ≡ symbol_linked place (slice_get (context_view context.now).symbols place) (state_view out.old)) }
{
    if let Some(symbol) = context.symbols.get(place as usize) {
        if let Some(name) = argument_name(context.alloc, symbol)? {
            let a = out.push_name(&name)?;
            return out.push_op(Op::ArgRef { a });
        }
    }
    out.push_op(Op::Local { a: place })
}

/// How many references some expressions leave.
#[tactic(auto, using(crate::proofs::Counts::count_laws))]
pub fn count_exprs(exprs: &WireExprs) -> Result<u32, AllocError>
    ensures { IfOk result (λ n. n ≡ count_exprs (exprs_of exprs.now)) }
{
    number32(exprs.len())
}

/// How many references the arguments of a call leave.
#[tactic(auto, using(crate::proofs::Counts::count_laws))]
pub fn count_both(args: &WireExprs, named: &WirePairs) -> Result<u32, AllocError>
    ensures { IfOk result (λ n. n ≡ count_both (exprs_of args.now) (named_of named.now)) }
{
    let all = args.len().checked_add(named.len()).ok_or(AllocError)?;
    number32(all)
}

/// Links the arguments of a call in a statement of a number.
#[cycle(expression)]
pub fn link_both(
    context: &Context,
    place: u64,
    args: &WireExprs,
    named: &WirePairs,
    out: &mut Linker,
) -> Result<(), LinkFault>
    ensures { Meets (λ u. state_view out.new) result (both_linked (context_view context.now) place (exprs_of args.now) (named_of named.now) (state_view out.old)) }
{
    link_exprs(context, place, args, out)?;
    link_named(context, place, named, out)
}

#[cycle(expression)]
fn link_call(
    context: &Context,
    place: u64,
    name: &Text,
    args: &WireExprs,
    named: &WirePairs,
    out: &mut Linker,
) -> Result<(), LinkFault>
    ensures { Meets (λ u. state_view out.new) result (expr_linked (context_view context.now) place (call name.now (exprs_of args.now) (named_of named.now)) (state_view out.old)) }
{
    let a = known(place, Kind::Helper, name, helper_number(name))?;
    link_both(context, place, args, named, out)?;
    let b = count_both(args, named)?;
    out.push_op(Op::Call { a, b })?;
    Ok(())
}

// Links an expression, in which a path has further segments.
#[cycle(expression)]
fn link_get(
    context: &Context,
    place: u64,
    of: &Head,
    rest: &Texts,
    out: &mut Linker,
) -> Result<(), LinkFault>
    ensures { Meets (λ u. state_view out.new) result (expr_linked (context_view context.now) place (get of.now rest.now) (state_view out.old)) }
{
    link_expr(context, place, of.expr(), out)?;
    link_segments(rest, out)?;
    Ok(())
}

// Links a text that is joined of expressions.
#[cycle(expression)]
fn link_cat(
    context: &Context,
    place: u64,
    parts: &WireExprs,
    out: &mut Linker,
) -> Result<(), LinkFault>
    ensures { Meets (λ u. state_view out.new) result (expr_linked (context_view context.now) place (cat (exprs_of parts.now)) (state_view out.old)) }
{
    link_exprs(context, place, parts, out)?;
    let a = count_exprs(parts)?;
    out.push_op(Op::Cat { a })?;
    Ok(())
}

fn link_member(
    context: &Context,
    place: u64,
    name: &Text,
    out: &mut Linker,
) -> Result<(), LinkFault>
    ensures { Meets (λ u. state_view out.new) result (expr_linked (context_view context.now) place (this name.now) (state_view out.old)) }
{
    let op = known(place, Kind::Member, name, member_op(context, name)?)?;
    out.push_op(op)?;
    Ok(())
}

/// Links an expression in a statement of a number.
#[cycle(expression)]
pub fn link_expr(
    context: &Context,
    place: u64,
    expr: &WireExpr,
    out: &mut Linker,
) -> Result<(), LinkFault>
    ensures { Meets (λ u. state_view out.new) result (expr_linked (context_view context.now) place (expr_view expr.now) (state_view out.old)) }
{
    match expr {
        WireExpr::Lit(literal) => Ok(link_literal(literal, out)?),
        WireExpr::Sym(symbol) => Ok(link_symbol(context, *symbol, out)?),
        WireExpr::This(name) => link_member(context, place, name, out),
        WireExpr::Get { of, rest } => link_get(context, place, of, rest, out),
        WireExpr::Free(name) => known(place, Kind::Local, name, None),
        WireExpr::Call { name, args, named } => link_call(
            context, place, name, args, &**named, out,
        ),
        WireExpr::Cat(parts) => link_cat(context, place, parts, out),
    }
}

/// Links expressions, one after another.
#[cycle(expression)]
pub fn link_exprs(
    context: &Context,
    place: u64,
    exprs: &WireExprs,
    out: &mut Linker,
) -> Result<(), LinkFault>
    ensures { Meets (λ u. state_view out.new) result (exprs_linked (context_view context.now) place (exprs_of exprs.now) (state_view out.old)) }
{
    for item in exprs.as_slice() {
        link_expr(context, place, item, out)?;
    }
    Ok(())
}

/// Links named expressions, each with its name behind it.
#[cycle(expression)]
pub fn link_named(
    context: &Context,
    place: u64,
    named: &WirePairs,
    out: &mut Linker,
) -> Result<(), LinkFault>
    ensures { Meets (λ u. state_view out.new) result (named_linked (context_view context.now) place (named_of named.now) (state_view out.old)) }
{
    for pair in named.as_slice() {
        link_expr(context, place, &pair.value, out)?;
        let b = out.push_text(&pair.name)?;
        out.push_op(Op::Named { b })?;
    }
    Ok(())
}
