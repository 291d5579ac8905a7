// Linking of what stands in a tag.
ghost use Rattle.gl_wire.specs.View.{expr_view, part_view};
ghost use Rattle.gl_wire.specs.Wire.{exprs_of, named_of, attribute, live, modifier};
ghost use Rattle.gl_opc.specs.Linked.{Meets, part_linked, parts_linked, arguments_linked};
ghost use Rattle.gl_opc.specs.State.{context_view, state_view};

use crate::LinkFault;
use crate::context::Context;
use crate::link_expr::{count_both, link_both, link_expr};
use crate::linker::Linker;
use crate::lookup::{known, modifier_number};
use gl_meaning::Kind;
use gl_ops::Op;
use gl_value::Text;
use gl_wire::{WireExpr, WireExprs, WirePairs, WirePart, WireParts};

fn link_live(
    context: &Context,
    place: u64,
    name: &Text,
    value: &WireExpr,
    out: &mut Linker,
) -> Result<(), LinkFault>
    ensures { Meets (λ u. state_view out.new) result (part_linked (context_view context.now) place (live name.now (expr_view value.now)) (state_view out.old)) }
{
    link_expr(context, place, value, out)?;
    let a = out.push_name(name)?;
    out.push_op(Op::AttrRef { a })?;
    Ok(())
}

fn link_modifier(
    context: &Context,
    place: u64,
    name: &Text,
    args: &WireExprs,
    named: &WirePairs,
    out: &mut Linker,
) -> Result<(), LinkFault>
    ensures { Meets (λ u. state_view out.new) result (part_linked (context_view context.now) place (modifier name.now (exprs_of args.now) (named_of named.now)) (state_view out.old)) }
{
    let number = modifier_number(context, name)?;
    let a = known(place, Kind::Modifier, name, number)?;
    link_both(context, place, args, named, out)?;
    let b = count_both(args, named)?;
    out.push_op(Op::Mod { a, b })?;
    Ok(())
}

// Links a part of a tag in a statement of a number.
fn link_part(
    context: &Context,
    place: u64,
    part: &WirePart,
    out: &mut Linker,
) -> Result<(), LinkFault>
    ensures { Meets (λ u. state_view out.new) result (part_linked (context_view context.now) place (part_view part.now) (state_view out.old)) }
{
    match part {
        WirePart::Attr { name, value } => {
            let a = out.push_name(name)?;
            let b = out.push_text(value)?;
            Ok(out.push_op(Op::Attr { a, b })?)
        }
        WirePart::Live { name, value } => link_live(context, place, name, &**value, out),
        WirePart::Mod { name, args, named } => {
            link_modifier(context, place, name, args, &**named, out)
        }
        WirePart::Spread => Ok(out.push_op(Op::Spread)?),
    }
}

/// Links the parts of a tag in a statement of a number.
pub fn link_parts(
    context: &Context,
    place: u64,
    parts: &WireParts,
    out: &mut Linker,
) -> Result<(), LinkFault>
    ensures { Meets (λ u. state_view out.new) result (parts_linked (context_view context.now) place parts.now (state_view out.old)) }
{
    for part in parts.as_slice() {
        link_part(context, place, part, out)?;
    }
    Ok(())
}

/// Links the arguments of a component, each with its name behind it.
pub fn link_arguments(
    context: &Context,
    place: u64,
    args: &WirePairs,
    out: &mut Linker,
) -> Result<(), LinkFault>
    ensures { Meets (λ u. state_view out.new) result (arguments_linked (context_view context.now) place (named_of args.now) (state_view out.old)) }
{
    for arg in args.as_slice() {
        link_expr(context, place, &arg.value, out)?;
        let a = out.push_name(&arg.name)?;
        out.push_op(Op::Arg { a })?;
    }
    Ok(())
}
