// The wire's form of what stands in a tag.
ghost use Rattle.std.specs.Prelude.{◌≡◌, IfOk};
ghost use Rattle.gl_ast.specs.View.{attr_view, part_view};
ghost use Rattle.gl_wire.specs.View as wire;
ghost use Rattle.gl_wire.specs.Wire as w;
ghost use Rattle.gl_wire.specs.WireOf.{part_wire, parts_wire, value_wire, arguments_wire};

use crate::expr_wire::{expr_wire, exprs_wire, named_wire};
use crate::names::Names;
use gl_ast::{Args, AttrValue, Lit, Part, Parts};
use gl_wire::{WireExpr, WirePair, WirePairs, WirePart, WireParts};
use std::alloc::{AllocError, Global};

fn part_wire(
    alloc: Global,
    symbols: &Names,
    scope: &Names,
    part: &Part,
) -> Result<WirePart, AllocError>
    ensures { IfOk result (λ p. wire.part_view p ≡ part_wire symbols.now scope.now (part_view part.now)) }
{
    match part {
        Part::Attr {
            name,
            value: AttrValue::Fixed(text),
        } => Ok(WirePart::Attr {
            name: name.copy()?,
            value: text.copy()?,
        }),
        Part::Attr {
            name,
            value: AttrValue::Live(expr),
        } => Ok(WirePart::Live {
            name: name.copy()?,
            value: Box::new(alloc, expr_wire(alloc, symbols, scope, true, &**expr)?)?,
        }),
        Part::Mod { name, args, named } => Ok(WirePart::Mod {
            name: name.copy()?,
            args: exprs_wire(alloc, symbols, scope, false, args)?,
            named: Box::new(alloc, named_wire(alloc, symbols, scope, &**named)?)?,
        }),
        Part::Spread => Ok(WirePart::Spread),
    }
}

/// The wire's form of parts of a tag.
pub fn parts_wire(
    alloc: Global,
    symbols: &Names,
    scope: &Names,
    parts: &Parts,
) -> Result<WireParts, AllocError>
    ensures { IfOk result (λ l. l ≡ parts_wire symbols.now scope.now parts.now) }
{
    let mut list = WireParts::new(alloc);
    for part in parts.as_slice() {
        list.push(part_wire(alloc, symbols, scope, part)?)?;
    }
    Ok(list)
}

// The value of an argument.
fn value_wire(
    alloc: Global,
    symbols: &Names,
    scope: &Names,
    value: &AttrValue,
) -> Result<WireExpr, AllocError>
    ensures { IfOk result (λ e. wire.expr_view e ≡ value_wire symbols.now scope.now (attr_view value.now)) }
{
    match value {
        AttrValue::Fixed(text) => Ok(WireExpr::Lit(Lit::Str(text.copy()?))),
        AttrValue::Live(expr) => expr_wire(alloc, symbols, scope, true, &**expr),
    }
}

/// The wire's form of the arguments of a component.
pub fn arguments_wire(
    alloc: Global,
    symbols: &Names,
    scope: &Names,
    args: &Args,
) -> Result<WirePairs, AllocError>
    ensures { IfOk result (λ l. w.named_of l ≡ arguments_wire symbols.now scope.now args.now) }
{
    let mut list = WirePairs::new(alloc);
    for arg in args.as_slice() {
        let name = arg.name.copy()?;
        let value = value_wire(alloc, symbols, scope, &arg.value)?;
        list.push(WirePair { name, value })?;
    }
    Ok(list)
}
