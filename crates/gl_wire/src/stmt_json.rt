// The JSON of parts and statements.
ghost use Rattle.std.specs.Prelude.{◌≡◌, [], ◌∷◌, ◌++◌, IfOk, OnOk, codes};
ghost use Rattle.serde_json.specs.Data.{string};
ghost use Rattle.serde_json.specs.View.{view};
ghost use Rattle.gl_wire.specs.Json.{array_of, row, text_json, places_json, expr_json, exprs_json, named_json, part_json, parts_json, if_word, end_row, yield_names, comp_params, component_rows, stmt_rows, body_rows, slots_rows, else_rows};
ghost use Rattle.gl_wire.specs.Rows.{shown};
ghost use Rattle.gl_wire.specs.View.{expr_view, part_view, stmt_view};
ghost use Rattle.gl_wire.specs.Wire.{exprs_of, named_of, body_of, slots_of, element, let_stmt};

use crate::expr_json::{call_value, expr_value, exprs_value, named_value};
use crate::row::{Row, named_row, places_value};
use crate::{
    Symbols, Version, WireBody, WireExpr, WireExprs, WirePairs, WirePart, WireParts, WireSlots,
    WireStmt,
};
use gl_value::Text;
use serde_json::Value;
use std::alloc::{AllocError, Global};

/// The JSON of a part of a tag.
pub(crate) fn part_value(alloc: Global, part: &WirePart) -> Result<Value, AllocError>
    ensures { IfOk result (λ v. view v ≡ part_json (part_view part.now)) }
{
    match part {
        WirePart::Attr { name, value } => {
            let mut row = named_row(alloc, "attr", name)?;
            row.push_text(alloc, value)?;
            Ok(row.into_value())
        }
        WirePart::Live { name, value } => {
            let mut row = named_row(alloc, "dyn", name)?;
            row.push(expr_value(alloc, &**value)?)?;
            Ok(row.into_value())
        }
        WirePart::Mod { name, args, named } => call_value(alloc, "mod", name, args, &**named),
        WirePart::Spread => Ok(Row::of(alloc, "spread")?.into_value()),
    }
}

fn parts_value(alloc: Global, parts: &WireParts) -> Result<Value, AllocError>
    ensures { IfOk result (λ v. view v ≡ parts_json parts.now) }
{
    let mut row = Row::new(alloc);
    for part in parts.as_slice() {
        row.push(part_value(alloc, part)?)?;
    }
    Ok(row.into_value())
}

// Adds a row of a word alone.
fn push_word(alloc: Global, word: &str, out: &mut Row) -> Result<(), AllocError>
    ensures { OnOk result (shown out.new ≡ shown out.old ++ row word.now [] ∷ []) }
{
    out.push(Row::of(alloc, word)?.into_value())
}

// Adds a row of a word and a text.
fn push_text_row(alloc: Global, word: &str, text: &Text, out: &mut Row) -> Result<(), AllocError>
    ensures { OnOk result (shown out.new ≡ shown out.old ++ row word.now (text_json text.now ∷ []) ∷ []) }
{
    out.push(named_row(alloc, word, text)?.into_value())
}

// Adds a row of a word and an expression.
fn push_expr_row(
    alloc: Global,
    word: &str,
    expr: &WireExpr,
    out: &mut Row,
) -> Result<(), AllocError>
    ensures { OnOk result (shown out.new ≡ shown out.old ++ row word.now (expr_json (expr_view expr.now) ∷ []) ∷ []) }
{
    let mut row = Row::of(alloc, word)?;
    row.push(expr_value(alloc, expr)?)?;
    out.push(row.into_value())
}

/// The word of an `If`.
pub(crate) fn if_word(unless: bool) -> &'static str
    ensures { result.now ≡ if_word unless }
{
    if unless { "unless" } else { "if" }
}

// Adds the row of a block that is shown. In version 1 it doesn't name it.
fn push_yield(
    alloc: Global,
    version: Version,
    values: &WireExprs,
    to: &Text,
    out: &mut Row,
) -> Result<(), AllocError>
    ensures { OnOk result (shown out.new ≡ shown out.old ++ row (codes "yield") (array_of (exprs_json (exprs_of values.now)) ∷ yield_names version to.now) ∷ []) }
{
    let mut row = Row::of(alloc, "yield")?;
    row.push(exprs_value(alloc, values)?)?;
    match version {
        Version::First => {}
        Version::Second => row.push_text(alloc, to)?,
    }
    out.push(row.into_value())
}

// Adds the row with which an `each` begins.
fn push_each(
    alloc: Global,
    list: &WireExpr,
    key: &Text,
    params: &Symbols,
    out: &mut Row,
) -> Result<(), AllocError>
    ensures { OnOk result (shown out.new ≡ shown out.old ++ row (codes "each") (expr_json (expr_view list.now) ∷ text_json key.now ∷ places_json params.now ∷ []) ∷ []) }
{
    let mut row = Row::of(alloc, "each")?;
    row.push(expr_value(alloc, list)?)?;
    row.push_text(alloc, key)?;
    row.push(places_value(alloc, params)?)?;
    out.push(row.into_value())
}

// Adds the row with which a `let` begins.
fn push_let(
    alloc: Global,
    values: &WireExprs,
    params: &Symbols,
    out: &mut Row,
) -> Result<(), AllocError>
    ensures { OnOk result (shown out.new ≡ shown out.old ++ row (codes "let") (array_of (exprs_json (exprs_of values.now)) ∷ places_json params.now ∷ []) ∷ []) }
{
    let mut row = Row::of(alloc, "let")?;
    row.push(exprs_value(alloc, values)?)?;
    row.push(places_value(alloc, params)?)?;
    out.push(row.into_value())
}

// Adds the row with which an element begins.
fn push_element(
    alloc: Global,
    tag: &Text,
    parts: &WireParts,
    out: &mut Row,
) -> Result<(), AllocError>
    ensures { OnOk result (shown out.new ≡ shown out.old ++ row (codes "el") (text_json tag.now ∷ parts_json parts.now ∷ []) ∷ []) }
{
    let mut row = named_row(alloc, "el", tag)?;
    row.push(parts_value(alloc, parts)?)?;
    out.push(row.into_value())
}

// The row of a component, by its word.
fn component_row(
    alloc: Global,
    word: &str,
    class: &Text,
    parts: &WireParts,
    args: &WirePairs,
) -> Result<Row, AllocError>
    ensures { IfOk result (λ r. shown r ≡ string word.now ∷ text_json class.now ∷ parts_json parts.now ∷ array_of (named_json (named_of args.now)) ∷ []) }
{
    let mut row = named_row(alloc, word, class)?;
    row.push(parts_value(alloc, parts)?)?;
    row.push(named_value(alloc, args)?)?;
    Ok(row)
}

// Adds the row with which a component with blocks begins. In version 1 it has the parameters of the first one.
fn push_comp(
    alloc: Global,
    version: Version,
    class: &Text,
    parts: &WireParts,
    args: &WirePairs,
    params: &Symbols,
    out: &mut Row,
) -> Result<(), AllocError>
    ensures { OnOk result (shown out.new ≡ shown out.old ++ row (codes "comp") ((text_json class.now ∷ parts_json parts.now ∷ array_of (named_json (named_of args.now)) ∷ []) ++ comp_params version params.now) ∷ []) }
{
    let mut row = component_row(alloc, "comp", class, parts, args)?;
    match version {
        Version::First => row.push(places_value(alloc, params)?)?,
        Version::Second => {}
    }
    out.push(row.into_value())
}

// Adds the row with which a block begins.
fn push_slot(alloc: Global, name: &Text, params: &Symbols, out: &mut Row) -> Result<(), AllocError>
    ensures { OnOk result (shown out.new ≡ shown out.old ++ row (codes "slot") (text_json name.now ∷ places_json params.now ∷ []) ∷ []) }
{
    let mut row = named_row(alloc, "slot", name)?;
    row.push(places_value(alloc, params)?)?;
    out.push(row.into_value())
}

// Adds the rows of blocks, as version 2 has them.
#[cycle(statement)]
fn push_slots(alloc: Global, slots: &WireSlots, out: &mut Row) -> Result<(), AllocError>
    ensures { OnOk result (shown out.new ≡ shown out.old ++ slots_rows Version.Second (slots_of slots.now)) }
{
    for slot in slots.as_slice() {
        push_slot(alloc, &slot.name, &slot.params, out)?;
        push_body(alloc, Version::Second, &slot.body, out)?;
        push_word(alloc, "end", out)?;
    }
    Ok(())
}

// Adds the rows of a component.
#[cycle(statement)]
fn push_component(
    alloc: Global,
    version: Version,
    class: &Text,
    parts: &WireParts,
    args: &WirePairs,
    slots: &WireSlots,
    out: &mut Row,
) -> Result<(), AllocError>
    ensures { OnOk result (shown out.new ≡ shown out.old ++ component_rows version (text_json class.now ∷ parts_json parts.now ∷ array_of (named_json (named_of args.now)) ∷ []) (slots_of slots.now) (slots_rows version (slots_of slots.now))) }
{
    match slots.as_slice() {
        [] => out.push(component_row(alloc, "leaf", class, parts, args)?.into_value()),
        [slot, ..] => {
            push_comp(alloc, version, class, parts, args, &slot.params, out)?;
            match version {
                Version::First => push_body(alloc, version, &slot.body, out)?,
                Version::Second => push_slots(alloc, slots, out)?,
            }
            push_word(alloc, "end", out)
        }
    }
}

// Adds the rows of an else body, where it isn't empty.
#[cycle(statement)]
fn push_else(
    alloc: Global,
    version: Version,
    otherwise: &WireBody,
    out: &mut Row,
) -> Result<(), AllocError>
    ensures { OnOk result (shown out.new ≡ shown out.old ++ else_rows version (body_of otherwise.now)) }
{
    if otherwise.is_empty() {
        return Ok(());
    }
    push_word(alloc, "else", out)?;
    push_body(alloc, version, otherwise, out)
}

// Adds the rows of the bodies of a block, and its end.
#[cycle(statement)]
fn push_bodies(
    alloc: Global,
    version: Version,
    body: &WireBody,
    otherwise: &WireBody,
    out: &mut Row,
) -> Result<(), AllocError>
    ensures { OnOk result (shown out.new ≡ shown out.old ++ (body_rows version (body_of body.now) ++ (else_rows version (body_of otherwise.now) ++ end_row))) }
{
    push_body(alloc, version, body, out)?;
    push_else(alloc, version, otherwise, out)?;
    push_word(alloc, "end", out)
}

// Adds the rows of a statement.
#[cycle(statement)]
fn push_stmt(
    alloc: Global,
    version: Version,
    stmt: &WireStmt,
    out: &mut Row,
) -> Result<(), AllocError>
    ensures { OnOk result (shown out.new ≡ shown out.old ++ stmt_rows version (stmt_view stmt.now)) }
{
    match stmt {
        WireStmt::Text(text) => push_text_row(alloc, "text", text, out),
        WireStmt::Comment(text) => push_text_row(alloc, "comment", text, out),
        WireStmt::Put(expr) => push_expr_row(alloc, "put", expr, out),
        WireStmt::Element { tag, parts, body } => {
            push_element(alloc, tag, parts, out)?;
            push_body(alloc, version, body, out)?;
            push_word(alloc, "end", out)
        }
        WireStmt::Component {
            class,
            parts,
            args,
            slots,
        } => push_component(alloc, version, class, parts, &**args, &**slots, out),
        WireStmt::If {
            test,
            unless,
            body,
            otherwise,
        } => {
            push_expr_row(alloc, if_word(*unless), &**test, out)?;
            push_bodies(alloc, version, body, otherwise, out)
        }
        WireStmt::Each {
            head,
            body,
            otherwise,
        } => {
            push_each(alloc, &head.list, &head.key, &head.params, out)?;
            push_bodies(alloc, version, body, otherwise, out)
        }
        WireStmt::Let {
            values,
            params,
            body,
        } => {
            push_let(alloc, values, params, out)?;
            push_body(alloc, version, body, out)?;
            push_word(alloc, "end", out)
        }
        WireStmt::Yield { values, to } => push_yield(alloc, version, values, to, out),
    }
}

/// Adds the rows of statements.
#[cycle(statement)]
pub fn push_body(
    alloc: Global,
    version: Version,
    body: &WireBody,
    out: &mut Row,
) -> Result<(), AllocError>
    ensures { OnOk result (shown out.new ≡ shown out.old ++ body_rows version (body_of body.now)) }
{
    for stmt in body.as_slice() {
        push_stmt(alloc, version, stmt, out)?;
    }
    Ok(())
}
