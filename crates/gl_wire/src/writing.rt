// The text of a wire's statements, written piece by piece.
ghost use Rattle.std.specs.Prelude.{◌≡◌, [], ◌∷◌, ◌++◌, true, false, OnOk, codes, string_bytes};
ghost use Rattle.serde_json.specs.Data.{string};
ghost use Rattle.serde_json.specs.View.{view};
ghost use Rattle.serde_json.specs.Written.{comma_if, compact_text, has_float};
ghost use Rattle.gl_wire.specs.Json.{array_of, row, text_json, texts_json, places_json, expr_json, exprs_json, named_json, part_json, parts_json, component_rows, end_row, stmt_rows, body_rows, slots_rows, else_rows};
ghost use Rattle.gl_wire.specs.View.{expr_view, part_view, stmt_view};
ghost use Rattle.gl_wire.specs.Wire.{exprs_of, named_of, body_of, slots_of, get, cat, element, if_stmt, each, let_stmt};
ghost use Rattle.gl_wire.specs.Written.{rows_text};

use crate::expr_json::expr_value;
use crate::row::{places_value, texts_value};
use crate::stmt_json::{if_word, part_value};
use crate::{
    Head, Symbols, Version, WireBody, WireEachHead, WireExpr, WireExprs, WirePairs, WirePart,
    WireParts, WireSlots, WireStmt,
};
use gl_value::{Text, Texts};
use serde_json::Value;
use std::alloc::{AllocError, Global};

/// Adds the text of a value.
pub(crate) fn write_value(alloc: Global, text: &mut String, value: &Value) -> Result<(), AllocError>
    requires { has_float (view value.now) ≡ false }
    ensures { OnOk result (string_bytes text.new ≡ string_bytes text.old ++ compact_text (view value.now)) }
{
    text.push_str(value.to_string(alloc)?.as_str())
}

// Adds a comma, where something stands before what follows.
fn write_comma(text: &mut String, later: bool) -> Result<(), AllocError>
    ensures { OnOk result (string_bytes text.new ≡ string_bytes text.old ++ comma_if later) }
{
    if later {
        text.push_str(",")?;
    }
    Ok(())
}

// Adds the text of a value, after a comma where something stands before it.
fn write_item(
    alloc: Global,
    text: &mut String,
    later: bool,
    value: &Value,
) -> Result<(), AllocError>
    requires { has_float (view value.now) ≡ false }
    ensures { OnOk result (string_bytes text.new ≡ string_bytes text.old ++ (comma_if later ++ compact_text (view value.now))) }
{
    write_comma(text, later)?;
    write_value(alloc, text, value)
}

// Adds a string, after a comma where something stands before it.
fn write_string(
    alloc: Global,
    text: &mut String,
    later: bool,
    content: &str,
) -> Result<(), AllocError>
    ensures { OnOk result (string_bytes text.new ≡ string_bytes text.old ++ (comma_if later ++ compact_text (string content.now))) }
{
    write_item(alloc, text, later, &Value::try_from_str(alloc, content)?)
}

// Adds the array of texts, which is not the first of its row.
#[tactic(auto, using(crate::proofs::NoFloats::texts))]
fn write_texts(alloc: Global, text: &mut String, texts: &Texts) -> Result<(), AllocError>
    ensures { OnOk result (string_bytes text.new ≡ string_bytes text.old ++ (comma_if true ++ compact_text (texts_json texts.now))) }
{
    write_item(alloc, text, true, &texts_value(alloc, texts)?)
}

// Adds the array of places, which is not the first of its row.
#[tactic(auto, using(crate::proofs::NoFloats::places))]
fn write_places(alloc: Global, text: &mut String, places: &Symbols) -> Result<(), AllocError>
    ensures { OnOk result (string_bytes text.new ≡ string_bytes text.old ++ (comma_if true ++ compact_text (places_json places.now))) }
{
    write_item(alloc, text, true, &places_value(alloc, places)?)
}

// Begins an array with a word, after a comma where something stands before it.
fn open_row(alloc: Global, text: &mut String, later: bool, word: &str) -> Result<(), AllocError>
    ensures { OnOk result (string_bytes text.new ≡ string_bytes text.old ++ (comma_if later ++ 91 ∷ compact_text (string word.now))) }
{
    write_comma(text, later)?;
    text.push_str("[")?;
    write_string(alloc, text, false, word)
}

// Begins an array with a word and a name.
fn open_named(
    alloc: Global,
    text: &mut String,
    later: bool,
    word: &str,
    name: &Text,
) -> Result<(), AllocError>
    ensures { OnOk result (string_bytes text.new ≡ string_bytes text.old ++ (comma_if later ++ 91 ∷ (compact_text (string word.now) ++ (comma_if true ++ compact_text (text_json name.now))))) }
{
    open_row(alloc, text, later, word)?;
    write_string(alloc, text, true, name.as_str())
}

// Ends an array.
fn close(text: &mut String) -> Result<(), AllocError>
    ensures { OnOk result (string_bytes text.new ≡ string_bytes text.old ++ 93 ∷ []) }
{
    text.push_str("]")
}

// Adds an expression in which no other stands.
#[inline(never)]
#[tactic(auto, using(crate::proofs::NoFloats::expression))]
fn write_leaf(
    alloc: Global,
    text: &mut String,
    later: bool,
    expr: &WireExpr,
) -> Result<(), AllocError>
    ensures { OnOk result (string_bytes text.new ≡ string_bytes text.old ++ (comma_if later ++ compact_text (expr_json (expr_view expr.now)))) }
{
    write_item(alloc, text, later, &expr_value(alloc, expr)?)
}

// Adds a call, of a modifier too, by its word.
#[inline(never)]
#[cycle(expression)]
fn write_call(
    alloc: Global,
    text: &mut String,
    later: bool,
    word: &str,
    name: &Text,
    args: &WireExprs,
    named: &WirePairs,
) -> Result<(), AllocError>
    ensures { OnOk result (string_bytes text.new ≡ string_bytes text.old ++ (comma_if later ++ compact_text (row word.now (text_json name.now ∷ array_of (exprs_json (exprs_of args.now)) ∷ array_of (named_json (named_of named.now)) ∷ [])))) }
{
    open_named(alloc, text, later, word, name)?;
    write_exprs(alloc, text, args)?;
    write_pairs(alloc, text, named)?;
    close(text)
}

// Adds a path that has further segments.
#[inline(never)]
#[cycle(expression)]
fn write_get(
    alloc: Global,
    text: &mut String,
    later: bool,
    of: &Head,
    rest: &Texts,
) -> Result<(), AllocError>
    ensures { OnOk result (string_bytes text.new ≡ string_bytes text.old ++ (comma_if later ++ compact_text (expr_json (get of.now rest.now)))) }
{
    open_row(alloc, text, later, "get")?;
    write_expr(alloc, text, true, of.expr())?;
    write_texts(alloc, text, rest)?;
    close(text)
}

// Adds a text joined of several expressions.
#[inline(never)]
#[cycle(expression)]
fn write_cat(
    alloc: Global,
    text: &mut String,
    later: bool,
    parts: &WireExprs,
) -> Result<(), AllocError>
    ensures { OnOk result (string_bytes text.new ≡ string_bytes text.old ++ (comma_if later ++ compact_text (expr_json (cat (exprs_of parts.now))))) }
{
    open_row(alloc, text, later, "cat")?;
    write_exprs(alloc, text, parts)?;
    close(text)
}

// Adds an expression, after a comma where something stands before it.
#[inline(never)]
#[cycle(expression)]
fn write_expr(
    alloc: Global,
    text: &mut String,
    later: bool,
    expr: &WireExpr,
) -> Result<(), AllocError>
    ensures { OnOk result (string_bytes text.new ≡ string_bytes text.old ++ (comma_if later ++ compact_text (expr_json (expr_view expr.now)))) }
{
    match expr {
        WireExpr::Get { of, rest } => write_get(alloc, text, later, of, rest),
        WireExpr::Call { name, args, named } => {
            write_call(alloc, text, later, "call", name, args, &**named)
        }
        WireExpr::Cat(parts) => write_cat(alloc, text, later, parts),
        _ => write_leaf(alloc, text, later, expr),
    }
}

// Adds the array of expressions, which is not the first of its row.
#[inline(never)]
#[cycle(expression)]
fn write_exprs(alloc: Global, text: &mut String, exprs: &WireExprs) -> Result<(), AllocError>
    ensures { OnOk result (string_bytes text.new ≡ string_bytes text.old ++ (comma_if true ++ compact_text (array_of (exprs_json (exprs_of exprs.now))))) }
{
    text.push_str(",[")?;
    let mut later = false;
    for item in exprs.as_slice() {
        write_expr(alloc, text, later, item)?;
        later = true;
    }
    close(text)
}

// Adds the array of named expressions, which is not the first of its row.
#[inline(never)]
#[cycle(expression)]
fn write_pairs(alloc: Global, text: &mut String, pairs: &WirePairs) -> Result<(), AllocError>
    ensures { OnOk result (string_bytes text.new ≡ string_bytes text.old ++ (comma_if true ++ compact_text (array_of (named_json (named_of pairs.now))))) }
{
    text.push_str(",[")?;
    let mut later = false;
    for pair in pairs.as_slice() {
        open_row(alloc, text, later, pair.name.as_str())?;
        write_expr(alloc, text, true, &pair.value)?;
        close(text)?;
        later = true;
    }
    close(text)
}

// Adds a part of a tag in which no expression stands.
#[tactic(auto, using(crate::proofs::NoFloats::part))]
fn write_plain_part(
    alloc: Global,
    text: &mut String,
    later: bool,
    part: &WirePart,
) -> Result<(), AllocError>
    ensures { OnOk result (string_bytes text.new ≡ string_bytes text.old ++ (comma_if later ++ compact_text (part_json (part_view part.now)))) }
{
    write_item(alloc, text, later, &part_value(alloc, part)?)
}

// Adds a part of a tag, after a comma where something stands before it.
fn write_part(
    alloc: Global,
    text: &mut String,
    later: bool,
    part: &WirePart,
) -> Result<(), AllocError>
    ensures { OnOk result (string_bytes text.new ≡ string_bytes text.old ++ (comma_if later ++ compact_text (part_json (part_view part.now)))) }
{
    match part {
        WirePart::Live { name, value } => {
            open_named(alloc, text, later, "dyn", name)?;
            write_expr(alloc, text, true, &**value)?;
            close(text)
        }
        WirePart::Mod { name, args, named } => {
            write_call(alloc, text, later, "mod", name, args, &**named)
        }
        _ => write_plain_part(alloc, text, later, part),
    }
}

// Adds the array of the parts of a tag, which is not the first of its row.
fn write_parts(alloc: Global, text: &mut String, parts: &WireParts) -> Result<(), AllocError>
    ensures { OnOk result (string_bytes text.new ≡ string_bytes text.old ++ (comma_if true ++ compact_text (parts_json parts.now))) }
{
    text.push_str(",[")?;
    let mut later = false;
    for part in parts.as_slice() {
        write_part(alloc, text, later, part)?;
        later = true;
    }
    close(text)
}

// Adds a row of a word and a text.
fn write_text_row(
    alloc: Global,
    text: &mut String,
    later: bool,
    word: &str,
    content: &Text,
) -> Result<(), AllocError>
    ensures { OnOk result (string_bytes text.new ≡ string_bytes text.old ++ (comma_if later ++ compact_text (row word.now (text_json content.now ∷ [])))) }
{
    open_named(alloc, text, later, word, content)?;
    close(text)
}

// Adds a row of a word and an expression.
fn write_expr_row(
    alloc: Global,
    text: &mut String,
    later: bool,
    word: &str,
    expr: &WireExpr,
) -> Result<(), AllocError>
    ensures { OnOk result (string_bytes text.new ≡ string_bytes text.old ++ (comma_if later ++ compact_text (row word.now (expr_json (expr_view expr.now) ∷ [])))) }
{
    open_row(alloc, text, later, word)?;
    write_expr(alloc, text, true, expr)?;
    close(text)
}

// Adds the row of a block that is shown.
fn write_yield(
    alloc: Global,
    text: &mut String,
    later: bool,
    values: &WireExprs,
    to: &Text,
) -> Result<(), AllocError>
    ensures { OnOk result (string_bytes text.new ≡ string_bytes text.old ++ (comma_if later ++ compact_text (row (codes "yield") (array_of (exprs_json (exprs_of values.now)) ∷ text_json to.now ∷ [])))) }
{
    open_row(alloc, text, later, "yield")?;
    write_exprs(alloc, text, values)?;
    write_string(alloc, text, true, to.as_str())?;
    close(text)
}

// Adds the row with which an `each` begins.
fn write_each_row(
    alloc: Global,
    text: &mut String,
    later: bool,
    list: &WireExpr,
    key: &Text,
    params: &Symbols,
) -> Result<(), AllocError>
    ensures { OnOk result (string_bytes text.new ≡ string_bytes text.old ++ (comma_if later ++ compact_text (row (codes "each") (expr_json (expr_view list.now) ∷ text_json key.now ∷ places_json params.now ∷ [])))) }
{
    open_row(alloc, text, later, "each")?;
    write_expr(alloc, text, true, list)?;
    write_string(alloc, text, true, key.as_str())?;
    write_places(alloc, text, params)?;
    close(text)
}

// Adds the row with which a `let` begins.
fn write_let_row(
    alloc: Global,
    text: &mut String,
    later: bool,
    values: &WireExprs,
    params: &Symbols,
) -> Result<(), AllocError>
    ensures { OnOk result (string_bytes text.new ≡ string_bytes text.old ++ (comma_if later ++ compact_text (row (codes "let") (array_of (exprs_json (exprs_of values.now)) ∷ places_json params.now ∷ [])))) }
{
    open_row(alloc, text, later, "let")?;
    write_exprs(alloc, text, values)?;
    write_places(alloc, text, params)?;
    close(text)
}

// Adds the row with which an element begins.
fn write_element_row(
    alloc: Global,
    text: &mut String,
    later: bool,
    tag: &Text,
    parts: &WireParts,
) -> Result<(), AllocError>
    ensures { OnOk result (string_bytes text.new ≡ string_bytes text.old ++ (comma_if later ++ compact_text (row (codes "el") (text_json tag.now ∷ parts_json parts.now ∷ [])))) }
{
    open_named(alloc, text, later, "el", tag)?;
    write_parts(alloc, text, parts)?;
    close(text)
}

// Adds the row of a component, by its word.
fn write_component_row(
    alloc: Global,
    text: &mut String,
    later: bool,
    word: &str,
    class: &Text,
    parts: &WireParts,
    args: &WirePairs,
) -> Result<(), AllocError>
    ensures { OnOk result (string_bytes text.new ≡ string_bytes text.old ++ (comma_if later ++ compact_text (row word.now (text_json class.now ∷ parts_json parts.now ∷ array_of (named_json (named_of args.now)) ∷ [])))) }
{
    open_named(alloc, text, later, word, class)?;
    write_parts(alloc, text, parts)?;
    write_pairs(alloc, text, args)?;
    close(text)
}

// Adds the row with which a block begins. Its component stands before it.
fn write_slot_row(
    alloc: Global,
    text: &mut String,
    name: &Text,
    params: &Symbols,
) -> Result<(), AllocError>
    ensures { OnOk result (string_bytes text.new ≡ string_bytes text.old ++ (comma_if true ++ compact_text (row (codes "slot") (text_json name.now ∷ places_json params.now ∷ [])))) }
{
    open_named(alloc, text, true, "slot", name)?;
    write_places(alloc, text, params)?;
    close(text)
}

// Adds a row of a word alone. Something stands before it.
fn write_word(alloc: Global, text: &mut String, word: &str) -> Result<(), AllocError>
    ensures { OnOk result (string_bytes text.new ≡ string_bytes text.old ++ (comma_if true ++ compact_text (row word.now []))) }
{
    open_row(alloc, text, true, word)?;
    close(text)
}

// Adds the rows of blocks.
#[inline(never)]
#[cycle(statement)]
fn write_slots(alloc: Global, text: &mut String, slots: &WireSlots) -> Result<(), AllocError>
    ensures { OnOk result (string_bytes text.new ≡ string_bytes text.old ++ rows_text true (slots_rows Version.Second (slots_of slots.now))) }
{
    for slot in slots.as_slice() {
        write_slot_row(alloc, text, &slot.name, &slot.params)?;
        write_stmts(alloc, text, &slot.body)?;
        write_word(alloc, text, "end")?;
    }
    Ok(())
}

// Adds the rows of a component.
#[inline(never)]
#[cycle(statement)]
fn write_component(
    alloc: Global,
    text: &mut String,
    later: bool,
    class: &Text,
    parts: &WireParts,
    args: &WirePairs,
    slots: &WireSlots,
) -> Result<(), AllocError>
    ensures { OnOk result (string_bytes text.new ≡ string_bytes text.old ++ rows_text later (component_rows Version.Second (text_json class.now ∷ parts_json parts.now ∷ array_of (named_json (named_of args.now)) ∷ []) (slots_of slots.now) (slots_rows Version.Second (slots_of slots.now)))) }
{
    if slots.is_empty() {
        return write_component_row(alloc, text, later, "leaf", class, parts, args);
    }
    write_component_row(alloc, text, later, "comp", class, parts, args)?;
    write_slots(alloc, text, slots)?;
    write_word(alloc, text, "end")
}

// Adds the rows of an else body, where it isn't empty.
#[inline(never)]
#[cycle(statement)]
fn write_else(alloc: Global, text: &mut String, otherwise: &WireBody) -> Result<(), AllocError>
    ensures { OnOk result (string_bytes text.new ≡ string_bytes text.old ++ rows_text true (else_rows Version.Second (body_of otherwise.now))) }
{
    if otherwise.is_empty() {
        return Ok(());
    }
    write_word(alloc, text, "else")?;
    write_stmts(alloc, text, otherwise)
}

// Adds the rows of the bodies of a block, and its end.
#[inline(never)]
#[cycle(statement)]
fn write_bodies(
    alloc: Global,
    text: &mut String,
    body: &WireBody,
    otherwise: &WireBody,
) -> Result<(), AllocError>
    ensures { OnOk result (string_bytes text.new ≡ string_bytes text.old ++ rows_text true (body_rows Version.Second (body_of body.now) ++ (else_rows Version.Second (body_of otherwise.now) ++ end_row))) }
{
    write_stmts(alloc, text, body)?;
    write_else(alloc, text, otherwise)?;
    write_word(alloc, text, "end")
}

// Adds the rows of the one body of a statement, and its end.
#[inline(never)]
#[cycle(statement)]
fn write_ended(alloc: Global, text: &mut String, body: &WireBody) -> Result<(), AllocError>
    ensures { OnOk result (string_bytes text.new ≡ string_bytes text.old ++ rows_text true (body_rows Version.Second (body_of body.now) ++ end_row)) }
{
    write_stmts(alloc, text, body)?;
    write_word(alloc, text, "end")
}

// Adds the rows of a tag with its body.
#[inline(never)]
#[cycle(statement)]
fn write_tag(
    alloc: Global,
    text: &mut String,
    later: bool,
    tag: &Text,
    parts: &WireParts,
    body: &WireBody,
) -> Result<(), AllocError>
    ensures { OnOk result (string_bytes text.new ≡ string_bytes text.old ++ rows_text later (stmt_rows Version.Second (element tag.now parts.now (body_of body.now)))) }
{
    write_element_row(alloc, text, later, tag, parts)?;
    write_ended(alloc, text, body)
}

// Adds the rows of an `if` or an `unless`.
#[inline(never)]
#[cycle(statement)]
fn write_if(
    alloc: Global,
    text: &mut String,
    later: bool,
    test: &WireExpr,
    unless: bool,
    body: &WireBody,
    otherwise: &WireBody,
) -> Result<(), AllocError>
    ensures { OnOk result (string_bytes text.new ≡ string_bytes text.old ++ rows_text later (stmt_rows Version.Second (if_stmt (expr_view test.now) unless (body_of body.now) (body_of otherwise.now)))) }
{
    write_expr_row(alloc, text, later, if_word(unless), test)?;
    write_bodies(alloc, text, body, otherwise)
}

// Adds the rows of an `each`.
#[inline(never)]
#[cycle(statement)]
fn write_each(
    alloc: Global,
    text: &mut String,
    later: bool,
    head: &WireEachHead,
    body: &WireBody,
    otherwise: &WireBody,
) -> Result<(), AllocError>
    ensures { OnOk result (string_bytes text.new ≡ string_bytes text.old ++ rows_text later (stmt_rows Version.Second (each (expr_view head.now.list) head.now.key head.now.params (body_of body.now) (body_of otherwise.now)))) }
{
    write_each_row(alloc, text, later, &head.list, &head.key, &head.params)?;
    write_bodies(alloc, text, body, otherwise)
}

// Adds the rows of a `let`.
#[inline(never)]
#[cycle(statement)]
fn write_let(
    alloc: Global,
    text: &mut String,
    later: bool,
    values: &WireExprs,
    params: &Symbols,
    body: &WireBody,
) -> Result<(), AllocError>
    ensures { OnOk result (string_bytes text.new ≡ string_bytes text.old ++ rows_text later (stmt_rows Version.Second (let_stmt (exprs_of values.now) params.now (body_of body.now)))) }
{
    write_let_row(alloc, text, later, values, params)?;
    write_ended(alloc, text, body)
}

// Adds the rows of a statement, after a comma where something stands before them.
#[inline(never)]
#[cycle(statement)]
fn write_stmt(
    alloc: Global,
    text: &mut String,
    later: bool,
    stmt: &WireStmt,
) -> Result<(), AllocError>
    ensures { OnOk result (string_bytes text.new ≡ string_bytes text.old ++ rows_text later (stmt_rows Version.Second (stmt_view stmt.now))) }
{
    match stmt {
        WireStmt::Text(content) => write_text_row(alloc, text, later, "text", content),
        WireStmt::Comment(content) => write_text_row(alloc, text, later, "comment", content),
        WireStmt::Put(expr) => write_expr_row(alloc, text, later, "put", expr),
        WireStmt::Element { tag, parts, body } => write_tag(alloc, text, later, tag, parts, body),
        WireStmt::Component {
            class,
            parts,
            args,
            slots,
        } => write_component(alloc, text, later, class, parts, &**args, &**slots),
        WireStmt::If {
            test,
            unless,
            body,
            otherwise,
        } => write_if(alloc, text, later, &**test, *unless, body, otherwise),
        WireStmt::Each {
            head,
            body,
            otherwise,
        } => write_each(alloc, text, later, &**head, body, otherwise),
        WireStmt::Let {
            values,
            params,
            body,
        } => write_let(alloc, text, later, values, params, body),
        WireStmt::Yield { values, to } => write_yield(alloc, text, later, values, to),
    }
}

// Adds the rows of statements. Something stands before them.
#[inline(never)]
#[cycle(statement)]
fn write_stmts(alloc: Global, text: &mut String, body: &WireBody) -> Result<(), AllocError>
    ensures { OnOk result (string_bytes text.new ≡ string_bytes text.old ++ rows_text true (body_rows Version.Second (body_of body.now))) }
{
    for stmt in body.as_slice() {
        write_stmt(alloc, text, true, stmt)?;
    }
    Ok(())
}

// Adds the rows of a statement, which is let go.
fn write_and_drop(
    alloc: Global,
    text: &mut String,
    later: bool,
    stmt: WireStmt,
) -> Result<(), AllocError>
    ensures { OnOk result (string_bytes text.new ≡ string_bytes text.old ++ rows_text later (stmt_rows Version.Second (stmt_view stmt))) }
{
    write_stmt(alloc, text, later, &stmt)
}

/// Adds the texts of the rows of statements, piece by piece. Each statement is let go once its rows are written.
pub(crate) fn write_body(alloc: Global, text: &mut String, body: WireBody) -> Result<(), AllocError>
    ensures { OnOk result (string_bytes text.new ≡ string_bytes text.old ++ rows_text false (body_rows Version.Second (body_of body))) }
{
    let mut waiting = body.into_vec();
    waiting.reverse();
    let mut later = false;
    while let Some(stmt) = waiting.pop() {
        write_and_drop(alloc, text, later, stmt)?;
        later = true;
    }
    Ok(())
}
