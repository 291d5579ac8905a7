// The tree that the JSON of a wire is read as.
ghost use Rattle.std.specs.Prelude.{◌≡◌, map};
ghost use Rattle.serde_json.specs.Find.{get};
ghost use Rattle.serde_json.specs.View.{view};
ghost use Rattle.gl_base.specs.Answers.{Gives};
ghost use Rattle.gl_ast.specs.Template.{body_of};
ghost use Rattle.gl_wirein.specs.Fault.{Fails};
ghost use Rattle.gl_wirein.specs.ReadRows.{add_opening, add_block, add_word, add_row, read_rows, read_body, tree_in};
ghost use Rattle.gl_wirein.specs.View.{rows_view};

use crate::WireFault;
use crate::pieces::{fields, items, texts, word};
use crate::rows::Rows;
use crate::statement::{is_simple, opening, simple, slot};
use gl_ast::Body;
use gl_value::Texts;
use serde_json::Value;
use std::alloc::Global;

// A statement takes the innermost body, and stands in the one round it.
fn add_opening(
    alloc: Global,
    symbols: &Texts,
    word: &str,
    fields: &[Value],
    rows: &mut Rows,
) -> Result<(), WireFault>
    ensures { Gives Fails (λ u. rows_view rows.new) result (add_opening symbols.now word.now (map view fields.now) (rows_view rows.old)) }
{
    match rows.close() {
        Some(inside) => {
            let stmt = opening(alloc, symbols, word, fields, inside)?;
            rows.add_stmt(stmt)?;
            Ok(())
        }
        None => Err(WireFault::BadWire),
    }
}

// A block takes the innermost body, and stands in the one round it.
fn add_slot(
    alloc: Global,
    symbols: &Texts,
    fields: &[Value],
    rows: &mut Rows,
) -> Result<(), WireFault>
    ensures { Gives Fails (λ u. rows_view rows.new) result (add_block symbols.now (map view fields.now) (rows_view rows.old)) }
{
    match rows.close() {
        Some(inside) => {
            let block = slot(alloc, symbols, fields, inside)?;
            rows.add_slot(block)?;
            Ok(())
        }
        None => Err(WireFault::BadWire),
    }
}

// A row by its word.
fn add_word(
    alloc: Global,
    symbols: &Texts,
    word: &str,
    fields: &[Value],
    rows: &mut Rows,
) -> Result<(), WireFault>
    ensures { Gives Fails (λ u. rows_view rows.new) result (add_word symbols.now word.now (map view fields.now) (rows_view rows.old)) }
{
    if word == "end" {
        return rows.add_end(alloc);
    }
    if word == "else" {
        rows.add_else(alloc);
        return Ok(());
    }
    if word == "slot" {
        return add_slot(alloc, symbols, fields, rows);
    }
    if is_simple(word) {
        let stmt = simple(alloc, symbols, word, fields)?;
        rows.add_stmt(stmt)?;
        return Ok(());
    }
    add_opening(alloc, symbols, word, fields, rows)
}

fn add_row(alloc: Global, symbols: &Texts, json: &Value, rows: &mut Rows) -> Result<(), WireFault>
    ensures { Gives Fails (λ u. rows_view rows.new) result (add_row symbols.now (view json.now) (rows_view rows.old)) }
{
    let row = items(json)?;
    add_word(alloc, symbols, word(row)?, fields(row), rows)
}

fn read_rows(alloc: Global, symbols: &Texts, list: &[Value]) -> Result<Rows, WireFault>
    ensures { Gives Fails (λ r. rows_view r) result (read_rows symbols.now (map view list.now)) }
{
    let mut rows = Rows::new(alloc);
    let mut left = list.len();
    while left > 0 {
        let at = left - 1;
        add_row(alloc, symbols, &list[at], &mut rows)?;
        left = at;
    }
    Ok(rows)
}

fn read_body(alloc: Global, symbols: &Texts, json: &Value) -> Result<Body, WireFault>
    ensures { Gives Fails (λ b. body_of b) result (read_body symbols.now (view json.now)) }
{
    read_rows(alloc, symbols, items(json)?)?.into_body()
}

// The member of an object.
fn member<'a>(json: &'a Value, key: &str) -> Result<&'a Value, WireFault>
    ensures { Gives Fails (λ v. view v.now) result (get key.now (view json.now)) }
{
    match json.get(key) {
        Some(value) => Ok(value),
        None => Err(WireFault::BadWire),
    }
}

/// The tree that the JSON of a wire is read as. `BadWire` where the JSON isn't of the form of one; whether it is the
/// JSON of a wire is not looked at.
#[tactic(auto, unfolding(crate::specs::ReadRows::tree_in))]
pub fn tree(alloc: Global, json: &Value) -> Result<Body, WireFault>
    ensures { Gives Fails (λ b. body_of b) result (tree_in (view json.now)) }
{
    let symbols = texts(alloc, member(json, "symbols")?)?;
    read_body(alloc, &symbols, member(json, "body")?)
}
