// Expressions that are read from their JSON.
ghost use Rattle.std.specs.Prelude.{◌≡◌, [], ◌∷◌, IfOk, MatchOption, map};
ghost use Rattle.std.specs.Str.{chars};
ghost use Rattle.serde_json.specs.View.{view};
ghost use Rattle.gl_base.specs.Answers.{Gives};
ghost use Rattle.gl_ast.specs.View.{lit_view, expr_view, named_view};
ghost use Rattle.gl_wirein.specs.Fault.{Fails};
ghost use Rattle.gl_wirein.specs.ReadExpr.{scalar_in, read_literal, symbol_path, read_path, read_head, read_get, exprs_in, pair_of, pair_in, pairs_in, read_call, read_expr, read_called};

use crate::WireFault;
use crate::pieces::{fields, items, symbol, text, texts, word};
use gl_ast::{Expr, Exprs, Lit, NamedExpr, Pairs};
use gl_value::{Text, Texts};
use serde_json::Value;
use std::alloc::{AllocError, Global};

// A literal but undefined.
fn scalar(alloc: Global, json: &Value) -> Result<Lit, WireFault>
    ensures { Gives Fails (λ l. lit_view l) result (scalar_in (view json.now)) }
{
    match json {
        Value::Null => Ok(Lit::Null),
        Value::Bool(value) => Ok(Lit::Bool(*value)),
        Value::Number(number) => match number.as_i64() {
            Some(whole) => Ok(Lit::Int(whole)),
            None => Err(WireFault::BadWire),
        },
        Value::String(text) => Ok(Lit::Str(Text::from_str(alloc, text.as_str())?)),
        _ => Err(WireFault::BadWire),
    }
}

// The value of a row of one.
fn literal(alloc: Global, fields: &[Value]) -> Result<Expr, WireFault>
    ensures { Gives Fails (λ e. expr_view e) result (read_literal (map view fields.now)) }
{
    match fields {
        [value] => Ok(Expr::Lit(scalar(alloc, value)?)),
        _ => Err(WireFault::BadWire),
    }
}

// The first character of a text, and what stands after it.
fn first_of(text: &Text) -> (Option<char>, &str)
    ensures { MatchOption result.0 ((text.now ≡ []) × (chars result.1.now ≡ [])) (λ c. text.now ≡ c ∷ chars result.1.now) }
{
    let mut left = text.as_str().chars();
    let first = left.next();
    (first, left.as_str())
}

// The path that begins with a symbol.
fn symbol_path(alloc: Global, name: &Text, rest: Texts) -> Result<Expr, AllocError>
    ensures { IfOk result (λ e. expr_view e ≡ symbol_path name.now rest) }
{
    let first = first_of(name);
    match first.0 {
        Some('@') => Ok(Expr::Arg {
            name: Text::from_str(alloc, first.1)?,
            rest,
        }),
        _ => Ok(Expr::Bare {
            name: name.copy()?,
            rest,
        }),
    }
}

// A path, by the word and the field of what it begins with, and the segments that follow.
fn path(
    alloc: Global,
    symbols: &Texts,
    word: &str,
    field: &Value,
    rest: Texts,
) -> Result<Expr, WireFault>
    ensures { Gives Fails (λ e. expr_view e) result (read_path symbols.now word.now (view field.now) rest) }
{
    if word == "sym" {
        let name = symbol(alloc, symbols, field)?;
        return Ok(symbol_path(alloc, &name, rest)?);
    }
    if word == "this" {
        let member = text(alloc, field)?;
        return Ok(Expr::This { member, rest });
    }
    if word == "free" {
        let name = text(alloc, field)?;
        return Ok(Expr::Bare { name, rest });
    }
    Err(WireFault::BadWire)
}

// A path by its row.
fn head(alloc: Global, symbols: &Texts, row: &[Value], rest: Texts) -> Result<Expr, WireFault>
    ensures { Gives Fails (λ e. expr_view e) result (read_head symbols.now (map view row.now) rest) }
{
    match row {
        [_, field] => path(alloc, symbols, word(row)?, field, rest),
        _ => Err(WireFault::BadWire),
    }
}

// A path with segments.
fn get(alloc: Global, symbols: &Texts, fields: &[Value]) -> Result<Expr, WireFault>
    ensures { Gives Fails (λ e. expr_view e) result (read_get symbols.now (map view fields.now)) }
{
    match fields {
        [first, rest] => {
            let row = items(first)?;
            let rest = texts(alloc, rest)?;
            head(alloc, symbols, row, rest)
        }
        _ => Err(WireFault::BadWire),
    }
}

/// The expressions of an array, where so many calls may nest.
#[cycle(expression)]
pub fn exprs(alloc: Global, symbols: &Texts, json: &Value, calls: u32) -> Result<Exprs, WireFault>
    ensures { Gives Fails (λ es. es) result (exprs_in (λ e. read_expr symbols.now calls e) (view json.now)) }
{
    let mut list = Exprs::new(alloc);
    for item in items(json)? {
        let read = expr(alloc, symbols, item, calls)?;
        list.push(read)?;
    }
    Ok(list)
}

// A name with an expression.
#[cycle(expression)]
fn pair(alloc: Global, symbols: &Texts, json: &Value, calls: u32) -> Result<NamedExpr, WireFault>
    ensures { Gives Fails (λ n. named_view n) result (pair_in (λ e. read_expr symbols.now calls e) (view json.now)) }
{
    match items(json)? {
        [name, value] => {
            let name = text(alloc, name)?;
            let value = expr(alloc, symbols, value, calls)?;
            Ok(NamedExpr { name, value })
        }
        _ => Err(WireFault::BadWire),
    }
}

/// The named expressions of an array, where so many calls may nest.
#[cycle(expression)]
pub fn pairs(alloc: Global, symbols: &Texts, json: &Value, calls: u32) -> Result<Pairs, WireFault>
    ensures { Gives Fails (λ ns. ns) result (pairs_in (λ e. read_expr symbols.now calls e) (view json.now)) }
{
    let mut list = Pairs::new(alloc);
    for item in items(json)? {
        let read = pair(alloc, symbols, item, calls)?;
        list.push(read)?;
    }
    Ok(list)
}

// A call, by what follows the word, where so many calls may nest in it.
#[cycle(expression)]
fn call(alloc: Global, symbols: &Texts, fields: &[Value], calls: u32) -> Result<Expr, WireFault>
    ensures { Gives Fails (λ e. expr_view e) result (read_call (λ e. read_expr symbols.now calls e) (map view fields.now)) }
{
    match fields {
        [name, args, named] => {
            let name = text(alloc, name)?;
            let args = exprs(alloc, symbols, args, calls)?;
            let named = pairs(alloc, symbols, named, calls)?;
            let named = Box::new(alloc, named)?;
            Ok(Expr::Call { name, args, named })
        }
        _ => Err(WireFault::BadWire),
    }
}

// A call, by what follows the word, where no call may stand at 0.
#[cycle(expression)]
fn called(alloc: Global, symbols: &Texts, fields: &[Value], calls: u32) -> Result<Expr, WireFault>
    ensures { Gives Fails (λ e. expr_view e) result (read_called symbols.now calls (map view fields.now)) }
{
    if calls > 0 {
        return call(alloc, symbols, fields, calls - 1);
    }
    Err(WireFault::BadWire)
}

/// An expression, where so many calls may nest. `BadWire` where the value isn't of the form of one.
#[cycle(expression)]
pub fn expr(alloc: Global, symbols: &Texts, json: &Value, calls: u32) -> Result<Expr, WireFault>
    ensures { Gives Fails (λ e. expr_view e) result (read_expr symbols.now calls (view json.now)) }
{
    let row = items(json)?;
    let word = word(row)?;
    if word == "call" {
        return called(alloc, symbols, fields(row), calls);
    }
    if word == "lit" {
        return literal(alloc, fields(row));
    }
    if word == "undef" {
        return Ok(Expr::Lit(Lit::Undefined));
    }
    if word == "get" {
        return get(alloc, symbols, fields(row));
    }
    head(alloc, symbols, row, Texts::new(alloc))
}
