// Values, parts of a tag and arguments that are read from their JSON.
ghost use Rattle.std.specs.Prelude.{◌≡◌, map, option_map, IfOk};
ghost use Rattle.serde_json.specs.View.{view};
ghost use Rattle.gl_base.specs.Answers.{Gives};
ghost use Rattle.gl_ast.specs.View.{expr_view, attr_view, part_view, argument_view};
ghost use Rattle.gl_wirein.specs.Fault.{Fails};
ghost use Rattle.gl_wirein.specs.ReadExpr.{exprs_in};
ghost use Rattle.gl_wirein.specs.ReadTag.{inner_in, whole_in, parts_of_cat, value_in, read_fixed, read_live, read_modifier, read_part, part_in, parts_in, given, read_argument, argument_in, arguments_in};

use crate::WireFault;
use crate::expr::{expr, exprs, pairs};
use crate::pieces::{Reader, fields, items, read_all, text, word};
use gl_ast::{Args, Argument, AttrValue, Expr, Exprs, Lit, Part, Parts};
use gl_value::Texts;
use serde_json::Value;
use std::alloc::{AllocError, Global};

/// How deep calls may nest.
pub const DEEPEST_CALLS: u32 = 16;

/// An expression that stands inside of another or of a block's head.
pub fn inner(alloc: Global, symbols: &Texts, json: &Value) -> Result<Expr, WireFault>
    ensures { Gives Fails (λ e. expr_view e) result (inner_in symbols.now (view json.now)) }
{
    expr(alloc, symbols, json, DEEPEST_CALLS)
}

/// The expressions of an array that stand inside of a block's head.
pub fn inners(alloc: Global, symbols: &Texts, json: &Value) -> Result<Exprs, WireFault>
    ensures { Gives Fails (λ es. es) result (exprs_in (λ e. inner_in symbols.now e) (view json.now)) }
{
    exprs(alloc, symbols, json, DEEPEST_CALLS)
}

/// What a whole mustache has.
pub fn whole(alloc: Global, symbols: &Texts, json: &Value) -> Result<Expr, WireFault>
    ensures { Gives Fails (λ e. expr_view e) result (whole_in symbols.now (view json.now)) }
{
    expr(alloc, symbols, json, DEEPEST_CALLS + 1)
}

// The array of the parts, where the row is of a joined text.
fn cat_parts(row: &[Value]) -> Option<&Value>
    ensures { option_map (λ v. view v.now) result ≡ parts_of_cat (map view row.now) }
{
    match row {
        [Value::String(word), parts] if word.as_str() == "cat" => Some(parts),
        _ => None,
    }
}

// The value of an attribute or an argument.
fn value(alloc: Global, symbols: &Texts, json: &Value) -> Result<Expr, WireFault>
    ensures { Gives Fails (λ e. expr_view e) result (value_in symbols.now (view json.now)) }
{
    match cat_parts(items(json)?) {
        Some(parts) => Ok(Expr::Cat(exprs(alloc, symbols, parts, DEEPEST_CALLS + 1)?)),
        None => whole(alloc, symbols, json),
    }
}

// An attribute with a text.
fn fixed(alloc: Global, fields: &[Value]) -> Result<Part, WireFault>
    ensures { Gives Fails (λ p. part_view p) result (read_fixed (map view fields.now)) }
{
    match fields {
        [name, value] => {
            let name = text(alloc, name)?;
            let value = AttrValue::Fixed(text(alloc, value)?);
            Ok(Part::Attr { name, value })
        }
        _ => Err(WireFault::BadWire),
    }
}

// An attribute with an expression.
fn live(alloc: Global, symbols: &Texts, fields: &[Value]) -> Result<Part, WireFault>
    ensures { Gives Fails (λ p. part_view p) result (read_live symbols.now (map view fields.now)) }
{
    match fields {
        [name, shown] => {
            let name = text(alloc, name)?;
            let shown = value(alloc, symbols, shown)?;
            let value = AttrValue::Live(Box::new(alloc, shown)?);
            Ok(Part::Attr { name, value })
        }
        _ => Err(WireFault::BadWire),
    }
}

fn modifier(alloc: Global, symbols: &Texts, fields: &[Value]) -> Result<Part, WireFault>
    ensures { Gives Fails (λ p. part_view p) result (read_modifier symbols.now (map view fields.now)) }
{
    match fields {
        [name, args, named] => {
            let name = text(alloc, name)?;
            let args = exprs(alloc, symbols, args, DEEPEST_CALLS)?;
            let named = pairs(alloc, symbols, named, DEEPEST_CALLS)?;
            let named = Box::new(alloc, named)?;
            Ok(Part::Mod { name, args, named })
        }
        _ => Err(WireFault::BadWire),
    }
}

// A part by its word.
fn part(alloc: Global, symbols: &Texts, word: &str, fields: &[Value]) -> Result<Part, WireFault>
    ensures { Gives Fails (λ p. part_view p) result (read_part symbols.now word.now (map view fields.now)) }
{
    if word == "attr" {
        return fixed(alloc, fields);
    }
    if word == "dyn" {
        return live(alloc, symbols, fields);
    }
    if word == "mod" {
        return modifier(alloc, symbols, fields);
    }
    if word == "spread" {
        return Ok(Part::Spread);
    }
    Err(WireFault::BadWire)
}

#[derive(Drop)]
struct PartReader<'a> {
    symbols: &'a Texts,
}

impl<'a> Reader for PartReader<'a> {
    ghost use Rattle.gl_ast.specs.Template as t;

    type Item = Part;

    ghost Seen = { t.Part };

    ghost seen = { part_view };

    ghost reads = { λ s d. part_in s.symbols.now d };

    fn read(&self, alloc: Global, value: &Value) -> Result<Part, WireFault> {
        let row = items(value)?;
        part(alloc, self.symbols, word(row)?, fields(row))
    }
}

/// The parts of a tag.
pub fn parts(alloc: Global, symbols: &Texts, json: &Value) -> Result<Parts, WireFault>
    ensures { Gives Fails (λ ps. ps) result (parts_in symbols.now (view json.now)) }
{
    let reader = PartReader { symbols };
    Ok(Parts::from_vec(read_all(alloc, &reader, items(json)?)?))
}

// The value of an argument: a literal text is a fixed one.
fn given(alloc: Global, expr: Expr) -> Result<AttrValue, AllocError>
    ensures { IfOk result (λ v. attr_view v ≡ given (expr_view expr)) }
{
    match expr {
        Expr::Lit(Lit::Str(text)) => Ok(AttrValue::Fixed(text)),
        expr => Ok(AttrValue::Live(Box::new(alloc, expr)?)),
    }
}

fn argument(alloc: Global, symbols: &Texts, row: &[Value]) -> Result<Argument, WireFault>
    ensures { Gives Fails (λ a. argument_view a) result (read_argument symbols.now (map view row.now)) }
{
    match row {
        [name, shown] => {
            let name = text(alloc, name)?;
            let value = given(alloc, value(alloc, symbols, shown)?)?;
            Ok(Argument { name, value })
        }
        _ => Err(WireFault::BadWire),
    }
}

#[derive(Drop)]
struct ArgumentReader<'a> {
    symbols: &'a Texts,
}

impl<'a> Reader for ArgumentReader<'a> {
    ghost use Rattle.std.specs.Prelude.{ℕ, List};
    ghost use Rattle.gl_ast.specs.Template as t;

    type Item = Argument;

    ghost Seen = { List ℕ × t.AttrValue };

    ghost seen = { argument_view };

    ghost reads = { λ s d. argument_in s.symbols.now d };

    fn read(&self, alloc: Global, value: &Value) -> Result<Argument, WireFault> {
        argument(alloc, self.symbols, items(value)?)
    }
}

/// The arguments of a component.
pub fn arguments(alloc: Global, symbols: &Texts, json: &Value) -> Result<Args, WireFault>
    ensures { Gives Fails (λ a. a) result (arguments_in symbols.now (view json.now)) }
{
    let reader = ArgumentReader { symbols };
    Ok(Args::from_vec(read_all(alloc, &reader, items(json)?)?))
}
