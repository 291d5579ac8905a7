// Statements that are read from their rows.
ghost use Rattle.std.specs.Prelude.{◌≡◌, map, codes, Some};
ghost use Rattle.gl_ast.specs.Template.{slots_of, block, no_slots};
ghost use Rattle.serde_json.specs.View.{view};
ghost use Rattle.gl_base.specs.Answers.{Gives};
ghost use Rattle.gl_ast.specs.View.{slot_view, stmt_view};
ghost use Rattle.gl_wirein.specs.Fault.{Fails};
ghost use Rattle.gl_wirein.specs.ReadRows.{read_text, read_comment, read_put, read_leaf, yield_name, read_yield, is_simple, read_simple, read_element, read_blocks, read_component, read_block, read_if, read_each, read_let, read_opening};
ghost use Rattle.gl_wirein.specs.View.{open_view};

use crate::WireFault;
use crate::pieces::{symbols_at, text};
use crate::rows::Open;
use crate::tag::{arguments, inner, inners, parts, whole};
use gl_ast::{Block, EachHead, Slot, Slots, Stmt};
use gl_value::{Text, Texts};
use serde_json::Value;
use std::alloc::Global;

fn shown_text(alloc: Global, fields: &[Value]) -> Result<Stmt, WireFault>
    ensures { Gives Fails (λ s. stmt_view s) result (read_text (map view fields.now)) }
{
    match fields {
        [shown] => Ok(Stmt::Text(text(alloc, shown)?)),
        _ => Err(WireFault::BadWire),
    }
}

fn comment(alloc: Global, fields: &[Value]) -> Result<Stmt, WireFault>
    ensures { Gives Fails (λ s. stmt_view s) result (read_comment (map view fields.now)) }
{
    match fields {
        [said] => Ok(Stmt::Comment(text(alloc, said)?)),
        _ => Err(WireFault::BadWire),
    }
}

fn put(alloc: Global, symbols: &Texts, fields: &[Value]) -> Result<Stmt, WireFault>
    ensures { Gives Fails (λ s. stmt_view s) result (read_put symbols.now (map view fields.now)) }
{
    match fields {
        [shown] => Ok(Stmt::Put(whole(alloc, symbols, shown)?)),
        _ => Err(WireFault::BadWire),
    }
}

// A component without a block.
fn leaf(alloc: Global, symbols: &Texts, fields: &[Value]) -> Result<Stmt, WireFault>
    ensures { Gives Fails (λ s. stmt_view s) result (read_leaf symbols.now (map view fields.now)) }
{
    match fields {
        [class, tag, args] => {
            let class = text(alloc, class)?;
            let parts = parts(alloc, symbols, tag)?;
            let args = arguments(alloc, symbols, args)?;
            let slots = Slots::new(alloc);
            Ok(Stmt::Component {
                class,
                parts,
                args: Box::new(alloc, args)?,
                slots: Box::new(alloc, slots)?,
            })
        }
        _ => Err(WireFault::BadWire),
    }
}

// The name of a block that is not named.
fn default_name(alloc: Global) -> Result<Text, WireFault>
    ensures { Gives Fails (λ t. t) result (Some (codes "default")) }
{
    let mut name = Text::new(alloc);
    name.push_ascii("default")?;
    Ok(name)
}

// The block that a yield shows, by what its row has after the values.
fn yield_name(alloc: Global, names: &[Value]) -> Result<Text, WireFault>
    ensures { Gives Fails (λ t. t) result (yield_name (map view names.now)) }
{
    match names {
        [] => default_name(alloc),
        [name] => text(alloc, name),
        _ => Err(WireFault::BadWire),
    }
}

fn shown_slot(alloc: Global, symbols: &Texts, fields: &[Value]) -> Result<Stmt, WireFault>
    ensures { Gives Fails (λ s. stmt_view s) result (read_yield symbols.now (map view fields.now)) }
{
    match fields {
        [values, names @ ..] => {
            let values = inners(alloc, symbols, values)?;
            let to = yield_name(alloc, names)?;
            Ok(Stmt::Yield { values, to })
        }
        _ => Err(WireFault::BadWire),
    }
}

/// Whether a statement with this word has no body.
pub fn is_simple(word: &str) -> bool
    ensures { result ≡ is_simple word.now }
{
    word == "text" || word == "comment" || word == "put" || word == "leaf" || word == "yield"
}

/// A statement that has no body.
pub fn simple(
    alloc: Global,
    symbols: &Texts,
    word: &str,
    fields: &[Value],
) -> Result<Stmt, WireFault>
    ensures { Gives Fails (λ s. stmt_view s) result (read_simple symbols.now word.now (map view fields.now)) }
{
    if word == "text" {
        return shown_text(alloc, fields);
    }
    if word == "comment" {
        return comment(alloc, fields);
    }
    if word == "put" {
        return put(alloc, symbols, fields);
    }
    if word == "leaf" {
        return leaf(alloc, symbols, fields);
    }
    shown_slot(alloc, symbols, fields)
}

fn element(
    alloc: Global,
    symbols: &Texts,
    fields: &[Value],
    inside: Open,
) -> Result<Stmt, WireFault>
    ensures { Gives Fails (λ s. stmt_view s) result (read_element symbols.now (map view fields.now) (open_view inside)) }
{
    match fields {
        [tag, attributes] => {
            let tag = text(alloc, tag)?;
            let parts = parts(alloc, symbols, attributes)?;
            let body = inside.into_body();
            Ok(Stmt::Element { tag, parts, body })
        }
        _ => Err(WireFault::BadWire),
    }
}

// The block `default` of a component.
fn own_block(alloc: Global, params: Texts, inside: Open) -> Result<Slots, WireFault>
    ensures { Gives Fails (λ ss. slots_of ss) result (Some (block (codes "default") params (open_view inside).0 no_slots)) }
{
    let body = inside.into_body();
    let block = Block { params, body };
    let name = default_name(alloc)?;
    let mut slots = Slots::new(alloc);
    slots.push(Slot { name, block })?;
    Ok(slots)
}

// The blocks of a component, by what its row has after the arguments.
fn blocks(
    alloc: Global,
    symbols: &Texts,
    params: &[Value],
    inside: Open,
) -> Result<Slots, WireFault>
    ensures { Gives Fails (λ ss. slots_of ss) result (read_blocks symbols.now (map view params.now) (open_view inside)) }
{
    match params {
        [] => Ok(inside.into_slots()),
        [own] => {
            let params = symbols_at(alloc, symbols, own)?;
            own_block(alloc, params, inside)
        }
        _ => Err(WireFault::BadWire),
    }
}

// A component with blocks.
fn component(
    alloc: Global,
    symbols: &Texts,
    fields: &[Value],
    inside: Open,
) -> Result<Stmt, WireFault>
    ensures { Gives Fails (λ s. stmt_view s) result (read_component symbols.now (map view fields.now) (open_view inside)) }
{
    match fields {
        [class, tag, args, params @ ..] => {
            let class = text(alloc, class)?;
            let parts = parts(alloc, symbols, tag)?;
            let args = arguments(alloc, symbols, args)?;
            let slots = blocks(alloc, symbols, params, inside)?;
            Ok(Stmt::Component {
                class,
                parts,
                args: Box::new(alloc, args)?,
                slots: Box::new(alloc, slots)?,
            })
        }
        _ => Err(WireFault::BadWire),
    }
}

/// A block of a component, by what follows its word.
pub fn slot(
    alloc: Global,
    symbols: &Texts,
    fields: &[Value],
    inside: Open,
) -> Result<Slot, WireFault>
    ensures { Gives Fails (λ s. slot_view s) result (read_block symbols.now (map view fields.now) (open_view inside)) }
{
    match fields {
        [name, params] => {
            let name = text(alloc, name)?;
            let params = symbols_at(alloc, symbols, params)?;
            let body = inside.into_body();
            let block = Block { params, body };
            Ok(Slot { name, block })
        }
        _ => Err(WireFault::BadWire),
    }
}

fn choice(
    alloc: Global,
    symbols: &Texts,
    unless: bool,
    fields: &[Value],
    inside: Open,
) -> Result<Stmt, WireFault>
    ensures { Gives Fails (λ s. stmt_view s) result (read_if symbols.now unless (map view fields.now) (open_view inside)) }
{
    match fields {
        [test] => {
            let test = inner(alloc, symbols, test)?;
            let (body, otherwise) = inside.into_bodies();
            Ok(Stmt::If {
                test: Box::new(alloc, test)?,
                unless,
                body,
                otherwise,
            })
        }
        _ => Err(WireFault::BadWire),
    }
}

fn each(alloc: Global, symbols: &Texts, fields: &[Value], inside: Open) -> Result<Stmt, WireFault>
    ensures { Gives Fails (λ s. stmt_view s) result (read_each symbols.now (map view fields.now) (open_view inside)) }
{
    match fields {
        [list, key, params] => {
            let list = inner(alloc, symbols, list)?;
            let key = text(alloc, key)?;
            let params = symbols_at(alloc, symbols, params)?;
            let (body, otherwise) = inside.into_bodies();
            let head = EachHead { list, key, params };
            Ok(Stmt::Each {
                head: Box::new(alloc, head)?,
                body,
                otherwise,
            })
        }
        _ => Err(WireFault::BadWire),
    }
}

fn binding(
    alloc: Global,
    symbols: &Texts,
    fields: &[Value],
    inside: Open,
) -> Result<Stmt, WireFault>
    ensures { Gives Fails (λ s. stmt_view s) result (read_let symbols.now (map view fields.now) (open_view inside)) }
{
    match fields {
        [values, params] => {
            let values = inners(alloc, symbols, values)?;
            let params = symbols_at(alloc, symbols, params)?;
            let body = inside.into_body();
            Ok(Stmt::Let {
                values,
                params,
                body,
            })
        }
        _ => Err(WireFault::BadWire),
    }
}

/// A statement that has bodies.
pub fn opening(
    alloc: Global,
    symbols: &Texts,
    word: &str,
    fields: &[Value],
    inside: Open,
) -> Result<Stmt, WireFault>
    ensures { Gives Fails (λ s. stmt_view s) result (read_opening symbols.now word.now (map view fields.now) (open_view inside)) }
{
    if word == "el" {
        return element(alloc, symbols, fields, inside);
    }
    if word == "comp" {
        return component(alloc, symbols, fields, inside);
    }
    if word == "if" {
        return choice(alloc, symbols, false, fields, inside);
    }
    if word == "unless" {
        return choice(alloc, symbols, true, fields, inside);
    }
    if word == "each" {
        return each(alloc, symbols, fields, inside);
    }
    if word == "let" {
        return binding(alloc, symbols, fields, inside);
    }
    Err(WireFault::BadWire)
}
