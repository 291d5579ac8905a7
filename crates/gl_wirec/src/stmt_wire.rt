// The wire's form of statements.
ghost use Rattle.std.specs.Prelude.{◌≡◌, IfOk, OnOk};
ghost use Rattle.gl_ast.specs.Template.{exprs_of, body_of, slots_of, element, component_stmt, if_stmt, each, let_stmt};
ghost use Rattle.gl_ast.specs.View.{expr_view, stmt_view};
ghost use Rattle.gl_wire.specs.Symbols.{with_names};
ghost use Rattle.gl_wire.specs.View as wire;
ghost use Rattle.gl_wire.specs.Wire as w;
ghost use Rattle.gl_wire.specs.WireOf.{stmt_wire, body_wire, slots_wire};

use crate::expr_wire::{expr_wire, exprs_wire, places_of};
use crate::names::Names;
use crate::part_wire::{arguments_wire, parts_wire};
use gl_ast::{Args, Body, Expr, Exprs, Parts, Slots, Stmt};
use gl_value::{Text, Texts};
use gl_wire::{WireBody, WireEachHead, WireSlot, WireSlots, WireStmt};
use std::alloc::{AllocError, Global};

// The body of a block, in which its parameters are in scope.
#[cycle(statement)]
#[tactic(auto, using(crate::proofs::Once::once_laws))]
fn block_wire(
    alloc: Global,
    symbols: &Names,
    scope: &mut Names,
    params: &Texts,
    body: &Body,
) -> Result<WireBody, AllocError>
    ensures made { IfOk result (λ b. w.body_of b ≡ body_wire symbols.now (with_names scope.old params.now) (body_of body.now)) }
    ensures scope { OnOk result (scope.new ≡ scope.old) }
{
    let outer = scope.len();
    scope.add_all(alloc, params)?;
    let body = body_wire(alloc, symbols, scope, body)?;
    scope.shorten(outer);
    Ok(body)
}

#[cycle(statement)]
fn element_wire(
    alloc: Global,
    symbols: &Names,
    scope: &mut Names,
    tag: &Text,
    parts: &Parts,
    body: &Body,
) -> Result<WireStmt, AllocError>
    ensures made { IfOk result (λ s. wire.stmt_view s ≡ stmt_wire symbols.now scope.old (element tag.now parts.now (body_of body.now))) }
    ensures scope { OnOk result (scope.new ≡ scope.old) }
{
    let tag = tag.copy()?;
    let parts = parts_wire(alloc, symbols, scope, parts)?;
    let body = body_wire(alloc, symbols, scope, body)?;
    Ok(WireStmt::Element { tag, parts, body })
}

#[cycle(statement)]
fn component_wire(
    alloc: Global,
    symbols: &Names,
    scope: &mut Names,
    class: &Text,
    parts: &Parts,
    args: &Args,
    slots: &Slots,
) -> Result<WireStmt, AllocError>
    ensures made { IfOk result (λ s. wire.stmt_view s ≡ stmt_wire symbols.now scope.old (component_stmt class.now parts.now args.now (slots_of slots.now))) }
    ensures scope { OnOk result (scope.new ≡ scope.old) }
{
    let class = class.copy()?;
    let parts = parts_wire(alloc, symbols, scope, parts)?;
    let args = arguments_wire(alloc, symbols, scope, args)?;
    let slots = slots_wire(alloc, symbols, scope, slots)?;
    Ok(WireStmt::Component {
        class,
        parts,
        args: Box::new(alloc, args)?,
        slots: Box::new(alloc, slots)?,
    })
}

#[cycle(statement)]
fn if_wire(
    alloc: Global,
    symbols: &Names,
    scope: &mut Names,
    test: &Expr,
    unless: bool,
    body: &Body,
    otherwise: &Body,
) -> Result<WireStmt, AllocError>
    ensures made { IfOk result (λ s. wire.stmt_view s ≡ stmt_wire symbols.now scope.old (if_stmt (expr_view test.now) unless (body_of body.now) (body_of otherwise.now))) }
    ensures scope { OnOk result (scope.new ≡ scope.old) }
{
    let test = expr_wire(alloc, symbols, scope, false, test)?;
    let body = body_wire(alloc, symbols, scope, body)?;
    let otherwise = body_wire(alloc, symbols, scope, otherwise)?;
    Ok(WireStmt::If {
        test: Box::new(alloc, test)?,
        unless,
        body,
        otherwise,
    })
}

#[cycle(statement)]
fn each_wire(
    alloc: Global,
    symbols: &Names,
    scope: &mut Names,
    list: &Expr,
    key: &Text,
    params: &Texts,
    body: &Body,
    otherwise: &Body,
) -> Result<WireStmt, AllocError>
    ensures made { IfOk result (λ s. wire.stmt_view s ≡ stmt_wire symbols.now scope.old (each (expr_view list.now) key.now params.now (body_of body.now) (body_of otherwise.now))) }
    ensures scope { OnOk result (scope.new ≡ scope.old) }
{
    let list = expr_wire(alloc, symbols, scope, false, list)?;
    let key = key.copy()?;
    let body = block_wire(alloc, symbols, scope, params, body)?;
    let params = places_of(alloc, symbols, params)?;
    let otherwise = body_wire(alloc, symbols, scope, otherwise)?;
    let head = WireEachHead { list, key, params };
    Ok(WireStmt::Each {
        head: Box::new(alloc, head)?,
        body,
        otherwise,
    })
}

#[cycle(statement)]
fn let_wire(
    alloc: Global,
    symbols: &Names,
    scope: &mut Names,
    values: &Exprs,
    params: &Texts,
    body: &Body,
) -> Result<WireStmt, AllocError>
    ensures made { IfOk result (λ s. wire.stmt_view s ≡ stmt_wire symbols.now scope.old (let_stmt (exprs_of values.now) params.now (body_of body.now))) }
    ensures scope { OnOk result (scope.new ≡ scope.old) }
{
    let values = exprs_wire(alloc, symbols, scope, false, values)?;
    let body = block_wire(alloc, symbols, scope, params, body)?;
    let params = places_of(alloc, symbols, params)?;
    Ok(WireStmt::Let {
        values,
        params,
        body,
    })
}

#[cycle(statement)]
fn stmt_wire(
    alloc: Global,
    symbols: &Names,
    scope: &mut Names,
    stmt: &Stmt,
) -> Result<WireStmt, AllocError>
    ensures made { IfOk result (λ s. wire.stmt_view s ≡ stmt_wire symbols.now scope.old (stmt_view stmt.now)) }
    ensures scope { OnOk result (scope.new ≡ scope.old) }
{
    match stmt {
        Stmt::Text(text) => Ok(WireStmt::Text(text.copy()?)),
        Stmt::Comment(text) => Ok(WireStmt::Comment(text.copy()?)),
        Stmt::Put(expr) => Ok(WireStmt::Put(expr_wire(alloc, symbols, scope, true, expr)?)),
        Stmt::Element { tag, parts, body } => element_wire(alloc, symbols, scope, tag, parts, body),
        Stmt::Component {
            class,
            parts,
            args,
            slots,
        } => component_wire(alloc, symbols, scope, class, parts, &**args, &**slots),
        Stmt::If {
            test,
            unless,
            body,
            otherwise,
        } => if_wire(alloc, symbols, scope, &**test, *unless, body, otherwise),
        Stmt::Each {
            head,
            body,
            otherwise,
        } => each_wire(
            alloc,
            symbols,
            scope,
            &head.list,
            &head.key,
            &head.params,
            body,
            otherwise,
        ),
        Stmt::Let {
            values,
            params,
            body,
        } => let_wire(alloc, symbols, scope, values, params, body),
        Stmt::Yield { values, to } => Ok(WireStmt::Yield {
            values: exprs_wire(alloc, symbols, scope, false, values)?,
            to: to.copy()?,
        }),
    }
}

/// The wire's form of statements, by the symbols and the parameters in scope, which are the same afterwards.
#[cycle(statement)]
pub fn body_wire(
    alloc: Global,
    symbols: &Names,
    scope: &mut Names,
    body: &Body,
) -> Result<WireBody, AllocError>
    ensures made { IfOk result (λ b. w.body_of b ≡ body_wire symbols.now scope.old (body_of body.now)) }
    ensures scope { OnOk result (scope.new ≡ scope.old) }
{
    let mut list = WireBody::new(alloc);
    for stmt in body.as_slice() {
        list.push(stmt_wire(alloc, symbols, scope, stmt)?)?;
    }
    Ok(list)
}

#[cycle(statement)]
fn slots_wire(
    alloc: Global,
    symbols: &Names,
    scope: &mut Names,
    slots: &Slots,
) -> Result<WireSlots, AllocError>
    ensures made { IfOk result (λ l. w.slots_of l ≡ slots_wire symbols.now scope.old (slots_of slots.now)) }
    ensures scope { OnOk result (scope.new ≡ scope.old) }
{
    let mut list = WireSlots::new(alloc);
    for slot in slots.as_slice() {
        let name = slot.name.copy()?;
        let params = places_of(alloc, symbols, &slot.block.params)?;
        let body = block_wire(alloc, symbols, scope, &slot.block.params, &slot.block.body)?;
        list.push(WireSlot { name, params, body })?;
    }
    Ok(list)
}
