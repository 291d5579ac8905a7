// The JSON of expressions.
ghost use Rattle.std.specs.Prelude.{◌≡◌, [], ◌∷◌, IfOk, MatchOption, codes};
ghost use Rattle.serde_json.specs.View.{view};
ghost use Rattle.gl_ast.specs.View.{lit_view};
ghost use Rattle.gl_wire.specs.Json.{array_of, row, text_json, literal_json, expr_json, exprs_json, named_json};
ghost use Rattle.gl_wire.specs.View.{expr_view};
ghost use Rattle.gl_wire.specs.Wire.{exprs_of, named_of, symbol, get, cat};

use crate::row::{Row, named_row, texts_value};
use crate::{Head, WireExpr, WireExprs, WirePairs};
use gl_ast::Lit;
use gl_value::{Text, Texts};
use serde_json::Value;
use std::alloc::{AllocError, Global};

// The value of a literal but undefined.
fn scalar_value(alloc: Global, literal: &Lit) -> Result<Option<Value>, AllocError>
    ensures { IfOk result (λ o. MatchOption o (literal_json (lit_view literal.now) ≡ row (codes "undef") []) (λ v. literal_json (lit_view literal.now) ≡ row (codes "lit") (view v ∷ []))) }
{
    match literal {
        Lit::Undefined => Ok(None),
        Lit::Null => Ok(Some(Value::Null)),
        Lit::Bool(b) => Ok(Some(Value::Bool(*b))),
        Lit::Int(number) => Ok(Some(Value::from(*number))),
        Lit::Str(text) => Ok(Some(Value::try_from_str(alloc, text.as_str())?)),
    }
}

fn literal_value(alloc: Global, literal: &Lit) -> Result<Value, AllocError>
    ensures { IfOk result (λ v. view v ≡ literal_json (lit_view literal.now)) }
{
    match scalar_value(alloc, literal)? {
        None => Ok(Row::of(alloc, "undef")?.into_value()),
        Some(scalar) => {
            let mut row = Row::of(alloc, "lit")?;
            row.push(scalar)?;
            Ok(row.into_value())
        }
    }
}

fn symbol_value(alloc: Global, place: u32) -> Result<Value, AllocError>
    ensures { IfOk result (λ v. view v ≡ expr_json (symbol place)) }
{
    let mut row = Row::of(alloc, "sym")?;
    row.push(Value::from(place))?;
    Ok(row.into_value())
}

/// The JSON of a call, of a modifier too, by its word.
#[cycle(expression)]
pub fn call_value(
    alloc: Global,
    word: &str,
    name: &Text,
    args: &WireExprs,
    named: &WirePairs,
) -> Result<Value, AllocError>
    ensures { IfOk result (λ v. view v ≡ row word.now (text_json name.now ∷ array_of (exprs_json (exprs_of args.now)) ∷ array_of (named_json (named_of named.now)) ∷ [])) }
{
    let mut row = named_row(alloc, word, name)?;
    row.push(exprs_value(alloc, args)?)?;
    row.push(named_value(alloc, named)?)?;
    Ok(row.into_value())
}

// The JSON of a path that has further segments.
#[cycle(expression)]
fn get_value(alloc: Global, of: &Head, rest: &Texts) -> Result<Value, AllocError>
    ensures { IfOk result (λ v. view v ≡ expr_json (get of.now rest.now)) }
{
    let mut row = Row::of(alloc, "get")?;
    row.push(expr_value(alloc, of.expr())?)?;
    row.push(texts_value(alloc, rest)?)?;
    Ok(row.into_value())
}

#[cycle(expression)]
fn cat_value(alloc: Global, parts: &WireExprs) -> Result<Value, AllocError>
    ensures { IfOk result (λ v. view v ≡ expr_json (cat (exprs_of parts.now))) }
{
    let mut row = Row::of(alloc, "cat")?;
    row.push(exprs_value(alloc, parts)?)?;
    Ok(row.into_value())
}

/// The JSON of an expression.
#[cycle(expression)]
pub fn expr_value(alloc: Global, expr: &WireExpr) -> Result<Value, AllocError>
    ensures { IfOk result (λ v. view v ≡ expr_json (expr_view expr.now)) }
{
    match expr {
        WireExpr::Lit(literal) => literal_value(alloc, literal),
        WireExpr::Sym(place) => symbol_value(alloc, *place),
        WireExpr::This(name) => Ok(named_row(alloc, "this", name)?.into_value()),
        WireExpr::Get { of, rest } => get_value(alloc, of, rest),
        WireExpr::Free(name) => Ok(named_row(alloc, "free", name)?.into_value()),
        WireExpr::Call { name, args, named } => call_value(alloc, "call", name, args, &**named),
        WireExpr::Cat(parts) => cat_value(alloc, parts),
    }
}

/// The array of expressions.
#[cycle(expression)]
pub fn exprs_value(alloc: Global, exprs: &WireExprs) -> Result<Value, AllocError>
    ensures { IfOk result (λ v. view v ≡ array_of (exprs_json (exprs_of exprs.now))) }
{
    let mut row = Row::new(alloc);
    for item in exprs.as_slice() {
        row.push(expr_value(alloc, item)?)?;
    }
    Ok(row.into_value())
}

/// The array of named expressions, each an array of its name and its expression.
#[cycle(expression)]
pub fn named_value(alloc: Global, named: &WirePairs) -> Result<Value, AllocError>
    ensures { IfOk result (λ v. view v ≡ array_of (named_json (named_of named.now))) }
{
    let mut row = Row::new(alloc);
    for pair in named.as_slice() {
        let mut both = Row::new(alloc);
        both.push_text(alloc, &pair.name)?;
        both.push(expr_value(alloc, &pair.value)?)?;
        row.push(both.into_value())?;
    }
    Ok(row.into_value())
}
