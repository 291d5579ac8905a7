// The names that a template or an expression mentions.
ghost use Rattle.std.specs.Prelude.{◌≡◌, [], ◌∷◌, ◌++◌, if◌then◌else◌, IfOk, OnOk};
ghost use Rattle.gl_base.specs.Names.{has_text};
ghost use Rattle.gl_ast.specs.Template.{exprs_of, named_of};
ghost use Rattle.gl_ast.specs.View.{expr_view};
ghost use Rattle.gl_wire.specs.Symbols.{with_name, with_names, expr_mentions, exprs_mentions, named_mentions};

use crate::names::Names;
use gl_ast::{Expr, Exprs, Pairs};
use gl_value::Text;
use std::alloc::{AllocError, Global};

/// The name of an argument, with the `@` before it.
pub fn marked(alloc: Global, name: &Text) -> Result<Text, AllocError>
    ensures { IfOk result (λ t. t ≡ 64 ∷ name.now) }
{
    let mut text = Text::new(alloc);
    text.push_ascii("@")?;
    text.push_text(name)?;
    Ok(text)
}

fn note_argument(alloc: Global, name: &Text, symbols: &mut Names) -> Result<(), AllocError>
    ensures { OnOk result (symbols.new ≡ with_name symbols.old (64 ∷ name.now)) }
{
    let name = marked(alloc, name)?;
    symbols.add(alloc, &name)
}

// Adds a name that is known.
fn note_name(
    alloc: Global,
    known: &Names,
    name: &Text,
    symbols: &mut Names,
) -> Result<(), AllocError>
    ensures { OnOk result (symbols.new ≡ with_names symbols.old (if has_text name.now known.now then name.now ∷ [] else [])) }
{
    if known.has(name) {
        symbols.add(alloc, name)
    } else {
        Ok(())
    }
}

/// Adds the names that the arguments of a call mention.
#[cycle(expression)]
#[tactic(auto, using(crate::proofs::Once::once_laws))]
pub fn note_call(
    alloc: Global,
    known: &Names,
    args: &Exprs,
    named: &Pairs,
    symbols: &mut Names,
) -> Result<(), AllocError>
    ensures { OnOk result (symbols.new ≡ with_names symbols.old (exprs_mentions known.now (exprs_of args.now) ++ named_mentions known.now (named_of named.now))) }
{
    note_exprs(alloc, known, args, symbols)?;
    note_named(alloc, known, named, symbols)
}

/// Adds the names that an expression mentions: its arguments, and those that are known.
#[cycle(expression)]
pub fn note_expr(
    alloc: Global,
    known: &Names,
    expr: &Expr,
    symbols: &mut Names,
) -> Result<(), AllocError>
    ensures { OnOk result (symbols.new ≡ with_names symbols.old (expr_mentions known.now (expr_view expr.now))) }
{
    match expr {
        Expr::Lit(_) | Expr::This { .. } => Ok(()),
        Expr::Arg { name, .. } => note_argument(alloc, name, symbols),
        Expr::Bare { name, .. } => note_name(alloc, known, name, symbols),
        Expr::Call { args, named, .. } => note_call(alloc, known, args, &**named, symbols),
        Expr::Cat(parts) => note_exprs(alloc, known, parts, symbols),
    }
}

/// Adds the names that expressions mention.
#[cycle(expression)]
pub fn note_exprs(
    alloc: Global,
    known: &Names,
    exprs: &Exprs,
    symbols: &mut Names,
) -> Result<(), AllocError>
    ensures { OnOk result (symbols.new ≡ with_names symbols.old (exprs_mentions known.now (exprs_of exprs.now))) }
{
    for item in exprs.as_slice() {
        note_expr(alloc, known, item, symbols)?;
    }
    Ok(())
}

#[cycle(expression)]
fn note_named(
    alloc: Global,
    known: &Names,
    pairs: &Pairs,
    symbols: &mut Names,
) -> Result<(), AllocError>
    ensures { OnOk result (symbols.new ≡ with_names symbols.old (named_mentions known.now (named_of pairs.now))) }
{
    for pair in pairs.as_slice() {
        note_expr(alloc, known, &pair.value, symbols)?;
    }
    Ok(())
}
