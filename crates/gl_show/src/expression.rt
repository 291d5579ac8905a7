// The spelling of expressions.
ghost use Rattle.std.specs.Prelude.{◌≡◌, ◌∷◌, ◌++◌, ◌<◌, OnOk, codes};
ghost use Rattle.gl_ast.specs.Canon.{literal_text, segments_text, expr_text, exprs_text, named_text, inner_text, mustache_text};
ghost use Rattle.gl_ast.specs.Grammar.{has_argument};
ghost use Rattle.gl_ast.specs.Template.{exprs_of, named_of};
ghost use Rattle.gl_ast.specs.View.{lit_view, expr_view};

use crate::text::write_string;
use gl_ast::{Expr, Exprs, Lit, Names, Pairs};
use gl_value::Text;
use std::alloc::AllocError;

// Adds a literal.
fn write_literal(literal: &Lit, out: &mut Text) -> Result<(), AllocError>
    ensures { OnOk result (out.new ≡ out.old ++ literal_text (lit_view literal.now)) }
{
    match literal {
        Lit::Undefined => out.push_ascii("undefined"),
        Lit::Null => out.push_ascii("null"),
        Lit::Bool(true) => out.push_ascii("true"),
        Lit::Bool(false) => out.push_ascii("false"),
        Lit::Int(number) => out.push_int(*number),
        Lit::Str(text) => write_string(text, out),
    }
}

// Adds the segments of a path, each after a dot.
fn write_segments(segments: &Names, out: &mut Text) -> Result<(), AllocError>
    ensures { OnOk result (out.new ≡ out.old ++ segments_text segments.now) }
{
    for segment in segments.as_slice() {
        out.push_ascii(".")?;
        out.push_text(segment)?;
    }
    Ok(())
}

// Adds a call in parentheses.
#[cycle(expression)]
fn write_call(name: &Text, args: &Exprs, named: &Pairs, out: &mut Text) -> Result<(), AllocError>
    ensures { OnOk result (out.new ≡ out.old ++ (codes "(" ++ (name.now ++ (exprs_text (exprs_of args.now) ++ (named_text (named_of named.now) ++ codes ")"))))) }
{
    out.push_ascii("(")?;
    out.push_text(name)?;
    write_exprs(args, out)?;
    write_named(named, out)?;
    out.push_ascii(")")
}

/// Adds an expression; a call stands in parentheses.
#[cycle(expression)]
pub fn write_expr(expr: &Expr, out: &mut Text) -> Result<(), AllocError>
    ensures { OnOk result (out.new ≡ out.old ++ expr_text (expr_view expr.now)) }
{
    match expr {
        Expr::Lit(literal) => write_literal(literal, out),
        Expr::This { member, rest } => {
            out.push_ascii("this.")?;
            out.push_text(member)?;
            write_segments(rest, out)
        }
        Expr::Arg { name, rest } => {
            out.push_ascii("@")?;
            out.push_text(name)?;
            write_segments(rest, out)
        }
        Expr::Bare { name, rest } => {
            out.push_text(name)?;
            write_segments(rest, out)
        }
        Expr::Call { name, args, named } => write_call(name, args, &**named, out),
        Expr::Cat(_) => Ok(()),
    }
}

/// Adds positional arguments, each after a blank.
#[cycle(expression)]
pub fn write_exprs(exprs: &Exprs, out: &mut Text) -> Result<(), AllocError>
    ensures { OnOk result (out.new ≡ out.old ++ exprs_text (exprs_of exprs.now)) }
{
    for item in exprs.as_slice() {
        out.push_ascii(" ")?;
        write_expr(item, out)?;
    }
    Ok(())
}

/// Adds named arguments, each after a blank.
#[cycle(expression)]
pub fn write_named(pairs: &Pairs, out: &mut Text) -> Result<(), AllocError>
    ensures { OnOk result (out.new ≡ out.old ++ named_text (named_of pairs.now)) }
{
    for pair in pairs.as_slice() {
        out.push_ascii(" ")?;
        out.push_text(&pair.name)?;
        out.push_ascii("=")?;
        write_expr(&pair.value, out)?;
    }
    Ok(())
}

// Whether some argument is there.
fn has_argument(args: &Exprs, named: &Pairs) -> bool
    ensures { result ≡ has_argument (exprs_of args.now) (named_of named.now) }
{
    match args.as_slice() {
        [] => !named.as_slice().is_empty(),
        [_, ..] => true,
    }
}

// Adds what stands in a mustache: a call that has arguments stands there without parentheses.
fn write_inner(expr: &Expr, out: &mut Text) -> Result<(), AllocError>
    ensures { OnOk result (out.new ≡ out.old ++ inner_text (expr_view expr.now)) }
{
    match expr {
        Expr::Call { name, args, named } if has_argument(args, &**named) => {
            out.push_text(name)?;
            write_exprs(args, out)?;
            write_named(&**named, out)
        }
        _ => write_expr(expr, out),
    }
}

/// Adds a mustache.
pub fn write_mustache(expr: &Expr, out: &mut Text) -> Result<(), AllocError>
    ensures { OnOk result (out.new ≡ out.old ++ mustache_text (expr_view expr.now)) }
{
    out.push_ascii("{{")?;
    write_inner(expr, out)?;
    out.push_ascii("}}")
}
