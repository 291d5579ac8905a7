// The spelling of the values of attributes and arguments.
ghost use Rattle.std.specs.Prelude.{◌≡◌, ◌∷◌, ◌++◌, ◌<◌, OnOk, codes};
ghost use Rattle.gl_ast.specs.Canon.{is_string, begins_string, is_plain_part, part_of_value, cat_text, given_text};
ghost use Rattle.gl_ast.specs.Template.{exprs_of, live};
ghost use Rattle.gl_ast.specs.View.{expr_view, seen_exprs, attr_view};

use crate::expression::write_mustache;
use crate::text::{ends_backslash, write_value_text};
use gl_ast::{AttrValue, Expr, Exprs, Lit};
use gl_value::Text;
use std::alloc::AllocError;

// Whether it is a string.
fn is_string(expr: &Expr) -> bool
    ensures { result ≡ is_string (expr_view expr.now) }
{
    matches!(expr, Expr::Lit(Lit::Str(_)))
}

// Whether the first of them is a string.
fn begins_string(exprs: &[Expr]) -> bool
    ensures { result ≡ begins_string (exprs_of (seen_exprs exprs.now)) }
{
    match exprs {
        [] => false,
        [expr, ..] => is_string(expr),
    }
}

// Whether a string among the parts of a quoted value is written as a text. `near` says that it is alone, or that a
// string stands directly before or after it.
fn is_plain_part(near: bool, text: &Text) -> bool
    ensures { result ≡ is_plain_part near text.now }
{
    ends_backslash(text) || (!text.is_empty() && !near)
}

// Adds a part of a quoted value.
fn write_part_of_value(near: bool, expr: &Expr, out: &mut Text) -> Result<(), AllocError>
    ensures { OnOk result (out.new ≡ out.old ++ part_of_value near (expr_view expr.now)) }
{
    match expr {
        Expr::Lit(Lit::Str(text)) if is_plain_part(near, text) => write_value_text(text, out),
        _ => write_mustache(expr, out),
    }
}

// Adds the parts of a quoted value: one that is alone is a mustache.
fn write_cat(exprs: &Exprs, out: &mut Text) -> Result<(), AllocError>
    ensures { OnOk result (out.new ≡ out.old ++ cat_text (exprs_of exprs.now)) }
{
    let mut rest = exprs.as_slice();
    let mut before = rest.len() == 1;
    while let [expr, tail @ ..] = rest {
        write_part_of_value(before || begins_string(tail), expr, out)?;
        before = is_string(expr);
        rest = tail;
    }
    Ok(())
}

// Adds `=` and an expression as a value.
fn write_live(expr: &Expr, out: &mut Text) -> Result<(), AllocError>
    ensures { OnOk result (out.new ≡ out.old ++ given_text (live (expr_view expr.now))) }
{
    match expr {
        Expr::Cat(exprs) => {
            out.push_ascii("=\"")?;
            write_cat(exprs, out)?;
            out.push_ascii("\"")
        }
        _ => {
            out.push_ascii("=")?;
            write_mustache(expr, out)
        }
    }
}

/// Adds `=` and the value of an attribute or an argument.
pub fn write_given(value: &AttrValue, out: &mut Text) -> Result<(), AllocError>
    ensures { OnOk result (out.new ≡ out.old ++ given_text (attr_view value.now)) }
{
    match value {
        AttrValue::Fixed(text) => {
            out.push_ascii("=\"")?;
            write_value_text(text, out)?;
            out.push_ascii("\"")
        }
        AttrValue::Live(expr) => write_live(&**expr, out),
    }
}
