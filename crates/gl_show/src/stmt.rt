// The spelling of statements.
ghost use Rattle.std.specs.Prelude.{◌≡◌, ◌∷◌, ◌++◌, ◌<◌, OnOk, IsTrue, codes, false};
ghost use Rattle.gl_base.specs.Texts.{is_ascii_text};
ghost use Rattle.gl_ast.specs.Canon.{is_text_stmt, between, end_tag_text, closing_text, body_text, stmt_text, target_text, is_own_block, slot_text, slots_text, blocks_text, else_text, expr_text, string_text, parameters_text};
ghost use Rattle.std.specs.Str.{bytes_eq};
ghost use Rattle.gl_ast.specs.Grammar.{is_void, if_word};
ghost use Rattle.gl_ast.specs.Template.{body_of, slots_of, exprs_of, element, let_stmt, yield};
ghost use Rattle.gl_ast.specs.View.{expr_view, stmt_view, seen_slots};

use crate::expression::{write_expr, write_exprs, write_mustache};
use crate::part::{write_args, write_parameters, write_parts};
use crate::text::{write_string, write_text};
use gl_ast::{Args, Body, Expr, Exprs, Names, Parts, Slot, Slots, Stmt};
use gl_names::void;
use gl_value::Text;
use std::alloc::AllocError;

// Whether it is a text.
fn is_text(stmt: &Stmt) -> bool
    ensures { result ≡ is_text_stmt (stmt_view stmt.now) }
{
    matches!(stmt, Stmt::Text(_))
}

// Adds what stands between a text and a statement after it.
fn write_between(after_text: bool, stmt: &Stmt, out: &mut Text) -> Result<(), AllocError>
    ensures { OnOk result (out.new ≡ out.old ++ between after_text (stmt_view stmt.now)) }
{
    if after_text && is_text(stmt) {
        out.push_ascii("{{!}}")
    } else {
        Ok(())
    }
}

// Whether the element has no end tag.
fn is_void(tag: &Text) -> bool
    ensures { result ≡ is_void tag.now }
{
    void().find(tag.as_str()).is_some()
}

// Adds an end tag.
fn write_end_tag(name: &Text, out: &mut Text) -> Result<(), AllocError>
    ensures { OnOk result (out.new ≡ out.old ++ end_tag_text name.now) }
{
    out.push_ascii("</")?;
    out.push_text(name)?;
    out.push_ascii(">")
}

// The word of the block that an `If` is.
fn if_word(unless: bool) -> &'static str
    ensures value { result.now ≡ if_word unless }
    ensures ascii { IsTrue (is_ascii_text result.now) }
{
    if unless { "unless" } else { "if" }
}

// Adds the end of a block.
fn write_closing(word: &str, out: &mut Text) -> Result<(), AllocError>
    requires { IsTrue (is_ascii_text word.now) }
    ensures { OnOk result (out.new ≡ out.old ++ closing_text word.now) }
{
    out.push_ascii("{{/")?;
    out.push_ascii(word)?;
    out.push_ascii("}}")
}

// Whether this is the name of the block that a component has where it names none.
fn is_default(name: &Text) -> bool
    ensures { result ≡ bytes_eq name.now (codes "default") }
{
    name.as_str() == "default"
}

// Adds the block that a `yield` names, where that isn't `default`.
fn write_target(to: &Text, out: &mut Text) -> Result<(), AllocError>
    ensures { OnOk result (out.new ≡ out.old ++ target_text to.now) }
{
    if is_default(to) {
        return Ok(());
    }
    out.push_ascii(" to=")?;
    write_string(to, out)
}

// Adds a block that a `yield` shows.
fn write_yield(values: &Exprs, to: &Text, out: &mut Text) -> Result<(), AllocError>
    ensures { OnOk result (out.new ≡ out.old ++ stmt_text (yield (exprs_of values.now) to.now)) }
{
    out.push_ascii("{{yield")?;
    write_exprs(values, out)?;
    write_target(to, out)?;
    out.push_ascii("}}")
}

// Adds an element.
#[cycle(statement)]
fn write_element(tag: &Text, parts: &Parts, body: &Body, out: &mut Text) -> Result<(), AllocError>
    ensures { OnOk result (out.new ≡ out.old ++ stmt_text (element tag.now parts.now (body_of body.now))) }
{
    out.push_ascii("<")?;
    out.push_text(tag)?;
    write_parts(parts, out)?;
    out.push_ascii(">")?;
    if is_void(tag) {
        return Ok(());
    }
    write_body(body, out)?;
    write_end_tag(tag, out)
}

// Whether a block stands for itself: where it is named `default`, and there are no others.
fn is_own_block(name: &Text, others: &[Slot]) -> bool
    ensures { result ≡ is_own_block name.now (slots_of (seen_slots others.now)) }
{
    match others {
        [] => is_default(name),
        [_, ..] => false,
    }
}

// Adds a block with its name.
#[cycle(statement)]
fn write_slot(slot: &Slot, out: &mut Text) -> Result<(), AllocError>
    ensures { OnOk result (out.new ≡ out.old ++ slot_text slot.now.name slot.now.block.params (body_text false (body_of slot.now.block.body))) }
{
    out.push_ascii("<:")?;
    out.push_text(&slot.name)?;
    write_parameters(&slot.block.params, out)?;
    out.push_ascii(">")?;
    write_body(&slot.block.body, out)?;
    out.push_ascii("</:")?;
    out.push_text(&slot.name)?;
    out.push_ascii(">")
}

// Adds blocks with their names.
#[cycle(statement)]
fn write_blocks(slots: &[Slot], out: &mut Text) -> Result<(), AllocError>
    ensures { OnOk result (out.new ≡ out.old ++ blocks_text (slots_of (seen_slots slots.now))) }
{
    for slot in slots {
        write_slot(slot, out)?;
    }
    Ok(())
}

// Adds the end of a component's opening tag, and its blocks.
#[cycle(statement)]
fn write_slots(class: &Text, slots: &Slots, out: &mut Text) -> Result<(), AllocError>
    ensures { OnOk result (out.new ≡ out.old ++ slots_text class.now (slots_of slots.now)) }
{
    match slots.as_slice() {
        [] => out.push_ascii(" />"),
        [slot, others @ ..] => {
            if is_own_block(&slot.name, others) {
                write_parameters(&slot.block.params, out)?;
                out.push_ascii(">")?;
                write_body(&slot.block.body, out)?;
                return write_end_tag(class, out);
            }
            out.push_ascii(">")?;
            write_slot(slot, out)?;
            write_blocks(others, out)?;
            write_end_tag(class, out)
        }
    }
}

// Adds the else body of a block, where it isn't empty.
#[cycle(statement)]
fn write_else(otherwise: &Body, out: &mut Text) -> Result<(), AllocError>
    ensures { OnOk result (out.new ≡ out.old ++ else_text (body_of otherwise.now)) }
{
    if otherwise.is_empty() {
        return Ok(());
    }
    out.push_ascii("{{else}}")?;
    write_body(otherwise, out)
}

// Adds the head of an `if` or an `unless`.
fn write_if_head(test: &Expr, unless: bool, out: &mut Text) -> Result<(), AllocError>
    ensures { OnOk result (out.new ≡ out.old ++ (codes "{{#" ++ (if_word unless ++ (32 ∷ (expr_text (expr_view test.now) ++ codes "}}"))))) }
{
    out.push_ascii("{{#")?;
    out.push_ascii(if_word(unless))?;
    out.push_ascii(" ")?;
    write_expr(test, out)?;
    out.push_ascii("}}")
}

// Adds the bodies of a block, and its end.
#[cycle(statement)]
fn write_bodies(body: &Body, otherwise: &Body, word: &str, out: &mut Text) -> Result<(), AllocError>
    requires { IsTrue (is_ascii_text word.now) }
    ensures { OnOk result (out.new ≡ out.old ++ (body_text false (body_of body.now) ++ (else_text (body_of otherwise.now) ++ closing_text word.now))) }
{
    write_body(body, out)?;
    write_else(otherwise, out)?;
    write_closing(word, out)
}

// Adds the head of an `each`, with its key.
fn write_each_head(
    list: &Expr,
    key: &Text,
    params: &Names,
    out: &mut Text,
) -> Result<(), AllocError>
    ensures { OnOk result (out.new ≡ out.old ++ (codes "{{#each " ++ (expr_text (expr_view list.now) ++ (codes " key=" ++ (string_text key.now ++ (parameters_text params.now ++ codes "}}")))))) }
{
    out.push_ascii("{{#each ")?;
    write_expr(list, out)?;
    out.push_ascii(" key=")?;
    write_string(key, out)?;
    write_parameters(params, out)?;
    out.push_ascii("}}")
}

// Adds a `let`.
#[cycle(statement)]
fn write_let(values: &Exprs, params: &Names, body: &Body, out: &mut Text) -> Result<(), AllocError>
    ensures { OnOk result (out.new ≡ out.old ++ stmt_text (let_stmt (exprs_of values.now) params.now (body_of body.now))) }
{
    out.push_ascii("{{#let")?;
    write_exprs(values, out)?;
    write_parameters(params, out)?;
    out.push_ascii("}}")?;
    write_body(body, out)?;
    write_closing("let", out)
}

/// Adds a statement.
#[cycle(statement)]
pub fn write_stmt(stmt: &Stmt, out: &mut Text) -> Result<(), AllocError>
    ensures { OnOk result (out.new ≡ out.old ++ stmt_text (stmt_view stmt.now)) }
{
    match stmt {
        Stmt::Text(text) => write_text(text, out),
        Stmt::Comment(text) => {
            out.push_ascii("<!--")?;
            out.push_text(text)?;
            out.push_ascii("-->")
        }
        Stmt::Put(expr) => write_mustache(expr, out),
        Stmt::Element { tag, parts, body } => write_element(tag, parts, body, out),
        Stmt::Component {
            class,
            parts,
            args,
            slots,
        } => {
            out.push_ascii("<")?;
            out.push_text(class)?;
            write_args(&**args, out)?;
            write_parts(parts, out)?;
            write_slots(class, &**slots, out)
        }
        Stmt::If {
            test,
            unless,
            body,
            otherwise,
        } => {
            write_if_head(&**test, *unless, out)?;
            write_bodies(body, otherwise, if_word(*unless), out)
        }
        Stmt::Each {
            head,
            body,
            otherwise,
        } => {
            write_each_head(&head.list, &head.key, &head.params, out)?;
            write_bodies(body, otherwise, "each", out)
        }
        Stmt::Let {
            values,
            params,
            body,
        } => write_let(values, params, body, out),
        Stmt::Yield { values, to } => write_yield(values, to, out),
    }
}

/// Adds statements; between two texts stands a comment.
#[cycle(statement)]
pub fn write_body(body: &Body, out: &mut Text) -> Result<(), AllocError>
    ensures { OnOk result (out.new ≡ out.old ++ body_text false (body_of body.now)) }
{
    let mut after_text = false;
    for stmt in body.as_slice() {
        write_between(after_text, stmt, out)?;
        write_stmt(stmt, out)?;
        after_text = is_text(stmt);
    }
    Ok(())
}
