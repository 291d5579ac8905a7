// The byte that a refusal names.
use gl_parse::{ParseFault, expression, template};
use std::alloc::Global;
use std::process::Abort;
use std::test::Fail;

// Texts that are no template, each with the byte at which it leaves the grammar.
static TEMPLATES: [(&str, u64); 94] = [
    ("a{{/if}}", 1),
    ("{{#if this.a}}x{{else}}y{{else}}z{{/if}}", 26),
    ("{{#let 1 as |x|}}{{else}}{{/let}}", 19),
    ("{{#if a}}{{/each}}", 12),
    ("{{x.}}", 3),
    ("{{5a}}", 2),
    ("<br></br>", 4),
    ("<p>", 3),
    ("<p></b>", 3),
    ("é{{5a}}", 4),
    ("é</b>", 2),
    ("{{#if a}}", 9),
    ("{{#if a", 7),
    ("{{#", 3),
    ("{{", 2),
    ("{{! a", 2),
    ("{{~!", 3),
    ("<!-- a", 6),
    ("<!", 2),
    ("</a", 3),
    ("</A::", 5),
    ("</a b>", 0),
    ("<", 1),
    ("{{f \"a}}", 8),
    ("{{f -", 5),
    ("{{f @", 5),
    ("{{f }", 5),
    ("<p .", 4),
    ("<p ..x", 3),
    ("<p a=", 5),
    ("<p a={", 6),
    ("<p a=\"", 6),
    ("<p a=\"{{x", 9),
    ("<p a=\"b\"c>", 8),
    ("<p a=\"b\"/", 9),
    ("<p a=b{", 6),
    ("{{f a=1 b}}", 9),
    ("{{yield a=1}}", 9),
    ("{{#let a=1}}{{/let}}", 8),
    ("{{#let}}{{/let}}", 6),
    ("{{#each a key}}", 13),
    ("{{#each a as |b c d|}}", 10),
    ("{{else}}", 2),
    ("<p>{{else}}</p>", 5),
    ("{{#if a}}{{else x}}", 16),
    ("{{true.x}}", 2),
    ("{{f else.x}}", 4),
    ("\\{{x}}", 0),
    ("a{{/if}} {{5a}}", 1),
    ("<p as |x|>", 3),
    ("<C as |x| a>", 10),
    ("{{(f)", 5),
    ("<C><:a></:a>x</C>", 12),
    ("<C><:a></:a><:a></:a></C>", 12),
    ("<C><:a></:a>{{! c }} <:a>", 21),
    ("<:a></:a>", 0),
    ("<p><:a></:a></p>", 3),
    ("<C>x<:a></:a></C>", 4),
    ("<C>&#32;<:a></:a></C>", 8),
    ("<C><p></p><:a></:a></C>", 10),
    ("<C as |p|><:a></:a></C>", 10),
    ("<C><:inverse></:inverse></C>", 11),
    ("<C><:this></:this></C>", 8),
    ("<C><:a x></:a></C>", 7),
    ("<C><:a {{! c }}></:a></C>", 7),
    ("<C><:a @x=\"y\"></:a></C>", 7),
    ("<C><:a/></C>", 6),
    ("<C><:a></C>", 7),
    ("<C></:a></C>", 3),
    ("<C><:a></:b></C>", 7),
    ("<C><:a></:inverse></C>", 7),
    ("<C><:a></:a>{{x}}</C>", 12),
    ("<C><:a></:a><p></p></C>", 12),
    ("<C><:a></:a><!-- c --></C>", 12),
    ("<C><:a><:b></:b></:a></C>", 7),
    ("<C><:", 5),
    ("<C></:", 6),
    ("<C></:invers ", 13),
    ("<C></:inverse", 13),
    ("<C></:this", 10),
    ("<C><:a as |p|", 13),
    ("{{yield to=\"this\"}}", 11),
    ("{{yield to=\"inverse\"}}", 11),
    ("{{yield to=\"else\"}}", 11),
    ("{{yield to=5}}", 11),
    ("{{yield to=a}}", 11),
    ("{{yield to=\"\"}}", 11),
    ("{{yield to=\"1a\"}}", 11),
    ("{{yield to=\"a\" b}}", 15),
    ("{{yield to=\"a\" to=\"b\"}}", 15),
    ("{{yield (to=\"a\")}}", 11),
    ("{{yield a to=}}", 13),
    ("{{yield x=\"b\"}}", 9),
    ("{{yield to.a=\"b\"}}", 12),
];

// Texts that are no expression, likewise.
static EXPRESSIONS: [(&str, u64); 12] = [
    ("", 0),
    ("x y", 2),
    ("(f", 2),
    ("f 1", 2),
    ("}}", 0),
    ("@", 1),
    ("-", 1),
    ("'a", 2),
    ("this", 0),
    ("(f a=1 2)", 7),
    (" x ) ", 3),
    ("as |x|", 0),
];

// The place of a template, or none where it is one.
fn template_place(alloc: Global, bytes: &[u8]) -> Result<Option<u64>, ParseFault> {
    match template(alloc, bytes) {
        Ok(_) => Ok(None),
        Err(ParseFault::NotInGrammar { offset }) => Ok(Some(offset)),
        Err(fault) => Err(fault),
    }
}

fn expression_place(alloc: Global, text: &str) -> Result<Option<u64>, ParseFault> {
    match expression(alloc, text) {
        Ok(_) => Ok(None),
        Err(ParseFault::NotInGrammar { offset }) => Ok(Some(offset)),
        Err(fault) => Err(fault),
    }
}

fn check_template(rt: &impl Abort, alloc: Global, row: &(&str, u64)) -> Result<(), Fail> {
    let (text, want) = *row;
    assert_eq!(rt;
        template_place(alloc, text.as_bytes())?,
        Some(want),
        "{text}"
    );
    Ok(())
}

fn check_expression(rt: &impl Abort, alloc: Global, row: &(&str, u64)) -> Result<(), Fail> {
    let (text, want) = *row;
    assert_eq!(rt; expression_place(alloc, text)?, Some(want), "{text}");
    Ok(())
}

#[test]
fn templates(rt: HostRuntime) -> Result<(), Fail> {
    for row in TEMPLATES.iter() {
        check_template(&rt, rt.alloc(), row)?;
    }
    Ok(())
}

#[test]
fn expressions(rt: HostRuntime) -> Result<(), Fail> {
    for row in EXPRESSIONS.iter() {
        check_expression(&rt, rt.alloc(), row)?;
    }
    Ok(())
}

#[test]
fn no_text(rt: HostRuntime) -> Result<(), Fail> {
    assert_eq!(rt; template_place(rt.alloc(), &[97, 255])?, Some(1));
    Ok(())
}
