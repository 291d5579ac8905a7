// What is in the grammar, and a tree.
use gl_ast::{Body, Expr, Stmt};
use gl_parse::{ParseFault, expression, template};
use std::alloc::{AllocError, Global};
use std::process::Abort;
use std::test::Fail;

// Templates, and whether each is in the grammar.
static TEMPLATES: [(&str, bool); 132] = [
    ("", true),
    ("a b\n", true),
    ("a } b }} c", true),
    ("a < b", false),
    ("a \\{{b}}", false),
    ("<!-- a --> b", true),
    ("<!-- a", false),
    ("{{! a }}{{!-- b --}}", true),
    ("&amp;&unknown;&#0;&", true),
    ("{{a}}", true),
    ("{{a.b.0}}", true),
    ("{{this.a}}", true),
    ("{{this}}", false),
    ("{{@a.b}}", true),
    ("{{@this}}", true),
    ("{{}}", false),
    ("{{a", false),
    ("{{true}}{{null}}{{undefined}}", true),
    ("{{true.a}}", false),
    ("{{else}}", false),
    ("{{yield}}", true),
    ("{{yield a (b) 1}}", true),
    ("{{yield a=1}}", false),
    ("{{yield.a}}", false),
    ("<C><:a></:a></C>", true),
    ("<C> {{! c }}\n<:a as |x|>{{x}}</:a >\t<:default/>", false),
    ("<C> {{! c }}\n<:a as |x|>{{x}}</:a >\t</C>", true),
    ("<C as |x|>{{x}}</C>", true),
    ("<C as |x|> <:a></:a></C>", false),
    ("<C><:a></:a><:b></:b><:a></:a></C>", false),
    ("<C><:a></:a><:b></:b><:default></:default></C>", true),
    ("<C><:a><C><:a></:a></C></:a></C>", true),
    ("<C><:inverse></:inverse></C>", false),
    ("<:a></:a>", false),
    ("{{yield a to=\"b\"}}", true),
    ("{{yield to='default'}}", true),
    ("{{yield to=\"inverse\"}}", false),
    ("{{yield to=b}}", false),
    ("{{yield to}}", true),
    ("{{yield to to='b'}}", true),
    ("{{'a'}}{{\"b\\\"\"}}{{-7}}", true),
    ("{{f 007}}", true),
    ("{{f 9007199254740992}}", false),
    ("{{f 1 a=2 b=(g)}}", true),
    ("{{f a=1}}", true),
    ("{{f a = 1}}", true),
    ("{{f a=1 2}}", false),
    ("{{f a=}}", false),
    ("{{f this=1}}", false),
    ("{{f.a 1}}", false),
    ("{{this.a 1}}", false),
    ("{{@a 1}}", false),
    ("{{1 2}}", false),
    ("{{(f)}}", true),
    ("{{(f 1 a=2)}}", true),
    ("{{(1)}}", false),
    ("{{()}}", false),
    ("{{(f.a)}}", false),
    ("{{(f a=1 2)}}", false),
    ("{{(f}}", false),
    ("{{f)}}", false),
    ("{{f as |x|}}", false),
    ("<p></p>", true),
    ("<p></b>", false),
    ("<p></p >", true),
    ("<p>", false),
    ("</p>", false),
    ("<p/>", true),
    ("<br>", true),
    ("<br/>", true),
    ("<br></br>", false),
    ("<p><br></p>", true),
    ("<p>{{#if a}}</p>{{/if}}", false),
    ("<p a b='c' d=\"e{{f}}\" g={{h 1}} i=j></p>", true),
    ("<p a=''></p>", true),
    ("<p a={{}}></p>", false),
    ("<p a=></p>", false),
    ("<p a = 'b'></p>", true),
    ("<p a='{{#if b}}'></p>", false),
    ("<p a='{{yield}}'></p>", false),
    ("<p {{on 'a' b}} {{! c }} ...attributes></p>", true),
    ("<p {{f}}></p>", true),
    ("<p {{f.a}}></p>", false),
    ("<p {{(f)}}></p>", false),
    ("<p {{yield}}></p>", false),
    ("<p @a='b'></p>", false),
    ("<p as |x|></p>", false),
    ("<p as></p>", true),
    ("<C></C>", true),
    ("<C/>", true),
    ("<C @a={{b}} c @d as |x y|>{{x}}</C>", true),
    ("<C as |x|/>", true),
    ("<C as |x| @a='b'></C>", false),
    ("<C as |x| {{! c }}></C>", false),
    ("<C as |this|></C>", false),
    ("<C></D>", false),
    ("<A::B></A::B>", true),
    ("<A::B></A>", false),
    ("{{#if a}}b{{/if}}", true),
    ("{{#if (f a)}}b{{else}}c{{/if}}", true),
    ("{{#unless a}}b{{else}}{{/unless}}", true),
    ("{{#if a}}b{{/unless}}", false),
    ("{{#if a}}b", false),
    ("{{#if}}{{/if}}", false),
    ("{{#if a b}}{{/if}}", false),
    ("{{#if f a=1}}{{/if}}", false),
    ("{{#if a as |b|}}{{/if}}", false),
    ("{{#if a}}{{else}}{{else}}{{/if}}", false),
    (
        "{{#if a}}{{else if b}}{{else unless c}}{{else}}{{/if}}",
        true,
    ),
    ("{{#if a}}{{else}}{{else if b}}{{/if}}", false),
    ("{{#if a}}{{else if b}}{{/if}}{{/if}}", false),
    ("{{#if a}}{{else if b}}{{else}}{{else}}{{/if}}", false),
    ("{{#if a}}{{else f}}{{/if}}", false),
    ("{{#if a}}{{else each b as |c|}}{{else}}{{/if}}", true),
    ("{{#if a}}{{else let 1 as |b|}}{{b}}{{/if}}", true),
    ("{{#if a}}{{else let 1}}{{else}}{{/if}}", false),
    ("{{#if a}}<p>{{else}}</p>{{/if}}", false),
    ("{{#each a as |b c|}}{{b}}{{else}}d{{/each}}", true),
    ("{{#each a key='b' as |c|}}{{/each}}", true),
    ("{{#each a key=b}}{{/each}}", false),
    ("{{#each a as |b c d|}}{{/each}}", false),
    ("{{#each a as |b| key='c'}}{{/each}}", false),
    ("{{#each key key='a'}}{{/each}}", true),
    ("{{#let a 1 (f) as |b c d|}}{{/let}}", true),
    ("{{#let a}}{{/let}}", true),
    ("{{#let as |a|}}{{/let}}", false),
    ("{{#let}}{{/let}}", false),
    ("{{#let a=1}}{{/let}}", false),
    ("{{#let a}}{{else}}{{/let}}", false),
    ("{{#f a}}{{/f}}", false),
    ("{{#if.a b}}{{/if}}", false),
    ("{{/if}}", false),
];

// Expressions, and whether each is one.
static EXPRESSIONS: [(&str, bool); 14] = [
    ("a", true),
    (" this.a.b \n", true),
    ("@a", true),
    ("-0", true),
    ("'a\\'b'", true),
    ("(f 1 a=(g))", true),
    ("", false),
    ("f 1", false),
    ("f a=1", false),
    ("a b", false),
    ("a }}", false),
    ("{{a}}", false),
    ("yield", false),
    ("(f", false),
];

// A text in which two parts are repeated round a middle, and whether it is in the grammar.
struct Tower {
    first: &'static str,
    front: &'static str,
    middle: &'static str,
    back: &'static str,
    last: &'static str,
    count: usize,
    is_in: bool,
}

static TOWERS: [Tower; 23] = [
    Tower {
        first: "",
        front: "<C><:default>",
        middle: "b",
        back: "</:default></C>",
        last: "",
        count: 50,
        is_in: true,
    },
    Tower {
        first: "",
        front: "<C><:default>",
        middle: "<br>",
        back: "</:default></C>",
        last: "",
        count: 50,
        is_in: false,
    },
    Tower {
        first: "<p>",
        front: "<C>\n<:a>",
        middle: "{{yield to='a'}}",
        back: "</:a>\n</C>",
        last: "</p>",
        count: 49,
        is_in: true,
    },
    Tower {
        first: "<C>",
        front: "<:default>",
        middle: "b",
        back: "</:default>",
        last: "</C>",
        count: 2,
        is_in: false,
    },
    Tower {
        first: "{{yield",
        front: " a",
        middle: " to='b'",
        back: "",
        last: "}}",
        count: 200,
        is_in: true,
    },
    Tower {
        first: "",
        front: "<p>",
        middle: "a",
        back: "</p>",
        last: "",
        count: 100,
        is_in: true,
    },
    Tower {
        first: "",
        front: "<p>",
        middle: "a",
        back: "</p>",
        last: "",
        count: 101,
        is_in: false,
    },
    Tower {
        first: "<b>",
        front: "<p>",
        middle: "<br>",
        back: "</p>",
        last: "</b>",
        count: 98,
        is_in: true,
    },
    Tower {
        first: "<b>",
        front: "<p>",
        middle: "<br>",
        back: "</p>",
        last: "</b>",
        count: 99,
        is_in: false,
    },
    Tower {
        first: "",
        front: "<C>",
        middle: "{{yield}}",
        back: "</C>",
        last: "",
        count: 100,
        is_in: true,
    },
    Tower {
        first: "",
        front: "<C>",
        middle: "<C/>",
        back: "</C>",
        last: "",
        count: 100,
        is_in: false,
    },
    Tower {
        first: "",
        front: "{{#if a}}",
        middle: "b",
        back: "{{/if}}",
        last: "",
        count: 100,
        is_in: true,
    },
    Tower {
        first: "",
        front: "{{#if a}}",
        middle: "b",
        back: "{{/if}}",
        last: "",
        count: 101,
        is_in: false,
    },
    Tower {
        first: "",
        front: "<p>{{#let 1}}",
        middle: "b",
        back: "{{/let}}</p>",
        last: "",
        count: 50,
        is_in: true,
    },
    Tower {
        first: "",
        front: "<p>{{#let 1}}",
        middle: "<br/>",
        back: "{{/let}}</p>",
        last: "",
        count: 50,
        is_in: false,
    },
    Tower {
        first: "{{#if a}}",
        front: "{{else if a}}",
        middle: "b",
        back: "c",
        last: "{{/if}}",
        count: 99,
        is_in: true,
    },
    Tower {
        first: "{{#if a}}",
        front: "{{else if a}}",
        middle: "b",
        back: "c",
        last: "{{/if}}",
        count: 100,
        is_in: false,
    },
    Tower {
        first: "{{f ",
        front: "(f ",
        middle: "1",
        back: ")",
        last: "}}",
        count: 16,
        is_in: true,
    },
    Tower {
        first: "{{f ",
        front: "(f ",
        middle: "1",
        back: ")",
        last: "}}",
        count: 17,
        is_in: false,
    },
    Tower {
        first: "{{",
        front: "(f ",
        middle: "1",
        back: ")",
        last: "}}",
        count: 17,
        is_in: false,
    },
    Tower {
        first: "<p a={{f ",
        front: "(f k=",
        middle: "1",
        back: ")",
        last: "}}></p>",
        count: 16,
        is_in: true,
    },
    Tower {
        first: "",
        front: "<p></p>",
        middle: "b",
        back: "{{#if a}}{{/if}}",
        last: "",
        count: 200,
        is_in: true,
    },
    Tower {
        first: "{{f",
        front: " a",
        middle: "",
        back: " b=1",
        last: "}}",
        count: 200,
        is_in: true,
    },
];

// Whether the bytes are a template.
fn is_template(alloc: Global, bytes: &[u8]) -> Result<bool, ParseFault> {
    match template(alloc, bytes) {
        Ok(_) => Ok(true),
        Err(ParseFault::NotInGrammar { .. }) => Ok(false),
        Err(fault) => Err(fault),
    }
}

fn is_expression(alloc: Global, text: &str) -> Result<bool, ParseFault> {
    match expression(alloc, text) {
        Ok(_) => Ok(true),
        Err(ParseFault::NotInGrammar { .. }) => Ok(false),
        Err(fault) => Err(fault),
    }
}

// The text so often.
fn push_times(out: &mut String, text: &str, count: usize) -> Result<(), AllocError> {
    for _ in 0..count {
        out.push_str(text)?;
    }
    Ok(())
}

fn tower_text(alloc: Global, tower: &Tower) -> Result<String, AllocError> {
    let mut out = String::from_str(alloc, tower.first)?;
    push_times(&mut out, tower.front, tower.count)?;
    out.push_str(tower.middle)?;
    push_times(&mut out, tower.back, tower.count)?;
    out.push_str(tower.last)?;
    Ok(out)
}

fn check_template(rt: &impl Abort, alloc: Global, row: &(&str, bool)) -> Result<(), Fail> {
    let (text, want) = *row;
    assert_eq!(rt; is_template(alloc, text.as_bytes())?, want, "{text}");
    Ok(())
}

fn check_expression(rt: &impl Abort, alloc: Global, row: &(&str, bool)) -> Result<(), Fail> {
    let (text, want) = *row;
    assert_eq!(rt; is_expression(alloc, text)?, want, "{text}");
    Ok(())
}

fn check_tower(rt: &impl Abort, alloc: Global, tower: &Tower) -> Result<(), Fail> {
    let text = tower_text(alloc, tower)?;
    let have = is_template(alloc, text.as_str().as_bytes())?;
    assert_eq!(rt; have, tower.is_in, "{text}");
    Ok(())
}

#[test]
fn templates(rt: HostRuntime) -> Result<(), Fail> {
    for row in TEMPLATES.iter() {
        check_template(&rt, rt.alloc(), row)?;
    }
    Ok(())
}

#[test]
fn expressions(rt: HostRuntime) -> Result<(), Fail> {
    for row in EXPRESSIONS.iter() {
        check_expression(&rt, rt.alloc(), row)?;
    }
    Ok(())
}

#[test]
fn towers(rt: HostRuntime) -> Result<(), Fail> {
    for tower in TOWERS.iter() {
        check_tower(&rt, rt.alloc(), tower)?;
    }
    Ok(())
}

fn is_text(stmt: &Stmt, text: &str) -> bool {
    match stmt {
        Stmt::Text(have) => have.as_str() == text,
        _ => false,
    }
}

fn is_member(expr: &Expr, name: &str) -> bool {
    match expr {
        Expr::This { member, rest } => member.as_str() == name && rest.len() == 0,
        _ => false,
    }
}

// The tree of the template below.
fn is_tree(body: &Body) -> bool {
    match body.as_slice() {
        [
            a,
            Stmt::If {
                test,
                unless: false,
                body,
                otherwise,
            },
            c,
            Stmt::Put(e),
            d,
        ] => is_text(a, "a\n")
            && is_member(&**test, "n")
            && is_block(body)
            && otherwise.is_empty()
            && is_text(c, "c")
            && is_member(e, "n")
            && is_text(d, "d"),
        _ => false,
    }
}

fn is_block(body: &Body) -> bool {
    match body.as_slice() {
        [b] => is_text(b, "  b\u{e9}&unknown;\n"),
        _ => false,
    }
}

#[test]
fn tree(rt: HostRuntime) -> Result<(), Fail> {
    let text = "a\n\t{{#if this.n}}  \n  b&eacute;&unknown;\n{{/if}}\nc {{~this.n~}} d";
    let tree = template(rt.alloc(), text.as_bytes())?;
    assert!(rt; is_tree(tree.body()));
    let body = tree.into_body();
    assert!(rt; is_tree(&body));
    Ok(())
}

#[test]
fn no_text(rt: HostRuntime) -> Result<(), Fail> {
    assert!(rt; !is_template(rt.alloc(), b"<p>\xc3</p>")?);
    Ok(())
}
