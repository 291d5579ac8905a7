// Trees, each with its spelling.
use gl_ast::{
    Args, Argument, AttrValue, Block, Body, EachHead, Expr, Exprs, Lit, NamedExpr, Names, Pairs,
    Part, Parts, Slot, Slots, Stmt, Template,
};
use gl_show::{show, show_body};
use gl_value::Text;
use std::alloc::Global;
use std::process::Abort;
use std::test::Fail;

// An expression is named by a character (see `flat` and `expr`), several by a text.

// A part of a tag, named `a` where it has a name.
enum Piece {
    Fixed(&'static str),
    Live(char),
    Cat(&'static str),
    Modifier(&'static str),
    Spread,
}

// Statements that hold such parts: each holds at most one text.
enum Shape {
    Texts(&'static [&'static str]),
    Comment(&'static str),
    Put(char),
    Element(&'static str, &'static [Piece]),
    Component(&'static [Piece], &'static [Piece], &'static [&'static str]),
    If(bool, &'static str),
    Each(&'static str, &'static [&'static str]),
    Let(&'static str),
    Yield(&'static str, &'static str),
}

static ROWS: [(Shape, &str); 54] = [
    (Shape::Texts(&[]), ""),
    (Shape::Texts(&["a", "b", "c"]), "a{{!}}b{{!}}c"),
    (
        Shape::Texts(&[" \ta &<{\\\"\n "]),
        "&#32;&#9;a &amp;&lt;&#123;&#92;\"&#10;&#32;",
    ),
    (Shape::Texts(&["\r\x0c"]), "&#13;&#12;"),
    (Shape::Texts(&["a  b"]), "a  b"),
    (Shape::Texts(&["\u{a0}\u{e9}>}'"]), "\u{a0}\u{e9}>}'"),
    (Shape::Comment(" c & {{x}} "), "<!-- c & {{x}} -->"),
    (Shape::Put('u'), "{{undefined}}"),
    (Shape::Put('z'), "{{null}}"),
    (Shape::Put('t'), "{{true}}"),
    (Shape::Put('o'), "{{false}}"),
    (Shape::Put('i'), "{{-7}}"),
    (Shape::Put('0'), "{{0}}"),
    (Shape::Put('e'), "{{\"\"}}"),
    (Shape::Put('q'), "{{\"a\\\"'\\b\"}}"),
    (Shape::Put('m'), "{{this.m.b.0}}"),
    (Shape::Put('r'), "{{@r.b.0}}"),
    (Shape::Put('x'), "{{x}}"),
    (Shape::Put('f'), "{{(f)}}"),
    (Shape::Put('g'), "{{f x}}"),
    (Shape::Put('k'), "{{f k=1}}"),
    (Shape::Put('n'), "{{f (f x \"a\" k=1) k=1}}"),
    (Shape::Element("p", &[]), "<p>t</p>"),
    (Shape::Element("br", &[Piece::Spread]), "<br ...attributes>"),
    (Shape::Element("p", &[Piece::Fixed("")]), "<p a=\"\">t</p>"),
    (
        Shape::Element("p", &[Piece::Fixed(" &\"{\\<' ")]),
        "<p a=\" &amp;&quot;&#123;&#92;<' \">t</p>",
    ),
    (
        Shape::Element("p", &[Piece::Live('x'), Piece::Spread]),
        "<p a={{x}} ...attributes>t</p>",
    ),
    (
        Shape::Element("p", &[Piece::Live('h')]),
        "<p a={{f \"a\"}}>t</p>",
    ),
    (
        Shape::Element("p", &[Piece::Modifier("sx")]),
        "<p {{on \"a\" x k=1}}>t</p>",
    ),
    (
        Shape::Element("p", &[Piece::Cat("s")]),
        "<p a=\"{{\"a\"}}\">t</p>",
    ),
    (
        Shape::Element("p", &[Piece::Cat("sx")]),
        "<p a=\"a{{x}}\">t</p>",
    ),
    (
        Shape::Element("p", &[Piece::Cat("xsxs")]),
        "<p a=\"{{x}}a{{x}}a\">t</p>",
    ),
    (
        Shape::Element("p", &[Piece::Cat("ss")]),
        "<p a=\"{{\"a\"}}{{\"a\"}}\">t</p>",
    ),
    (
        Shape::Element("p", &[Piece::Cat("ex")]),
        "<p a=\"{{\"\"}}{{x}}\">t</p>",
    ),
    (
        Shape::Element("p", &[Piece::Cat("bs")]),
        "<p a=\"&amp;&#92;{{\"a\"}}\">t</p>",
    ),
    (Shape::Component(&[], &[], &[]), "<Kid />"),
    (
        Shape::Component(
            &[Piece::Fixed("v"), Piece::Live('x')],
            &[Piece::Fixed("c")],
            &[],
        ),
        "<Kid @a=\"v\" @a={{x}} a=\"c\" />",
    ),
    (
        Shape::Component(&[], &[Piece::Spread], &["default"]),
        "<Kid ...attributes as |p q|>t</Kid>",
    ),
    (
        Shape::Component(&[], &[Piece::Spread], &["a"]),
        "<Kid ...attributes><:a as |p q|>t</:a></Kid>",
    ),
    (
        Shape::Component(&[], &[], &["default", "b-1"]),
        "<Kid><:default as |p q|>t</:default><:b-1 as |p q|>t</:b-1></Kid>",
    ),
    (
        Shape::Component(&[], &[], &["b", "default"]),
        "<Kid><:b as |p q|>t</:b><:default as |p q|>t</:default></Kid>",
    ),
    (Shape::If(false, ""), "{{#if x}}t{{/if}}"),
    (Shape::If(false, "n"), "{{#if x}}t{{else}}n{{/if}}"),
    (Shape::If(true, ""), "{{#unless x}}t{{/unless}}"),
    (
        Shape::Each("@identity", &[]),
        "{{#each x key=\"@identity\"}}t{{else}}n{{/each}}",
    ),
    (
        Shape::Each("id", &["r"]),
        "{{#each x key=\"id\" as |r|}}t{{else}}n{{/each}}",
    ),
    (
        Shape::Each("\"", &["r", "i"]),
        "{{#each x key=\"\\\"\" as |r i|}}t{{else}}n{{/each}}",
    ),
    (Shape::Let("xs"), "{{#let x \"a\" as |p q|}}t{{/let}}"),
    (Shape::Yield("", "default"), "{{yield}}"),
    (Shape::Yield("x", "default"), "{{yield x}}"),
    (Shape::Yield("f", "default"), "{{yield (f)}}"),
    (Shape::Yield("", "a"), "{{yield to=\"a\"}}"),
    (Shape::Yield("xf", "b-1"), "{{yield x (f) to=\"b-1\"}}"),
    (Shape::Yield("x", "default1"), "{{yield x to=\"default1\"}}"),
];

fn names(alloc: Global, list: &[&'static str]) -> Result<Names, Fail> {
    let mut names = Names::new(alloc);
    for name in list {
        names.push(Text::from_str(alloc, name)?)?;
    }
    Ok(names)
}

fn integer(alloc: Global, wanted: bool) -> Result<Pairs, Fail> {
    let mut pairs = Pairs::new(alloc);
    if wanted {
        pairs.push(NamedExpr {
            name: Text::from_str(alloc, "k")?,
            value: Expr::Lit(Lit::Int(1)),
        })?;
    }
    Ok(pairs)
}

fn string(alloc: Global, text: &str) -> Result<Expr, Fail> {
    Ok(Expr::Lit(Lit::Str(Text::from_str(alloc, text)?)))
}

fn call(alloc: Global, args: Exprs, named: bool) -> Result<Expr, Fail> {
    Ok(Expr::Call {
        name: Text::from_str(alloc, "f")?,
        args,
        named: Box::new(alloc, integer(alloc, named)?)?,
    })
}

fn member(alloc: Global) -> Result<Expr, Fail> {
    Ok(Expr::This {
        member: Text::from_str(alloc, "m")?,
        rest: names(alloc, &["b", "0"])?,
    })
}

fn argument(alloc: Global) -> Result<Expr, Fail> {
    Ok(Expr::Arg {
        name: Text::from_str(alloc, "r")?,
        rest: names(alloc, &["b", "0"])?,
    })
}

fn bare(alloc: Global) -> Result<Expr, Fail> {
    Ok(Expr::Bare {
        name: Text::from_str(alloc, "x")?,
        rest: Names::new(alloc),
    })
}

// A literal or a path.
fn flat(alloc: Global, sign: char) -> Result<Expr, Fail> {
    match sign {
        'u' => Ok(Expr::Lit(Lit::Undefined)),
        'z' => Ok(Expr::Lit(Lit::Null)),
        't' => Ok(Expr::Lit(Lit::Bool(true))),
        'o' => Ok(Expr::Lit(Lit::Bool(false))),
        'i' => Ok(Expr::Lit(Lit::Int(-7))),
        '0' => Ok(Expr::Lit(Lit::Int(0))),
        'e' => string(alloc, ""),
        's' => string(alloc, "a"),
        'q' => string(alloc, "a\"'\\b"),
        'b' => string(alloc, "&\\"),
        'm' => member(alloc),
        'r' => argument(alloc),
        _ => bare(alloc),
    }
}

fn flats(alloc: Global, signs: &str) -> Result<Exprs, Fail> {
    let mut exprs = Exprs::new(alloc);
    for sign in signs.chars() {
        exprs.push(flat(alloc, sign)?)?;
    }
    Ok(exprs)
}

// A call of one argument, with a call in it.
fn nested(alloc: Global) -> Result<Expr, Fail> {
    let mut args = Exprs::new(alloc);
    args.push(call(alloc, flats(alloc, "xs")?, true)?)?;
    call(alloc, args, true)
}

// Any expression: a call too.
fn expr(alloc: Global, sign: char) -> Result<Expr, Fail> {
    match sign {
        'f' => call(alloc, Exprs::new(alloc), false),
        'g' => call(alloc, flats(alloc, "x")?, false),
        'h' => call(alloc, flats(alloc, "s")?, false),
        'k' => call(alloc, Exprs::new(alloc), true),
        'n' => nested(alloc),
        other => flat(alloc, other),
    }
}

fn exprs(alloc: Global, signs: &str) -> Result<Exprs, Fail> {
    let mut exprs = Exprs::new(alloc);
    for sign in signs.chars() {
        exprs.push(expr(alloc, sign)?)?;
    }
    Ok(exprs)
}

fn part(alloc: Global, piece: &Piece) -> Result<Part, Fail> {
    let value = match piece {
        Piece::Fixed(text) => AttrValue::Fixed(Text::from_str(alloc, text)?),
        Piece::Live(sign) => AttrValue::Live(Box::new(alloc, expr(alloc, *sign)?)?),
        Piece::Cat(signs) => AttrValue::Live(Box::new(alloc, Expr::Cat(exprs(alloc, signs)?))?),
        Piece::Modifier(signs) => {
            return Ok(Part::Mod {
                name: Text::from_str(alloc, "on")?,
                args: exprs(alloc, signs)?,
                named: Box::new(alloc, integer(alloc, true)?)?,
            });
        }
        Piece::Spread => return Ok(Part::Spread),
    };
    Ok(Part::Attr {
        name: Text::from_str(alloc, "a")?,
        value,
    })
}

fn parts(alloc: Global, pieces: &[Piece]) -> Result<Parts, Fail> {
    let mut parts = Parts::new(alloc);
    for piece in pieces {
        parts.push(part(alloc, piece)?)?;
    }
    Ok(parts)
}

fn given(alloc: Global, pieces: &[Piece]) -> Result<Args, Fail> {
    let mut args = Args::new(alloc);
    for piece in pieces {
        if let Part::Attr { name, value } = part(alloc, piece)? {
            args.push(Argument { name, value })?;
        }
    }
    Ok(args)
}

fn texts(alloc: Global, list: &[&'static str]) -> Result<Body, Fail> {
    let mut body = Body::new(alloc);
    for text in list {
        body.push(Stmt::Text(Text::from_str(alloc, text)?))?;
    }
    Ok(body)
}

// A body of one text, or of none where that is empty.
fn content(alloc: Global, text: &'static str) -> Result<Body, Fail> {
    if text.is_empty() {
        Ok(Body::new(alloc))
    } else {
        texts(alloc, &[text])
    }
}

fn slots(alloc: Global, named: &[&'static str]) -> Result<Slots, Fail> {
    let mut slots = Slots::new(alloc);
    for name in named {
        slots.push(Slot {
            name: Text::from_str(alloc, name)?,
            block: Block {
                params: names(alloc, &["p", "q"])?,
                body: content(alloc, "t")?,
            },
        })?;
    }
    Ok(slots)
}

fn each(alloc: Global, key: &str, params: &[&'static str]) -> Result<Stmt, Fail> {
    let head = EachHead {
        list: bare(alloc)?,
        key: Text::from_str(alloc, key)?,
        params: names(alloc, params)?,
    };
    Ok(Stmt::Each {
        head: Box::new(alloc, head)?,
        body: content(alloc, "t")?,
        otherwise: content(alloc, "n")?,
    })
}

fn component(
    alloc: Global,
    args: &[Piece],
    pieces: &[Piece],
    named: &[&'static str],
) -> Result<Stmt, Fail> {
    Ok(Stmt::Component {
        class: Text::from_str(alloc, "Kid")?,
        parts: parts(alloc, pieces)?,
        args: Box::new(alloc, given(alloc, args)?)?,
        slots: Box::new(alloc, slots(alloc, named)?)?,
    })
}

fn branch(alloc: Global, unless: bool, otherwise: &'static str) -> Result<Stmt, Fail> {
    Ok(Stmt::If {
        test: Box::new(alloc, bare(alloc)?)?,
        unless,
        body: content(alloc, "t")?,
        otherwise: content(alloc, otherwise)?,
    })
}

fn named(alloc: Global, signs: &str) -> Result<Stmt, Fail> {
    Ok(Stmt::Let {
        values: exprs(alloc, signs)?,
        params: names(alloc, &["p", "q"])?,
        body: content(alloc, "t")?,
    })
}

fn statement(alloc: Global, shape: &Shape) -> Result<Stmt, Fail> {
    match shape {
        Shape::Texts(_) => Ok(Stmt::Text(Text::new(alloc))),
        Shape::Comment(text) => Ok(Stmt::Comment(Text::from_str(alloc, text)?)),
        Shape::Put(sign) => Ok(Stmt::Put(expr(alloc, *sign)?)),
        Shape::Element(tag, pieces) => Ok(Stmt::Element {
            tag: Text::from_str(alloc, tag)?,
            parts: parts(alloc, pieces)?,
            body: content(alloc, "t")?,
        }),
        Shape::Component(args, pieces, named) => component(alloc, args, pieces, named),
        Shape::If(unless, otherwise) => branch(alloc, *unless, otherwise),
        Shape::Each(key, params) => each(alloc, key, params),
        Shape::Let(signs) => named(alloc, signs),
        Shape::Yield(signs, to) => Ok(Stmt::Yield {
            values: exprs(alloc, signs)?,
            to: Text::from_str(alloc, to)?,
        }),
    }
}

fn tree(alloc: Global, shape: &Shape) -> Result<Body, Fail> {
    if let Shape::Texts(list) = shape {
        return texts(alloc, list);
    }
    let mut body = Body::new(alloc);
    body.push(statement(alloc, shape)?)?;
    Ok(body)
}

fn check_row(rt: &impl Abort, alloc: Global, row: &(Shape, &'static str)) -> Result<(), Fail> {
    let body = tree(alloc, &row.0)?;
    let shown = show_body(alloc, &body)?;
    assert_eq!(rt; shown.as_str(), row.1);
    Ok(())
}

#[test]
fn spellings(rt: HostRuntime) -> Result<(), Fail> {
    for row in &ROWS {
        check_row(&rt, rt.alloc(), row)?;
    }
    Ok(())
}

#[test]
fn empty_template(rt: HostRuntime) -> Result<(), Fail> {
    let body = Body::new(rt.alloc());
    let template = Template::new(body);
    let shown = show(rt.alloc(), &template)?;
    assert_eq!(rt; shown.as_str(), "");
    Ok(())
}
