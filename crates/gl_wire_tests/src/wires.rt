// Templates and expressions, each with its wire.
use gl_parse::template;
use gl_value::{Text, Texts};
use gl_wire::{WireExpr, to_text};
use gl_wirec::{compile, expression};
use std::alloc::Global;
use std::process::Abort;
use std::test::Fail;

static STATEMENTS: [(&str, &str); 4] = [
    (
        "<p title={{@t}}>a</p>",
        r#"{"body":[["el","p",[["dyn","title",["sym",0]]]],["text","a"],["end"]],"symbols":["@t"],"v":2}"#,
    ),
    (
        "{{#let 1 as |a|}}{{a}}{{/let}}",
        r#"{"body":[["let",[["lit",1]],[0]],["put",["sym",0]],["end"]],"symbols":["a"],"v":2}"#,
    ),
    (
        r#"{{#each @l key="k" as |a|}}{{a}}{{else}}{{a}}{{/each}}"#,
        r#"{"body":[["each",["sym",0],"k",[1]],["put",["sym",1]],["else"],["put",["call","a",[],[]]],["end"]],"symbols":["@l","a"],"v":2}"#,
    ),
    (
        "{{#unless undefined}}{{null}}{{-3}}{{/unless}}<D />{{yield this.a.b @b}}<!--c-->",
        r#"{"body":[["unless",["undef"]],["put",["lit",null]],["put",["lit",-3]],["end"],["leaf","D",[],[]],["yield",[["get",["this","a"],["b"]],["sym",0]],"default"],["comment","c"]],"symbols":["@b"],"v":2}"#,
    ),
];

static NAMES: [(&str, &str); 4] = [
    (
        r#"<C @a={{@x}} @b="t" class={{@y}} as |p q|>{{p}}{{r}}{{q.n.0}}</C>{{p}}"#,
        r#"{"body":[["comp","C",[["dyn","class",["sym",1]]],[["a",["sym",0]],["b",["lit","t"]]]],["slot","default",[2,3]],["put",["sym",2]],["put",["call","r",[],[]]],["put",["get",["sym",3],["n","0"]]],["end"],["end"],["put",["call","p",[],[]]]],"symbols":["@x","@y","p","q"],"v":2}"#,
    ),
    (
        "{{f}}{{#if g}}{{h.a}}{{else}}{{!x}}y{{/if}}",
        r#"{"body":[["put",["call","f",[],[]]],["if",["free","g"]],["put",["get",["free","h"],["a"]]],["else"],["text","y"],["end"]],"symbols":[],"v":2}"#,
    ),
    (
        "{{#let @b 2 as |a b|}}{{#let a as |b|}}{{b}}{{@b}}{{/let}}{{b}}{{/let}}",
        r#"{"body":[["let",[["sym",0],["lit",2]],[1,2]],["let",[["sym",1]],[2]],["put",["sym",2]],["put",["sym",0]],["end"],["put",["sym",2]],["end"]],"symbols":["@b","a","b"],"v":2}"#,
    ),
    (
        r#"<p class="a{{@b}}{{f}}{{concat f "é"}}" ...attributes {{on "click" (fn this.go 1) once=true}}></p>"#,
        r#"{"body":[["el","p",[["dyn","class",["cat",[["lit","a"],["sym",0],["call","f",[],[]],["call","concat",[["free","f"],["lit","é"]],[]]]]],["spread"],["mod","on",[["lit","click"],["call","fn",[["this","go"],["lit",1]],[]]],[["once",["lit",true]]]]]],["end"]],"symbols":["@b"],"v":2}"#,
    ),
];

static BLOCKS: [(&str, &str); 4] = [
    (
        r#"<C><:a>x</:a></C>{{yield to="a"}}"#,
        r#"{"body":[["comp","C",[],[]],["slot","a",[]],["text","x"],["end"],["end"],["yield",[],"a"]],"symbols":[],"v":2}"#,
    ),
    (
        r#"<Card> <:head as |x|>{{x}}</:head>{{! one }}<:default as |y|>{{x}}{{y}}</:default> </Card>"#,
        r#"{"body":[["comp","Card",[],[]],["slot","head",[0]],["put",["sym",0]],["end"],["slot","default",[1]],["put",["call","x",[],[]]],["put",["sym",1]],["end"],["end"]],"symbols":["x","y"],"v":2}"#,
    ),
    (
        "<C></C><D><:default></:default></D>",
        r#"{"body":[["comp","C",[],[]],["slot","default",[]],["end"],["end"],["comp","D",[],[]],["slot","default",[]],["end"],["end"]],"symbols":[],"v":2}"#,
    ),
    (
        r#"{{yield}}{{yield to="default"}}{{yield 1 @a to="b"}}"#,
        r#"{"body":[["yield",[],"default"],["yield",[],"default"],["yield",[["lit",1],["sym",0]],"b"]],"symbols":["@a"],"v":2}"#,
    ),
];

fn check_row(
    rt: &impl Abort,
    alloc: Global,
    row: &(&'static str, &'static str),
) -> Result<(), Fail> {
    let tree = template(alloc, row.0.as_bytes())?;
    let wire = compile(alloc, &tree)?;
    let text = to_text(alloc, &wire)?;
    assert_eq!(rt; text.as_str(), row.1);
    Ok(())
}

#[test]
fn statements(rt: HostRuntime) -> Result<(), Fail> {
    for row in &STATEMENTS {
        check_row(&rt, rt.alloc(), row)?;
    }
    Ok(())
}

#[test]
fn names(rt: HostRuntime) -> Result<(), Fail> {
    for row in &NAMES {
        check_row(&rt, rt.alloc(), row)?;
    }
    Ok(())
}

#[test]
fn blocks(rt: HostRuntime) -> Result<(), Fail> {
    for row in &BLOCKS {
        check_row(&rt, rt.alloc(), row)?;
    }
    Ok(())
}

fn parameters(alloc: Global) -> Result<Texts, Fail> {
    let mut params = Texts::new(alloc);
    params.push(Text::from_str(alloc, "a")?)?;
    params.push(Text::from_str(alloc, "b")?)?;
    Ok(params)
}

// Whether it is a call whose first argument is this symbol and whose second is free.
fn is_call(value: &WireExpr, place: u32) -> bool {
    match value {
        WireExpr::Call { args, .. } => match args.as_slice() {
            [WireExpr::Sym(first), WireExpr::Free(_)] => *first == place,
            _ => false,
        },
        _ => false,
    }
}

#[test]
fn parameters_of_an_expression(rt: HostRuntime) -> Result<(), Fail> {
    let params = parameters(rt.alloc())?;
    let expr = gl_parse::expression(rt.alloc(), "(fn b c)")?;
    let wire = expression(rt.alloc(), &expr, &params)?;
    assert!(rt; is_call(&wire.value, 0));
    assert_eq!(rt; wire.symbols.len(), 1);
    Ok(())
}
