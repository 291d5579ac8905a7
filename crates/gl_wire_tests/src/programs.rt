// Templates with their programs, and with their first unknown names.
use gl_ast::{Expr, Lit, NamedExpr};
use gl_meaning::{Action, Actions, Class, Classes, Fields, Getters, Kind, Manifest, Steps};
use gl_opc::{Ints, LinkFault, Program, link, link_expression};
use gl_parse::template;
use gl_value::{Text, Texts, Value};
use gl_wirec::compile;
use std::alloc::Global;
use std::process::Abort;
use std::test::Fail;

// A template, the words of its program, and its texts, names and integers, each of which a comma follows.
type Row = (
    &'static str,
    &'static [u64],
    &'static str,
    &'static str,
    &'static str,
);

static TAGS: [Row; 6] = [
    (
        r#"<p id="a">hi</p>"#,
        &[
            0x03_000000_00000000,
            0x04_000000_00000001,
            0x08_000000_00000000,
            0x01_000000_00000002,
            0x09_000000_00000000,
            0x2D_000000_00000000,
        ],
        "p,a,hi,",
        "id,",
        "",
    ),
    (
        r#"<b {{on "click" this.pick}} {{tip}} class="a{{concat "x" k=2}}" ...attributes></b>"#,
        &[
            0x03_000000_00000000,
            0x23_000000_00000001,
            0x28_000000_00000000,
            0x07_000000_00000002,
            0x07_000001_00000000,
            0x23_000000_00000002,
            0x23_000000_00000003,
            0x22_000000_00000000,
            0x2B_000000_00000004,
            0x2A_000002_00000002,
            0x2C_000002_00000000,
            0x05_000000_00000000,
            0x06_000000_00000000,
            0x08_000000_00000000,
            0x09_000000_00000000,
            0x2D_000000_00000000,
        ],
        "b,click,a,x,k,",
        "class,",
        "2,",
    ),
    (
        r#"<Row @r={{this.some}} id="z" as |x|>{{x}}{{@r}}</Row>"#,
        &[
            0x16_000001_00000000,
            0x27_000000_00000000,
            0x17_000000_00000000,
            0x04_000001_00000000,
            0x18_000002_0000000B,
            0x19_000000_00000000,
            0x24_000000_00000000,
            0x0A_000000_00000000,
            0x25_000000_00000000,
            0x0A_000000_00000000,
            0x1A_000000_00000000,
            0x1C_000000_00000000,
            0x2D_000000_00000000,
        ],
        "z,",
        "r,id,default,",
        "",
    ),
    (
        "<Row />",
        &[
            0x16_000001_00000000,
            0x1B_000000_00000000,
            0x1C_000000_00000000,
            0x2D_000000_00000000,
        ],
        "",
        "",
        "",
    ),
    (
        "{{yield 1 this.on}}",
        &[
            0x22_000000_00000000,
            0x26_000000_00000000,
            0x1D_000002_00000000,
            0x2D_000000_00000000,
        ],
        "",
        "default,",
        "1,",
    ),
    (
        "{{concat}}{{not null}}<!--c-->",
        &[
            0x2A_000002_00000000,
            0x0A_000000_00000000,
            0x1F_000000_00000000,
            0x2A_00000E_00000001,
            0x0A_000000_00000000,
            0x02_000000_00000000,
            0x2D_000000_00000000,
        ],
        "c,",
        "",
        "",
    ),
];

static BLOCKS: [Row; 6] = [
    (
        "{{#if this.on}}a{{else}}b{{/if}}",
        &[
            0x26_000000_00000000,
            0x0B_000000_00000004,
            0x01_000000_00000000,
            0x0D_000000_00000005,
            0x01_000000_00000001,
            0x0E_000000_00000000,
            0x2D_000000_00000000,
        ],
        "a,b,",
        "",
        "",
    ),
    (
        "{{#unless true}}a{{/unless}}",
        &[
            0x20_000000_00000000,
            0x0C_000000_00000004,
            0x01_000000_00000000,
            0x0D_000000_00000004,
            0x0E_000000_00000000,
            0x2D_000000_00000000,
        ],
        "a,",
        "",
        "",
    ),
    (
        r#"{{#each this.rows key="id" as |r i|}}{{r.t}}{{/each}}"#,
        &[
            0x26_000001_00000000,
            0x0F_000000_00000008,
            0x10_000001_00000002,
            0x24_000000_00000000,
            0x29_000000_00000000,
            0x0A_000000_00000000,
            0x11_000000_00000000,
            0x0D_000000_00000008,
            0x12_000000_00000000,
            0x2D_000000_00000000,
        ],
        "t,",
        "id,",
        "",
    ),
    (
        r#"{{#let 1 "x" as |a b|}}{{b}}{{/let}}"#,
        &[
            0x22_000000_00000000,
            0x23_000000_00000000,
            0x13_000002_00000000,
            0x14_000000_00000000,
            0x14_000001_00000000,
            0x24_000001_00000000,
            0x0A_000000_00000000,
            0x15_000000_00000000,
            0x2D_000000_00000000,
        ],
        "x,",
        "",
        "1,",
    ),
    (
        "{{concat undefined false null -1}}",
        &[
            0x1E_000000_00000000,
            0x21_000000_00000000,
            0x1F_000000_00000000,
            0x22_000000_00000000,
            0x2A_000002_00000004,
            0x0A_000000_00000000,
            0x2D_000000_00000000,
        ],
        "",
        "",
        "-1,",
    ),
    (
        "{{@r.a.b}}{{this.on.a}}{{this.pick}}",
        &[
            0x25_000000_00000000,
            0x29_000000_00000000,
            0x29_000000_00000001,
            0x0A_000000_00000000,
            0x26_000000_00000000,
            0x29_000000_00000000,
            0x0A_000000_00000000,
            0x28_000000_00000000,
            0x0A_000000_00000000,
            0x2D_000000_00000000,
        ],
        "a,b,",
        "r,",
        "",
    ),
];

// A template, its first unknown name, what that was to be, and its statement.
static UNKNOWN: [(&str, &str, Kind, u64); 5] = [
    ("{{nope}}", "nope", Kind::Helper, 0),
    ("a<p>b{{this.gone}}</p>", "gone", Kind::Member, 3),
    (
        "{{#if this.on}}a{{else}}<p {{nope}}></p>{{/if}}",
        "nope",
        Kind::Modifier,
        2,
    ),
    (
        "<Row @a={{x.y}} b={{nope 1}}><Other /></Row>",
        "x",
        Kind::Local,
        0,
    ),
    (
        "<Row></Row><Row><Other /></Row>",
        "Other",
        Kind::Component,
        2,
    ),
];

fn text(alloc: Global, characters: &str) -> Result<Text, Fail> {
    Ok(Text::from_str(alloc, characters)?)
}

fn class(alloc: Global, name: &str) -> Result<Class, Fail> {
    Ok(Class {
        name: text(alloc, name)?,
        file: text(alloc, "file.hbs")?,
        fields: Fields::new(alloc),
        getters: Getters::new(alloc),
        actions: Actions::new(alloc),
        teardown: false,
    })
}

// A class with two fields, a getter and an action.
fn app(alloc: Global) -> Result<Class, Fail> {
    let mut app = class(alloc, "App")?;
    app.fields.push(text(alloc, "on")?, Value::Bool(false))?;
    app.fields.push(text(alloc, "rows")?, Value::Null)?;
    app.getters.push(NamedExpr {
        name: text(alloc, "some")?,
        value: Expr::Lit(Lit::Null),
    })?;
    app.actions.push(Action {
        name: text(alloc, "pick")?,
        params: Texts::new(alloc),
        steps: Steps::new(alloc),
    })?;
    Ok(app)
}

fn manifest(alloc: Global) -> Result<Manifest, Fail> {
    let mut modifiers = Texts::new(alloc);
    modifiers.push(text(alloc, "tip")?)?;
    let mut classes = Classes::new(alloc);
    classes.push(app(alloc)?)?;
    classes.push(class(alloc, "Row")?)?;
    Ok(Manifest {
        root: text(alloc, "App")?,
        limit: 16,
        modifiers,
        classes,
    })
}

fn linked(alloc: Global, bytes: &str) -> Result<Result<Program, LinkFault>, Fail> {
    let tree = template(alloc, bytes.as_bytes())?;
    let wire = compile(alloc, &tree)?;
    Ok(link(alloc, &wire, &manifest(alloc)?, &app(alloc)?))
}

fn joined(alloc: Global, texts: &Texts) -> Result<Text, Fail> {
    let mut all = Text::new(alloc);
    for text in texts.as_slice() {
        all.push_text(text)?;
        all.push_ascii(",")?;
    }
    Ok(all)
}

fn joined_ints(alloc: Global, ints: &Ints) -> Result<Text, Fail> {
    let mut all = Text::new(alloc);
    for int in ints.as_slice() {
        all.push_int(*int)?;
        all.push_ascii(",")?;
    }
    Ok(all)
}

fn check_program(rt: &impl Abort, alloc: Global, program: &Program, row: &Row) -> Result<(), Fail> {
    assert!(rt; program.words.as_slice() == row.1, "{}", row.0);
    assert_eq!(rt; joined(alloc, &program.texts)?.as_str(), row.2);
    assert_eq!(rt; joined(alloc, &program.names)?.as_str(), row.3);
    assert_eq!(rt; joined_ints(alloc, &program.ints)?.as_str(), row.4);
    Ok(())
}

fn check_row(rt: &impl Abort, alloc: Global, row: &Row) -> Result<(), Fail> {
    let program = linked(alloc, row.0)?.or(Err("a program"))?;
    check_program(rt, alloc, &program, row)
}

#[test]
fn tags(rt: HostRuntime) -> Result<(), Fail> {
    for row in &TAGS {
        check_row(&rt, rt.alloc(), row)?;
    }
    Ok(())
}

#[test]
fn blocks(rt: HostRuntime) -> Result<(), Fail> {
    for row in &BLOCKS {
        check_row(&rt, rt.alloc(), row)?;
    }
    Ok(())
}

fn is_unknown(fault: &LinkFault, name: &str, kind: Kind, place: u64) -> bool {
    match fault {
        LinkFault::UnknownName {
            kind: told,
            name: unknown,
            place: statement,
        } => unknown.is(name) && *told == kind && *statement == place,
        LinkFault::Memory => false,
    }
}

#[test]
fn unknown_names(rt: HostRuntime) -> Result<(), Fail> {
    for row in &UNKNOWN {
        match linked(rt.alloc(), row.0)? {
            Ok(_) => assert!(rt; false, "{}", row.0),
            Err(fault) => assert!(rt; is_unknown(&fault, row.1, row.2, row.3), "{}", row.0),
        }
    }
    Ok(())
}

fn linked_expression(alloc: Global, bytes: &str) -> Result<Result<Program, LinkFault>, Fail> {
    let mut params = Texts::new(alloc);
    params.push(text(alloc, "id")?)?;
    let expr = gl_parse::expression(alloc, bytes)?;
    let wire = gl_wirec::expression(alloc, &expr, &params)?;
    Ok(link_expression(alloc, &wire, &manifest(alloc)?, &app(alloc)?))
}

#[test]
fn expressions(rt: HostRuntime) -> Result<(), Fail> {
    let row: Row = (
        "(concat id 1)",
        &[
            0x24_000000_00000000,
            0x22_000000_00000000,
            0x2A_000002_00000002,
            0x2D_000000_00000000,
        ],
        "",
        "",
        "1,",
    );
    let program = linked_expression(rt.alloc(), row.0)?.or(Err("a program"))?;
    check_program(&rt, rt.alloc(), &program, &row)?;
    match linked_expression(rt.alloc(), "(concat id to)")? {
        Ok(_) => assert!(rt; false),
        Err(fault) => assert!(rt; is_unknown(&fault, "to", Kind::Local, 0)),
    }
    Ok(())
}
