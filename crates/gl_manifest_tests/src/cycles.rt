// Manifests, each with the getter that reaches itself first.
ghost use Rattle.std.specs.Prelude.{IsTrue};
ghost use Rattle.gl_meaning.specs.ManifestRules.{Each, ClassKeeps, KeepsLimits};
ghost use Rattle.gl_meaning.specs.View.{manifest_view, seen_classes};

use gl_ast::{Expr, Exprs, Lit, NamedExpr, Pairs};
use gl_cycles::cycle;
use gl_meaning::{Actions, Class, Classes, Fields, Getters, Manifest};
use gl_value::{Text, Texts};
use std::alloc::Global;
use std::process::Abort;
use std::test::Fail;

// A getter's name, with a sign for the form of its expression, and the members that this mentions.
type Row = (&'static str, &'static str, &'static str);

fn member(alloc: Global, name: &str) -> Result<Expr, Fail> {
    Ok(Expr::This {
        member: Text::from_str(alloc, name)?,
        rest: Texts::new(alloc),
    })
}

// A call's arguments: false, and then the members.
fn args(alloc: Global, names: &str) -> Result<Exprs, Fail> {
    let mut args = Exprs::new(alloc);
    args.push(Expr::Lit(Lit::Bool(false)))?;
    for name in names.split(' ') {
        args.push(member(alloc, name)?)?;
    }
    Ok(args)
}

fn call(alloc: Global, args: Exprs, named: Pairs) -> Result<Expr, Fail> {
    Ok(Expr::Call {
        name: Text::from_str(alloc, "if")?,
        args,
        named: Box::new(alloc, named)?,
    })
}

fn named(alloc: Global, name: &str) -> Result<Expr, Fail> {
    let mut pairs = Pairs::new(alloc);
    pairs.push(NamedExpr {
        name: Text::from_str(alloc, name)?,
        value: member(alloc, name)?,
    })?;
    call(alloc, Exprs::new(alloc), pairs)
}

// A call of a call of the members.
fn nested(alloc: Global, names: &str) -> Result<Expr, Fail> {
    let inner = call(alloc, args(alloc, names)?, Pairs::new(alloc))?;
    let mut outer = Exprs::new(alloc);
    outer.push(inner)?;
    call(alloc, outer, Pairs::new(alloc))
}

fn expr(alloc: Global, form: &str, names: &str) -> Result<Expr, Fail> {
    match form {
        "this" => member(alloc, names),
        "call" => call(alloc, args(alloc, names)?, Pairs::new(alloc)),
        "named" => named(alloc, names),
        "nested" => nested(alloc, names),
        "cat" => Ok(Expr::Cat(args(alloc, names)?)),
        "bare" => Ok(Expr::Bare {
            name: Text::from_str(alloc, names)?,
            rest: Texts::new(alloc),
        }),
        _ => Ok(Expr::Lit(Lit::Null)),
    }
}

fn getters(alloc: Global, rows: &[Row]) -> Result<Getters, Fail> {
    let mut getters = Getters::new(alloc);
    for row in rows {
        getters.push(NamedExpr {
            name: Text::from_str(alloc, row.0)?,
            value: expr(alloc, row.1, row.2)?,
        })?;
    }
    Ok(getters)
}

fn class(alloc: Global, name: Text, getters: Getters) -> Result<Class, Fail> {
    Ok(Class {
        name,
        file: Text::from_str(alloc, "a.hbs")?,
        fields: Fields::new(alloc),
        getters,
        actions: Actions::new(alloc),
        teardown: false,
    })
}

// Whether the classes keep the limits; none of them has actions here.
fn classes_keep(classes: &[Class]) -> bool
    ensures { IsTrue result → Each ClassKeeps (seen_classes classes.now) }
{
    for class in classes {
        if class.fields.len() > 256 || class.getters.len() > 32 || !class.actions.is_empty() {
            return false;
        }
    }
    true
}

fn keeps_limits(manifest: &Manifest) -> bool
    ensures { IsTrue result → KeepsLimits (manifest_view manifest.now) }
{
    0 < manifest.limit
        && manifest.limit <= 64
        && manifest.modifiers.len() <= 1024
        && manifest.classes.len() <= 1024
        && classes_keep(manifest.classes.as_slice())
}

fn manifest(alloc: Global, classes: Vec<Class>) -> Result<Manifest, Fail> {
    Ok(Manifest {
        root: Text::from_str(alloc, "App")?,
        limit: 16,
        modifiers: Texts::new(alloc),
        classes: Classes::from_vec(classes),
    })
}

fn check_found(rt: &impl Abort, found: Option<(&Text, &Text)>, wanted: (&str, &str)) {
    match found {
        Some((class, getter)) => {
            assert_eq!(rt; class.as_str(), wanted.0);
            assert_eq!(rt; getter.as_str(), wanted.1);
        }
        None => assert_eq!(rt; "", wanted.0),
    }
}

fn check_manifest(rt: &impl Abort, manifest: &Manifest, wanted: (&str, &str)) {
    if !keeps_limits(manifest) {
        assert!(rt; false);
        return;
    }
    check_found(rt, cycle(manifest), wanted);
}

fn check(
    rt: &impl Abort,
    alloc: Global,
    classes: Vec<Class>,
    wanted: (&str, &str),
) -> Result<(), Fail> {
    let manifest = manifest(alloc, classes)?;
    check_manifest(rt, &manifest, wanted);
    Ok(())
}

fn with_getters(alloc: Global, name: &str, rows: &[Row]) -> Result<Class, Fail> {
    let getters = getters(alloc, rows)?;
    class(alloc, Text::from_str(alloc, name)?, getters)
}

// A class `App` and a class `Kid` with these getters.
fn classes(alloc: Global, app: &[Row], kid: &[Row]) -> Result<Vec<Class>, Fail> {
    let mut classes = Vec::new(alloc);
    classes.push(with_getters(alloc, "App", app)?)?;
    classes.push(with_getters(alloc, "Kid", kid)?)?;
    Ok(classes)
}

fn check_row(
    rt: &impl Abort,
    alloc: Global,
    app: &[Row],
    kid: &[Row],
    wanted: (&str, &str),
) -> Result<(), Fail> {
    let classes = classes(alloc, app, kid)?;
    check(rt, alloc, classes, wanted)
}

// The getters of the first class, and the first that reaches itself; that of the second class does so too.
static IN_THE_FIRST: [(&[Row], &str); 6] = [
    (&[("a", "this", "b"), ("b", "this", "a")], "a"),
    (&[("c", "call", "c 1")], "c"),
    (&[("a", "null", ""), ("b", "nested", "b")], "b"),
    (&[("a", "this", "b"), ("b", "named", "b")], "b"),
    (&[("a", "cat", "x c"), ("c", "cat", "a")], "a"),
    (
        &[
            ("a", "this", "c"),
            ("b", "this", "d"),
            ("c", "this", "x"),
            ("d", "call", "a b"),
        ],
        "b",
    ),
];

const OF_ITSELF: &[Row] = &[("a", "this", "a")];

#[test]
fn cycles_in_the_first_class(rt: HostRuntime) -> Result<(), Fail> {
    for row in &IN_THE_FIRST {
        check_row(&rt, rt.alloc(), row.0, OF_ITSELF, ("App", row.1))?;
    }
    Ok(())
}

// The getters of the second class, and what is found; no getter of the first reaches itself.
static IN_A_LATER: [(&[Row], &str, &str); 4] = [
    (&[("a", "this", "b"), ("b", "this", "a")], "Kid", "a"),
    (&[("a", "this", "b"), ("b", "this", "c")], "", ""),
    (&[("a", "bare", "a")], "", ""),
    (&[], "", ""),
];

const OF_NONE: &[Row] = &[("a", "this", "b"), ("b", "null", "")];

#[test]
fn cycles_in_a_later_class(rt: HostRuntime) -> Result<(), Fail> {
    for row in &IN_A_LATER {
        check_row(&rt, rt.alloc(), OF_NONE, row.0, (row.1, row.2))?;
    }
    Ok(())
}

fn letter(alloc: Global, place: u8) -> Result<Text, Fail> {
    let mut name = Text::new(alloc);
    name.push_char(char::from(65 + place % 32))?;
    Ok(name)
}

// As many getters as a class may have, each of which mentions the next; the last mentions the first, or nothing.
fn chain(alloc: Global, closed: bool) -> Result<Getters, Fail> {
    let mut getters = Getters::new(alloc);
    for place in 0..31 {
        getters.push(NamedExpr {
            name: letter(alloc, place)?,
            value: Expr::This {
                member: letter(alloc, place + 1)?,
                rest: Texts::new(alloc),
            },
        })?;
    }
    let form = if closed { "this" } else { "null" };
    getters.push(NamedExpr {
        name: letter(alloc, 31)?,
        value: expr(alloc, form, "A")?,
    })?;
    Ok(getters)
}

fn numbered(alloc: Global, place: u32) -> Result<Class, Fail> {
    let mut name = Text::new(alloc);
    name.push_number(u128::from(place))?;
    class(alloc, name, chain(alloc, place == 1023)?)
}

// As many classes as there may be.
#[test]
fn largest(rt: HostRuntime) -> Result<(), Fail> {
    let mut classes = Vec::new(rt.alloc());
    for place in 0..1024u32 {
        classes.push(numbered(rt.alloc(), place)?)?;
    }
    check(&rt, rt.alloc(), classes, ("1023", "A"))
}
