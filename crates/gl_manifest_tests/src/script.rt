// Scripts, each with what is read of it.
use gl_ast::{Expr, Lit, NamedExpr};
use gl_meaning::{Actions, Class, Event, Events, Fields, Getters, Script};
use gl_script::{ScriptFault, read};
use gl_value::{Text, Value};
use std::alloc::Global;
use std::process::Abort;
use std::test::Fail;

// A root with the field `n` and the getter `g`.
fn root(alloc: Global) -> Result<Class, Fail> {
    let mut fields = Fields::new(alloc);
    fields.push(Text::from_str(alloc, "n")?, Value::Int(0))?;
    let mut getters = Getters::new(alloc);
    getters.push(NamedExpr {
        name: Text::from_str(alloc, "g")?,
        value: Expr::Lit(Lit::Null),
    })?;
    Ok(Class {
        name: Text::from_str(alloc, "App")?,
        file: Text::from_str(alloc, "app.hbs")?,
        fields,
        getters,
        actions: Actions::new(alloc),
        teardown: false,
    })
}

fn push_value(alloc: Global, value: &Value, out: &mut Text) -> Result<(), Fail> {
    let text = value.text_of(alloc)?;
    out.push_text(&text)?;
    Ok(())
}

// An event that is no batch, as text.
fn push_simple(alloc: Global, event: &Event, out: &mut Text) -> Result<(), Fail> {
    match event {
        Event::Set { field, to } => {
            out.push_ascii("set ")?;
            out.push_text(field)?;
            out.push_ascii(" ")?;
            push_value(alloc, to, out)?;
        }
        Event::Fire {
            node,
            name,
            payload,
        } => {
            out.push_ascii("fire ")?;
            out.push_number(u128::from(*node))?;
            out.push_ascii(" ")?;
            out.push_text(name)?;
            out.push_ascii(" ")?;
            push_value(alloc, payload, out)?;
        }
        Event::Batch(_) => out.push_ascii("batch")?,
    }
    out.push_ascii(";")?;
    Ok(())
}

fn push_batch(alloc: Global, events: &Events, out: &mut Text) -> Result<(), Fail> {
    out.push_ascii("(")?;
    for event in events.as_slice() {
        push_simple(alloc, event, out)?;
    }
    out.push_ascii(")")?;
    Ok(())
}

fn push_script(alloc: Global, script: &Script, out: &mut Text) -> Result<(), Fail> {
    for event in script.events.as_slice() {
        match event {
            Event::Batch(events) => push_batch(alloc, events, out)?,
            other => push_simple(alloc, other, out)?,
        }
    }
    Ok(())
}

fn push_fault(fault: &ScriptFault, out: &mut Text) -> Result<(), Fail> {
    match fault {
        ScriptFault::BadJson => out.push_ascii("not JSON")?,
        ScriptFault::BadShape { pointer } => {
            out.push_ascii("at ")?;
            out.push_text(pointer)?;
        }
        ScriptFault::UnknownName { index, name } => {
            out.push_number(u128::from(*index))?;
            out.push_ascii(" unknown ")?;
            out.push_text(name)?;
        }
        ScriptFault::Memory => out.push_ascii("out of memory")?,
    }
    Ok(())
}

fn read_script(alloc: Global, bytes: &[u8]) -> Result<Result<Script, ScriptFault>, Fail> {
    let root = root(alloc)?;
    Ok(read(alloc, bytes, &root))
}

fn push_read(
    alloc: Global,
    found: &Result<Script, ScriptFault>,
    out: &mut Text,
) -> Result<(), Fail> {
    match found {
        Ok(script) => push_script(alloc, script, out),
        Err(fault) => push_fault(fault, out),
    }
}

// What is told of a script, or of why it is none.
fn told(alloc: Global, bytes: &[u8]) -> Result<Text, Fail> {
    let found = read_script(alloc, bytes)?;
    let mut out = Text::new(alloc);
    push_read(alloc, &found, &mut out)?;
    Ok(out)
}

fn check_row(rt: &impl Abort, alloc: Global, bytes: &[u8], wanted: &str) -> Result<(), Fail> {
    let told = told(alloc, bytes)?;
    assert_eq!(rt; told.as_str(), wanted);
    Ok(())
}

fn check_rows(rt: &impl Abort, alloc: Global, rows: &[(&str, &str)]) -> Result<(), Fail> {
    for row in rows {
        check_row(rt, alloc, row.0.as_bytes(), row.1)?;
    }
    Ok(())
}

static SCRIPTS: [(&str, &str); 5] = [
    ("[]", ""),
    (
        " [ {\"to\": 1, \"set\": \"n\"}, {\"batch\": []} ] ",
        "set n 1;()",
    ),
    (
        "[{\"fire\":9007199254740991,\"event\":\"\"},{\"data\":\"\\u00e9\",\"fire\":1,\"event\":\"x\"}]",
        "fire 9007199254740991  ;fire 1 x \u{e9};",
    ),
    (
        "[{\"batch\":[{\"set\":\"n\",\"to\":-9007199254740991},{\"fire\":2,\"event\":\"click\"}]}]",
        "(set n -9007199254740991;fire 2 click ;)",
    ),
    ("[{\"set\":\"g\",\"set\":\"n\",\"to\":true}]", "set n true;"),
];

#[test]
fn scripts(rt: HostRuntime) -> Result<(), Fail> {
    check_rows(&rt, rt.alloc(), &SCRIPTS)
}

#[test]
fn not_json(rt: HostRuntime) -> Result<(), Fail> {
    let rows: [&[u8]; 5] = [
        b"",
        b"[{\"set\":\"n\",\"to\":1}",
        b"[1e999]",
        b"[] x",
        b"[\"\xff\"]",
    ];
    for row in &rows {
        check_row(&rt, rt.alloc(), row, "not JSON")?;
    }
    Ok(())
}

static FAULTY_EVENTS: [(&str, &str); 8] = [
    ("{\"set\":\"n\",\"to\":1}", "at "),
    ("[1]", "at /0"),
    ("[{}]", "at /0"),
    ("[{\"set\":\"n\"}]", "at /0"),
    ("[{\"set\":\"n\",\"to\":1,\"by\":2}]", "at /0"),
    ("[{\"batch\":[],\"fire\":0,\"event\":\"x\"}]", "at /0"),
    ("[{\"fire\":1,\"event\":\"x\",\"date\":1}]", "at /0"),
    (
        "[{\"batch\":[{\"set\":\"n\",\"to\":1},{\"batch\":[]}]}]",
        "at /0/batch/1",
    ),
];

#[test]
fn faulty_events(rt: HostRuntime) -> Result<(), Fail> {
    check_rows(&rt, rt.alloc(), &FAULTY_EVENTS)
}

static FAULTY_MEMBERS: [(&str, &str); 8] = [
    ("[{\"fire\":0,\"event\":\"x\"}]", "at /0/fire"),
    (
        "[{\"fire\":9007199254740992,\"event\":\"x\"}]",
        "at /0/fire",
    ),
    ("[{\"fire\":1.0,\"event\":\"x\"}]", "at /0/fire"),
    ("[{\"fire\":0,\"event\":1,\"data\":null}]", "at /0/event"),
    ("[{\"fire\":0,\"event\":1,\"data\":[0.5]}]", "at /0/data"),
    ("[{\"set\":1,\"to\":1.5}]", "at /0/set"),
    ("[{\"set\":\"x\",\"to\":[1,-9007199254740992]}]", "at /0/to"),
    ("[{\"batch\":[]},{\"batch\":{}}]", "at /1/batch"),
];

#[test]
fn faulty_members(rt: HostRuntime) -> Result<(), Fail> {
    check_rows(&rt, rt.alloc(), &FAULTY_MEMBERS)
}

static UNKNOWN_FIELDS: [(&str, &str); 4] = [
    ("[{\"set\":\"m\",\"to\":1}]", "0 unknown m"),
    (
        "[{\"set\":\"n\",\"to\":1},{\"set\":\"g\",\"to\":1},{\"set\":\"h\",\"to\":1}]",
        "1 unknown g",
    ),
    (
        "[{\"fire\":1,\"event\":\"m\"},{\"batch\":[{\"set\":\"n\",\"to\":1},{\"set\":\"\",\"to\":1}]},{\"set\":\"g\",\"to\":1}]",
        "1 unknown ",
    ),
    (
        "[{\"set\":\"m\",\"to\":1},{\"fire\":0,\"event\":\"x\"}]",
        "at /1/fire",
    ),
];

#[test]
fn unknown_fields(rt: HostRuntime) -> Result<(), Fail> {
    check_rows(&rt, rt.alloc(), &UNKNOWN_FIELDS)
}

// A value that is nested so deep, in a set.
fn nested(alloc: Global, depth: usize) -> Result<Text, Fail> {
    let mut out = Text::new(alloc);
    out.push_ascii("[{\"set\":\"n\",\"to\":")?;
    for _ in 0..depth {
        out.push_ascii("[")?;
    }
    for _ in 0..depth {
        out.push_ascii("]")?;
    }
    out.push_ascii("}]")?;
    Ok(out)
}

#[test]
fn deep_values(rt: HostRuntime) -> Result<(), Fail> {
    let rows = [
        (1, "set n ;"),
        (100, "set n ;"),
        (101, "at /0/to"),
        (125, "at /0/to"),
        (126, "not JSON"),
    ];
    for row in &rows {
        let bytes = nested(rt.alloc(), row.0)?;
        check_row(&rt, rt.alloc(), bytes.as_str().as_bytes(), row.1)?;
    }
    Ok(())
}
