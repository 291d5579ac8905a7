// Applications and scripts, each loaded or with its first refusal.
use gl_load::{LoadCause, Loaded, load};
use gl_meaning::Kind;
use gl_outside::{CalmShelf, File, Files};
use std::alloc::{AllocError, Global};
use std::process::Abort;
use std::test::Fail;

// What it shows, the manifest, the template (none where it is `-`), the script, and the file and the cause of the refusal, or
// two empty texts.
type Row = (
    &'static str,
    &'static str,
    &'static str,
    &'static str,
    &'static str,
    &'static str,
);

const PLAIN: &str =
    "{\"classes\":{\"App\":{\"fields\":{\"n\":0},\"template\":\"app.hbs\"}},\"root\":\"App\"}";

const CYCLIC: &str =
    "{\"classes\":{\"App\":{\"getters\":{\"a\":\"this.a\"},\"template\":\"app.hbs\"}},\"root\":\"App\"}";

const SETS: &str = "[{\"set\":\"n\",\"to\":1}]";

static ROWS: [Row; 7] = [
    ("all is right", PLAIN, "a", SETS, "", ""),
    ("no template", PLAIN, "-", SETS, "app.hbs", "absent"),
    ("no JSON", "{", "-", SETS, "m.json", "not JSON"),
    (
        "a template before the cycles",
        CYCLIC,
        "<p>",
        SETS,
        "app.hbs",
        "grammar",
    ),
    (
        "the cycles before the script",
        CYCLIC,
        "a",
        "[",
        "m.json",
        "cycle",
    ),
    (
        "no JSON in the script",
        PLAIN,
        "a",
        "[",
        "s.json",
        "not JSON",
    ),
    (
        "no such field",
        PLAIN,
        "a",
        "[{\"set\":\"m\",\"to\":1}]",
        "s.json",
        "field",
    ),
];

// The manifests of the rows on names.
const NO_ROOT: &str = "{\"classes\":{\"App\":{\"template\":\"app.hbs\"}},\"root\":\"Other\"}";

const UNKNOWN_GETTER: &str =
    "{\"classes\":{\"App\":{\"actions\":{\"a\":{\"do\":[{\"set\":\"m\",\"to\":\"1\"}]}},\"getters\":{\"g\":\"this.m\"},\"template\":\"app.hbs\"}},\"root\":\"App\"}";

const UNKNOWN_FIELD: &str =
    "{\"classes\":{\"App\":{\"actions\":{\"a\":{\"do\":[{\"set\":\"m\",\"to\":\"this.m\",\"when\":\"p\"}],\"params\":[\"p\"]}},\"template\":\"app.hbs\"}},\"root\":\"App\"}";

const CYCLIC_AND_UNKNOWN: &str =
    "{\"classes\":{\"App\":{\"getters\":{\"a\":\"this.a\",\"b\":\"this.m\"},\"template\":\"app.hbs\"}},\"root\":\"App\"}";

static NAMES: [Row; 8] = [
    (
        "the root before a template",
        NO_ROOT,
        "{{nope}}",
        "[",
        "m.json",
        "component",
    ),
    (
        "a template before a getter",
        UNKNOWN_GETTER,
        "{{nope}}",
        "[",
        "app.hbs",
        "helper",
    ),
    (
        "a getter before an action",
        UNKNOWN_GETTER,
        "a",
        "[",
        "m.json",
        "member",
    ),
    (
        "a field before its value",
        UNKNOWN_FIELD,
        "a",
        "[",
        "m.json",
        "unknown field",
    ),
    (
        "names before cycles",
        CYCLIC_AND_UNKNOWN,
        "a",
        "[",
        "m.json",
        "member",
    ),
    (
        "no block parameter",
        PLAIN,
        "{{#if nope}}a{{/if}}",
        "[",
        "app.hbs",
        "local",
    ),
    (
        "no modifier",
        PLAIN,
        "<p {{nope}}></p>",
        "[",
        "app.hbs",
        "modifier",
    ),
    ("no class", PLAIN, "<Nope />", "[", "app.hbs", "component"),
];

fn push_file(alloc: Global, files: &mut Files, name: &str, bytes: &str) -> Result<(), AllocError> {
    if bytes == "-" {
        return Ok(());
    }
    files.push(File::new(
        String::from_str(alloc, name)?,
        bytes.as_bytes().to_vec(alloc)?,
    ))
}

fn word_of_kind(kind: Kind) -> &'static str {
    match kind {
        Kind::Component => "component",
        Kind::Helper => "helper",
        Kind::Modifier => "modifier",
        Kind::Member => "member",
        Kind::Local => "local",
        Kind::Field => "unknown field",
    }
}

fn word_of(cause: &LoadCause) -> &'static str {
    match cause {
        LoadCause::Absent => "absent",
        LoadCause::BadJson => "not JSON",
        LoadCause::NotInGrammar { offset: _ } => "grammar",
        LoadCause::UnknownName { kind, name: _ } => word_of_kind(*kind),
        LoadCause::GetterCycle {
            class: _,
            getter: _,
        } => "cycle",
        LoadCause::UnknownField { index: _, name: _ } => "field",
        _ => "another",
    }
}

fn check_row(rt: &impl Abort, alloc: Global, row: &Row) -> Result<(), Fail> {
    let (what, manifest, template, script, file, cause) = row;
    let mut files = Files::new(alloc);
    push_file(alloc, &mut files, "m.json", manifest)?;
    push_file(alloc, &mut files, "app.hbs", template)?;
    push_file(alloc, &mut files, "s.json", script)?;
    let mut shelf = CalmShelf::new(files);
    match load(alloc, &mut shelf, "m.json", "s.json") {
        Ok(_) => {
            assert_eq!(rt; "", *file, "{}", what);
        }
        Err(fault) => {
            assert_eq!(rt; fault.file.as_str(), *file, "{}", what);
            assert_eq!(rt; word_of(&fault.cause), *cause, "{}", what);
        }
    }
    Ok(())
}

#[test]
fn rows(rt: HostRuntime) -> Result<(), Fail> {
    for row in &ROWS {
        check_row(&rt, rt.alloc(), row)?;
    }
    Ok(())
}

#[test]
fn names(rt: HostRuntime) -> Result<(), Fail> {
    for row in &NAMES {
        check_row(&rt, rt.alloc(), row)?;
    }
    Ok(())
}

// A class with two getters, and with an action of two steps that have four expressions.
const FULL: &str =
    "{\"classes\":{\"App\":{\"actions\":{\"a\":{\"do\":[{\"set\":\"n\",\"to\":\"p\",\"when\":\"p\"},{\"call\":\"@f\",\"with\":[\"p\",\"this.g\"]}],\"params\":[\"p\"]}},\"fields\":{\"n\":0},\"getters\":{\"g\":\"this.n\",\"h\":\"1\"},\"template\":\"app.hbs\"}},\"root\":\"App\"}";

// How many programs the getters and the actions of the first class have.
fn counts_of_programs(loaded: &Loaded) -> (usize, usize) {
    match loaded.app.programs().get(0) {
        Some(class) => (class.getters.len(), class.actions.len()),
        None => (0, 0),
    }
}

#[test]
fn programs(rt: HostRuntime) -> Result<(), Fail> {
    let mut files = Files::new(rt.alloc());
    push_file(rt.alloc(), &mut files, "m.json", FULL)?;
    push_file(rt.alloc(), &mut files, "app.hbs", "{{this.h}}")?;
    push_file(rt.alloc(), &mut files, "s.json", SETS)?;
    let mut shelf = CalmShelf::new(files);
    let (getters, actions) = match load(rt.alloc(), &mut shelf, "m.json", "s.json") {
        Ok(loaded) => counts_of_programs(&loaded),
        Err(_) => (0, 0),
    };
    assert_eq!(&rt; getters, 2);
    assert_eq!(&rt; actions, 4);
    Ok(())
}
