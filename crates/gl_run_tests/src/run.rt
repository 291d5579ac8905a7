// Worked rows, over shelves and sinks in memory.
use gl_outside::{
    Calls, CalmShelf, CalmSink, Cut, Cuts, File, Files, MemShelf, MemSink, Shelf, Sink,
};
use gl_run::{Last, Status, run};
use std::alloc::{AllocError, Global};
use std::process::Abort;
use std::test::Fail;

// What it shows, the words, the three files (a file without text is not there), the status, `out` and `err`.
type Row = (
    &'static str,
    &'static [&'static str],
    [&'static str; 3],
    Status,
    &'static str,
    &'static str,
);

const RUN: &[&str] = &["run", "m.json", "s.json"];

const ONE: &str =
    "{\"classes\":{\"App\":{\"fields\":{\"n\":0},\"template\":\"app.hbs\"}},\"root\":\"App\"}";

const NONE: &str =
    "{\"classes\":{\"App\":{\"fields\":{},\"template\":\"app.hbs\"}},\"root\":\"App\"}";

const NULL: &str =
    "{\"classes\":{\"App\":{\"fields\":{\"n\":null},\"template\":\"app.hbs\"}},\"root\":\"App\"}";

const NESTED: &str =
    "{\"classes\":{\"My::App2\":{\"fields\":{\"n\":\"\\u0007\\\"\"},\"template\":\"app.hbs\"}},\"root\":\"My::App2\"}";

static ROWS: [Row; 20] = [
    (
        "an empty page",
        RUN,
        [NONE, "", "[]"],
        Status::Done,
        "= 0 start\n",
        "",
    ),
    (
        "the greatest integer",
        RUN,
        [
            ONE,
            "<p>{{this.n}}</p>",
            "[{\"set\":\"n\",\"to\":9007199254740991}]",
        ],
        Status::Done,
        "= 0 start\n#1 <p>\n  #2 \"0\"\n= 1 set n\n#1 <p>\n  #2 \"9007199254740991\"\n",
        "",
    ),
    (
        "null shows nothing",
        RUN,
        [NULL, "a<p></p>{{this.n}}", "[{\"set\":\"n\",\"to\":\"x\"}]"],
        Status::Done,
        "= 0 start\n#1 \"a\"\n#2 <p>\n#3 \"\"\n= 1 set n\n#1 \"a\"\n#2 <p>\n#3 \"x\"\n",
        "",
    ),
    (
        "two parts of a class name",
        RUN,
        [NESTED, "{{this.n}}", "[]"],
        Status::Done,
        "= 0 start\n#1 \"\\u{7}\\\"\"\n",
        "",
    ),
    (
        "a helper",
        RUN,
        [NONE, "{{nope}}", "[]"],
        Status::Refused,
        "",
        "\"app.hbs\": unknown helper \"nope\"\n",
    ),
    (
        "no such field",
        RUN,
        [ONE, "{{this.m}}", "[]"],
        Status::Refused,
        "",
        "\"app.hbs\": unknown member \"m\"\n",
    ),
    (
        "an end tag of another",
        RUN,
        [ONE, "<p></b>", "[]"],
        Status::Refused,
        "",
        "\"app.hbs\": not in the grammar at byte 3\n",
    ),
    (
        "a void tag with an end tag",
        RUN,
        [ONE, "12345678<br></br>", "[]"],
        Status::Refused,
        "",
        "\"app.hbs\": not in the grammar at byte 12\n",
    ),
    (
        "elements in elements",
        RUN,
        [
            ONE,
            "<ul>\n  <li><b>{{~this.n~}} </b>&lt;</li><br></ul>",
            "[]",
        ],
        Status::Done,
        "= 0 start\n#1 <ul>\n  #2 \"\\n  \"\n  #3 <li>\n    #4 <b>\n      #5 \"0\"\n    #6 \"<\"\n  #7 <br>\n",
        "",
    ),
    (
        "an attribute",
        RUN,
        [ONE, "<p title=\"a\"></p>", "[]"],
        Status::Done,
        "= 0 start\n#1 <p title=\"a\">\n",
        "",
    ),
    (
        "a property of a field",
        RUN,
        [ONE, "{{this.n.length}}", "[]"],
        Status::Done,
        "= 0 start\n#1 \"\"\n",
        "",
    ),
    (
        "the sample of one row",
        &["sample", "1"],
        ["", "", ""],
        Status::Done,
        "turns 17 bytes 1509 last 81\n",
        "",
    ),
    (
        "no number of rows",
        &["sample", "01"],
        ["", "", ""],
        Status::Usage,
        "",
        "bad command line\n",
    ),
    (
        "an integer too large",
        RUN,
        [ONE, "", "[{\"set\":\"n\",\"to\":9007199254740992}]"],
        Status::Refused,
        "",
        "\"s.json\": bad shape at \"/0/to\"\n",
    ),
    (
        "an unknown field is set",
        RUN,
        [ONE, "", "[{\"set\":\"m\",\"to\":1}]"],
        Status::Refused,
        "",
        "\"s.json\": event 0: unknown field \"m\"\n",
    ),
    (
        "no manifest",
        RUN,
        ["", "", ""],
        Status::Refused,
        "",
        "\"m.json\": absent\n",
    ),
    (
        "a name that is quoted",
        &["run", "a\"\u{1f}\u{e9}\n", "s.json"],
        ["", "", ""],
        Status::Refused,
        "",
        "\"a\\\"\\u{1f}\u{e9}\\n\": absent\n",
    ),
    (
        "the work of no script",
        &["work", "m.json"],
        [ONE, "", "[]"],
        Status::Usage,
        "",
        "bad command line\n",
    ),
    (
        "the work of too many words",
        &["work", "m.json", "s.json", "app.hbs"],
        [ONE, "", "[]"],
        Status::Usage,
        "",
        "bad command line\n",
    ),
    (
        "no such command",
        &["go", "m.json", "s.json"],
        [ONE, "", "[]"],
        Status::Usage,
        "",
        "bad command line\n",
    ),
];

fn file(alloc: Global, name: &str, bytes: &str) -> Result<File, AllocError> {
    Ok(File::new(
        String::from_str(alloc, name)?,
        bytes.as_bytes().to_vec(alloc)?,
    ))
}

fn files_of(alloc: Global, texts: &[&str; 3]) -> Result<Files, AllocError> {
    let [manifest, template, script] = texts;
    let mut files = Files::new(alloc);
    if !manifest.is_empty() {
        files.push(file(alloc, "m.json", manifest)?)?;
        files.push(file(alloc, "app.hbs", template)?)?;
        files.push(file(alloc, "s.json", script)?)?;
    }
    Ok(files)
}

// The status of the words. What is left behind is dropped.
fn status_of<S: Shelf, K: Sink, E: Sink>(
    alloc: Global,
    words: &[&str],
    shelf: &mut S,
    out: &mut K,
    err: &mut E,
) -> Status {
    let mut last = Last::new();
    run(alloc, words, shelf, out, err, &mut last)
}

fn check_row(rt: &impl Abort, alloc: Global, row: &Row) -> Result<(), Fail> {
    let (what, words, texts, wanted, written, line) = row;
    let mut shelf = CalmShelf::new(files_of(alloc, texts)?);
    let mut out = CalmSink::new(alloc);
    let mut err = CalmSink::new(alloc);
    let status = status_of(alloc, words, &mut shelf, &mut out, &mut err);
    assert_eq!(rt; status, *wanted, "{}", what);
    assert_eq!(rt; out.taken(), written.as_bytes(), "{}", what);
    assert_eq!(rt; err.taken(), line.as_bytes(), "{}", what);
    Ok(())
}

#[test]
fn rows(rt: HostRuntime) -> Result<(), Fail> {
    for row in &ROWS {
        check_row(&rt, rt.alloc(), row)?;
    }
    Ok(())
}

// Manifests with faults.
const OF_TWO: &str =
    "{\"classes\":{\"App\":{\"getters\":{\"a\":\"this.b\",\"b\":\"this.a\"},\"template\":\"app.hbs\"}},\"root\":\"App\"}";

const UNTAKEN: &str =
    "{\"classes\":{\"App\":{\"getters\":{\"c\":\"(if false this.c 1)\"},\"template\":\"app.hbs\"}},\"root\":\"App\"}";

const BAD_GETTER: &str =
    "{\"classes\":{\"App\":{\"getters\":{\"g\":\"(add 1\"},\"template\":\"app.hbs\"}},\"root\":\"App\"}";

const BAD_MEMBER: &str =
    "{\"classes\":{\"App\":{\"template\":\"app.hbs\",\"x\":1}},\"root\":\"App\"}";

const NO_ROOT: &str = "{\"classes\":{\"App\":{\"template\":\"app.hbs\"}},\"root\":\"Other\"}";

const LISTS: &str =
    "{\"classes\":{\"App\":{\"fields\":{\"n\":[1,{\"a\":2},null]},\"template\":\"app.hbs\"}},\"root\":\"App\"}";

// What is refused of a manifest.
static MANIFESTS: [Row; 7] = [
    (
        "two getters that lead to each other",
        RUN,
        [OF_TWO, "", "[]"],
        Status::Refused,
        "",
        "\"m.json\": getter cycle through App.a\n",
    ),
    (
        "a cycle in an untaken branch",
        RUN,
        [UNTAKEN, "", "["],
        Status::Refused,
        "",
        "\"m.json\": getter cycle through App.c\n",
    ),
    (
        "a member that is none",
        RUN,
        [BAD_MEMBER, "a", "[]"],
        Status::Refused,
        "",
        "\"m.json\": bad shape at \"/classes/App/x\"\n",
    ),
    (
        "no classes",
        RUN,
        ["{\"root\":\"App\"}", "", "[]"],
        Status::Refused,
        "",
        "\"m.json\": bad shape at \"\"\n",
    ),
    (
        "a getter that spells no expression",
        RUN,
        [BAD_GETTER, "", "[]"],
        Status::Refused,
        "",
        "\"m.json\": bad expression at \"/classes/App/getters/g\"\n",
    ),
    (
        "no JSON",
        RUN,
        [" ", "", "[]"],
        Status::Refused,
        "",
        "\"m.json\": not JSON\n",
    ),
    (
        "a root that names no class",
        RUN,
        [NO_ROOT, "{{nope}}", "["],
        Status::Refused,
        "",
        "\"m.json\": unknown component \"Other\"\n",
    ),
];

#[test]
fn manifests(rt: HostRuntime) -> Result<(), Fail> {
    for row in &MANIFESTS {
        check_row(&rt, rt.alloc(), row)?;
    }
    Ok(())
}

const ACTION: &str =
    "{\"classes\":{\"App\":{\"actions\":{\"a\":{\"do\":[{\"set\":\"zz\",\"to\":\"this.y\",\"when\":\"this.a\"}]}},\"getters\":{\"g\":\"this.g\"},\"template\":\"app.hbs\"}},\"root\":\"App\"}";

const WHEN: &str =
    "{\"classes\":{\"App\":{\"actions\":{\"a\":{\"do\":[{\"call\":\"@f\",\"when\":\"(neither 1)\",\"with\":[\"this.y\"]}]}},\"template\":\"app.hbs\"}},\"root\":\"App\"}";

// Names that are not known: the first is told, with its file, before any cycle, and no script is fetched.
static NAMES: [Row; 8] = [
    (
        "a helper, without a script",
        &["run", "m.json", "none.json"],
        [NONE, "{{nope}}", ""],
        Status::Refused,
        "",
        "\"app.hbs\": unknown helper \"nope\"\n",
    ),
    (
        "a class",
        RUN,
        [NONE, "<App /><Nope {{tip}} @x={{y.z}} />", "["],
        Status::Refused,
        "",
        "\"app.hbs\": unknown component \"Nope\"\n",
    ),
    (
        "a modifier",
        RUN,
        [NONE, "<p {{on \"click\" @a}} {{tip this.x}}></p>", "["],
        Status::Refused,
        "",
        "\"app.hbs\": unknown modifier \"tip\"\n",
    ),
    (
        "a local",
        RUN,
        [ONE, "{{#let this.n as |x|}}{{x.y}}{{/let}}{{x.y}}", "["],
        Status::Refused,
        "",
        "\"app.hbs\": unknown local \"x\"\n",
    ),
    (
        "a field that a step sets",
        RUN,
        [ACTION, "a", "["],
        Status::Refused,
        "",
        "\"m.json\": unknown field \"zz\"\n",
    ),
    (
        "a template before a step",
        RUN,
        [ACTION, "{{this.q}}", "["],
        Status::Refused,
        "",
        "\"app.hbs\": unknown member \"q\"\n",
    ),
    (
        "a helper in a step",
        RUN,
        [WHEN, "", "["],
        Status::Refused,
        "",
        "\"m.json\": unknown helper \"neither\"\n",
    ),
    (
        "a cycle after all names",
        RUN,
        [OF_TWO, "{{this.a}}", "["],
        Status::Refused,
        "",
        "\"m.json\": getter cycle through App.a\n",
    ),
];

#[test]
fn names(rt: HostRuntime) -> Result<(), Fail> {
    for row in &NAMES {
        check_row(&rt, rt.alloc(), row)?;
    }
    Ok(())
}

const TODO: &str =
    "{\"classes\":{\"App\":{\"fields\":{\"s\":true},\"template\":\"app.hbs\"},\"Kid\":{\"actions\":{\"inc\":{\"do\":[{\"set\":\"c\",\"to\":\"(add this.c 1)\"}]}},\"fields\":{\"c\":0},\"teardown\":true,\"template\":\"s.json\"}},\"root\":\"App\"}";

const CHECK: &[&str] = &["check", "m.json"];

// An application that is checked; the second class has the third file as its template.
static CHECKED: [Row; 4] = [
    (
        "two classes",
        CHECK,
        [
            TODO,
            "{{#if this.s}}<Kid />{{/if}}",
            "<b {{on \"click\" this.inc}}>{{this.c}}</b>",
        ],
        Status::Done,
        "classes 2\n",
        "",
    ),
    (
        "a name that is not known",
        CHECK,
        [TODO, "<Kid />", "{{this.s}}"],
        Status::Refused,
        "",
        "\"s.json\": unknown member \"s\"\n",
    ),
    (
        "a cycle",
        CHECK,
        [OF_TWO, "", ""],
        Status::Refused,
        "",
        "\"m.json\": getter cycle through App.a\n",
    ),
    (
        "a word too many",
        &["check", "m.json", "s.json"],
        [TODO, "", ""],
        Status::Usage,
        "",
        "bad command line\n",
    ),
];

#[test]
fn checked(rt: HostRuntime) -> Result<(), Fail> {
    for row in &CHECKED {
        check_row(&rt, rt.alloc(), row)?;
    }
    Ok(())
}

// What is refused of a script, and values that are lists and records.
static SCRIPTS: [Row; 5] = [
    (
        "a list of values",
        RUN,
        [LISTS, "{{this.n}}", "[{\"set\":\"n\",\"to\":{\"a\":[]}}]"],
        Status::Done,
        "= 0 start\n#1 \"1,[object Object],\"\n= 1 set n\n#1 \"[object Object]\"\n",
        "",
    ),
    (
        "a node with the number 0",
        RUN,
        [ONE, "", "[{\"fire\":0,\"event\":\"x\"}]"],
        Status::Refused,
        "",
        "\"s.json\": bad shape at \"/0/fire\"\n",
    ),
    (
        "no JSON",
        RUN,
        [ONE, "", "["],
        Status::Refused,
        "",
        "\"s.json\": not JSON\n",
    ),
    (
        "the second event sets what is no field",
        RUN,
        [
            ONE,
            "",
            "[{\"set\":\"n\",\"to\":1},{\"set\":\"zz\",\"to\":1},{\"set\":\"y\",\"to\":1}]",
        ],
        Status::Refused,
        "",
        "\"s.json\": event 1: unknown field \"zz\"\n",
    ),
    (
        "events at once",
        RUN,
        [ONE, "", "[{\"batch\":[{\"set\":\"n\",\"to\":1}]}]"],
        Status::Done,
        "= 0 start\n= 1 batch 1\n",
        "",
    ),
];

#[test]
fn scripts(rt: HostRuntime) -> Result<(), Fail> {
    for row in &SCRIPTS {
        check_row(&rt, rt.alloc(), row)?;
    }
    Ok(())
}

const SHOW: &[&str] = &["show", "app.hbs"];

static SHOWN: [Row; 6] = [
    (
        "numbers are spelled plainly",
        SHOW,
        [NONE, "{{#unless @a}}{{add 007 -0}}{{/unless}}", ""],
        Status::Done,
        "{{#unless @a}}{{add 7 0}}{{/unless}}\n",
        "",
    ),
    (
        "a comment parts texts",
        SHOW,
        [NONE, "a{{! x }}b<br/>", ""],
        Status::Done,
        "a{{!}}b<br>\n",
        "",
    ),
    (
        "white space and branches",
        SHOW,
        [
            NONE,
            "<p  class = 'a'>\n  {{! c }}\n{{#if @x}}y{{else if @z}}w{{/if}}</p>",
            "",
        ],
        Status::Done,
        "<p class=\"a\">&#10;{{#if @x}}y{{else}}{{#if @z}}w{{/if}}{{/if}}</p>\n",
        "",
    ),
    (
        "nothing is spelled",
        SHOW,
        [NONE, "<p></b>", ""],
        Status::Refused,
        "",
        "\"app.hbs\": not in the grammar at byte 3\n",
    ),
    (
        "no template",
        SHOW,
        ["", "", ""],
        Status::Refused,
        "",
        "\"app.hbs\": absent\n",
    ),
    (
        "one word too many",
        &["show", "app.hbs", "s.json"],
        [NONE, "", ""],
        Status::Usage,
        "",
        "bad command line\n",
    ),
];

const WIRE: &[&str] = &["wire", "app.hbs"];

static WIRES: [Row; 4] = [
    (
        "an attribute with an argument",
        WIRE,
        [NONE, "<p title={{@t}}>a</p>", ""],
        Status::Done,
        "{\"body\":[[\"el\",\"p\",[[\"dyn\",\"title\",[\"sym\",0]]]],[\"text\",\"a\"],[\"end\"]],\"symbols\":[\"@t\"],\"v\":2}\n",
        "",
    ),
    (
        "a parameter",
        WIRE,
        [NONE, "{{#let 1 as |a|}}{{a}}{{/let}}", ""],
        Status::Done,
        "{\"body\":[[\"let\",[[\"lit\",1]],[0]],[\"put\",[\"sym\",0]],[\"end\"]],\"symbols\":[\"a\"],\"v\":2}\n",
        "",
    ),
    (
        "nothing is spelled",
        WIRE,
        [NONE, "<p></b>", ""],
        Status::Refused,
        "",
        "\"app.hbs\": not in the grammar at byte 3\n",
    ),
    (
        "no template",
        WIRE,
        ["", "", ""],
        Status::Refused,
        "",
        "\"app.hbs\": absent\n",
    ),
];

#[test]
fn wires(rt: HostRuntime) -> Result<(), Fail> {
    for row in &WIRES {
        check_row(&rt, rt.alloc(), row)?;
    }
    Ok(())
}

#[test]
fn shown(rt: HostRuntime) -> Result<(), Fail> {
    for row in &SHOWN {
        check_row(&rt, rt.alloc(), row)?;
    }
    Ok(())
}

// A file of one byte more than the most.
#[test]
fn too_long(rt: HostRuntime) -> Result<(), Fail> {
    let alloc = rt.alloc();
    let mut files = Files::new(alloc);
    files.push(File::new(
        String::from_str(alloc, "m.json")?,
        vec![in alloc; b' '; 16_777_217]?,
    ))?;
    let mut shelf = CalmShelf::new(files);
    let mut out = CalmSink::new(alloc);
    let mut err = CalmSink::new(alloc);
    let status = status_of(alloc, RUN, &mut shelf, &mut out, &mut err);
    assert_eq!(rt; status, Status::Refused);
    assert_eq!(rt;
        err.taken(),
        "\"m.json\": longer than 16777216 bytes\n".as_bytes()
    );
    Ok(())
}

// A device that fails: the fetch, the put on `out` with the bytes that it takes, the put on `err`; then the status, `out` and
// `err`. A number of 99 stands for none.
type Failing = (u64, u64, usize, u64, Status, &'static str, &'static str);

static FAILING: [Failing; 6] = [
    (
        0,
        99,
        0,
        99,
        Status::ReadFault,
        "",
        "\"m.json\": read fault\n",
    ),
    (
        1,
        99,
        0,
        99,
        Status::ReadFault,
        "",
        "\"app.hbs\": read fault\n",
    ),
    (
        2,
        99,
        0,
        99,
        Status::ReadFault,
        "",
        "\"s.json\": read fault\n",
    ),
    (99, 0, 4, 99, Status::WriteFault, "= 0 ", "write fault\n"),
    (
        99,
        1,
        7,
        99,
        Status::WriteFault,
        "= 0 start\n#1 \"0\"\n= 1 set",
        "write fault\n",
    ),
    (0, 99, 0, 2, Status::ReadFault, "", "\"m"),
];

#[test]
fn failing(rt: HostRuntime) -> Result<(), Fail> {
    let alloc = rt.alloc();
    let texts = [ONE, "{{this.n}}", "[{\"set\":\"n\",\"to\":1}]"];
    for (fetch, put, takes, said, wanted, written, line) in &FAILING {
        let mut calls = Calls::new(alloc);
        calls.push(*fetch)?;
        let mut cuts = Cuts::new(alloc);
        cuts.push(Cut::new(*put, *takes))?;
        let mut silent = Cuts::new(alloc);
        silent.push(Cut::new(*said, 0))?;
        let mut shelf = MemShelf::new(files_of(alloc, &texts)?, calls);
        let mut out = MemSink::new(alloc, cuts);
        let mut err = MemSink::new(alloc, silent);
        let status = status_of(alloc, RUN, &mut shelf, &mut out, &mut err);
        assert_eq!(rt; status, *wanted);
        assert_eq!(rt; out.taken(), written.as_bytes());
        assert_eq!(rt; err.taken(), line.as_bytes());
    }
    Ok(())
}

#[test]
fn codes(rt: HostRuntime) {
    assert_eq!(rt; Status::Done.code(), 0);
    assert_eq!(rt; Status::NestingLimit.code(), 1);
    assert_eq!(rt; Status::NoMemory.code(), 6);
}
