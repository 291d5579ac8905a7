// Sessions of which the work is told, what the session that is left has counted, and how much stands there.
use gl_outside::{CalmShelf, CalmSink, File, Files};
use gl_run::{Last, Status, run};
use gl_session::{Live, Work};
use std::alloc::{AllocError, Global};
use std::process::Abort;
use std::test::Fail;

// What it shows, the manifest, the templates with their names, the script, the status, `out`, and what the session that is left
// has counted.
type Row = (
    &'static str,
    &'static str,
    &'static [(&'static str, &'static str)],
    &'static str,
    Status,
    &'static str,
    Option<Work>,
);

const LETTERS: &str =
    "{\"classes\":{\"App\":{\"fields\":{\"l\":[\"a\",\"b\",\"c\"]},\"template\":\"app.hbs\"}},\"root\":\"App\"}";

const SAME_KEYS: &str =
    "{\"classes\":{\"App\":{\"fields\":{\"l\":[{\"k\":\"a\",\"t\":\"1\"},{\"k\":\"a\",\"t\":\"2\"},{\"k\":\"b\",\"t\":\"3\"}]},\"template\":\"app.hbs\"}},\"root\":\"App\"}";

const RECORDS: &str =
    "{\"classes\":{\"App\":{\"fields\":{\"l\":[{\"id\":1,\"t\":\"x\"},{\"id\":2,\"t\":\"y\"}]},\"template\":\"app.hbs\"}},\"root\":\"App\"}";

const A_AND_B: &str =
    "{\"classes\":{\"App\":{\"fields\":{\"a\":1,\"b\":0},\"template\":\"app.hbs\"}},\"root\":\"App\"}";

const NESTING: &str =
    "{\"classes\":{\"App\":{\"fields\":{\"d\":1},\"template\":\"app.hbs\"},\"N\":{\"template\":\"n.hbs\"}},\"limit\":3,\"root\":\"App\"}";

const KID: &str =
    "{\"classes\":{\"App\":{\"fields\":{\"s\":true},\"template\":\"app.hbs\"},\"Kid\":{\"actions\":{\"inc\":{\"do\":[{\"set\":\"c\",\"to\":\"(add this.c 1)\"}]}},\"fields\":{\"c\":0},\"teardown\":true,\"template\":\"kid.hbs\"}},\"root\":\"App\"}";

static ROWS: [Row; 5] = [
    (
        "items that are moved, and back",
        LETTERS,
        &[("app.hbs", "{{#each this.l as |x|}}{{x}}{{/each}}")],
        "[{\"set\":\"l\",\"to\":[\"c\",\"a\",\"b\"]},{\"set\":\"l\",\"to\":[\"a\",\"b\",\"c\"]}]",
        Status::Done,
        "= 0 start\n#1 \"a\"\n#2 \"b\"\n#3 \"c\"\nwork 4 made 3 moved 0\n= 1 set l\n#3 \"c\"\n#1 \"a\"\n#2 \"b\"\nwork 1 made 0 moved 2\n= 2 set l\n#1 \"a\"\n#2 \"b\"\n#3 \"c\"\nwork 1 made 0 moved 1\n",
        Some(Work {
            evaluated: 6,
            made: 3,
            moved: 3,
        }),
    ),
    (
        "an item with an equal key goes",
        SAME_KEYS,
        &[(
            "app.hbs",
            "{{#each this.l key=\"k\" as |x|}}{{x.t}}{{/each}}",
        )],
        "[{\"set\":\"l\",\"to\":[{\"k\":\"a\",\"t\":\"2\"},{\"k\":\"b\",\"t\":\"3\"}]}]",
        Status::Done,
        "= 0 start\n#1 \"1\"\n#2 \"2\"\n#3 \"3\"\nwork 4 made 3 moved 0\n= 1 set l\n#1 \"2\"\n#3 \"3\"\nwork 2 made 0 moved 0\n",
        Some(Work {
            evaluated: 6,
            made: 3,
            moved: 0,
        }),
    ),
    (
        "only the item that changed is evaluated",
        RECORDS,
        &[(
            "app.hbs",
            "{{#each this.l key=\"id\" as |x|}}<li>{{x.t}}</li>{{/each}}",
        )],
        "[{\"set\":\"l\",\"to\":[{\"id\":1,\"t\":\"x\"},{\"id\":2,\"t\":\"z\"}]}]",
        Status::Done,
        "= 0 start\n#1 <li>\n  #2 \"x\"\n#3 <li>\n  #4 \"y\"\nwork 3 made 4 moved 0\n= 1 set l\n#1 <li>\n  #2 \"x\"\n#3 <li>\n  #4 \"z\"\nwork 2 made 0 moved 0\n",
        Some(Work {
            evaluated: 5,
            made: 4,
            moved: 0,
        }),
    ),
    (
        "a set to an equal value, and a branch that comes",
        A_AND_B,
        &[(
            "app.hbs",
            "<i>{{this.a}}</i>{{#if this.b}}{{this.a}}{{/if}}",
        )],
        "[{\"set\":\"a\",\"to\":1},{\"set\":\"b\",\"to\":1}]",
        Status::Done,
        "= 0 start\n#1 <i>\n  #2 \"1\"\n#3 !\"\"\nwork 2 made 3 moved 0\n= 1 set a\n#1 <i>\n  #2 \"1\"\n#3 !\"\"\nwork 1 made 0 moved 0\n= 2 set b\n#1 <i>\n  #2 \"1\"\n#4 \"1\"\nwork 2 made 1 moved 0\n",
        Some(Work {
            evaluated: 5,
            made: 4,
            moved: 0,
        }),
    ),
    (
        "components nest too deep in the second turn",
        NESTING,
        &[
            ("app.hbs", "<N @d={{this.d}} />"),
            ("n.hbs", "<u>{{#if @d}}<N @d={{sub @d 1}} />{{/if}}</u>"),
        ],
        "[{\"set\":\"d\",\"to\":2},{\"set\":\"d\",\"to\":1}]",
        Status::NestingLimit,
        "= 0 start\n#1 <u>\n  #2 <u>\n    #3 !\"\"\nwork 2 made 3 moved 0\n",
        None,
    ),
];

fn file(alloc: Global, name: &str, bytes: &str) -> Result<File, AllocError> {
    Ok(File::new(
        String::from_str(alloc, name)?,
        bytes.as_bytes().to_vec(alloc)?,
    ))
}

fn files_of(
    alloc: Global,
    manifest: &str,
    templates: &[(&str, &str)],
    script: &str,
) -> Result<Files, AllocError> {
    let mut files = Files::new(alloc);
    files.push(file(alloc, "m.json", manifest)?)?;
    files.push(file(alloc, "s.json", script)?)?;
    for (name, text) in templates {
        files.push(file(alloc, name, text)?)?;
    }
    Ok(files)
}

// What a session has counted, how much stands there, and how many questions it asked.
#[derive(Drop)]
struct Left {
    counts: Work,
    live: Live,
    asks: u128,
}

// The same of the session that is left.
fn of_last(last: &Last) -> Option<Left> {
    match &last.session {
        Some(session) => Some(Left {
            counts: session.counts(),
            live: session.live(),
            asks: session.asks(),
        }),
        None => None,
    }
}

// The status of a command, and what is left.
fn played(
    alloc: Global,
    command: &str,
    files: Files,
    out: &mut CalmSink,
) -> (Status, Option<Left>) {
    let mut shelf = CalmShelf::new(files);
    let mut err = CalmSink::new(alloc);
    let mut last = Last::new();
    let words = [command, "m.json", "s.json"];
    let status = run(alloc, &words, &mut shelf, out, &mut err, &mut last);
    (status, of_last(&last))
}

fn check_row(rt: &impl Abort, alloc: Global, row: &Row) -> Result<(), Fail> {
    let mut out = CalmSink::new(alloc);
    let (status, left) = played(
        alloc,
        "work",
        files_of(alloc, row.1, row.2, row.3)?,
        &mut out,
    );
    assert_eq!(rt; status, row.4, "{}", row.0);
    assert_eq!(rt; out.taken(), row.5.as_bytes(), "{}", row.0);
    let counts = match left {
        Some(left) => Some(left.counts),
        None => None,
    };
    assert_eq!(rt; counts, row.6, "{}", row.0);
    Ok(())
}

#[test]
fn works(rt: HostRuntime) -> Result<(), Fail> {
    for row in &ROWS {
        check_row(&rt, rt.alloc(), row)?;
    }
    Ok(())
}

// What it shows, the template, the script, and how many questions the session asks at most.
type Asking = (&'static str, &'static str, &'static str, u128);

const LIST: &str =
    "{\"classes\":{\"App\":{\"fields\":{\"a\":1,\"b\":1,\"l\":[1,2,3]},\"template\":\"app.hbs\"}},\"root\":\"App\"}";

static ASKINGS: [Asking; 6] = [
    (
        "the whole, and its three members, of which the branch is fresh",
        "<i>{{this.a}}</i>{{#if true}}{{this.b}}{{this.b}}{{this.b}}{{/if}}",
        "[{\"set\":\"a\",\"to\":2}]",
        4,
    ),
    (
        "the whole alone, where nothing that is shown is set",
        "<i>{{this.a}}</i>{{#if true}}{{this.a}}{{/if}}",
        "[{\"set\":\"b\",\"to\":2}]",
        1,
    ),
    (
        "the branch too, where it is what reads the field",
        "<i>{{this.a}}</i>{{#if true}}{{this.b}}{{this.b}}{{this.b}}{{/if}}",
        "[{\"set\":\"b\",\"to\":2}]",
        7,
    ),
    (
        "the items together, where a list is set to what it was",
        "{{#each this.l as |x|}}<b>{{x}}{{x}}</b>{{/each}}",
        "[{\"set\":\"l\",\"to\":[1,2,3]}]",
        3,
    ),
    (
        "each item, and what is in the one whose value changed",
        "{{#each this.l key=\"@index\" as |x|}}<b>{{x}}{{x}}</b>{{/each}}",
        "[{\"set\":\"l\",\"to\":[1,9,3]}]",
        8,
    ),
    (
        "two turns",
        "<i>{{this.a}}</i>{{#if true}}{{this.b}}{{this.b}}{{this.b}}{{/if}}",
        "[{\"set\":\"a\",\"to\":2},{\"set\":\"b\",\"to\":2}]",
        11,
    ),
];

fn check_asking(rt: &impl Abort, alloc: Global, row: &Asking) -> Result<(), Fail> {
    let mut out = CalmSink::new(alloc);
    let files = files_of(alloc, LIST, &[("app.hbs", row.1)], row.2)?;
    let (status, left) = played(alloc, "run", files, &mut out);
    assert_eq!(rt; status, Status::Done, "{}", row.0);
    match left {
        Some(left) => assert!(rt; left.asks <= row.3, "{}", row.0),
        None => assert!(rt; false),
    }
    Ok(())
}

#[test]
fn questions(rt: HostRuntime) -> Result<(), Fail> {
    for row in &ASKINGS {
        check_asking(&rt, rt.alloc(), row)?;
    }
    Ok(())
}

// A script that hides what is shown and shows it again, so many times, and then ends so.
fn toggles(alloc: Global, count: usize, end: &str) -> Result<String, AllocError> {
    let mut script = String::from_str(alloc, "[")?;
    for _ in 0..count {
        script.push_str("{\"set\":\"s\",\"to\":false},{\"set\":\"s\",\"to\":true},")?;
    }
    script.push_str(end)?;
    Ok(script)
}

fn check_kept(
    rt: &impl Abort,
    alloc: Global,
    script: &str,
    end: &str,
    live: Live,
) -> Result<(), Fail> {
    let templates = [
        ("app.hbs", "{{#if this.s}}<Kid />{{/if}}"),
        ("kid.hbs", "<b {{on \"click\" this.inc}}>{{this.c}}</b>"),
    ];
    let mut out = CalmSink::new(alloc);
    let (status, left) = played(
        alloc,
        "run",
        files_of(alloc, KID, &templates, script)?,
        &mut out,
    );
    assert_eq!(rt; status, Status::Done);
    assert!(rt; out.taken().ends_with(end.as_bytes()));
    match left {
        Some(left) => assert_eq!(rt; left.live, live),
        None => assert!(rt; false),
    }
    Ok(())
}

// However often a component was shown and hidden, no more is there than what is rendered.
#[test]
fn nothing_is_kept(rt: HostRuntime) -> Result<(), Fail> {
    let hidden = toggles(rt.alloc(), 499, "{\"set\":\"s\",\"to\":false}]")?;
    check_kept(
        &rt,
        rt.alloc(),
        &hidden,
        "\n= 999 set s\n#1500 !\"\"\ndestroy #1498 on\ndestroy Kid\n",
        Live {
            nodes: 1,
            instances: 1,
        },
    )?;
    let shown = toggles(
        rt.alloc(),
        499,
        "{\"set\":\"s\",\"to\":false},{\"set\":\"s\",\"to\":true}]",
    )?;
    check_kept(
        &rt,
        rt.alloc(),
        &shown,
        "\n= 1000 set s\n#1501 <b>\n  #1502 \"0\"\ninstall #1501 on \"click\" \"[action inc]\"\n",
        Live {
            nodes: 2,
            instances: 2,
        },
    )
}
