// Worked sessions of the whole language, over shelves and sinks in memory.
use gl_outside::{CalmShelf, CalmSink, File, Files};
use gl_run::{Last, Status, run};
use std::alloc::{AllocError, Global};
use std::process::Abort;
use std::test::Fail;

// What it shows, the manifest, the templates with their names, the script, the status, `out` and `err`.
type Row = (
    &'static str,
    &'static str,
    &'static [(&'static str, &'static str)],
    &'static str,
    Status,
    &'static str,
    &'static str,
);

const N_ONE: &str =
    "{\"classes\":{\"App\":{\"fields\":{\"n\":1},\"template\":\"app.hbs\"}},\"root\":\"App\"}";

const N_FIVE: &str =
    "{\"classes\":{\"App\":{\"fields\":{\"n\":5},\"template\":\"app.hbs\"}},\"root\":\"App\"}";

const A_ZERO: &str =
    "{\"classes\":{\"App\":{\"fields\":{\"a\":0},\"template\":\"app.hbs\"}},\"root\":\"App\"}";

const NONE: &str =
    "{\"classes\":{\"App\":{\"fields\":{},\"template\":\"app.hbs\"}},\"root\":\"App\"}";

const TIP: &str =
    "{\"classes\":{\"App\":{\"fields\":{\"n\":1},\"template\":\"app.hbs\"}},\"modifiers\":[\"tip\"],\"root\":\"App\"}";

const LIST: &str =
    "{\"classes\":{\"App\":{\"fields\":{\"l\":[]},\"template\":\"app.hbs\"}},\"root\":\"App\"}";

const LETTERS: &str =
    "{\"classes\":{\"App\":{\"fields\":{\"l\":[\"a\",\"b\",\"c\"]},\"template\":\"app.hbs\"}},\"root\":\"App\"}";

const KID: &str =
    "{\"classes\":{\"App\":{\"fields\":{\"s\":true},\"template\":\"app.hbs\"},\"Kid\":{\"actions\":{\"inc\":{\"do\":[{\"set\":\"c\",\"to\":\"(add this.c 1)\"}]}},\"fields\":{\"c\":0},\"teardown\":true,\"template\":\"kid.hbs\"}},\"root\":\"App\"}";

const TWICE: &str =
    "{\"classes\":{\"App\":{\"actions\":{\"inc\":{\"do\":[{\"set\":\"n\",\"to\":\"(add this.n 1)\"}]}},\"fields\":{\"n\":0},\"template\":\"app.hbs\"},\"Kid\":{\"actions\":{\"twice\":{\"do\":[{\"call\":\"@inc\"},{\"call\":\"@inc\"}]}},\"template\":\"kid.hbs\"}},\"root\":\"App\"}";

const SEEN: &str =
    "{\"classes\":{\"App\":{\"actions\":{\"inc\":{\"do\":[{\"set\":\"n\",\"to\":\"(add this.n 1)\"}]}},\"fields\":{\"n\":0},\"template\":\"app.hbs\"},\"Kid\":{\"actions\":{\"go\":{\"do\":[{\"call\":\"@inc\"},{\"set\":\"seen\",\"to\":\"@n\"}]}},\"fields\":{\"seen\":null},\"template\":\"kid.hbs\"}},\"root\":\"App\"}";

const PLAIN_KID: &str =
    "{\"classes\":{\"App\":{\"fields\":{},\"template\":\"app.hbs\"},\"Kid\":{\"template\":\"kid.hbs\"}},\"root\":\"App\"}";

const CHOOSING: &str =
    "{\"classes\":{\"App\":{\"fields\":{\"a\":true,\"b\":1,\"c\":2},\"template\":\"app.hbs\"}},\"modifiers\":[\"tip\"],\"root\":\"App\"}";

const NESTING: &str =
    "{\"classes\":{\"App\":{\"fields\":{\"d\":1},\"template\":\"app.hbs\"},\"N\":{\"template\":\"n.hbs\"}},\"limit\":3,\"root\":\"App\"}";

const TOO_DEEP: &str =
    "{\"classes\":{\"App\":{\"template\":\"app.hbs\"}},\"limit\":64,\"root\":\"App\"}";

const LETTER: &str =
    "{\"classes\":{\"App\":{\"fields\":{\"l\":[\"a\"]},\"template\":\"app.hbs\"}},\"root\":\"App\"}";

const ACCENT: &str =
    "{\"classes\":{\"App\":{\"fields\":{\"a\":\"h\u{e9}\"},\"template\":\"app.hbs\"}},\"root\":\"App\"}";

const BOX: &str =
    "{\"classes\":{\"App\":{\"fields\":{\"n\":3},\"template\":\"app.hbs\"},\"Box\":{\"template\":\"box.hbs\"}},\"root\":\"App\"}";

const TORN: &str =
    "{\"classes\":{\"App\":{\"fields\":{\"s\":true},\"template\":\"app.hbs\"},\"K\":{\"teardown\":true,\"template\":\"k.hbs\"}},\"modifiers\":[\"tip\"],\"root\":\"App\"}";

static ROWS: [Row; 20] = [
    (
        "a modifier is updated by a set to an equal value",
        TIP,
        &[("app.hbs", "<b {{tip this.n}}>x</b>")],
        "[{\"set\":\"n\",\"to\":1}]",
        Status::Done,
        "= 0 start\n#1 <b>\n  #2 \"x\"\ninstall #1 tip \"1\"\n= 1 set n\n#1 <b>\n  #2 \"x\"\nupdate #1 tip \"1\"\n",
        "",
    ),
    (
        "a block stays while its condition stays true",
        N_ONE,
        &[("app.hbs", "{{#if this.n}}<i></i>{{/if}}")],
        "[{\"set\":\"n\",\"to\":2},{\"set\":\"n\",\"to\":0},{\"set\":\"n\",\"to\":1}]",
        Status::Done,
        "= 0 start\n#1 <i>\n= 1 set n\n#1 <i>\n= 2 set n\n#2 !\"\"\n= 3 set n\n#3 <i>\n",
        "",
    ),
    (
        "items keep their numbers in another order",
        LETTERS,
        &[("app.hbs", "{{#each this.l as |x|}}{{x}}{{/each}}")],
        "[{\"set\":\"l\",\"to\":[\"c\",\"a\",\"b\"]},{\"set\":\"l\",\"to\":[\"a\",\"b\",\"c\"]}]",
        Status::Done,
        "= 0 start\n#1 \"a\"\n#2 \"b\"\n#3 \"c\"\n= 1 set l\n#3 \"c\"\n#1 \"a\"\n#2 \"b\"\n= 2 set l\n#1 \"a\"\n#2 \"b\"\n#3 \"c\"\n",
        "",
    ),
    (
        "an empty list, with and without another body",
        LIST,
        &[(
            "app.hbs",
            "{{#each this.l as |x|}}{{x}}{{else}}none{{/each}}/{{#each this.l as |x|}}{{x}}{{/each}}",
        )],
        "[{\"set\":\"l\",\"to\":[\"a\"]},{\"set\":\"l\",\"to\":[]}]",
        Status::Done,
        "= 0 start\n#1 \"none\"\n#2 \"/\"\n#3 !\"\"\n= 1 set l\n#4 \"a\"\n#2 \"/\"\n#5 \"a\"\n= 2 set l\n#6 \"none\"\n#2 \"/\"\n#7 !\"\"\n",
        "",
    ),
    (
        "a component is fired, destroyed and made again",
        KID,
        &[
            ("app.hbs", "{{#if this.s}}<Kid />{{/if}}"),
            ("kid.hbs", "<b {{on \"click\" this.inc}}>{{this.c}}</b>"),
        ],
        "[{\"fire\":1,\"event\":\"click\"},{\"set\":\"s\",\"to\":false},{\"set\":\"s\",\"to\":true}]",
        Status::Done,
        "= 0 start\n#1 <b>\n  #2 \"0\"\ninstall #1 on \"click\" \"[action inc]\"\n= 1 fire #1 \"click\"\n#1 <b>\n  #2 \"1\"\n= 2 set s\n#3 !\"\"\ndestroy #1 on\ndestroy Kid\n= 3 set s\n#4 <b>\n  #5 \"0\"\ninstall #4 on \"click\" \"[action inc]\"\n",
        "",
    ),
    (
        "an action of the owner is called twice",
        TWICE,
        &[
            ("app.hbs", "{{this.n}}<Kid @inc={{this.inc}} />"),
            ("kid.hbs", "<b {{on \"click\" this.twice}}></b>"),
        ],
        "[{\"fire\":2,\"event\":\"click\"}]",
        Status::Done,
        "= 0 start\n#1 \"0\"\n#2 <b>\ninstall #2 on \"click\" \"[action twice]\"\n= 1 fire #2 \"click\"\n#1 \"2\"\n#2 <b>\n",
        "",
    ),
    (
        "an argument reads as at the last rendering",
        SEEN,
        &[
            (
                "app.hbs",
                "{{this.n}}<Kid @n={{this.n}} @inc={{this.inc}} />",
            ),
            ("kid.hbs", "<b {{on \"click\" this.go}}>{{this.seen}}</b>"),
        ],
        "[{\"fire\":2,\"event\":\"click\"}]",
        Status::Done,
        "= 0 start\n#1 \"0\"\n#2 <b>\n  #3 \"\"\ninstall #2 on \"click\" \"[action go]\"\n= 1 fire #2 \"click\"\n#1 \"1\"\n#2 <b>\n  #3 \"0\"\n",
        "",
    ),
    (
        "classes are joined, and the last attribute of a name wins",
        PLAIN_KID,
        &[
            ("app.hbs", "<Kid class=\"k\" title={{false}} />"),
            ("kid.hbs", "<p title=\"t\" class=\"b\" ...attributes></p>"),
        ],
        "[]",
        Status::Done,
        "= 0 start\n#1 <p class=\"b k\">\n",
        "",
    ),
    (
        "only the branch that is taken is read",
        CHOOSING,
        &[("app.hbs", "<p {{tip (if this.a this.b this.c)}}></p>")],
        "[{\"set\":\"c\",\"to\":3},{\"set\":\"a\",\"to\":false}]",
        Status::Done,
        "= 0 start\n#1 <p>\ninstall #1 tip \"1\"\n= 1 set c\n#1 <p>\n= 2 set a\n#1 <p>\nupdate #1 tip \"3\"\n",
        "",
    ),
    (
        "components nest too deep in the second turn",
        NESTING,
        &[
            ("app.hbs", "<N @d={{this.d}} />"),
            ("n.hbs", "<u>{{#if @d}}<N @d={{sub @d 1}} />{{/if}}</u>"),
        ],
        "[{\"set\":\"d\",\"to\":2},{\"set\":\"d\",\"to\":1}]",
        Status::NestingLimit,
        "= 0 start\n#1 <u>\n  #2 <u>\n    #3 !\"\"\n",
        "turn 1: nesting limit 3\n",
    ),
    (
        "components nest too deep at once",
        TOO_DEEP,
        &[("app.hbs", "<App />")],
        "[]",
        Status::NestingLimit,
        "",
        "turn 0: nesting limit 64\n",
    ),
    (
        "nothing listens",
        NONE,
        &[("app.hbs", "<p></p>")],
        "[{\"fire\":7,\"event\":\"click\"},{\"fire\":1,\"event\":\"click\"}]",
        Status::Done,
        "= 0 start\n#1 <p>\n= 1 fire #7 \"click\"\nno node 7\n#1 <p>\n= 2 fire #1 \"click\"\nno node 1\n#1 <p>\n",
        "",
    ),
    (
        "white space, references and a block",
        N_FIVE,
        &[(
            "app.hbs",
            "a\n\t{{#if this.n}}  \n  b&eacute;&unknown;\n{{/if}}\nc {{~this.n~}} d",
        )],
        "[]",
        Status::Done,
        "= 0 start\n#1 \"a\\n\"\n#2 \"  b\u{e9}&unknown;\\n\"\n#3 \"c\"\n#4 \"5\"\n#5 \"d\"\n",
        "",
    ),
    (
        "events at once",
        A_ZERO,
        &[("app.hbs", "{{this.a}}")],
        "[{\"batch\":[{\"set\":\"a\",\"to\":1},{\"set\":\"a\",\"to\":2},{\"fire\":9,\"event\":\"x\"}]}]",
        Status::Done,
        "= 0 start\n#1 \"0\"\n= 1 batch 3\nno node 9\n#1 \"2\"\n",
        "",
    ),
    (
        "a property of a field",
        LETTERS,
        &[("app.hbs", "{{this.l.length}}")],
        "[]",
        Status::Done,
        "= 0 start\n#1 \"3\"\n",
        "",
    ),
    (
        "values of a let and quoted ones",
        ACCENT,
        &[(
            "app.hbs",
            "{{#let this.a \"x\" as |p q r|}}<p title={{p}} id=\"{{q}}-{{r}}\">{{p.length}}</p>{{/let}}",
        )],
        "[]",
        Status::Done,
        "= 0 start\n#1 <p title=\"h\u{e9}\" id=\"x-\">\n  #2 \"2\"\n",
        "",
    ),
    (
        "a value is yielded",
        BOX,
        &[
            ("app.hbs", "<Box @t=\"q\" as |v|>{{v}}{{this.n}}</Box>"),
            ("box.hbs", "[{{yield @t}}]{{@none}}"),
        ],
        "[]",
        Status::Done,
        "= 0 start\n#1 \"[\"\n#2 \"q\"\n#3 \"3\"\n#4 \"]\"\n#5 \"\"\n",
        "",
    ),
    (
        "keys by index",
        LETTER,
        &[(
            "app.hbs",
            "{{#each this.l key=\"@index\" as |x i|}}{{i}}{{x}};{{/each}}",
        )],
        "[{\"set\":\"l\",\"to\":[\"b\",\"c\"]}]",
        Status::Done,
        "= 0 start\n#1 \"0\"\n#2 \"a\"\n#3 \";\"\n= 1 set l\n#1 \"0\"\n#2 \"b\"\n#3 \";\"\n#4 \"1\"\n#5 \"c\"\n#6 \";\"\n",
        "",
    ),
    (
        "a modifier is destroyed before the instance round it",
        TORN,
        &[
            ("app.hbs", "{{#if this.s}}<K />{{/if}}"),
            ("k.hbs", "<b {{tip}}></b>"),
        ],
        "[{\"set\":\"s\",\"to\":false}]",
        Status::Done,
        "= 0 start\n#1 <b>\ninstall #1 tip\n= 1 set s\n#2 !\"\"\ndestroy #1 tip\ndestroy K\n",
        "",
    ),
    (
        "two fires of a batch, with a set between",
        TWICE,
        &[
            ("app.hbs", "{{this.n}}<Kid @inc={{this.inc}} />"),
            ("kid.hbs", "<b {{on \"click\" this.twice}}></b>"),
        ],
        "[{\"batch\":[{\"fire\":2,\"event\":\"click\"},{\"set\":\"n\",\"to\":7},{\"fire\":2,\"event\":\"click\"}]}]",
        Status::Done,
        "= 0 start\n#1 \"0\"\n#2 <b>\ninstall #2 on \"click\" \"[action twice]\"\n= 1 batch 3\n#1 \"9\"\n#2 <b>\n",
        "",
    ),
];

fn file(alloc: Global, name: &str, bytes: &str) -> Result<File, AllocError> {
    Ok(File::new(
        String::from_str(alloc, name)?,
        bytes.as_bytes().to_vec(alloc)?,
    ))
}

fn files_of(alloc: Global, row: &Row) -> Result<Files, AllocError> {
    let mut files = Files::new(alloc);
    files.push(file(alloc, "m.json", row.1)?)?;
    files.push(file(alloc, "s.json", row.3)?)?;
    for (name, text) in row.2 {
        files.push(file(alloc, name, text)?)?;
    }
    Ok(files)
}

// The status of a run, and whether a session is left.
fn played(
    alloc: Global,
    shelf: &mut CalmShelf,
    out: &mut CalmSink,
    err: &mut CalmSink,
) -> (Status, bool) {
    let mut last = Last::new();
    let words = ["run", "m.json", "s.json"];
    let status = run(alloc, &words, shelf, out, err, &mut last);
    (status, last.session.is_some())
}

fn check_row(rt: &impl Abort, alloc: Global, row: &Row) -> Result<(), Fail> {
    let mut shelf = CalmShelf::new(files_of(alloc, row)?);
    let mut out = CalmSink::new(alloc);
    let mut err = CalmSink::new(alloc);
    let (status, is_left) = played(alloc, &mut shelf, &mut out, &mut err);
    assert_eq!(rt; status, row.4, "{}", row.0);
    assert_eq!(rt; out.taken(), row.5.as_bytes(), "{}", row.0);
    assert_eq!(rt; err.taken(), row.6.as_bytes(), "{}", row.0);
    assert_eq!(rt; is_left, row.4 == Status::Done, "{}", row.0);
    Ok(())
}

#[test]
fn sessions(rt: HostRuntime) -> Result<(), Fail> {
    for row in &ROWS {
        check_row(&rt, rt.alloc(), row)?;
    }
    Ok(())
}
