// Applications, each with the lines of its tree before the first event.
use gl_append::append;
use gl_code::{Cells, VmFault};
use gl_load::load;
use gl_outside::{CalmShelf, File, Files};
use gl_print::{Numbers, print};
use gl_value::Text;
use std::alloc::{AllocError, Global};
use std::process::Abort;
use std::test::Fail;

// What it shows, the manifest, the root's template, that of another class, and the lines. Where a component would nest too deep these are
// "too deep".
type Row = (
    &'static str,
    &'static str,
    &'static str,
    &'static str,
    &'static str,
);

const NUMBER: &str =
    "{\"classes\":{\"App\":{\"fields\":{\"n\":1},\"template\":\"app.hbs\"}},\"root\":\"App\"}";

const ZERO: &str =
    "{\"classes\":{\"App\":{\"fields\":{\"n\":0},\"template\":\"app.hbs\"}},\"root\":\"App\"}";

const FIVE: &str =
    "{\"classes\":{\"App\":{\"fields\":{\"n\":5},\"template\":\"app.hbs\"}},\"root\":\"App\"}";

const TEXT: &str =
    "{\"classes\":{\"App\":{\"fields\":{\"a\":\"hé\"},\"template\":\"app.hbs\"}},\"root\":\"App\"}";

const LETTERS: &str =
    "{\"classes\":{\"App\":{\"fields\":{\"l\":[\"a\",\"b\",\"c\"]},\"template\":\"app.hbs\"}},\"root\":\"App\"}";

const EMPTY: &str =
    "{\"classes\":{\"App\":{\"fields\":{\"l\":[]},\"template\":\"app.hbs\"}},\"root\":\"App\"}";

const RECORDS: &str =
    "{\"classes\":{\"App\":{\"fields\":{\"l\":[{\"id\":1,\"t\":\"x\"},{\"id\":2,\"t\":\"y\"}]},\"template\":\"app.hbs\"}},\"root\":\"App\"}";

const TIP: &str =
    "{\"classes\":{\"App\":{\"fields\":{\"n\":1},\"template\":\"app.hbs\"}},\"modifiers\":[\"tip\"],\"root\":\"App\"}";

const BOX: &str =
    "{\"classes\":{\"App\":{\"fields\":{\"n\":3},\"template\":\"app.hbs\"},\"Box\":{\"template\":\"other.hbs\"}},\"root\":\"App\"}";

const KID: &str =
    "{\"classes\":{\"App\":{\"template\":\"app.hbs\"},\"Kid\":{\"template\":\"other.hbs\"}},\"root\":\"App\"}";

const COUNTER: &str =
    "{\"classes\":{\"App\":{\"actions\":{\"inc\":{\"do\":[{\"set\":\"n\",\"to\":\"(add this.n 1)\"}]}},\"fields\":{\"n\":0},\"template\":\"app.hbs\"},\"Kid\":{\"actions\":{\"twice\":{\"do\":[{\"call\":\"@inc\"},{\"call\":\"@inc\"}]}},\"template\":\"other.hbs\"}},\"root\":\"App\"}";

const GETTER: &str =
    "{\"classes\":{\"App\":{\"fields\":{\"n\":2},\"getters\":{\"twice\":\"(add this.n this.n)\"},\"template\":\"app.hbs\"}},\"root\":\"App\"}";

const NESTED: &str =
    "{\"classes\":{\"App\":{\"fields\":{\"d\":1},\"template\":\"app.hbs\"},\"N\":{\"template\":\"other.hbs\"}},\"limit\":3,\"root\":\"App\"}";

const DEEPER: &str =
    "{\"classes\":{\"App\":{\"fields\":{\"d\":2},\"template\":\"app.hbs\"},\"N\":{\"template\":\"other.hbs\"}},\"limit\":3,\"root\":\"App\"}";

const NEST: &str = "<u>{{#if @d}}<N @d={{sub @d 1}} />{{/if}}</u>";

static ROWS: [Row; 16] = [
    (
        "a branch",
        NUMBER,
        "{{#if this.n}}<i></i>{{/if}}",
        "-",
        "#1 <i>\n",
    ),
    (
        "an empty branch",
        ZERO,
        "{{#if this.n}}<i></i>{{/if}}",
        "-",
        "#1 !\"\"\n",
    ),
    (
        "an else",
        ZERO,
        "{{#if this.n}}a{{else}}b{{/if}}",
        "-",
        "#1 \"b\"\n",
    ),
    (
        "white space and characters",
        FIVE,
        "a\n\t{{#if this.n}}  \n  b&eacute;&unknown;\n{{/if}}\nc {{~this.n~}} d",
        "-",
        "#1 \"a\\n\"\n#2 \"  bé&unknown;\\n\"\n#3 \"c\"\n#4 \"5\"\n#5 \"d\"\n",
    ),
    (
        "a let with a parameter too many",
        TEXT,
        "{{#let this.a \"x\" as |p q r|}}<p title={{p}} id=\"{{q}}-{{r}}\">{{p.length}}</p>{{/let}}",
        "-",
        "#1 <p title=\"hé\" id=\"x-\">\n  #2 \"2\"\n",
    ),
    (
        "a block that is yielded",
        BOX,
        "<Box @t=\"q\" as |v|>{{v}}{{this.n}}</Box>",
        "[{{yield @t}}]{{@none}}",
        "#1 \"[\"\n#2 \"q\"\n#3 \"3\"\n#4 \"]\"\n#5 \"\"\n",
    ),
    (
        "attributes that are passed",
        KID,
        "<Kid class=\"k\" title={{false}} />",
        "<p title=\"t\" class=\"b\" ...attributes></p>",
        "#1 <p class=\"b k\">\n",
    ),
    (
        "as deep as may be",
        NESTED,
        "<N @d={{this.d}} />",
        NEST,
        "#1 <u>\n  #2 <u>\n    #3 !\"\"\n",
    ),
    ("too deep", DEEPER, "<N @d={{this.d}} />", NEST, "too deep"),
    (
        "a modifier",
        TIP,
        "<b {{tip this.n}}>x</b>",
        "-",
        "#1 <b>\n  #2 \"x\"\n",
    ),
    (
        "a list",
        LETTERS,
        "{{#each this.l as |x|}}{{x}}{{/each}}",
        "-",
        "#1 \"a\"\n#2 \"b\"\n#3 \"c\"\n",
    ),
    (
        "a list without items",
        EMPTY,
        "{{#each this.l as |x|}}{{x}}{{else}}<i></i>{{/each}}",
        "-",
        "#1 <i>\n",
    ),
    (
        "a list by key",
        RECORDS,
        "{{#each this.l key=\"id\" as |x|}}<li>{{x.t}}</li>{{/each}}",
        "-",
        "#1 <li>\n  #2 \"x\"\n#3 <li>\n  #4 \"y\"\n",
    ),
    (
        "an item's index",
        LETTERS,
        "{{#each this.l as |x i|}}<b>{{i}}</b>{{/each}}",
        "-",
        "#1 <b>\n  #2 \"0\"\n#3 <b>\n  #4 \"1\"\n#5 <b>\n  #6 \"2\"\n",
    ),
    (
        "an action as an argument",
        COUNTER,
        "{{this.n}}<Kid @inc={{this.inc}} />",
        "<b {{on \"click\" this.twice}}></b>",
        "#1 \"0\"\n#2 <b>\n",
    ),
    ("a getter", GETTER, "{{this.twice}}", "-", "#1 \"4\"\n"),
];

fn push_file(alloc: Global, files: &mut Files, name: &str, bytes: &str) -> Result<(), AllocError> {
    if bytes == "-" {
        return Ok(());
    }
    files.push(File::new(
        String::from_str(alloc, name)?,
        bytes.as_bytes().to_vec(alloc)?,
    ))
}

// The lines of the page of an application that is loaded.
fn lines_of(rt: &impl Abort, alloc: Global, shelf: &mut CalmShelf) -> Result<Text, Fail> {
    match load(alloc, shelf, "m.json", "s.json") {
        Ok(loaded) => match append(alloc, &loaded.app, &Cells::new(alloc)) {
            Ok(page) => {
                let mut numbers = Numbers::new(alloc);
                Ok(print(alloc, &page.vm.tree, &mut numbers)?)
            }
            Err(VmFault::NestingLimit) => Ok(Text::from_str(alloc, "too deep")?),
            Err(VmFault::Memory) => Ok(Text::from_str(alloc, "no memory")?),
        },
        Err(_) => {
            assert!(rt; false, "it is not loaded");
            Ok(Text::new(alloc))
        }
    }
}

fn check_row(rt: &impl Abort, alloc: Global, row: &Row) -> Result<(), Fail> {
    let (what, manifest, template, other, lines) = row;
    let mut files = Files::new(alloc);
    push_file(alloc, &mut files, "m.json", manifest)?;
    push_file(alloc, &mut files, "app.hbs", template)?;
    push_file(alloc, &mut files, "other.hbs", other)?;
    push_file(alloc, &mut files, "s.json", "[]")?;
    let mut shelf = CalmShelf::new(files);
    let text = lines_of(rt, alloc, &mut shelf)?;
    assert_eq!(rt; text.as_str(), *lines, "{}", what);
    Ok(())
}

#[test]
fn rows(rt: HostRuntime) -> Result<(), Fail> {
    for row in &ROWS {
        check_row(&rt, rt.alloc(), row)?;
    }
    Ok(())
}
