use gl_names::{
    HELPERS, MNEMONICS, NameTable, REFERENCES, Row, VOID, helpers, mnemonics, references, void,
};
use std::process::Abort;

// The opcodes' names with their codes.
static CODES: [(&str, u16); 45] = [
    ("Text", 1),
    ("Comment", 2),
    ("Open", 3),
    ("Attr", 4),
    ("AttrRef", 5),
    ("Spread", 6),
    ("Mod", 7),
    ("Flush", 8),
    ("Close", 9),
    ("Put", 10),
    ("If", 11),
    ("Unless", 12),
    ("Else", 13),
    ("EndIf", 14),
    ("Each", 15),
    ("Item", 16),
    ("EndItem", 17),
    ("EndEach", 18),
    ("Let", 19),
    ("Bind", 20),
    ("EndLet", 21),
    ("Comp", 22),
    ("Arg", 23),
    ("Block", 24),
    ("Param", 25),
    ("EndBlock", 26),
    ("Bare", 27),
    ("Invoke", 28),
    ("Yield", 29),
    ("Undef", 30),
    ("Null", 31),
    ("True", 32),
    ("False", 33),
    ("Int", 34),
    ("Str", 35),
    ("Local", 36),
    ("ArgRef", 37),
    ("Field", 38),
    ("Getter", 39),
    ("Action", 40),
    ("Prop", 41),
    ("Call", 42),
    ("Named", 43),
    ("Cat", 44),
    ("Done", 45),
];

// Texts that name no opcode.
static NO_NAMES: [&str; 8] = [
    "",
    "text",
    "Tex",
    "Texts",
    "TextComment",
    "EndIfEach",
    "Done ",
    "\u{e9}",
];

// Two rows have one name, two one number, and one name is empty.
const ROWS: [Row; 4] = [
    Row {
        length: 2,
        number: 7,
    },
    Row {
        length: 2,
        number: 8,
    },
    Row {
        length: 0,
        number: 9,
    },
    Row {
        length: 1,
        number: 7,
    },
];

fn check_number<const N: usize>(
    rt: &impl Abort,
    table: &NameTable<N>,
    name: &str,
    number: Option<u16>,
) {
    assert_eq!(rt; table.find(name), number);
}

fn check_name<const N: usize>(
    rt: &impl Abort,
    table: &NameTable<N>,
    number: u16,
    name: Option<&str>,
) {
    assert_eq!(rt; table.name(number), name);
}

fn check_none<const N: usize>(rt: &impl Abort, table: &NameTable<N>, names: &[&str]) {
    for name in names {
        check_number(rt, table, name, None);
    }
}

fn check_numbers<const N: usize>(rt: &impl Abort, table: &NameTable<N>, rows: &[(&str, u16)]) {
    for (name, number) in rows {
        check_number(rt, table, name, Some(*number));
    }
}

fn check_names<const N: usize>(rt: &impl Abort, table: &NameTable<N>, rows: &[(&str, u16)]) {
    for (name, number) in rows {
        check_name(rt, table, *number, Some(*name));
    }
}

#[test]
fn opcodes(rt: HostRuntime) {
    let table = mnemonics();
    check_numbers(&rt, &table, &CODES);
    check_names(&rt, &table, &CODES);
    check_none(&rt, &table, &NO_NAMES);
    check_name(&rt, &table, 0, None);
    check_name(&rt, &table, 46, None);
}

#[test]
fn constant_of_opcodes(rt: HostRuntime) {
    let table = MNEMONICS;
    check_numbers(&rt, &table, &CODES);
}

// Character references of each part of the table, with their code points.
static POINTS: [(&str, u16); 12] = [
    ("amp", 38),
    ("lt", 60),
    ("gt", 62),
    ("quot", 34),
    ("apos", 39),
    ("nbsp", 160),
    ("iquest", 191),
    ("Agrave", 192),
    ("times", 215),
    ("szlig", 223),
    ("eacute", 233),
    ("yuml", 255),
];

// Texts that name no character.
static NO_POINTS: [&str; 6] = ["", "AMP", "am", "amp;", "eacut", "zwj"];

// The elements that have no end tag.
static VOID_NAMES: [&str; 14] = [
    "area", "base", "br", "col", "embed", "hr", "img", "input", "link", "meta", "param", "source",
    "track", "wbr",
];

// Names of elements that have one, and other texts.
static NO_VOID: [&str; 5] = ["p", "b", "BR", "brs", ""];

#[test]
fn points(rt: HostRuntime) {
    let table = references();
    check_numbers(&rt, &table, &POINTS);
    check_none(&rt, &table, &NO_POINTS);
}

#[test]
fn constant_of_points(rt: HostRuntime) {
    let table = REFERENCES;
    check_numbers(&rt, &table, &POINTS);
}

// Whether the names stand in the table with the numbers 0, 1, 2, ..
fn check_places<const N: usize>(rt: &impl Abort, table: &NameTable<N>, names: &[&str]) {
    for (place, name) in (0u16..).zip(names.iter()) {
        check_number(rt, table, *name, Some(place));
    }
}

#[test]
fn elements(rt: HostRuntime) {
    let table = void();
    check_places(&rt, &table, &VOID_NAMES);
    check_none(&rt, &table, &NO_VOID);
}

#[test]
fn constant_of_elements(rt: HostRuntime) {
    check_places(&rt, &VOID, &VOID_NAMES);
}

// Names with the numbers that are found in `ROWS`, and with numbers for which they are found.
static NUMBERS: [(&str, u16); 3] = [("ab", 7), ("", 9), ("c", 7)];

static NAMES: [(&str, u16); 3] = [("ab", 7), ("ab", 8), ("", 9)];

#[test]
fn rows(rt: HostRuntime) {
    let table = NameTable::new("ababc", &ROWS);
    check_numbers(&rt, &table, &NUMBERS);
    check_number(&rt, &table, "b", None);
    check_names(&rt, &table, &NAMES);
    check_name(&rt, &table, 1, None);
}

// The names of the helpers, in the order of their numbers.
static HELPER_NAMES: [&str; 33] = [
    "if",
    "unless",
    "concat",
    "array",
    "hash",
    "get",
    "fn",
    "add",
    "sub",
    "mul",
    "min",
    "max",
    "eq",
    "ne",
    "not",
    "and",
    "or",
    "lt",
    "lte",
    "gt",
    "gte",
    "length",
    "append",
    "removeAt",
    "put",
    "slice",
    "reverse",
    "includes",
    "where",
    "removeWhere",
    "updateWhere",
    "pluck",
    "join",
];

// Texts that name no helper.
static NO_HELPERS: [&str; 6] = ["", "If", "removeat", "remove", "joins", "outlet"];

#[test]
fn helper_names(rt: HostRuntime) {
    let table = helpers();
    check_places(&rt, &table, &HELPER_NAMES);
    check_none(&rt, &table, &NO_HELPERS);
}

#[test]
fn constant_of_helpers(rt: HostRuntime) {
    check_places(&rt, &HELPERS, &HELPER_NAMES);
}
