// Values and texts, as callers meet them.
use gl_value::{
    Act, Found, JsonFault, List, ListBuilder, NamedValues, Record, RecordBuilder, Text, Value,
    key_of, laws, quote,
};
use std::alloc::{AllocError, Global};
use std::process::Abort;
use std::test::Fail;

// A JSON text; the truth, the text and the attribute of its value.
type Rule = (&'static str, bool, &'static str, Option<&'static str>);

static RULES: [Rule; 14] = [
    ("null", false, "", None),
    ("true", true, "true", Some("")),
    ("false", false, "false", None),
    ("0", false, "0", Some("0")),
    ("-1", true, "-1", Some("-1")),
    (
        "9007199254740991",
        true,
        "9007199254740991",
        Some("9007199254740991"),
    ),
    ("\"\"", false, "", Some("")),
    ("\"0\"", true, "0", Some("0")),
    ("[]", false, "", Some("")),
    ("[0]", true, "0", Some("0")),
    ("[null]", true, "", Some("")),
    ("{}", true, "[object Object]", Some("[object Object]")),
    (
        "[1,[true,null,\"a\"],\"\\u00e9\",{\"k\":1}]",
        true,
        "1,true,,a,\u{e9},[object Object]",
        Some("1,true,,a,\u{e9},[object Object]"),
    ),
    ("[[],[]]", true, ",", Some(",")),
];

// Two JSON texts, and whether their values are the same.
static PAIRS: [(&str, &str, bool); 12] = [
    ("1", "1", true),
    ("1", "\"1\"", false),
    ("0", "false", false),
    ("null", "null", true),
    ("\"a\"", "\"b\"", false),
    ("[1,2]", "[1,2]", true),
    ("[1,2]", "[1]", false),
    ("[1]", "[1,2]", false),
    ("[1,2]", "[2,1]", false),
    ("{\"a\":1,\"b\":[]}", "{\"b\":[],\"a\":1}", true),
    ("{\"a\":1}", "{\"b\":1}", false),
    ("{\"a\":1}", "{\"a\":1,\"b\":1}", false),
];

// A JSON text, a name, and the text of the value's property of that name, or none where it is undefined.
type Property = (&'static str, &'static str, Option<&'static str>);

static PROPERTIES: [Property; 16] = [
    ("{\"a\":1,\"length\":5}", "length", Some("5")),
    ("{\"a\":1,\"b\":2}", "b", Some("2")),
    ("{\"a\":1}", "length", None),
    ("[7,8]", "length", Some("2")),
    ("[]", "length", Some("0")),
    ("[7,8]", "0", Some("7")),
    ("[7,8]", "1", Some("8")),
    ("[7,8]", "2", None),
    ("[7,8]", "01", None),
    ("[7,8]", "+1", None),
    ("[7,8]", "-0", None),
    ("[7,8]", "", None),
    ("[7,8]", "18446744073709551616", None),
    ("\"a\\u00e9\\ud83d\\ude00\"", "length", Some("3")),
    ("\"ab\"", "0", None),
    ("12", "length", None),
];

// A JSON text, an index, a key text, and the text of the key, or none where it is undefined.
type Key = (&'static str, u64, &'static str, Option<&'static str>);

static KEYS: [Key; 8] = [
    ("[7]", 3, "@index", Some("3")),
    (
        "null",
        18446744073709551615,
        "@index",
        Some("9007199254740991"),
    ),
    ("[7,8]", 3, "@identity", Some("7,8")),
    ("{\"a\":{\"b\":[4,5]}}", 3, "a.b.1", Some("5")),
    ("{\"a\":{\"b\":[4,5]}}", 3, "a.b.length", Some("2")),
    ("{\"a\":{\"b\":[4,5]}}", 3, "a.c.length", None),
    ("{\"\":{\"\":6}}", 3, ".", Some("6")),
    ("{\"@index\":6}", 3, "index", None),
];

// A JSON text, and why it is no value.
static FAULTS: [(&str, JsonFault); 14] = [
    ("1.5", JsonFault::NotWhole),
    ("1.0", JsonFault::NotWhole),
    ("-0", JsonFault::NotWhole),
    ("1e2", JsonFault::NotWhole),
    ("18446744073709551616", JsonFault::NotWhole),
    ("9007199254740992", JsonFault::TooLarge),
    ("-9007199254740992", JsonFault::TooLarge),
    ("18446744073709551615", JsonFault::TooLarge),
    ("[1,[9007199254740992],1.5]", JsonFault::TooLarge),
    ("[1,[1.5],9007199254740992]", JsonFault::NotWhole),
    ("{\"b\":1.5,\"a\":9007199254740992}", JsonFault::TooLarge),
    ("{\"b\":9007199254740992,\"a\":1.5}", JsonFault::NotWhole),
    (
        "{\"a\":{\"z\":1.5},\"b\":9007199254740992}",
        JsonFault::NotWhole,
    ),
    (
        "{\"\\u00e9\":1.5,\"z\":9007199254740992}",
        JsonFault::TooLarge,
    ),
];

// A JSON text, and the text of the scalar that it is.
static SCALARS: [(&str, Option<&str>); 11] = [
    ("null", Some("")),
    ("true", Some("true")),
    ("false", Some("false")),
    ("0", Some("0")),
    ("-9007199254740991", Some("-9007199254740991")),
    ("9007199254740991", Some("9007199254740991")),
    ("9007199254740992", None),
    ("1.5", None),
    ("\"a\\u00e9\"", Some("a\u{e9}")),
    ("[]", None),
    ("{}", None),
];

// How many arrays stand round a JSON text, that text, and why this is no value.
type Depth = (u32, &'static str, Option<JsonFault>);

static DEPTHS: [Depth; 6] = [
    (100, "", None),
    (101, "", Some(JsonFault::TooDeep)),
    (127, "", Some(JsonFault::TooDeep)),
    (101, "1.5", Some(JsonFault::NotWhole)),
    (100, "{}", Some(JsonFault::TooDeep)),
    (100, "0", None),
];

static QUOTED: [(&str, &str); 4] = [
    ("", "\"\""),
    ("a\"b\\c", "\"a\\\"b\\\\c\""),
    (
        "\n\r\t\u{0}\u{1f}\u{7f}",
        "\"\\n\\r\\t\\u{0}\\u{1f}\\u{7f}\"",
    ),
    ("\u{80}\u{e9}\u{1f600}", "\"\u{80}\u{e9}\u{1f600}\""),
];

// The scalar that a JSON text is, and none for any other.
fn scalar(alloc: Global, json: &str) -> Result<Option<Value>, Fail> {
    let json = serde_json::Value::from_str(alloc, json)?;
    Ok(Value::from_scalar(alloc, &json)?)
}

// The text of a copy of a scalar.
fn text_of_copy(alloc: Global, scalar: &Option<Value>) -> Result<Option<Text>, Fail> {
    match scalar {
        Some(value) => {
            let copy = value.copy()?;
            Ok(Some(copy.text_of(alloc)?))
        }
        None => Ok(None),
    }
}

fn text_of_scalar(alloc: Global, json: &str) -> Result<Option<Text>, Fail> {
    let found = scalar(alloc, json)?;
    text_of_copy(alloc, &found)
}

fn check_scalar(rt: &impl Abort, alloc: Global, row: &(&str, Option<&str>)) -> Result<(), Fail> {
    let text = text_of_scalar(alloc, row.0)?;
    assert!(rt; is_shown(&text, &row.1), "{}", row.0);
    Ok(())
}

#[test]
fn scalars(rt: HostRuntime) -> Result<(), Fail> {
    for row in &SCALARS {
        check_scalar(&rt, rt.alloc(), row)?;
    }
    Ok(())
}

#[test]
fn text_of_undefined(rt: HostRuntime) -> Result<(), Fail> {
    let shown = Value::Undefined.text_of(rt.alloc())?;
    assert_eq!(rt; shown.as_str(), "");
    Ok(())
}

fn check_quote(rt: &impl Abort, alloc: Global, row: &(&str, &str)) -> Result<(), Fail> {
    let quoted = quote(alloc, row.0)?;
    assert_eq!(rt; quoted.as_str(), row.1);
    Ok(())
}

#[test]
fn quotes(rt: HostRuntime) -> Result<(), Fail> {
    for row in &QUOTED {
        check_quote(&rt, rt.alloc(), row)?;
    }
    Ok(())
}

fn text(alloc: Global, characters: &str) -> Result<Text, Fail> {
    Ok(Text::from_str(alloc, characters)?)
}

// A name, and another one twice.
fn named(alloc: Global) -> Result<NamedValues, Fail> {
    let mut named = NamedValues::from_vec(Vec::new(alloc));
    named.push(text(alloc, "a")?, Value::Int(1))?;
    named.push(text(alloc, "b")?, Value::Null)?;
    named.push(text(alloc, "b")?, Value::Bool(true))?;
    Ok(named)
}

#[test]
fn names(rt: HostRuntime) -> Result<(), Fail> {
    let mut named = named(rt.alloc())?;
    named.set("b", Value::Int(2));
    named.set("c", Value::Int(3));
    assert!(rt; matches!(named.get("b"), Some(Value::Int(2))) && named.get("c").is_none());
    assert!(rt; named.len() == 3 && named.as_slice().len() == 3);
    assert!(rt; matches!(named.into_vec().last(), Some((_, Value::Bool(true)))));
    Ok(())
}

pub(crate) fn value_of(alloc: Global, text: &str) -> Result<Value, Fail> {
    let json = serde_json::Value::from_str(alloc, text)?;
    Ok(Value::from_json(alloc, &json)?)
}

// The text of a value that isn't undefined.
fn shown(alloc: Global, value: &Value) -> Result<Option<Text>, Fail> {
    match value {
        Value::Undefined => Ok(None),
        other => Ok(Some(other.text_of(alloc)?)),
    }
}

fn is_shown(found: &Option<Text>, wanted: &Option<&str>) -> bool {
    match (found, wanted) {
        (Some(found), Some(wanted)) => found.is(wanted),
        (None, None) => true,
        _ => false,
    }
}

// A character so many times.
fn repeated(alloc: Global, n: u32, character: char) -> Result<String, Fail> {
    let mut text = String::new(alloc);
    for _ in 0..n {
        text.push(character)?;
    }
    Ok(text)
}

// `n` arrays, each in the one before, round a text.
fn nested(alloc: Global, n: u32, inside: &str) -> Result<String, Fail> {
    let mut text = repeated(alloc, n, '[')?;
    let ends = repeated(alloc, n, ']')?;
    text.push_str(inside)?;
    text.push_str(ends.as_str())?;
    Ok(text)
}

// Whether a value is the same as its copies.
fn is_its_copies(value: &Value) -> Result<bool, Fail> {
    let copy = value.copy()?;
    let data = value.data_of()?;
    Ok(copy.same(value) && data.same(value))
}

// Whether a value has the text and the attribute of a row.
fn has_texts(alloc: Global, value: &Value, row: &Rule) -> Result<bool, Fail> {
    let shown = value.text_of(alloc)?;
    let found = value.attr_of(alloc)?;
    Ok(shown.is(row.2) && is_shown(&found, &row.3))
}

fn check_rule(rt: &impl Abort, alloc: Global, row: &Rule) -> Result<(), Fail> {
    let value = value_of(alloc, row.0)?;
    assert_eq!(rt; value.truthy(), row.1, "{}", row.0);
    let has_texts = has_texts(alloc, &value, row)?;
    let is_its_copies = is_its_copies(&value)?;
    assert!(rt; has_texts && is_its_copies, "{}", row.0);
    Ok(())
}

#[test]
fn rules(rt: HostRuntime) -> Result<(), Fail> {
    for row in &RULES {
        check_rule(&rt, rt.alloc(), row)?;
    }
    Ok(())
}

fn check_pair(rt: &impl Abort, alloc: Global, row: &(&str, &str, bool)) -> Result<(), Fail> {
    let one = value_of(alloc, row.0)?;
    let with = value_of(alloc, row.1)?;
    assert_eq!(rt; one.same(&with), row.2, "{}", row.1);
    Ok(())
}

#[test]
fn pairs(rt: HostRuntime) -> Result<(), Fail> {
    for row in &PAIRS {
        check_pair(&rt, rt.alloc(), row)?;
    }
    Ok(())
}

// Whether the property of a row has its text, and whether it is what is found.
fn property(alloc: Global, value: &Value, row: &Property) -> Result<(bool, bool), Fail> {
    let found = value.property(row.1)?;
    let text = shown(alloc, &found)?;
    Ok((is_shown(&text, &row.2), value.find(row.1).same(&found)))
}

fn property_of(alloc: Global, row: &Property) -> Result<(bool, bool), Fail> {
    let value = value_of(alloc, row.0)?;
    property(alloc, &value, row)
}

fn check_property(rt: &impl Abort, alloc: Global, row: &Property) -> Result<(), Fail> {
    let (is_shown, is_found) = property_of(alloc, row)?;
    assert!(rt; is_shown, "{} of {}", row.1, row.0);
    assert!(rt; is_found, "{} of {}", row.1, row.0);
    Ok(())
}

#[test]
fn properties(rt: HostRuntime) -> Result<(), Fail> {
    for row in &PROPERTIES {
        check_property(&rt, rt.alloc(), row)?;
    }
    Ok(())
}

fn shown_key(alloc: Global, value: &Value, row: &Key) -> Result<Option<Text>, Fail> {
    let found = key_of(value, row.1, row.2)?;
    shown(alloc, &found)
}

fn key(alloc: Global, row: &Key) -> Result<Option<Text>, Fail> {
    let value = value_of(alloc, row.0)?;
    shown_key(alloc, &value, row)
}

fn check_key(rt: &impl Abort, alloc: Global, row: &Key) -> Result<(), Fail> {
    let text = key(alloc, row)?;
    assert!(rt; is_shown(&text, &row.3), "{} of {}", row.2, row.0);
    Ok(())
}

#[test]
fn keys(rt: HostRuntime) -> Result<(), Fail> {
    for row in &KEYS {
        check_key(&rt, rt.alloc(), row)?;
    }
    Ok(())
}

// Why a JSON text is no value, and none where it is one.
fn fault_of(alloc: Global, text: &str) -> Result<Option<JsonFault>, Fail> {
    let json = serde_json::Value::from_str(alloc, text)?;
    Ok(Value::from_json(alloc, &json).err())
}

fn check_fault(rt: &impl Abort, alloc: Global, row: &(&str, JsonFault)) -> Result<(), Fail> {
    let found = fault_of(alloc, row.0)?;
    assert_eq!(rt; found, Some(row.1), "{}", row.0);
    Ok(())
}

#[test]
fn faults(rt: HostRuntime) -> Result<(), Fail> {
    for row in &FAULTS {
        check_fault(&rt, rt.alloc(), row)?;
    }
    Ok(())
}

fn check_depth(rt: &impl Abort, alloc: Global, row: &Depth) -> Result<(), Fail> {
    let text = nested(alloc, row.0, row.1)?;
    let found = fault_of(alloc, text.as_str())?;
    assert_eq!(rt; found, row.2, "{} round {}", row.0, row.1);
    Ok(())
}

#[test]
fn depths(rt: HostRuntime) -> Result<(), Fail> {
    for row in &DEPTHS {
        check_depth(&rt, rt.alloc(), row)?;
    }
    Ok(())
}

// The list of one value.
pub(crate) fn list_of(alloc: Global, value: Value) -> Result<List, AllocError> {
    let mut items = ListBuilder::new(alloc);
    items.push(value)?;
    items.build()
}

// The action `go` of instance 7, with the fixed argument 1.
fn action(alloc: Global) -> Result<Value, Fail> {
    let fixed = list_of(alloc, Value::Int(1))?;
    let action = Act::new(alloc, 7, text(alloc, "go")?, fixed)?;
    Ok(Value::Act(action))
}

// The text of an action, which is no attribute.
fn check_texts(rt: &impl Abort, alloc: Global, action: &Value) -> Result<(), Fail> {
    let text = action.text_of(alloc)?;
    let attribute = action.attr_of(alloc)?;
    assert_eq!(rt; text.as_str(), "[action go]");
    assert!(rt; attribute.is_none());
    Ok(())
}

fn check_undefined(rt: &impl Abort, value: Value) {
    assert!(rt; matches!(value, Value::Undefined));
}

// An action is no data and no key.
fn check_data(rt: &impl Abort, action: &Value) -> Result<(), Fail> {
    check_undefined(rt, action.data_of()?);
    check_undefined(rt, key_of(action, 0, "@identity")?);
    Ok(())
}

fn check_copy(rt: &impl Abort, action: &Value) -> Result<(), Fail> {
    let copy = action.copy()?;
    assert!(rt; action.truthy() && action.same(&copy));
    Ok(())
}

#[test]
fn actions(rt: HostRuntime) -> Result<(), Fail> {
    let go = action(rt.alloc())?;
    check_copy(&rt, &go)?;
    check_texts(&rt, rt.alloc(), &go)?;
    check_data(&rt, &go)
}

// A record with an action at `a` and an empty list at `b`.
fn record(alloc: Global) -> Result<Record, Fail> {
    let mut record = RecordBuilder::new(alloc);
    record.push(text(alloc, "a")?, action(alloc)?)?;
    record.push(text(alloc, "b")?, Value::List(List::new(alloc)?))?;
    Ok(record.build()?)
}

// What is found in the record: the action itself, and no data at `a`; the length of the list at `b`.
fn check_found(rt: &impl Abort, value: &Value) -> Result<(), Fail> {
    assert!(rt; matches!(value.find("a"), Found::Lent(Value::Act(_))));
    let data = value.data_of()?;
    check_undefined(rt, data.property("a")?);
    Ok(())
}

fn check_keys(rt: &impl Abort, value: &Value) -> Result<(), Fail> {
    check_undefined(rt, key_of(value, 0, "a")?);
    let length = value.find_path("b.length").copy()?;
    assert!(rt; matches!(length, Value::Int(0)));
    Ok(())
}

#[test]
fn records(rt: HostRuntime) -> Result<(), Fail> {
    let record = record(rt.alloc())?;
    assert!(rt; record.len() == 2 && record.as_slice().len() == 2 && record.get("c").is_none());
    let value = Value::Record(record);
    check_found(&rt, &value)?;
    check_keys(&rt, &value)
}

// The list of the record, which was let go and made again.
fn list_of_record(alloc: Global) -> Result<List, Fail> {
    let pairs = record(alloc)?.into_vec()?;
    let record = Record::from_vec(pairs)?;
    let mut items = ListBuilder::from_vec(Vec::new(alloc));
    items.push(Value::Record(record))?;
    Ok(items.build()?)
}

fn len_of_copy(list: &List) -> Result<usize, Fail> {
    Ok(list.copy()?.into_vec()?.len())
}

#[test]
fn lists(rt: HostRuntime) -> Result<(), Fail> {
    let list = list_of_record(rt.alloc())?;
    assert!(rt; list.len() == 1 && !list.is_empty() && list.get(1).is_none());
    assert!(rt; list.as_slice().len() == 1 && len_of_copy(&list)? == 1);
    Ok(())
}

#[test]
fn laws_at_types(_: HostRuntime) -> Result<(), Fail> {
    laws::same_decides::<u8>();
    laws::owners_free::<u8, u16, u32>();
    Ok(())
}
