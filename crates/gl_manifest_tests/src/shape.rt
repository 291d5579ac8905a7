ghost use Rattle.serde_json.specs.View.{view};
ghost use Rattle.gl_shape.specs.View.{Tells};
ghost use Rattle.gl_meaning.specs.ManifestOf.{text_found};
ghost use Rattle.gl_meaning.specs.Walk.{text_check};
ghost use Rattle.std.specs.Prelude.{true};

use gl_shape::{
    ItemReader, ItemRule, MemberReader, MemberRule, PlaceFault, check_array, check_object,
    check_value, has_inner, has_key, is_class_name, is_free_name, is_name, item_count, json_of,
    member_count, read_items_at, read_members_at, take_items, value_of,
};
use gl_value::{Text, Value};
use std::alloc::Global;
use std::process::Abort;
use std::test::Fail;

// Any text.
struct AnyText;

fn is_text(alloc: Global, json: &serde_json::Value) -> Result<(), PlaceFault>
    ensures { Tells (λ u. tt) result (text_check (λ s. true) (view json.now)) }
{
    match json.as_str() {
        Some(_) => Ok(()),
        None => Err(PlaceFault::here(alloc)),
    }
}

impl MemberRule for AnyText {
    ghost rule = { λ s k d. text_check (λ x. true) d };

    fn check(&self, alloc: Global, _: &str, value: &serde_json::Value) -> Result<(), PlaceFault> {
        is_text(alloc, value)
    }
}

impl ItemRule for AnyText {
    ghost rule = { λ s n d. text_check (λ x. true) d };

    fn check(&self, alloc: Global, _: usize, value: &serde_json::Value) -> Result<(), PlaceFault> {
        is_text(alloc, value)
    }
}

impl ItemReader for AnyText {
    ghost use Rattle.gl_base.specs.Texts as t;

    type Item = Text;

    ghost Seen = { t.Text };

    ghost seen = { λ x. x };

    ghost reads = { λ s d. text_found d };

    fn read(&self, alloc: Global, value: &serde_json::Value) -> Result<Text, PlaceFault> {
        match value.as_str() {
            Some(text) => Ok(Text::from_str(alloc, text)?),
            None => Err(PlaceFault::here(alloc)),
        }
    }
}

impl MemberReader for AnyText {
    ghost use Rattle.gl_base.specs.Texts as t;

    type Item = Text;

    ghost Seen = { t.Text };

    ghost seen = { λ x. x };

    ghost reads = { λ s k d. text_found d };

    fn read(&self, alloc: Global, _: &str, value: &serde_json::Value) -> Result<Text, PlaceFault> {
        ItemReader::read(self, alloc, value)
    }
}

fn json(alloc: Global, text: &str) -> Result<serde_json::Value, Fail> {
    Ok(serde_json::Value::from_str(alloc, text)?)
}

fn is_at(found: &Result<(), PlaceFault>, wanted: &str) -> bool {
    match found {
        Err(PlaceFault::At { pointer }) => pointer.is(wanted),
        _ => false,
    }
}

fn check_at(rt: &impl Abort, found: Result<(), PlaceFault>, wanted: &str) {
    assert!(rt; is_at(&found, wanted));
}

fn check_right(rt: &impl Abort, found: Result<(), PlaceFault>) {
    assert!(rt; found.is_ok());
}

#[test]
fn members(rt: HostRuntime) -> Result<(), Fail> {
    let alloc = rt.alloc();
    let right = json(alloc, r#"{"a":"b"}"#)?;
    let wrong = json(alloc, r#"{"b/~":1,"a":"b","c":2}"#)?;
    check_right(&rt, check_object(alloc, true, &AnyText, &right));
    check_at(&rt, check_object(alloc, true, &AnyText, &wrong), "/b~1~0");
    check_at(&rt, check_object(alloc, false, &AnyText, &right), "");
    assert_eq!(rt; member_count(&wrong), 3);
    Ok(())
}

#[test]
fn items(rt: HostRuntime) -> Result<(), Fail> {
    let alloc = rt.alloc();
    let right = json(alloc, r#"["a","b"]"#)?;
    let wrong = json(alloc, r#"["a",1]"#)?;
    check_right(&rt, check_array(alloc, true, &AnyText, &right));
    check_at(&rt, check_array(alloc, true, &AnyText, &wrong), "/1");
    check_at(&rt, check_array(alloc, false, &AnyText, &right), "");
    assert_eq!(rt; item_count(&wrong), 2);
    Ok(())
}

// How many texts an array holds that is let go while it is read.
fn taken(alloc: Global, json: serde_json::Value) -> Result<usize, Fail> {
    match json {
        serde_json::Value::Array(items) => Ok(take_items(alloc, &AnyText, items)?.len()),
        _ => Ok(0),
    }
}

#[test]
fn taken_items(rt: HostRuntime) -> Result<(), Fail> {
    let alloc = rt.alloc();
    let found = json(alloc, r#"["x","y"]"#)?;
    assert_eq!(rt; taken(alloc, found)?, 2);
    Ok(())
}

#[test]
fn read_at_a_key(rt: HostRuntime) -> Result<(), Fail> {
    let alloc = rt.alloc();
    let found = json(alloc, r#"{"a":["x","y"],"b":{"c":"z"}}"#)?;
    assert_eq!(rt; read_items_at(alloc, &AnyText, &found, "a")?.len(), 2);
    assert_eq!(rt; read_members_at(alloc, &AnyText, &found, "b")?.len(), 1);
    assert_eq!(rt; read_members_at(alloc, &AnyText, &found, "c")?.len(), 0);
    assert!(rt; has_key(&found, "a"));
    assert!(rt; has_inner(&found, "b", "c"));
    Ok(())
}

#[test]
fn bytes(rt: HostRuntime) -> Result<(), Fail> {
    let alloc = rt.alloc();
    let none = json_of(alloc, b"[")?;
    assert!(rt; none.is_none());
    let one = json_of(alloc, b" 1 ")?.ok_or("a value")?;
    check_right(&rt, check_value(alloc, &one));
    let value = value_of(alloc, &one)?;
    assert!(rt; matches!(value, Value::Int(1)));
    Ok(())
}

#[test]
fn numbers_that_are_not_whole(rt: HostRuntime) -> Result<(), Fail> {
    let half = json(rt.alloc(), "[1.5]")?;
    check_at(&rt, check_value(rt.alloc(), &half), "");
    Ok(())
}

// Names, and whether each is one, is a free one and is that of a class.
static NAMES: [(&str, bool, bool, bool); 6] = [
    ("a-1$", true, true, false),
    ("this", true, false, false),
    ("1a", false, false, false),
    ("", false, false, false),
    ("A::B1", false, false, true),
    ("A:", false, false, false),
];

fn check_is(rt: &impl Abort, name: &str, found: bool, wanted: bool) {
    assert_eq!(rt; found, wanted, "{name}");
}

fn check_name(rt: &impl Abort, row: &(&str, bool, bool, bool)) {
    let bytes = row.0.as_bytes();
    check_is(rt, row.0, is_name(bytes), row.1);
    check_is(rt, row.0, is_free_name(bytes), row.2);
    check_is(rt, row.0, is_class_name(bytes), row.3);
}

#[test]
fn names(rt: HostRuntime) {
    for row in &NAMES {
        check_name(&rt, row);
    }
}
