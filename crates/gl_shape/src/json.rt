// The JSON of bytes, and looking into it.
ghost use Rattle.std.specs.Prelude.{◌≡◌, ℕ, IfOk, IfSome, unwrap_or, option_map, option_and_then, OnErr, IsNone};
ghost use Rattle.serde_json.specs.View.{view, members_view, items_view};
ghost use Rattle.serde_json.specs.Find.{get, as_object, as_array, as_str};
ghost use Rattle.gl_value.specs.Json.{from_json};
ghost use Rattle.gl_value.specs.Proper.{IsProper};
ghost use Rattle.gl_value.specs.View as value;
ghost use Rattle.gl_meaning.specs.JsonText.{read_json, members_at, items_at, text_at, has_key, has_inner, member_count, item_count};
ghost use Rattle.gl_meaning.specs.Walk.{is_found, value_at};
ghost use Rattle.gl_shape.specs.View.{Tells};

use crate::PlaceFault;
use gl_value::{JsonFault, Value, json_fault};
use serde_json::Map;
use std::alloc::{AllocError, Global};

/// The JSON value that the bytes hold; `None` where `serde_json` reads none.
#[tactic(auto, using(crate::proofs::Utf8::tested), unfolding(gl_meaning::specs::JsonText::read_json))]
pub fn json_of(alloc: Global, bytes: &[u8]) -> Result<Option<serde_json::Value>, AllocError>
    ensures { IfOk result (λ o. option_map view o ≡ read_json bytes.now) }
{
    match serde_json::Value::from_slice(alloc, bytes) {
        Ok(value) => Ok(Some(value)),
        Err(e) if e.is_memory() => Err(AllocError),
        Err(_) => Ok(None),
    }
}

/// The members of the object at a key, where there is one.
pub fn members_at<'a>(
    json: &'a serde_json::Value,
    key: &str,
) -> Option<&'a Map<String, serde_json::Value>>
    ensures { option_map (λ m. members_view m.now.entries) result ≡ option_and_then as_object (get key.now (view json.now)) }
{
    json.get(key).and_then(serde_json::Value::as_object)
}

/// The items of the array at a key; none where there is no array.
pub fn items_at<'a>(json: &'a serde_json::Value, key: &str) -> &'a [serde_json::Value]
    ensures { items_view result.now ≡ items_at key.now (view json.now) }
{
    match json.get(key).and_then(serde_json::Value::as_array) {
        Some(items) => items.as_slice(),
        None => &[],
    }
}

/// The text at a key; empty where there is none.
pub fn text_at<'a>(json: &'a serde_json::Value, key: &str) -> &'a str
    ensures { result.now ≡ text_at key.now (view json.now) }
{
    match json.get(key).and_then(serde_json::Value::as_str) {
        Some(text) => text,
        None => "",
    }
}

/// Whether it is an object that has the key.
pub fn has_key(json: &serde_json::Value, key: &str) -> bool
    ensures { result ≡ has_key key.now (view json.now) }
{
    json.get(key).is_some()
}

/// Whether what it has at the key `outer` is an object that has the key.
pub fn has_inner(json: &serde_json::Value, outer: &str, key: &str) -> bool
    ensures { result ≡ has_inner outer.now key.now (view json.now) }
{
    match json.get(outer) {
        Some(inner) => inner.get(key).is_some(),
        None => false,
    }
}

/// How many members an object has; 0 for all else.
#[tactic(auto, using(crate::proofs::Counts::counts))]
pub fn member_count(json: &serde_json::Value) -> usize
    ensures { result ≡ member_count (view json.now) }
{
    match json.as_object() {
        Some(members) => members.len(),
        None => 0,
    }
}

/// How many items an array has; 0 for all else.
#[tactic(auto, using(crate::proofs::Counts::counts))]
pub fn item_count(json: &serde_json::Value) -> usize
    ensures { result ≡ item_count (view json.now) }
{
    match json.as_array() {
        Some(items) => items.len(),
        None => 0,
    }
}

/// The value that JSON stands for. Where a number of it is not whole or is too large, and where it is nested too deep, the
/// whole is faulty.
pub fn value_of(alloc: Global, json: &serde_json::Value) -> Result<Value, PlaceFault>
    ensures found { Tells (λ v. value.view v) result (value_at (view json.now)) }
    ensures proper { IfOk result (λ v. IsProper (value.view v)) }
{
    match Value::from_json(alloc, json) {
        Ok(value) => Ok(value),
        Err(JsonFault::Memory) => Err(PlaceFault::Memory),
        Err(_) => Err(PlaceFault::here(alloc)),
    }
}

/// Whether JSON stands for a value, by the same rule as [`value_of`]. No value is made.
pub fn check_value(alloc: Global, json: &serde_json::Value) -> Result<(), PlaceFault>
    ensures { Tells (λ u. tt) result (is_found (value_at {O = ℕ} (view json.now))) }
{
    match json_fault(json) {
        None => Ok(()),
        Some(_) => Err(PlaceFault::here(alloc)),
    }
}
