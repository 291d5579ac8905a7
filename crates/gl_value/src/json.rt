// Values from JSON.
ghost use Rattle.std.specs.Prelude.{◌≡◌, ◌↔◌, ◌≤◌, ◌<◌, ℕ, true, false, IfOk, OnOk, Ok, Err, Some, None, is_none, option_map, unwrap_or, pos};
ghost use Rattle.serde_json.specs.Data as found;
ghost use Rattle.serde_json.specs.View as seen;
ghost use Rattle.serde_json.specs.Find.{as_integer};
ghost use Rattle.gl_value.specs.Json.{not_whole, too_large, number_fault, integer_fault, first_bad, first_bad_item, first_bad_member, fits, items_fit, members_fit, value_of, items_of, members_of, from_json};
ghost use Rattle.gl_value.specs.Proper.{Keeps, KeepAll, KeepMembers, IsProper};
ghost use Rattle.gl_value.specs.Value.{integer, values_of, pairs_of};
ghost use Rattle.gl_value.specs.View.{view};
ghost use Rattle.gl_value.specs.Faults.{fault_of, fault_told};
ghost use Rattle.gl_value.specs.declared.json.JsonFault.TheVariants.{Memory};

use crate::{DEEPEST, GREATEST, List, ListBuilder, Record, RecordBuilder, Text, Value};
use serde_json::{Map, Number};
use std::alloc::{AllocError, AllocFailed, Global};
use thiserror::Error;

/// Why JSON is read into no value: its first bad number, in the order of indexes and keys, is not whole or is
/// beyond the bounds, or no number is bad and it is nested deeper than [`DEEPEST`]; or memory is wanting.
#[derive(Clone, Copy, Debug, PartialEq, Eq, Error)]
pub enum JsonFault {
    #[error("a number is not whole")]
    NotWhole,
    #[error("a number is too large")]
    TooLarge,
    #[error("nested too deep")]
    TooDeep,
    #[error("out of memory")]
    Memory,
}

impl From<AllocError> for JsonFault {
    ghost from_gives = { λ _ e. e ≡ Memory };

    fn from(_: AllocError) -> Self {
        JsonFault::Memory
    }
}

impl<T: Drop> From<AllocFailed<T>> for JsonFault {
    ghost from_gives = { λ _ e. e ≡ Memory };

    fn from(_: AllocFailed<T>) -> Self {
        JsonFault::Memory
    }
}

fn number_fault(number: &Number) -> Option<JsonFault>
    ensures { result ≡ option_map fault_of (number_fault (seen.number_view number.now)) }
{
    match number.as_i128() {
        None => Some(JsonFault::NotWhole),
        Some(whole) => integer_fault(whole),
    }
}

fn integer_fault(whole: i128) -> Option<JsonFault>
    ensures { result ≡ option_map fault_of (integer_fault (Some whole)) }
{
    if -i128::from(GREATEST) <= whole && whole <= i128::from(GREATEST) {
        None
    } else {
        Some(JsonFault::TooLarge)
    }
}

#[cycle(bad)]
fn first_bad(json: &serde_json::Value) -> Option<JsonFault>
    ensures { result ≡ option_map fault_of (first_bad (seen.view json.now)) }
{
    match json {
        serde_json::Value::Number(number) => number_fault(number),
        serde_json::Value::Array(items) => first_bad_item(items),
        serde_json::Value::Object(members) => first_bad_member(members),
        _ => None,
    }
}

#[cycle(bad)]
fn first_bad_item(items: &Vec<serde_json::Value>) -> Option<JsonFault>
    ensures { result ≡ option_map fault_of (first_bad_item (seen.items_view items.now.items)) }
{
    for item in items {
        let fault = first_bad(item);
        if fault.is_some() {
            return fault;
        }
    }
    None
}

#[cycle(bad)]
fn first_bad_member(members: &Map<String, serde_json::Value>) -> Option<JsonFault>
    ensures { result ≡ option_map fault_of (first_bad_member (seen.members_view members.now.entries)) }
{
    for (_, member) in members.iter() {
        let fault = first_bad(member);
        if fault.is_some() {
            return fault;
        }
    }
    None
}

// Whether no number is bad and it is nested at most so deep.
#[cycle(fits)]
fn fits(json: &serde_json::Value, most: u32) -> bool
    ensures { result ≡ fits most (seen.view json.now) }
{
    match json {
        serde_json::Value::Number(number) => number_fault(number).is_none(),
        serde_json::Value::Array(items) => most > 0 && items_fit(items, most - 1),
        serde_json::Value::Object(members) => most > 0 && members_fit(members, most - 1),
        _ => true,
    }
}

#[cycle(fits)]
fn items_fit(items: &Vec<serde_json::Value>, most: u32) -> bool
    ensures { result ≡ items_fit most (seen.items_view items.now.items) }
{
    for item in items {
        if !fits(item, most) {
            return false;
        }
    }
    true
}

#[cycle(fits)]
fn members_fit(members: &Map<String, serde_json::Value>, most: u32) -> bool
    ensures { result ≡ members_fit most (seen.members_view members.now.entries) }
{
    for (_, member) in members.iter() {
        if !fits(member, most) {
            return false;
        }
    }
    true
}

// Why it is no value.
fn fault(json: &serde_json::Value) -> JsonFault
    ensures { result ≡ unwrap_or (option_map fault_of (first_bad (seen.view json.now))) JsonFault.TooDeep }
{
    first_bad(json).unwrap_or(JsonFault::TooDeep)
}

// No value is made: the JSON doesn't fit, or memory is wanting.
struct Unmade;

impl From<AllocError> for Unmade {
    fn from(_: AllocError) -> Self {
        Unmade
    }
}

// The integer of a number that isn't bad.
fn integer_of(number: &Number) -> Result<i64, Unmade>
    ensures fit { OnOk result (number_fault (seen.number_view number.now) ≡ None) }
    ensures value { IfOk result (λ i. i ≡ unwrap_or (as_integer (seen.number_view number.now)) (pos 0)) }
{
    if number_fault(number).is_none() {
        Ok(number.as_i64().unwrap_or(0))
    } else {
        Err(Unmade)
    }
}

// The value of JSON that has no bad number and is nested at most so deep.
#[cycle(whole)]
fn value_of(alloc: Global, json: &serde_json::Value, most: u32) -> Result<Value, Unmade>
    ensures value { IfOk result (λ v. view v ≡ value_of (seen.view json.now)) }
    ensures keeps { IfOk result (λ v. Keeps (view v)) }
    ensures fit { OnOk result (fits most (seen.view json.now) ≡ true) }
{
    match json {
        serde_json::Value::Null => Ok(Value::Null),
        serde_json::Value::Bool(b) => Ok(Value::Bool(*b)),
        serde_json::Value::Number(number) => Ok(Value::Int(integer_of(number)?)),
        serde_json::Value::String(text) => Ok(Value::Text(Text::from_str(alloc, text.as_str())?)),
        _ if most == 0 => Err(Unmade),
        serde_json::Value::Array(items) => Ok(Value::List(list_of(alloc, items, most - 1)?)),
        serde_json::Value::Object(members) => {
            Ok(Value::Record(record_of(alloc, members, most - 1)?))
        }
    }
}

#[cycle(whole)]
fn list_of(alloc: Global, items: &Vec<serde_json::Value>, most: u32) -> Result<List, Unmade>
    ensures value { IfOk result (λ l. l ≡ items_of (seen.items_view items.now.items)) }
    ensures keeps { IfOk result (λ l. KeepAll (values_of l)) }
    ensures fit { OnOk result (items_fit most (seen.items_view items.now.items) ≡ true) }
{
    let mut list = ListBuilder::from_vec(Vec::with_capacity(alloc, items.len())?);
    for item in items {
        list.push(value_of(alloc, item, most)?)?;
    }
    Ok(list.build()?)
}

#[cycle(whole)]
fn record_of(
    alloc: Global,
    members: &Map<String, serde_json::Value>,
    most: u32,
) -> Result<Record, Unmade>
    ensures value { IfOk result (λ r. r ≡ members_of (seen.members_view members.now.entries)) }
    ensures keeps { IfOk result (λ r. KeepMembers (pairs_of r)) }
    ensures fit { OnOk result (members_fit most (seen.members_view members.now.entries) ≡ true) }
{
    let mut record = RecordBuilder::from_vec(Vec::with_capacity(alloc, members.len())?);
    for (name, member) in members.iter() {
        let key = Text::from_str(alloc, name.as_str())?;
        record.push(key, value_of(alloc, member, most)?)?;
    }
    Ok(record.build()?)
}

/// Why JSON stands for no value: the first bad number, or its depth where no number is bad. `None` where
/// [`Value::from_json`] has a value to give. It takes no memory.
pub fn json_fault(json: &serde_json::Value) -> Option<JsonFault>
    ensures { result ≡ fault_told (from_json {O = ℕ} (seen.view json.now)) }
{
    if fits(json, DEEPEST) {
        None
    } else {
        Some(fault(json))
    }
}

impl Value {
    /// The value that JSON stands for: null, Booleans, strings, arrays and objects in the plain way, and
    /// integers within plus or minus [`GREATEST`]. It goes through the JSON once where there is a value.
    pub fn from_json(alloc: Global, json: &serde_json::Value) -> Result<Value, JsonFault>
        ensures value { IfOk result (λ v. from_json (seen.view json.now) ≡ Ok (view v)) }
        ensures proper { IfOk result (λ v. IsProper (view v)) }
        ensures not_whole { (result ≡ Err JsonFault.NotWhole) ↔ (first_bad (seen.view json.now) ≡ Some not_whole) }
        ensures too_large { (result ≡ Err JsonFault.TooLarge) ↔ (first_bad (seen.view json.now) ≡ Some too_large) }
        ensures too_deep { (result ≡ Err JsonFault.TooDeep) ↔ ((first_bad (seen.view json.now) ≡ None) × (100 < found.depth (seen.view json.now))) }
    {
        match value_of(alloc, json, DEEPEST) {
            Ok(value) => Ok(value),
            Err(Unmade) => Err(json_fault(json).unwrap_or(JsonFault::Memory)),
        }
    }
}
