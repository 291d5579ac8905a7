// Reads events.
ghost use Rattle.std.specs.Prelude.{◌≡◌, option_map};
ghost use Rattle.serde_json.specs.Data.{Data};
ghost use Rattle.serde_json.specs.View.{view, items_view};
ghost use Rattle.serde_json.specs.Find.{as_array};
ghost use Rattle.gl_value.specs.Value.{plain};
ghost use Rattle.gl_value.specs.View as value;
ghost use Rattle.gl_meaning.specs.App as a;
ghost use Rattle.gl_meaning.specs.ScriptOf as s;
ghost use Rattle.gl_meaning.specs.View.{event_view};
ghost use Rattle.gl_meaning.specs.Walk.{given, ◌then◌, value_at};
ghost use Rattle.gl_shape.specs.View.{Tells};

use gl_meaning::{Event, Events};
use gl_shape::{
    ItemReader, PlaceFault, at_key, has_key, member_count, read_items, take_items, value_of,
};
use gl_value::{Text, Value};
use std::alloc::Global;

// The greatest number that a node may have in a script.
const GREATEST_NODE: u64 = 9_007_199_254_740_991;

fn is_set(json: &serde_json::Value) -> bool
    ensures { result ≡ s.is_set (view json.now) }
{
    member_count(json) == 2 && has_key(json, "set") && has_key(json, "to")
}

fn is_fire(json: &serde_json::Value) -> bool
    ensures { result ≡ s.is_fire (view json.now) }
{
    let members = if has_key(json, "data") { 3 } else { 2 };
    member_count(json) == members && has_key(json, "event") && has_key(json, "fire")
}

fn is_batch(json: &serde_json::Value) -> bool
    ensures { result ≡ s.is_batch (view json.now) }
{
    member_count(json) == 1 && has_key(json, "batch")
}

// The text, the node and the value of a member, and of the member at a key.

fn text_of(alloc: Global, member: Option<&serde_json::Value>) -> Result<Text, PlaceFault>
    ensures { Tells (λ t. t) result (given (option_map (λ m. view m.now) member.entry) then s.text_found) }
{
    match member.and_then(serde_json::Value::as_str) {
        Some(text) => Ok(Text::from_str(alloc, text)?),
        None => Err(PlaceFault::here(alloc)),
    }
}

fn node_of(alloc: Global, member: Option<&serde_json::Value>) -> Result<u64, PlaceFault>
    ensures { Tells (λ n. n) result (given (option_map (λ m. view m.now) member.entry) then s.node_found) }
{
    match member.and_then(serde_json::Value::as_u64) {
        Some(node) if 0 < node && node <= GREATEST_NODE => Ok(node),
        _ => Err(PlaceFault::here(alloc)),
    }
}

#[tactic(auto, using(gl_shape::proofs::Walks::tells_under))]
fn text_at(alloc: Global, key: &str, json: &serde_json::Value) -> Result<Text, PlaceFault>
    ensures { Tells (λ t. t) result (s.at_key key.now s.text_found (view json.now)) }
{
    let found = text_of(alloc, json.get(key));
    at_key(alloc, key, found)
}

#[tactic(auto, using(gl_shape::proofs::Walks::tells_under))]
fn node_at(alloc: Global, key: &str, json: &serde_json::Value) -> Result<u64, PlaceFault>
    ensures { Tells (λ n. n) result (s.at_key key.now s.node_found (view json.now)) }
{
    let found = node_of(alloc, json.get(key));
    at_key(alloc, key, found)
}

fn value_at(alloc: Global, key: &str, json: &serde_json::Value) -> Result<Value, PlaceFault>
    ensures { Tells (λ v. value.view v) result (s.at_key key.now value_at (view json.now)) }
{
    let found = match json.get(key) {
        Some(member) => value_of(alloc, member),
        None => Err(PlaceFault::here(alloc)),
    };
    at_key(alloc, key, found)
}

fn read_set(alloc: Global, json: &serde_json::Value) -> Result<Event, PlaceFault>
    ensures { Tells event_view result (s.set_found (view json.now)) }
{
    let field = text_at(alloc, "set", json)?;
    let to = value_at(alloc, "to", json)?;
    Ok(Event::Set { field, to })
}

fn read_payload(alloc: Global, json: &serde_json::Value) -> Result<Value, PlaceFault>
    ensures { Tells (λ v. plain (value.view v)) result (s.payload_found (view json.now)) }
{
    if has_key(json, "data") {
        let value = value_at(alloc, "data", json)?;
        Ok(value)
    } else {
        Ok(Value::Undefined)
    }
}

fn read_fire(alloc: Global, json: &serde_json::Value) -> Result<Event, PlaceFault>
    ensures { Tells event_view result (s.fire_found (view json.now)) }
{
    let payload = read_payload(alloc, json)?;
    let name = text_at(alloc, "event", json)?;
    let node = node_at(alloc, "fire", json)?;
    Ok(Event::Fire {
        node,
        name,
        payload,
    })
}

// An event that is no batch.
#[tactic(auto, unfolding(gl_meaning::specs::ScriptOf::simple_found))]
fn read_simple(alloc: Global, json: &serde_json::Value) -> Result<Event, PlaceFault>
    ensures { Tells event_view result (s.simple_found (view json.now)) }
{
    if is_set(json) {
        read_set(alloc, json)
    } else if is_fire(json) {
        read_fire(alloc, json)
    } else {
        Err(PlaceFault::here(alloc))
    }
}

// The items of an array.
fn items_of(alloc: Global, json: &serde_json::Value) -> Result<&[serde_json::Value], PlaceFault>
    ensures { Tells (λ ds. items_view ds.now) result (given (as_array (view json.now))) }
{
    match json.as_array() {
        Some(items) => Ok(items.as_slice()),
        None => Err(PlaceFault::here(alloc)),
    }
}

// How the events of a batch are read.
struct Simple;

impl ItemReader for Simple {
    ghost use Rattle.gl_meaning.specs.App as a;
    ghost use Rattle.gl_meaning.specs.ScriptOf as s;
    ghost use Rattle.gl_meaning.specs.View.{event_view};

    type Item = Event;

    ghost Seen = { a.Event };

    ghost seen = { event_view };

    ghost reads = { λ r d. s.simple_found d };

    fn read(&self, alloc: Global, value: &serde_json::Value) -> Result<Event, PlaceFault> {
        read_simple(alloc, value)
    }
}

fn read_batch(alloc: Global, json: &serde_json::Value) -> Result<Event, PlaceFault>
    ensures { Tells event_view result (s.batch_found (view json.now)) }
{
    let items = items_of(alloc, json)?;
    let events = read_items(alloc, &Simple, items)?;
    Ok(Event::Batch(Events::from_vec(events)))
}

fn batch_at(alloc: Global, key: &str, json: &serde_json::Value) -> Result<Event, PlaceFault>
    ensures { Tells event_view result (s.at_key key.now s.batch_found (view json.now)) }
{
    let found = match json.get(key) {
        Some(member) => read_batch(alloc, member),
        None => Err(PlaceFault::here(alloc)),
    };
    at_key(alloc, key, found)
}

#[tactic(auto, unfolding(gl_meaning::specs::ScriptOf::event_found))]
fn read_event(alloc: Global, json: &serde_json::Value) -> Result<Event, PlaceFault>
    ensures { Tells event_view result (s.event_found (view json.now)) }
{
    if is_batch(json) {
        batch_at(alloc, "batch", json)
    } else {
        read_simple(alloc, json)
    }
}

// How the events of a script are read.
struct Any;

impl ItemReader for Any {
    ghost use Rattle.gl_meaning.specs.App as a;
    ghost use Rattle.gl_meaning.specs.ScriptOf as s;
    ghost use Rattle.gl_meaning.specs.View.{event_view};

    type Item = Event;

    ghost Seen = { a.Event };

    ghost seen = { event_view };

    ghost reads = { λ r d. s.event_found d };

    fn read(&self, alloc: Global, value: &serde_json::Value) -> Result<Event, PlaceFault> {
        read_event(alloc, value)
    }
}

/// The events of a script. The JSON of each event is let go once it is read.
pub fn read_events(alloc: Global, json: serde_json::Value) -> Result<Events, PlaceFault>
    ensures { Tells (λ es. es) result (s.script_found (view json)) }
{
    match json {
        serde_json::Value::Array(items) => {
            let events = take_items(alloc, &Any, items)?;
            Ok(Events::from_vec(events))
        }
        _ => Err(PlaceFault::here(alloc)),
    }
}
