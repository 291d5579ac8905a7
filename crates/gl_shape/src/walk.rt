// Walks over members and items.
ghost use Rattle.std.specs.Prelude.{◌≡◌, ℕ, List, ⊤, map};
ghost use Rattle.serde_json.specs.Data.{Data};
ghost use Rattle.serde_json.specs.View.{view, members_view, items_view};
ghost use Rattle.gl_meaning.specs.Walk.{Found, check_members, check_items, read_members, read_items, object_check, array_check, under};
ghost use Rattle.gl_meaning.specs.JsonText.{members_at, items_at};
ghost use Rattle.gl_meaning.specs.Pointer.{key_step, item_step};
ghost use Rattle.gl_shape.specs.View.{Tells};

use crate::{PlaceFault, at_item, at_key, items_at, members_at};
use serde_json::Map;
use std::alloc::Global;

/// What the members of an object have to be.
pub trait MemberRule {
    /// Whether a member with this key is right, or else its first faulty place, from the member on.
    ghost rule: { Self → List ℕ → Data → Found ⊤ };

    fn check(&self, alloc: Global, key: &str, value: &serde_json::Value) -> Result<(), PlaceFault>
        ensures { Tells (λ u. tt) result (rule self.now key.now (view value.now)) };
}

/// What the items of an array have to be.
pub trait ItemRule {
    /// Whether the item at a place is right, or else its first faulty place, from the item on.
    ghost rule: { Self → ℕ → Data → Found ⊤ };

    fn check(
        &self,
        alloc: Global,
        place: usize,
        value: &serde_json::Value,
    ) -> Result<(), PlaceFault>
        ensures { Tells (λ u. tt) result (rule self.now place (view value.now)) };
}

/// Checks each member, in the order of the keys. The pointer of a fault begins at the object.
pub fn check_members<R: MemberRule>(
    alloc: Global,
    rule: &R,
    members: &Map<String, serde_json::Value>,
) -> Result<(), PlaceFault>
    ensures { Tells (λ u. tt) result (check_members (R.rule rule.now) (members_view members.now.entries)) }
{
    for (key, value) in members.iter() {
        let checked = rule.check(alloc, key.as_str(), value);
        at_key(alloc, key.as_str(), checked)?;
    }
    Ok(())
}

/// Checks each item, in order. The pointer of a fault begins at the array.
pub fn check_items<R: ItemRule>(
    alloc: Global,
    rule: &R,
    items: &[serde_json::Value],
) -> Result<(), PlaceFault>
    ensures { Tells (λ u. tt) result (check_items (R.rule rule.now) 0 (items_view items.now)) }
{
    for (place, value) in items.iter().enumerate() {
        let checked = rule.check(alloc, place, value);
        at_item(alloc, place, checked)?;
    }
    Ok(())
}

/// Checks an object that fits as a whole, member by member. All else is faulty itself.
pub fn check_object<R: MemberRule>(
    alloc: Global,
    fits: bool,
    rule: &R,
    json: &serde_json::Value,
) -> Result<(), PlaceFault>
    ensures { Tells (λ u. tt) result (object_check fits (R.rule rule.now) (view json.now)) }
{
    match json.as_object() {
        Some(members) if fits => check_members(alloc, rule, members),
        _ => Err(PlaceFault::here(alloc)),
    }
}

/// Checks an array that fits as a whole, item by item. All else is faulty itself.
pub fn check_array<R: ItemRule>(
    alloc: Global,
    fits: bool,
    rule: &R,
    json: &serde_json::Value,
) -> Result<(), PlaceFault>
    ensures { Tells (λ u. tt) result (array_check fits (R.rule rule.now) (view json.now)) }
{
    match json.as_array() {
        Some(items) if fits => check_items(alloc, rule, items.as_slice()),
        _ => Err(PlaceFault::here(alloc)),
    }
}

/// How the members of an object are read.
pub trait MemberReader {
    type Item: Drop;

    /// What definitions see of what is read.
    ghost Seen: { Type 0 };

    ghost seen: { Self.Item → Self.Seen };

    /// What a member with this key reads as, or its first faulty place, from the member on.
    ghost reads: { Self → List ℕ → Data → Found Self.Seen };

    fn read(
        &self,
        alloc: Global,
        key: &str,
        value: &serde_json::Value,
    ) -> Result<Self::Item, PlaceFault>
        ensures { Tells seen result (reads self.now key.now (view value.now)) };
}

/// How the items of an array are read.
pub trait ItemReader {
    type Item: Drop;

    /// What definitions see of what is read.
    ghost Seen: { Type 0 };

    ghost seen: { Self.Item → Self.Seen };

    /// What an item reads as, or its first faulty place, from the item on.
    ghost reads: { Self → Data → Found Self.Seen };

    fn read(&self, alloc: Global, value: &serde_json::Value) -> Result<Self::Item, PlaceFault>
        ensures { Tells seen result (reads self.now (view value.now)) };
}

/// Reads each member, in the order of the keys. The pointer of a fault begins at the object.
pub fn read_members<R: MemberReader>(
    alloc: Global,
    reader: &R,
    members: &Map<String, serde_json::Value>,
) -> Result<Vec<R::Item>, PlaceFault>
    ensures { Tells (λ v. map R.seen v.items) result (read_members (R.reads reader.now) (members_view members.now.entries)) }
{
    let mut list = Vec::new(alloc);
    for (key, value) in members.iter() {
        let read = reader.read(alloc, key.as_str(), value);
        let item = at_key(alloc, key.as_str(), read)?;
        list.push(item)?;
    }
    Ok(list)
}

/// Reads each item, in order. The pointer of a fault begins at the array.
pub fn read_items<R: ItemReader>(
    alloc: Global,
    reader: &R,
    items: &[serde_json::Value],
) -> Result<Vec<R::Item>, PlaceFault>
    ensures { Tells (λ v. map R.seen v.items) result (read_items (R.reads reader.now) 0 (items_view items.now)) }
{
    let mut list = Vec::new(alloc);
    for (place, value) in items.iter().enumerate() {
        let read = reader.read(alloc, value);
        let item = at_item(alloc, place, read)?;
        list.push(item)?;
    }
    Ok(list)
}

// The item at a place, which is let go once it is read.
#[tactic(auto, using(crate::proofs::Walks::tells_under))]
fn take_item<R: ItemReader>(
    alloc: Global,
    reader: &R,
    place: usize,
    value: serde_json::Value,
) -> Result<R::Item, PlaceFault>
    ensures { Tells R.seen result (under (item_step place) (R.reads reader.now (view value))) }
{
    let read = reader.read(alloc, &value);
    at_item(alloc, place, read)
}

/// Reads each item, in order, and lets it go once it is read. The pointer of a fault begins at the array.
pub fn take_items<R: ItemReader>(
    alloc: Global,
    reader: &R,
    items: Vec<serde_json::Value>,
) -> Result<Vec<R::Item>, PlaceFault>
    ensures { Tells (λ v. map R.seen v.items) result (read_items (R.reads reader.now) 0 (items_view items.items)) }
{
    let mut waiting = items;
    waiting.reverse();
    let mut list = Vec::new(alloc);
    while let Some(value) = waiting.pop() {
        let item = take_item(alloc, reader, list.len(), value)?;
        list.push(item)?;
    }
    Ok(list)
}

/// Reads each member of the object at a key; there are none where there is no object.
#[tactic(auto, using(crate::proofs::Walks::tells_under))]
pub fn read_members_at<R: MemberReader>(
    alloc: Global,
    reader: &R,
    json: &serde_json::Value,
    key: &str,
) -> Result<Vec<R::Item>, PlaceFault>
    ensures { Tells (λ v. map R.seen v.items) result (under (key_step key.now) (read_members (R.reads reader.now) (members_at key.now (view json.now)))) }
{
    match members_at(json, key) {
        Some(members) => {
            let read = read_members(alloc, reader, members);
            at_key(alloc, key, read)
        }
        None => Ok(Vec::new(alloc)),
    }
}

/// Reads each item of the array at a key; there are none where there is no array.
#[tactic(auto, using(crate::proofs::Walks::tells_under))]
pub fn read_items_at<R: ItemReader>(
    alloc: Global,
    reader: &R,
    json: &serde_json::Value,
    key: &str,
) -> Result<Vec<R::Item>, PlaceFault>
    ensures { Tells (λ v. map R.seen v.items) result (under (key_step key.now) (read_items (R.reads reader.now) 0 (items_at key.now (view json.now)))) }
{
    let read = read_items(alloc, reader, items_at(json, key));
    at_key(alloc, key, read)
}
