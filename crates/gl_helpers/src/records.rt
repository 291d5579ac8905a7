// The helpers that make records.
ghost use Rattle.std.specs.Prelude.{◌≡◌, ◌<◌, ◌++◌, [], ◌∷◌, ℕ, IfOk, OnOk, map, nat_eq};
ghost use Rattle.std.specs.declared.cmp.Ordering.TheVariants.{Equal};
ghost use Rattle.gl_value.specs.Helpers.{members_in, raw_value};
ghost use Rattle.gl_value.specs.Proper.{Keeps, KeepAll, KeepMembers};
ghost use Rattle.gl_value.specs.Value as v;
ghost use Rattle.gl_value.specs.Value.{pairs_of, values_of};
ghost use Rattle.gl_value.specs.View.{view, seen_items, seen_pairs, seen_entries};
ghost use Rattle.gl_helpers.specs.Lent.{seen_lent};
ghost use Rattle.gl_helpers.specs.Proper.{AllProper, NamedProper};
ghost use Rattle.gl_helpers.specs.Records.{text_order, put_pair, put_all, changed};
ghost use Rattle.gl_helpers.specs.View.{seen_change};

use crate::argument::Arguments;
use crate::depth::not_deep;
use crate::helper::Change;
use crate::lists::{has_property, items_in};
use crate::wording::text_in;
use gl_value::{List, ListBuilder, NamedValues, Pair, Record, RecordBuilder, Text, Value};
use std::alloc::{AllocError, Global};
use std::cmp::Ordering;
use std::collections::BTreeMap;

// The pairs of a record, none of any other value. It takes no memory.
fn pairs_in(value: &Value) -> &[Pair]
    ensures { pairs_of (seen_pairs result.now) ≡ members_in (view value.now) }
{
    match value {
        Value::Record(record) => record.as_slice(),
        _ => &[],
    }
}

// The order of two texts, by bytes.
fn order_of(one: &Text, with: &Text) -> Ordering
    ensures order { result ≡ text_order one.now with.now }
    ensures same { result ≡ Equal → one.now ≡ with.now }
{
    one.as_str().cmp(with.as_str())
}

// The pairs before the place of a key, and those after it.
fn around<'a>(pairs: &'a [Pair], key: &Text) -> (&'a [Pair], &'a [Pair])
    ensures put { (x : v.Value ℕ) → put_pair key.now x (seen_pairs pairs.now) ≡ seen_pairs result.0.now ++ (key.now, x) ∷ seen_pairs result.1.now }
    ensures keeps { (x : v.Value ℕ) → KeepMembers (pairs_of (seen_pairs pairs.now)) → Keeps x → KeepMembers (pairs_of (put_pair key.now x (seen_pairs pairs.now))) }
{
    for at in 0..pairs.len() {
        match order_of(&pairs[at].key, key) {
            Ordering::Less => {}
            Ordering::Equal => return (&pairs[..at], &pairs[at + 1..]),
            Ordering::Greater => return (&pairs[..at], &pairs[at..]),
        }
    }
    (pairs, &[])
}

// Adds copies of the pairs at the end. Where memory is wanting, some of them may stand there.
fn push_pairs(out: &mut RecordBuilder, pairs: &[Pair]) -> Result<(), AllocError>
    ensures { OnOk result (out.new ≡ out.old ++ seen_pairs pairs.now) }
{
    for pair in pairs {
        out.push(pair.key.copy()?, pair.value.copy()?)?;
    }
    Ok(())
}

// The record of the pairs with a value at a key: in the place of the pair of that key, or else where the key
// belongs in the order of bytes.
fn put(alloc: Global, pairs: &[Pair], key: &Text, value: &Value) -> Result<Record, AllocError>
    ensures value { IfOk result (λ r. r ≡ put_pair key.now (view value.now) (seen_pairs pairs.now)) }
    ensures keeps { IfOk result (λ r. KeepMembers (pairs_of (seen_pairs pairs.now)) → Keeps (view value.now) → KeepMembers (pairs_of r)) }
{
    let (before, after) = around(pairs, key);
    let count = before.len() + 1 + after.len();
    let mut record = RecordBuilder::from_vec(Vec::with_capacity(alloc, count)?);
    push_pairs(&mut record, before)?;
    record.push(key.copy()?, value.copy()?)?;
    push_pairs(&mut record, after)?;
    Ok(record.build()?)
}

// The values under their names, in the order of the names; of values with one name the last.
fn by_name(alloc: Global, named: &[(Text, Value)]) -> Result<BTreeMap<String, &Value>, AllocError>
    ensures { IfOk result (λ m. seen_lent m.entries ≡ put_all [] (seen_entries named.now)) }
{
    let mut map = BTreeMap::new(alloc);
    for (name, value) in named {
        let key = String::from_str(alloc, name.as_str())?;
        map.insert(key, value)?;
    }
    Ok(map)
}

// The record of the named arguments; of those with one name the last.
fn hash(alloc: Global, named: &[(Text, Value)]) -> Result<Record, AllocError>
    ensures value { IfOk result (λ r. r ≡ put_all [] (seen_entries named.now)) }
    ensures keeps { IfOk result (λ r. NamedProper (seen_entries named.now) → KeepMembers (pairs_of r)) }
{
    let mut record = RecordBuilder::new(alloc);
    for (name, value) in by_name(alloc, named)? {
        record.push(Text::from_string(name)?, value.copy()?)?;
    }
    Ok(record.build()?)
}

// What `updateWhere` does to an item: a record whose property of that name is the same as a value gets
// another value at a key.
#[derive(Clone, Copy)]
struct Update<'a> {
    name: &'a Text,
    is: &'a Value,
    key: &'a Text,
    value: &'a Value,
}

// The item as it is after the update.
fn updated(alloc: Global, item: &Value, update: &Update) -> Result<Value, AllocError>
    ensures value { IfOk result (λ v. view v ≡ changed update.now.name.now (view update.now.is.now) update.now.key.now (view update.now.value.now) (view item.now)) }
    ensures keeps { IfOk result (λ v. Keeps (view item.now) → Keeps (view update.now.value.now) → Keeps (view v)) }
{
    match item {
        Value::Record(record) if has_property(item, update.name, update.is) => {
            let pairs = record.as_slice();
            let changed = put(alloc, pairs, update.key, update.value)?;
            Ok(not_deep(Value::Record(changed)))
        }
        _ => item.copy(),
    }
}

// The items as they are after the update.
fn update_where(alloc: Global, items: &[Value], update: &Update) -> Result<List, AllocError>
    ensures value { IfOk result (λ l. l ≡ map (changed update.now.name.now (view update.now.is.now) update.now.key.now (view update.now.value.now)) (seen_items items.now)) }
    ensures keeps { IfOk result (λ l. KeepAll (values_of (seen_items items.now)) → Keeps (view update.now.value.now) → KeepAll (values_of l)) }
{
    let mut list = ListBuilder::from_vec(Vec::with_capacity(alloc, items.len())?);
    for item in items {
        list.push(updated(alloc, item, update)?)?;
    }
    Ok(list.build()?)
}

/// What such a helper gives.
pub fn made(
    alloc: Global,
    helper: Change,
    args: &Arguments,
    named: &NamedValues,
) -> Result<Value, AllocError>
    ensures value { IfOk result (λ v. view v ≡ raw_value nat_eq args.now named.now (seen_change helper)) }
    ensures keeps { IfOk result (λ v. AllProper args.now → NamedProper named.now → Keeps (view v)) }
{
    match helper {
        Change::Hash => Ok(Value::Record(hash(alloc, named.as_slice())?)),
        Change::Put => {
            let key = text_in(alloc, args.at(1))?;
            let record = put(alloc, pairs_in(args.at(0)), key.text(), args.at(2))?;
            Ok(Value::Record(record))
        }
        Change::UpdateWhere => {
            let name = text_in(alloc, args.at(1))?;
            let key = text_in(alloc, args.at(3))?;
            let update = Update {
                name: name.text(),
                is: args.at(2),
                key: key.text(),
                value: args.at(4),
            };
            Ok(Value::List(update_where(alloc, items_in(args.at(0)), &update)?))
        }
    }
}
