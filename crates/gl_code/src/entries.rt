// The items of a list, as an `each` renders them.
ghost use Rattle.std.specs.Prelude.{◌≡◌, [], IfOk, map};
ghost use Rattle.std.specs.List.{zip, enumerate_from};
ghost use Rattle.gl_value.specs.View.{view};
ghost use Rattle.gl_value.specs.Value.{count_value};
ghost use Rattle.gl_meaning.specs.Render.{entries, values_listed};
ghost use Rattle.gl_each.specs.Key.{entry_keys};
ghost use Rattle.gl_each.specs.View.{seen_keys};
ghost use Rattle.gl_vm.specs.Labels.{labelled};
ghost use Rattle.gl_code.specs.Entries.{seen_left};

use gl_each::{Key, Keys, keys};
use gl_value::{GREATEST, List, Text, Value};
use std::alloc::{AllocError, Global};

/// A count or an index, at most the greatest integer.
pub fn counted(count: u64) -> Value
    ensures { view result ≡ count_value count }
{
    if count < GREATEST as u64 {
        Value::Int(count as i64)
    } else {
        Value::Int(GREATEST)
    }
}

// The items with their keys, in order.
fn paired(alloc: Global, keys: Vec<Key>, values: Vec<Value>) -> Result<Vec<Entry>, AllocError>
    ensures { IfOk result (λ es. es.items ≡ map (λ p. record { key = p.1.0.value; occurrence = p.1.0.occurrence; value = p.1.1; index = p.0 }) (enumerate_from 0 (zip keys.items values.items))) }
{
    keys.into_iter()
        .zip(values)
        .enumerate()
        .map(|(index, (key, value))| Entry {
            key: key.value,
            occurrence: key.occurrence,
            value,
            index: index as u64,
        })
        .collect(alloc)
}

// Copies of keys.
fn copied(alloc: Global, keys: &[Key]) -> Result<Vec<Key>, AllocError>
    ensures { IfOk result (λ ks. seen_keys ks.items ≡ seen_keys keys.now) }
{
    let mut list = Vec::with_capacity(alloc, keys.len())?;
    for key in keys {
        let value = key.value.copy()?;
        list.push(Key {
            value,
            occurrence: key.occurrence,
        })?;
    }
    Ok(list)
}

// The keys of a list's items, and the items, the first one last.
fn of_list(alloc: Global, list: List, key: &Text) -> Result<(Keys, Vec<Entry>), AllocError>
    ensures entries { IfOk result (λ r. seen_left r.1.items ≡ entries key.now 0 [] (values_listed (labelled (view (Value.List list))))) }
    ensures keys { IfOk result (λ r. r.0 ≡ entry_keys (entries key.now 0 [] (values_listed (labelled (view (Value.List list)))))) }
{
    let found = keys(alloc, list.as_slice(), key.as_str())?;
    let copies = copied(alloc, found.as_slice())?;
    let mut entries = paired(alloc, copies, list.into_vec()?)?;
    entries.reverse();
    Ok((found, entries))
}

/// The items of a value that is a list, by a key text, the first one last, with their keys in order. Any other value has none.
pub fn keyed_items_of(
    alloc: Global,
    value: Value,
    key: &Text,
) -> Result<(Keys, Vec<Entry>), AllocError>
    ensures entries { IfOk result (λ r. seen_left r.1.items ≡ entries key.now 0 [] (values_listed (labelled (view value)))) }
    ensures keys { IfOk result (λ r. r.0 ≡ entry_keys (entries key.now 0 [] (values_listed (labelled (view value))))) }
{
    match value {
        Value::List(list) => of_list(alloc, list, key),
        _ => Ok((Keys::new(alloc), Vec::new(alloc))),
    }
}

/// The items of a value that is a list, by a key text, the first one last. Any other value has none.
pub fn items_of(alloc: Global, value: Value, key: &Text) -> Result<Vec<Entry>, AllocError>
    ensures { IfOk result (λ es. seen_left es.items ≡ entries key.now 0 [] (values_listed (labelled (view value)))) }
{
    let (_, entries) = keyed_items_of(alloc, value, key)?;
    Ok(entries)
}

/// An entry of a list that is to be rendered.
#[derive(Drop)]
pub struct Entry {
    pub key: Value,
    pub occurrence: u64,
    pub value: Value,
    pub index: u64,
}
