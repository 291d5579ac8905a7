// The keys of a list's items.
ghost use Rattle.std.specs.Prelude.{◌≡◌, ◌<◌, ◌+◌, ◌^◌, ℕ, [], IfOk, IfSome, IsTrue, map, cond, Some, unwrap_or};
ghost use Rattle.indexmap.specs.IndexMap.{get};
ghost use Rattle.gl_each.specs.Key as k;
ghost use Rattle.std.specs.Str.{bytes_eq, chars};
ghost use Rattle.gl_base.specs.Texts.{is_ascii_text};
ghost use Rattle.std.specs.List.{zip};
ghost use Rattle.gl_value.specs.View.{view, seen_items};
ghost use Rattle.gl_value.specs.Value.{values_of, key_of};
ghost use Rattle.gl_value.specs.Owners.{values_with};
ghost use Rattle.gl_value.specs.Proper.{IsProper};
ghost use Rattle.gl_meaning.specs.Path.{Path};
ghost use Rattle.gl_meaning.specs.Render.{entries};
ghost use Rattle.gl_meaning.specs.Laws.{NoRepeat};
ghost use Rattle.gl_each.specs.Key.{entry_keys, same_key};
ghost use Rattle.gl_each.specs.Counted.{item_keys, counts, first_keys, key_values, AreNew, IsName, put_counts, AreProper, KeysAreProper};
ghost use Rattle.gl_each.specs.Hashed.{value_hash};
ghost use Rattle.gl_each.specs.View.{seen_keys};

use crate::finding::{KeyRef, feed};
use crate::{Key, Keys};
use gl_value::{Value, key_of};
use indexmap::IndexMap;
use std::alloc::{AllocError, Global};
use std::collections::HashSet;
use std::hash::{FoldHasher, Hasher};

// Keys with the occurrence 0, and the hash of each one's value.
#[derive(Drop)]
struct Made {
    keys: Vec<Key>,
    hashes: Vec<u64>,
}

fn hash_of(value: &Value) -> u64
    ensures { result ≡ value_hash (view value.now) }
{
    let mut state = FoldHasher::default();
    feed(value, &mut state);
    state.finish()
}

// Whether a text is that word, a literal of ASCII.
fn is_word(text: &str, word: &str) -> bool
    requires { IsTrue (is_ascii_text word.now) }
    ensures { result ≡ bytes_eq (chars text.now) word.now }
{
    text == word
}

// Whether a key text is the name of one property.
fn is_name(key: &str) -> bool
    ensures { IsTrue result → IsName (chars key.now) }
{
    if is_word(key, "@index") || is_word(key, "@identity") {
        return false;
    }
    match key.split_once('.') {
        Some(_) => false,
        None => true,
    }
}

// The key of an item. A name is told before, since to look through the key text for each item costs more than to find the property.
fn item_key(item: &Value, index: u64, key: &str, named: bool) -> Result<Value, AllocError>
    requires named { IsTrue named → IsName (chars key.now) }
    ensures { IfOk result (λ v. view v ≡ key_of (chars key.now) index (view item.now)) }
{
    if named {
        item.find(key).data_of()
    } else {
        key_of(item, index, key)
    }
}

// The key of each item, with the occurrence 0. Its hash is computed while the value is at hand.
fn keys_at(alloc: Global, items: &[Value], key: &str) -> Result<Made, AllocError>
    ensures keys { IfOk result (λ m. seen_keys m.keys.items ≡ first_keys (item_keys (chars key.now) 0 (seen_items items.now))) }
    ensures hashes { IfOk result (λ m. m.hashes.items ≡ map value_hash (key_values (seen_keys m.keys.items))) }
{
    let mut list = Vec::with_capacity(alloc, items.len())?;
    let mut hashes = Vec::with_capacity(alloc, items.len())?;
    let named = is_name(key);
    for (index, item) in items.iter().enumerate() {
        let value = item_key(item, index as u64, key, named)?;
        hashes.push(hash_of(&value))?;
        list.push(Key {
            value,
            occurrence: 0,
        })?;
    }
    Ok(Made { keys: list, hashes })
}

// Whether each number differs from those before it.
fn differ(alloc: Global, numbers: &[u64]) -> Result<bool, AllocError>
    ensures { IfOk result (λ b. IsTrue b → AreNew [] numbers.now) }
{
    let mut seen: HashSet<u64> = HashSet::with_capacity(alloc, numbers.len())?;
    for number in numbers {
        if !seen.insert(*number)? {
            return Ok(false);
        }
    }
    Ok(true)
}

// Counts one more of a value, and gives how often it was counted before. A value that is new is looked up once.
fn count_one<'a>(
    counted: &mut IndexMap<KeyRef<'a>, u64>,
    value: &'a Value,
) -> Result<u64, AllocError>
    requires { unwrap_or (get same_key counted.old (view value.now, 0)) 0 < 2 ^ 63 }
    ensures before { IfOk result (λ n. n ≡ unwrap_or (get same_key counted.old (view value.now, 0)) 0) }
    ensures after { IfOk result (λ n. (q : k.Key) → get same_key counted.new q ≡ cond (same_key (view value.now, 0) q) (Some (n + 1)) (get same_key counted.old q)) }
{
    let before = counted.insert(first(value), 1)?.unwrap_or(0);
    if before > 0 {
        counted.insert(first(value), before + 1)?;
    }
    Ok(before)
}

fn first<'a>(value: &'a Value) -> KeyRef<'a>
    ensures { result ≡ (view value.now, 0) }
{
    KeyRef {
        value,
        occurrence: 0,
    }
}

// How many equal values stand before each key's.
fn occurrences(alloc: Global, keys: &[Key]) -> Result<Vec<u64>, AllocError>
    ensures { IfOk result (λ ns. ns.items ≡ counts (key_values (seen_keys keys.now))) }
{
    let mut seen: IndexMap<KeyRef, u64> = IndexMap::with_capacity(alloc, keys.len())?;
    let mut list = Vec::with_capacity(alloc, keys.len())?;
    for key in keys {
        list.push(count_one(&mut seen, &key.value)?)?;
    }
    Ok(list)
}

// Gives each key its occurrence.
fn put(keys: Vec<Key>, counts: &[u64]) -> Vec<Key>
    ensures { seen_keys result.items ≡ put_counts (seen_keys keys.items) counts.now }
{
    let mut list = keys;
    for (place, count) in counts.iter().enumerate() {
        if place < list.len() {
            list[place].occurrence = *count;
        }
    }
    list
}

// Counts how many equal keys stand before each.
fn counted(alloc: Global, keys: Vec<Key>) -> Result<Vec<Key>, AllocError>
    ensures { IfOk result (λ ks. seen_keys ks.items ≡ zip (key_values (seen_keys keys.items)) (counts (key_values (seen_keys keys.items)))) }
{
    let counts = occurrences(alloc, keys.as_slice())?;
    Ok(put(keys, counts.as_slice()))
}

// The same. Keys mostly differ, and their hashes show it: a list of numbers, which is short, is asked before the keys.
fn numbered(alloc: Global, made: Made) -> Result<Vec<Key>, AllocError>
    requires first { seen_keys made.keys.items ≡ first_keys (key_values (seen_keys made.keys.items)) }
    requires hashes { made.hashes.items ≡ map value_hash (key_values (seen_keys made.keys.items)) }
    ensures { IfOk result (λ ks. seen_keys ks.items ≡ zip (key_values (seen_keys made.keys.items)) (counts (key_values (seen_keys made.keys.items)))) }
{
    if differ(alloc, made.hashes.as_slice())? {
        return Ok(made.keys);
    }
    counted(alloc, made.keys)
}

// The hash of each key's value.
fn hashes_of(alloc: Global, keys: &[Key]) -> Result<Vec<u64>, AllocError>
    ensures { IfOk result (λ hs. hs.items ≡ map value_hash (key_values (seen_keys keys.now))) }
{
    let mut hashes = Vec::with_capacity(alloc, keys.len())?;
    for key in keys {
        hashes.push(hash_of(&key.value))?;
    }
    Ok(hashes)
}

/// These keys, where the hashes of their values show that none stands twice. It is not always shown: two values may have one hash.
pub fn apart(alloc: Global, keys: Vec<Key>) -> Result<Option<Keys>, AllocError>
    ensures keys { IfOk result (λ o. IfSome o (λ ks. ks ≡ seen_keys keys.items)) }
    ensures distinct { IfOk result (λ o. IfSome o (λ ks. NoRepeat ks)) }
{
    let hashes = hashes_of(alloc, keys.as_slice())?;
    if differ(alloc, hashes.as_slice())? {
        Ok(Some(Keys::from_vec(keys)))
    } else {
        Ok(None)
    }
}

/// The keys of a list's items for a key text: each item's key with how many items before it have an equal one.
/// The owners of actions in the items are of no account.
pub fn keys(alloc: Global, items: &[Value], key: &str) -> Result<Keys, AllocError>
    ensures value { (paths : ℕ → Path) → IfOk result (λ ks. ks ≡ entry_keys (entries (chars key.now) 0 [] (values_with paths (values_of (seen_items items.now))))) }
    ensures distinct { IfOk result (λ ks. NoRepeat ks) }
    ensures proper { IfOk result (λ ks. AreProper (seen_items items.now) → KeysAreProper ks) }
{
    let made = keys_at(alloc, items, key)?;
    Ok(Keys::from_vec(numbered(alloc, made)?))
}
