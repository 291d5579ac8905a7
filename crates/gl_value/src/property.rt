// The properties of values, and the keys of items.
ghost use Rattle.std.specs.Prelude.{◌≡◌, ◌↔◌, ◌≤◌, ◌<◌, min, pos, nat_eq, true, false, IsTrue, IfOk, MatchOption, option_map, codes};
ghost use Rattle.std.specs.Fmt.{decimal};
ghost use Rattle.std.specs.Str.{bytes_eq, chars};
ghost use Rattle.gl_base.specs.Texts.{is_ascii_text};
ghost use Rattle.gl_value.specs.Value.{same, plain, property, properties, split, key_of, item_at, values_of, count_value};
ghost use Rattle.gl_value.specs.View.{view};
ghost use Rattle.gl_value.specs.Found.{seen_found, or_undefined};
ghost use Rattle.gl_value.specs.Index.{HasPlainStart};
ghost use Rattle.gl_value.specs.Proper.{IsProper};

use crate::{GREATEST, List, Record, Value};
use std::alloc::AllocError;

/// What a look-up of a property finds: nothing, a count, or a value that is lent by the value that has it.
#[derive(Clone, Copy)]
pub enum Found<'a> {
    Undefined,
    Count(i64),
    Lent(&'a Value),
}

// A count as an integer: at most the greatest.
fn count_of(count: u64) -> i64
    ensures { result ≡ pos (min count 9007199254740991) }
{
    if count < GREATEST as u64 {
        count as i64
    } else {
        GREATEST
    }
}

fn counted<'a>(count: u64) -> Found<'a>
    ensures { seen_found result ≡ count_value count }
{
    Found::Count(count_of(count))
}

// Whether a text is that word, a literal of ASCII.
fn is_word(text: &str, word: &str) -> bool
    requires { IsTrue (is_ascii_text word.now) }
    ensures { result ≡ bytes_eq (chars text.now) word.now }
{
    text == word
}

// Whether a text begins with no sign, and with no zero before another digit.
fn has_plain_start(text: &str) -> bool
    ensures { IsTrue result ↔ HasPlainStart text.now }
{
    let bytes = text.as_bytes();
    !bytes.is_empty() && bytes[0] != b'+' && (bytes[0] != b'0' || bytes.len() == 1)
}

// The index that a text writes in decimal without leading zeros, where it is at most the greatest integer.
fn index_of(text: &str) -> Option<u64>
    ensures { MatchOption result
        ((i : _) → i ≤ 9007199254740991 → bytes_eq (chars text.now) (decimal i) ≡ false)
        (λ n. (n ≤ 9007199254740991) × (chars text.now ≡ decimal n)) }
{
    if !has_plain_start(text) {
        return None;
    }
    match text.parse::<u64>() {
        Ok(number) => within(number),
        Err(_) => None,
    }
}

// The number, where it is at most the greatest integer.
fn within(number: u64) -> Option<u64>
    ensures { MatchOption result (9007199254740991 < number) (λ n. (n ≡ number) × (n ≤ 9007199254740991)) }
{
    if number <= GREATEST as u64 {
        Some(number)
    } else {
        None
    }
}

impl List {
    // The item whose index is written so.
    fn item(&self, index: &str) -> Option<&Value>
        ensures { or_undefined (option_map (λ v. view v.now) result) ≡ item_at (chars index.now) 0 (values_of self.now) }
    {
        match index_of(index) {
            Some(at) => self.get(at as usize),
            None => None,
        }
    }

    #[tactic(auto, using(crate::proofs::Values::count_laws))]
    fn property(&self, name: &str) -> Found<'_>
        ensures { seen_found result ≡ property (chars name.now) (view (Value.List self.now)) }
    {
        if is_word(name, "length") {
            return counted(self.len() as u64);
        }
        match self.item(name) {
            Some(value) => Found::Lent(value),
            None => Found::Undefined,
        }
    }
}

impl Record {
    fn property(&self, name: &str) -> Found<'_>
        ensures { seen_found result ≡ property (chars name.now) (view (Value.Record self.now)) }
    {
        match self.get(name) {
            Some(value) => Found::Lent(value),
            None => Found::Undefined,
        }
    }
}

impl Value {
    fn look_up(&self, name: &str) -> Found<'_>
        ensures { seen_found result ≡ property (chars name.now) (view self.now) }
    {
        match self {
            Value::Record(record) => record.property(name),
            Value::List(list) => list.property(name),
            Value::Text(text) if is_word(name, "length") => counted(text.len() as u64),
            _ => Found::Undefined,
        }
    }

    /// The property of a value, lent where the value holds it: of a record the value at the key; of a list its
    /// count for `length`, and an item for its index in decimal without leading zeros; of a text its count of
    /// characters for `length`; and else undefined. It takes no memory.
    pub fn find(&self, name: &str) -> Found<'_>
        ensures value { seen_found result ≡ property (chars name.now) (view self.now) }
        ensures proper { IsProper (view self.now) → IsProper (seen_found result) }
    {
        self.look_up(name)
    }

    // The property along the path of names, as `find_path` gives it.
    fn follow(&self, path: &str) -> Found<'_>
        ensures { seen_found result ≡ properties (split 46 (chars path.now)) (view self.now) }
    {
        let mut found = Found::Lent(self);
        let mut rest = path;
        while let Some((name, after)) = rest.split_once('.') {
            found = found.find(name);
            rest = after;
        }
        found.find(rest)
    }

    /// The property along the path of names that a text gives, split at `.`, as [`Value::find`] finds it. It
    /// takes no memory.
    pub fn find_path(&self, path: &str) -> Found<'_>
        ensures value { seen_found result ≡ properties (split 46 (chars path.now)) (view self.now) }
        ensures proper { IsProper (view self.now) → IsProper (seen_found result) }
    {
        self.follow(path)
    }

    /// A copy of the property that [`Value::find`] finds.
    pub fn property(&self, name: &str) -> Result<Value, AllocError>
        ensures value { IfOk result (λ v. view v ≡ property (chars name.now) (view self.now)) }
        ensures proper { IfOk result (λ v. IsProper (view self.now) → IsProper (view v)) }
    {
        let value = self.look_up(name).copy()?;
        Ok(value)
    }
}

impl<'a> Found<'a> {
    // The property of what was found.
    fn find(self, name: &str) -> Found<'a>
        ensures { seen_found result ≡ property (chars name.now) (seen_found self.entry) }
    {
        match self {
            Found::Lent(value) => value.look_up(name),
            Found::Undefined | Found::Count(_) => Found::Undefined,
        }
    }

    /// Whether what was found is the same as a value. It takes no memory.
    pub fn same(&self, value: &Value) -> bool
        ensures { result ≡ same nat_eq (seen_found self.now) (view value.now) }
    {
        match self {
            Found::Undefined => matches!(value, Value::Undefined),
            Found::Count(count) => matches!(value, Value::Int(number) if *number == *count),
            Found::Lent(found) => found.same(value),
        }
    }

    /// A value with the content of what was found.
    pub fn copy(&self) -> Result<Value, AllocError>
        ensures { IfOk result (λ v. view v ≡ seen_found self.now) }
    {
        match self {
            Found::Undefined => Ok(Value::Undefined),
            Found::Count(count) => Ok(Value::Int(*count)),
            Found::Lent(value) => value.copy(),
        }
    }

    /// The plain form of what was found.
    pub fn data_of(&self) -> Result<Value, AllocError>
        ensures { IfOk result (λ v. view v ≡ plain (seen_found self.now)) }
    {
        match self {
            Found::Undefined => Ok(Value::Undefined),
            Found::Count(count) => Ok(Value::Int(*count)),
            Found::Lent(value) => value.data_of(),
        }
    }
}

/// The key of an item of a list with that key text: its index for `@index`, its plain form for `@identity`, and
/// else the plain form of its property along the names between the `.` of the text.
pub fn key_of(item: &Value, index: u64, key: &str) -> Result<Value, AllocError>
    ensures value { IfOk result (λ v. view v ≡ key_of (chars key.now) index (view item.now)) }
    ensures proper { IfOk result (λ v. IsProper (view item.now) → IsProper (view v)) }
{
    let value = key_value(item, index, key)?;
    Ok(value)
}

fn key_value(item: &Value, index: u64, key: &str) -> Result<Value, AllocError>
    ensures { IfOk result (λ v. view v ≡ key_of (chars key.now) index (view item.now)) }
{
    if is_word(key, "@index") {
        return Ok(Value::Int(count_of(index)));
    }
    if is_word(key, "@identity") {
        return item.data_of();
    }
    item.follow(key).data_of()
}
