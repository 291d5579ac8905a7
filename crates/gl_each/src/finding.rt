// Keys that are looked up in a table.
ghost use Rattle.std.specs.Prelude.{◌≡◌, ◌∷◌, fold};
ghost use Rattle.std.specs.Hash as fed;
ghost use Rattle.gl_value.specs.View.{view};
ghost use Rattle.gl_each.specs.Key.{same_key};
ghost use Rattle.gl_each.specs.Hashed.{fed_value, fed_key};
ghost use Rattle.gl_each.specs.SameKeys.{same_key_laws, same_key_equivalence, same_key_fed};

use gl_value::Value;
use std::hash::{Hash, Hasher};
use std::marker::Model;

/// A key that lends its value. Contracts see the value with the occurrence.
#[derive(Drop)]
pub struct KeyRef<'a> {
    pub value: &'a Value,
    pub occurrence: u64,
}

impl<'a> Model for KeyRef<'a> {
    ghost use Rattle.gl_each.specs.Key as k;

    ghost Value = { k.Key };

    ghost coded = { k.key_code };

    ghost use Rattle.gl_value.specs.View.{view as seen};

    ghost view = { λ a. (seen a.value.now, a.occurrence) };
}

impl<'a> PartialEq for KeyRef<'a> {
    ghost eq = { same_key };

    ghost laws = { same_key_laws };

    fn eq(&self, other: &Self) -> bool {
        self.value.same(other.value) && self.occurrence == other.occurrence
    }
}

impl<'a> Eq for KeyRef<'a> {
    ghost laws = { same_key_equivalence };
}

impl<'a> Hash for KeyRef<'a> {
    ghost hash_input = { fed_key };

    ghost respects_eq = { same_key_fed };

    fn hash<H: Hasher>(&self, state: &mut H) {
        feed(self.value, state);
        state.write_u64(self.occurrence);
    }
}

// Gives a value to a hash function.
pub(crate) fn feed<H: Hasher>(value: &Value, state: &mut H)
    ensures { state.new ≡ fold H.write state.old (fed_value (view value.now)) }
{
    match value {
        Value::Undefined | Value::Null => {}
        Value::Bool(b) => state.write_u8(if *b { 1 } else { 0 }),
        Value::Int(number) => state.write_i64(*number),
        Value::Text(text) => state.write(text.as_str().as_bytes()),
        Value::List(list) => {
            for item in list.as_slice() {
                feed(item, state);
            }
        }
        Value::Record(record) => {
            for pair in record.as_slice() {
                state.write(pair.key.as_str().as_bytes());
                feed(&pair.value, state);
            }
        }
        Value::Act(action) => state.write_u128(u128::from(action.owner)),
    }
}
