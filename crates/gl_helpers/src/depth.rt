// How deep values are nested.
ghost use Rattle.std.specs.Prelude.{◌≡◌, ◌<◌, nat_lt};
ghost use Rattle.gl_value.specs.Helpers.{not_deep};
ghost use Rattle.gl_value.specs.Value.{depth, values_depth, members_depth, values_of, pairs_of};
ghost use Rattle.gl_value.specs.View.{view, seen_items, seen_pairs};

use gl_value::{DEEPEST, Pair, Value};

/// The value; undefined where it is nested deeper than [`DEEPEST`]. It takes no memory.
pub fn not_deep(value: Value) -> Value
    ensures { view result ≡ not_deep (view value) }
{
    if is_deeper(&value, DEEPEST) {
        Value::Undefined
    } else {
        value
    }
}

/// Whether a value is nested deeper than `most`. It takes no memory.
#[cycle(deeper)]
pub fn is_deeper(value: &Value, most: u32) -> bool
    ensures { result ≡ nat_lt most (depth (view value.now)) }
{
    match value {
        Value::List(list) => most == 0 || has_deeper_item(list.as_slice(), most - 1),
        Value::Record(record) => most == 0 || has_deeper_member(record.as_slice(), most - 1),
        Value::Act(action) => most == 0 || has_deeper_item(action.fixed.as_slice(), most - 1),
        _ => false,
    }
}

#[cycle(deeper)]
fn has_deeper_item(items: &[Value], most: u32) -> bool
    ensures { result ≡ nat_lt most (values_depth (values_of (seen_items items.now))) }
{
    for item in items {
        if is_deeper(item, most) {
            return true;
        }
    }
    false
}

#[cycle(deeper)]
fn has_deeper_member(pairs: &[Pair], most: u32) -> bool
    ensures { result ≡ nat_lt most (members_depth (pairs_of (seen_pairs pairs.now))) }
{
    for pair in pairs {
        if is_deeper(&pair.value, most) {
            return true;
        }
    }
    false
}
