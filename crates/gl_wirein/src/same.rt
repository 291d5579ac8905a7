// Whether two values of JSON are equal.
ghost use Rattle.std.specs.Prelude.{◌≡◌};
ghost use Rattle.serde_json.specs.View.{view, number_view, items_view, members_view};
ghost use Rattle.gl_wirein.specs.Same.{same_number, same, same_items, same_members};

use serde_json::{Map, Number, Value};

fn same_number(one: &Number, with: &Number) -> bool
    ensures { result ≡ same_number (number_view one.now) (number_view with.now) }
{
    match (one.as_u64(), with.as_u64()) {
        (Some(first), Some(second)) => first == second,
        (None, None) => match (one.as_i64(), with.as_i64()) {
            (Some(first), Some(second)) => first == second,
            _ => false,
        },
        _ => false,
    }
}

#[cycle(same)]
fn same_items(ones: &Vec<Value>, withs: &Vec<Value>) -> bool
    ensures { result ≡ same_items (items_view ones.now.items) (items_view withs.now.items) }
{
    if ones.len() != withs.len() {
        return false;
    }
    for (one, with) in ones.iter().zip(withs) {
        if !same(one, with) {
            return false;
        }
    }
    true
}

#[cycle(same)]
fn same_members(ones: &Map<String, Value>, withs: &Map<String, Value>) -> bool
    ensures { result ≡ same_members (members_view ones.now.entries) (members_view withs.now.entries) }
{
    let mut others = withs.iter();
    for (key, one) in ones.iter() {
        match others.next() {
            Some((name, with)) => {
                if key != name || !same(one, with) {
                    return false;
                }
            }
            None => return false,
        }
    }
    others.next().is_none()
}

/// Whether two values are equal. A float is equal to none. It takes no memory.
#[cycle(same)]
pub fn same(one: &Value, with: &Value) -> bool
    ensures { result ≡ same (view one.now) (view with.now) }
{
    match (one, with) {
        (Value::Null, Value::Null) => true,
        (Value::Bool(one), Value::Bool(with)) => *one == *with,
        (Value::Number(one), Value::Number(with)) => same_number(one, with),
        (Value::String(one), Value::String(with)) => one.as_str() == with.as_str(),
        (Value::Array(ones), Value::Array(withs)) => same_items(ones, withs),
        (Value::Object(ones), Value::Object(withs)) => same_members(ones, withs),
        _ => false,
    }
}
