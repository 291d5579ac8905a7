// The helpers on numbers.
ghost use Rattle.std.specs.Prelude.{◌≡◌, nat_eq, min, pos, negsuc, ◌+ℤ◌, ◌-ℤ◌, ◌*ℤ◌, ◌≤ℤ◌};
ghost use Rattle.std.specs.Int.{int_min, int_max};
ghost use Rattle.gl_value.specs.Helpers.{number_of, clamp, length_value, raw_value};
ghost use Rattle.gl_value.specs.Value.{integer};
ghost use Rattle.gl_value.specs.View.{view};
ghost use Rattle.gl_helpers.specs.View.{Names, seen_number};

use crate::argument::Arguments;
use crate::helper::Number;
use gl_value::{GREATEST, Value};

/// What a value is as a number: an integer itself, true is 1, all else is 0. It takes no memory.
pub fn number_of(value: &Value) -> i64
    ensures { result ≡ number_of (view value.now) }
{
    match value {
        Value::Int(number) => *number,
        Value::Bool(true) => 1,
        _ => 0,
    }
}

// The nearest integer within plus or minus the greatest.
fn clamp(number: i128) -> i64
    ensures { result ≡ clamp number }
{
    let greatest = i128::from(GREATEST);
    if number < -greatest {
        -GREATEST
    } else if number > greatest {
        GREATEST
    } else {
        number as i64
    }
}

fn add(one: &Value, with: &Value) -> i64
    ensures { result ≡ clamp (number_of (view one.now) +ℤ number_of (view with.now)) }
{
    clamp(i128::from(number_of(one)) + i128::from(number_of(with)))
}

fn sub(one: &Value, with: &Value) -> i64
    ensures { result ≡ clamp (number_of (view one.now) -ℤ number_of (view with.now)) }
{
    clamp(i128::from(number_of(one)) - i128::from(number_of(with)))
}

fn product(one: i64, with: i64) -> i128
    ensures { result ≡ one *ℤ with }
{
    i128::from(one) * i128::from(with)
}

fn mul(one: &Value, with: &Value) -> i64
    ensures { result ≡ clamp (number_of (view one.now) *ℤ number_of (view with.now)) }
{
    clamp(product(number_of(one), number_of(with)))
}

fn min(one: &Value, with: &Value) -> i64
    ensures { result ≡ int_min (number_of (view one.now)) (number_of (view with.now)) }
{
    number_of(one).min(number_of(with))
}

fn max(one: &Value, with: &Value) -> i64
    ensures { result ≡ int_max (number_of (view one.now)) (number_of (view with.now)) }
{
    number_of(one).max(number_of(with))
}

// A count, at most the greatest integer.
fn count_of(count: usize) -> i64
    ensures { result ≡ pos (min count 9007199254740991) }
{
    if count < GREATEST as usize {
        count as i64
    } else {
        GREATEST
    }
}

// How many items a list has, or characters a text; else 0.
#[tactic(auto, using(gl_value::proofs::Values::count_laws))]
fn length_of(value: &Value) -> i64
    ensures { integer result ≡ length_value (view value.now) }
{
    match value {
        Value::List(list) => count_of(list.len()),
        Value::Text(text) => count_of(text.len()),
        _ => 0,
    }
}

/// What such a helper gives. It takes no memory.
pub fn integer_of(helper: Number, args: &Arguments) -> i64
    ensures { (names : Names) → integer result ≡ raw_value nat_eq args.now names (seen_number helper) }
{
    match helper {
        Number::Add => add(args.at(0), args.at(1)),
        Number::Sub => sub(args.at(0), args.at(1)),
        Number::Mul => mul(args.at(0), args.at(1)),
        Number::Min => min(args.at(0), args.at(1)),
        Number::Max => max(args.at(0), args.at(1)),
        Number::Length => length_of(args.at(0)),
    }
}
