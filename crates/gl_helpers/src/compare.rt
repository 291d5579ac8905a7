// The helpers that test.
ghost use Rattle.std.specs.Prelude.{◌≡◌, nat_eq};
ghost use Rattle.gl_value.specs.Helpers.{is_less, raw_value};
ghost use Rattle.gl_value.specs.Value.{boolean};
ghost use Rattle.gl_value.specs.View.{view};
ghost use Rattle.gl_helpers.specs.View.{Names, seen_test};

use crate::argument::Arguments;
use crate::helper::Test;
use crate::lists::{includes, items_in};
use crate::number::number_of;
use gl_value::Value;

// Whether a value is less: by bytes where both are texts, else as numbers.
fn is_less(one: &Value, with: &Value) -> bool
    ensures { result ≡ is_less (view one.now) (view with.now) }
{
    match (one, with) {
        (Value::Text(one), Value::Text(with)) => one.is_before(with),
        _ => number_of(one) < number_of(with),
    }
}

/// What such a helper gives. It takes no memory.
pub fn passes(helper: Test, args: &Arguments) -> bool
    ensures { (names : Names) → boolean result ≡ raw_value nat_eq args.now names (seen_test helper) }
{
    let one = args.at(0);
    let with = args.at(1);
    match helper {
        Test::Same => one.same(with),
        Test::Differs => !one.same(with),
        Test::Not => !one.truthy(),
        Test::Less => is_less(one, with),
        Test::LessOrSame => !is_less(with, one),
        Test::Greater => is_less(with, one),
        Test::GreaterOrSame => !is_less(one, with),
        Test::Includes => includes(items_in(one), with),
    }
}
