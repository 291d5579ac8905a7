// The helpers that choose one of their arguments.
ghost use Rattle.std.specs.Prelude.{◌≡◌, true, false, nat_eq, IfOk, if◌then◌else◌};
ghost use Rattle.gl_value.specs.Helpers.{first_with, raw_value};
ghost use Rattle.gl_value.specs.Value.{truthy, undefined};
ghost use Rattle.gl_value.specs.View.{view, seen_items};
ghost use Rattle.gl_helpers.specs.View.{Names, seen_choice};

use crate::actions::{get, more_fixed};
use crate::argument::Arguments;
use crate::helper::Choice;
use crate::wording::text_in;
use gl_value::Value;
use std::alloc::{AllocError, Global};

/// The first value with that truth, else the last one; `last` where there is none. It takes no memory.
pub fn first_with<'a>(truth: bool, last: &'a Value, values: &'a [Value]) -> &'a Value
    ensures { view result.now ≡ first_with truth (view last.now) (seen_items values.now) }
{
    let mut found = last;
    for value in values {
        found = value;
        if value.truthy() == truth {
            return found;
        }
    }
    found
}

// The second value where the first is true, else the third.
fn branch<'a>(test: &Value, yes: &'a Value, no: &'a Value) -> &'a Value
    ensures { view result.now ≡ (if truthy (view test.now) then view yes.now else view no.now) }
{
    if test.truthy() { yes } else { no }
}

/// What such a helper gives.
pub fn choose(alloc: Global, helper: Choice, args: &Arguments) -> Result<Value, AllocError>
    ensures { IfOk result (λ v. (names : Names) → view v ≡ raw_value nat_eq args.now names (seen_choice helper)) }
{
    match helper {
        Choice::If => branch(args.at(0), args.at(1), args.at(2)).copy(),
        Choice::Unless => branch(args.at(0), args.at(2), args.at(1)).copy(),
        Choice::Get => get(args.at(0), text_in(alloc, args.at(1))?.text()),
        Choice::Fix => more_fixed(args.at(0), args.rest()),
        Choice::And => first_with(false, &Value::Undefined, args.all()).copy(),
        Choice::Or => first_with(true, &Value::Undefined, args.all()).copy(),
    }
}
