// Calls of helpers.
ghost use Rattle.std.specs.Prelude.{◌≡◌, ◌<◌, nat_eq, Some, option_map, IfOk};
ghost use Rattle.gl_value.specs.Helpers.{helper_numbered, helper_value, raw_value};
ghost use Rattle.gl_value.specs.Proper.{IsProper, Keeps};
ghost use Rattle.gl_value.specs.View.{view, seen_items};
ghost use Rattle.gl_helpers.specs.Proper.{AllProper, NamedProper};
ghost use Rattle.gl_helpers.specs.View.{seen_helper};

use crate::argument::Arguments;
use crate::choose::choose;
use crate::compare::passes;
use crate::depth::not_deep;
use crate::helper::{Helper, numbered};
use crate::lists::listed;
use crate::number::integer_of;
use crate::records::made;
use crate::texts::written;
use gl_value::{NamedValues, Value};
use std::alloc::{AllocError, Global};

// What a helper gives, however deep it is nested.
fn raw(
    alloc: Global,
    helper: Helper,
    args: &Arguments,
    named: &NamedValues,
) -> Result<Value, AllocError>
    ensures value { IfOk result (λ v. view v ≡ raw_value nat_eq args.now named.now (seen_helper helper)) }
    ensures keeps { IfOk result (λ v. AllProper args.now → NamedProper named.now → Keeps (view v)) }
{
    match helper {
        Helper::Choice(helper) => choose(alloc, helper, args),
        Helper::Number(helper) => Ok(Value::Int(integer_of(helper, args))),
        Helper::Test(helper) => Ok(Value::Bool(passes(helper, args))),
        Helper::Listing(helper) => Ok(Value::List(listed(alloc, helper, args)?)),
        Helper::Writing(helper) => Ok(Value::Text(written(alloc, helper, args)?)),
        Helper::Change(helper) => made(alloc, helper, args, named),
    }
}

/// What the helper with a number gives of its positional and its named arguments. A missing argument is
/// undefined, and a surplus one is ignored. A result that is nested deeper than [`gl_value::DEEPEST`] is
/// undefined. The numbers are the places in the table of helpers, from 0: there are 33.
pub fn call(
    alloc: Global,
    helper: u16,
    args: &[Value],
    named: &NamedValues,
) -> Result<Value, AllocError>
    requires { helper < 33 }
    ensures value { IfOk result (λ v. option_map (helper_value nat_eq (seen_items args.now) named.now) (helper_numbered helper) ≡ Some (view v)) }
    ensures proper { IfOk result (λ v. AllProper (seen_items args.now) → NamedProper named.now → IsProper (view v)) }
{
    let missing = Value::Undefined;
    let args = Arguments::new(args, &missing);
    let value = raw(alloc, numbered(helper), &args, named)?;
    Ok(not_deep(value))
}
