// The helpers that look into values and give actions.
ghost use Rattle.std.specs.Prelude.{◌≡◌, ◌++◌, IfOk, OnOk};
ghost use Rattle.gl_value.specs.Helpers.{more_fixed};
ghost use Rattle.gl_value.specs.Value.{properties, split};
ghost use Rattle.gl_value.specs.View.{view, seen_items};

use gl_value::{Act, ListBuilder, Text, Value};
use std::alloc::AllocError;

/// The property of a value along the path of names that a text gives, split at `.`.
pub fn get(value: &Value, path: &Text) -> Result<Value, AllocError>
    ensures { IfOk result (λ v. view v ≡ properties (split 46 path.now) (view value.now)) }
{
    value.find_path(path.as_str()).copy()
}

// Adds copies of the values at the end. Where memory is wanting, some of them may stand there.
fn push_all(list: &mut ListBuilder, values: &[Value]) -> Result<(), AllocError>
    ensures { OnOk result (list.new ≡ list.old ++ seen_items values.now) }
{
    for value in values {
        list.push(value.copy()?)?;
    }
    Ok(())
}

// The action with the values after its fixed arguments.
fn fixed_more(action: &Act, given: &[Value]) -> Result<Act, AllocError>
    ensures { IfOk result (λ a. (a.owner ≡ action.now.owner) × (a.name ≡ action.now.name) × (a.fixed ≡ action.now.fixed ++ seen_items given.now)) }
{
    let mut fixed = ListBuilder::from_vec(action.fixed.copy()?.into_vec()?);
    push_all(&mut fixed, given)?;
    Ok(Act {
        owner: action.owner,
        name: action.name.copy()?,
        fixed: fixed.build()?,
    })
}

/// The action with the values after its fixed arguments; undefined where it is no action.
#[tactic(auto, using(crate::proofs::Items::list_laws))]
pub fn more_fixed(value: &Value, given: &[Value]) -> Result<Value, AllocError>
    ensures { IfOk result (λ v. view v ≡ more_fixed (view value.now) (seen_items given.now)) }
{
    match value {
        Value::Act(action) => Ok(Value::Act(fixed_more(action, given)?)),
        _ => Ok(Value::Undefined),
    }
}
