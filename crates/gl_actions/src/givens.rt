// What steps are given: the values of their expressions, and parameters.
ghost use Rattle.std.specs.Prelude.{◌≡◌, ◌++◌, IfOk, map, option_map};
ghost use Rattle.gl_value.specs.View.{view, seen_items};
ghost use Rattle.gl_ast.specs.Template.{exprs_of};
ghost use Rattle.gl_ast.specs.View.{expr_view};
ghost use Rattle.gl_meaning.specs.Eval.{values_in};
ghost use Rattle.gl_meaning.specs.Actions.{Calls, runs};
ghost use Rattle.gl_actions.specs.World.{World, app_in, value_in, sets_in};
ghost use Rattle.gl_actions.specs.Frames.{Fits, scope_in};
ghost use Rattle.gl_actions.specs.Steps.{given_in, all_in, bind_values};

use crate::evaluate::{value, values};
use crate::frame::Here;
use gl_ast::{Expr, Exprs};
use gl_value::{NamedValues, Text, Value};
use std::alloc::{AllocError, Global};

// How deep expressions may nest, also in the getters that they mention. In a loaded application calls nest 16 deep, and a class has at most
// 32 getters.
const ROOM: u32 = 1000;

/// What an expression gives.
pub fn given(here: &Here, expr: &Expr) -> Result<Value, AllocError>
    ensures { IfOk result (λ v. (w : World) → Fits w here.now.frame → value_in w (view v) ≡ (given_in w here.now (expr_view expr.now)).value) }
{
    value(here, here.frame.class.getters.len(), ROOM, expr)
}

/// What each of these expressions gives.
pub fn all_given(here: &Here, exprs: &Exprs) -> Result<Vec<Value>, AllocError>
    ensures { IfOk result (λ vs. (w : World) → Fits w here.now.frame → map (value_in w) (seen_items vs.items) ≡ values_in (all_in w here.now (exprs_of exprs.now))) }
{
    values(here, here.frame.class.getters.len(), ROOM, exprs.as_slice())
}

/// Whether a step runs: always, or where its `when` is true.
pub fn goes(here: &Here, when: &Option<Expr>) -> Result<bool, AllocError>
    ensures { IfOk result (λ b. (w : World) → Fits w here.now.frame → (calls : Calls) → b ≡ runs (app_in w) w.store calls (scope_in w here.now.frame here.now.params.now) (option_map expr_view when.now) (sets_in w here.now.sets.now)) }
{
    match when {
        None => Ok(true),
        Some(expr) => Ok(given(here, expr)?.truthy()),
    }
}

/// Parameters with the plain forms of what is given.
pub fn bound(alloc: Global, names: &[Text], values: &[Value]) -> Result<NamedValues, AllocError>
    ensures { IfOk result (λ ps. ps ≡ bind_values names.now (seen_items values.now)) }
{
    let mut params = NamedValues::new(alloc);
    let mut rest = values;
    for name in names {
        match rest.split_first() {
            Some((value, others)) => {
                params.push(name.copy()?, value.data_of()?)?;
                rest = others;
            }
            None => params.push(name.copy()?, Value::Undefined)?,
        }
    }
    Ok(params)
}

/// The fixed arguments of an action, and then those that it is given.
pub fn joined_values(
    alloc: Global,
    fixed: &[Value],
    given: Vec<Value>,
) -> Result<Vec<Value>, AllocError>
    ensures { IfOk result (λ vs. seen_items vs.items ≡ seen_items fixed.now ++ seen_items given.items) }
{
    let mut list = Vec::with_capacity(alloc, fixed.len())?;
    for value in fixed {
        list.push(value.copy()?)?;
    }
    for value in given {
        list.push(value)?;
    }
    Ok(list)
}
