// What expressions give.
ghost use Rattle.std.specs.Prelude.{◌≡◌, [], IfOk, Some, map};
ghost use Rattle.gl_base.specs.Names.{last_named, at_place};
ghost use Rattle.gl_value.specs.Helpers.{Helper, helper_numbered, helper_value};
ghost use Rattle.gl_value.specs.Value as v;
ghost use Rattle.gl_value.specs.View.{view, seen_items};
ghost use Rattle.gl_ast.specs.Template.{exprs_of, named_of};
ghost use Rattle.gl_ast.specs.View.{expr_view, seen_exprs, seen_pairs};
ghost use Rattle.gl_labels.specs.Laws.{names_with};
ghost use Rattle.gl_meaning.specs.Path.{path_eq};
ghost use Rattle.gl_meaning.specs.Scope.{absent};
ghost use Rattle.gl_meaning.specs.Eval.{values_in, bare_pair, call_pair, branch_pair};
ghost use Rattle.gl_actions.specs.World.{World, owner_in, value_in, params_in};
ghost use Rattle.gl_actions.specs.Frames.{Fits, member_in, pair_in, pairs_in, named_in, getter_in, pair_values};

use crate::arguments::argument;
use crate::fields::field_value;
use crate::frame::{Frame, Here};
use crate::lookup::{getter_of, parameter_of};
use crate::plainly::{along, joined, literal};
use gl_ast::{Expr, Exprs, NamedExpr, Pairs};
use gl_names::helpers;
use gl_value::{Act, List, NamedValues, Text, Texts, Value};
use std::alloc::AllocError;

// How many helpers there are.
const HELPERS: u16 = 33;

/// An action of the instance, with no arguments fixed.
fn action(frame: &Frame, name: &Text) -> Result<Value, AllocError>
    ensures { IfOk result (λ x. view x ≡ v.action frame.now.number name.now v.no_values) }
{
    let fixed = List::new(frame.alloc)?;
    let action = Act::new(frame.alloc, frame.number, name.copy()?, fixed)?;
    Ok(Value::Act(action))
}

/// A member of the instance: a field, a getter or an action.
#[cycle(evaluate)]
fn member(here: &Here, left: usize, room: u32, name: &Text) -> Result<Value, AllocError>
    ensures { IfOk result (λ v. (w : World) → Fits w here.now.frame → value_in w (view v) ≡ (member_in w here.now left name.now).value) }
{
    let class = here.frame.class;
    if class.fields.get(name.as_str()).is_some() {
        return field_value(here, name);
    }
    match getter_of(class.getters.as_slice(), name) {
        Some(expr) => getter(here, left, room, expr),
        None => action(&here.frame, name),
    }
}

/// What a getter's expression gives: it sees no parameters.
#[cycle(evaluate)]
fn getter(here: &Here, left: usize, room: u32, expr: &Expr) -> Result<Value, AllocError>
    ensures { IfOk result (λ v. (w : World) → Fits w here.now.frame → value_in w (view v) ≡ (getter_in w here.now left (expr_view expr.now)).value) }
{
    if left == 0 {
        return Err(AllocError);
    }
    let none = NamedValues::new(here.frame.alloc);
    let own = Here {
        frame: here.frame,
        params: &none,
        sets: here.sets,
    };
    value(&own, left - 1, room, expr)
}

/// What a helper gives of no arguments: undefined where there is none of the name, and for `if` and `unless`.
fn alone(here: &Here, name: &Text) -> Result<Value, AllocError>
    ensures { IfOk result (λ v. (w : World) → value_in w (view v) ≡ (call_pair name.now [] []).value) }
{
    match helpers().find(name.as_str()) {
        None => Ok(Value::Undefined),
        Some(helper) => called_alone(here, helper),
    }
}

/// What the helper with a number gives of no arguments.
fn called_alone(here: &Here, helper: u16) -> Result<Value, AllocError>
    ensures { IfOk result (λ v. (w : World) (h : Helper) → helper_numbered helper ≡ Some h → value_in w (view v) ≡ helper_value path_eq [] [] h) }
{
    if helper >= HELPERS {
        return Err(AllocError);
    }
    let named = NamedValues::new(here.frame.alloc);
    gl_helpers::call(here.frame.alloc, helper, &[], &named)
}

/// A bare name: the last parameter of the name, along further names, or else the helper of that name without arguments.
fn bare(here: &Here, name: &Text, rest: &Texts) -> Result<Value, AllocError>
    ensures { IfOk result (λ v. (w : World) → Fits w here.now.frame → value_in w (view v) ≡ (bare_pair name.now rest.now (last_named name.now (params_in w here.now.params.now))).value) }
{
    match parameter_of(here.params.as_slice(), name) {
        Some(value) => along(value.copy()?, rest.as_slice()),
        None => alone(here, name),
    }
}

/// The expression at a place; undefined where there is none.
#[cycle(evaluate)]
fn value_at(
    here: &Here,
    left: usize,
    room: u32,
    exprs: &Exprs,
    place: usize,
) -> Result<Value, AllocError>
    ensures { IfOk result (λ v. (w : World) → Fits w here.now.frame → value_in w (view v) ≡ (at_place absent place (pairs_in w here.now left (exprs_of exprs.now))).value) }
{
    match exprs.get(place) {
        Some(expr) => value(here, left, room, expr),
        None => Ok(Value::Undefined),
    }
}

/// What `if` or `unless` gives. Of the two branches only that is evaluated which is taken.
#[cycle(evaluate)]
fn branch(
    here: &Here,
    left: usize,
    room: u32,
    unless: bool,
    exprs: &Exprs,
) -> Result<Value, AllocError>
    ensures { IfOk result (λ v. (w : World) → Fits w here.now.frame → let ps = pairs_in w here.now left (exprs_of exprs.now) in value_in w (view v) ≡ (branch_pair unless (at_place absent 0 ps) (at_place absent 1 ps) (at_place absent 2 ps)).value) }
{
    let condition = value_at(here, left, room, exprs, 0)?;
    if condition.truthy() == unless {
        value_at(here, left, room, exprs, 2)
    } else {
        value_at(here, left, room, exprs, 1)
    }
}

/// What a helper gives, by its name: undefined where there is none of the name.
#[cycle(evaluate)]
fn call(
    here: &Here,
    left: usize,
    room: u32,
    name: &Text,
    args: &Exprs,
    named: &Pairs,
) -> Result<Value, AllocError>
    ensures { IfOk result (λ v. (w : World) → Fits w here.now.frame → value_in w (view v) ≡ (call_pair name.now (pairs_in w here.now left (exprs_of args.now)) (named_in w here.now left (named_of named.now))).value) }
{
    match helpers().find(name.as_str()) {
        None => Ok(Value::Undefined),
        Some(0) => branch(here, left, room, false, args),
        Some(1) => branch(here, left, room, true, args),
        Some(helper) => called(here, left, room, helper, args, named),
    }
}

/// What a helper other than `if` and `unless` gives of all its arguments.
#[cycle(evaluate)]
fn called(
    here: &Here,
    left: usize,
    room: u32,
    helper: u16,
    args: &Exprs,
    named: &Pairs,
) -> Result<Value, AllocError>
    ensures { IfOk result (λ v. (w : World) → Fits w here.now.frame → (h : Helper) → helper_numbered helper ≡ Some h → value_in w (view v) ≡ helper_value path_eq (values_in (pairs_in w here.now left (exprs_of args.now))) (pair_values (named_in w here.now left (named_of named.now))) h) }
{
    if helper >= HELPERS {
        return Err(AllocError);
    }
    let values = values(here, left, room, args.as_slice())?;
    let named = named_values(here, left, room, named.as_slice())?;
    gl_helpers::call(here.frame.alloc, helper, values.as_slice(), &named)
}

/// What each of the expressions gives.
#[cycle(evaluate)]
pub fn values(here: &Here, left: usize, room: u32, exprs: &[Expr]) -> Result<Vec<Value>, AllocError>
    ensures { IfOk result (λ vs. (w : World) → Fits w here.now.frame → map (value_in w) (seen_items vs.items) ≡ values_in (pairs_in w here.now left (exprs_of (seen_exprs exprs.now)))) }
{
    let mut list = Vec::with_capacity(here.frame.alloc, exprs.len())?;
    for expr in exprs {
        list.push(value(here, left, room, expr)?)?;
    }
    Ok(list)
}

/// What each of the named expressions gives, with its name.
#[cycle(evaluate)]
fn named_values(
    here: &Here,
    left: usize,
    room: u32,
    named: &[NamedExpr],
) -> Result<NamedValues, AllocError>
    ensures { IfOk result (λ vs. (w : World) → Fits w here.now.frame → names_with (owner_in w) vs ≡ pair_values (named_in w here.now left (named_of (seen_pairs named.now)))) }
{
    let mut list = NamedValues::new(here.frame.alloc);
    for entry in named {
        let given = value(here, left, room, &entry.value)?;
        list.push(entry.name.copy()?, given)?;
    }
    Ok(list)
}

/// What an expression gives, where so many getters may be mentioned one in the other. It asks for no more memory than there is room for
/// so many expressions one in the other.
#[cycle(evaluate)]
pub fn value(here: &Here, left: usize, room: u32, expr: &Expr) -> Result<Value, AllocError>
    ensures { IfOk result (λ v. (w : World) → Fits w here.now.frame → value_in w (view v) ≡ (pair_in w here.now left (expr_view expr.now)).value) }
{
    if room == 0 {
        return Err(AllocError);
    }
    match expr {
        Expr::Lit(lit) => literal(lit),
        Expr::This { member: name, rest } => along(
            member(here, left, room - 1, name)?,
            rest.as_slice(),
        ),
        Expr::Arg { name, rest } => along(argument(&here.frame, name)?, rest.as_slice()),
        Expr::Bare { name, rest } => bare(here, name, rest),
        Expr::Call { name, args, named } => call(here, left, room - 1, name, args, &**named),
        Expr::Cat(parts) => {
            let values = values(here, left, room - 1, parts.as_slice())?;
            joined(here.frame.alloc, values.as_slice())
        }
    }
}
