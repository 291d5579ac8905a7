// Actions that run.
ghost use Rattle.std.specs.Prelude.{◌≡◌, ◌<◌, ◌∷◌, ◌++◌, [], length, map, option_map, OnOk, IfOk};
ghost use Rattle.gl_value.specs.Value.{plain};
ghost use Rattle.gl_value.specs.Value as v;
ghost use Rattle.gl_value.specs.View.{view, seen_items};
ghost use Rattle.gl_ast.specs.Template.{exprs_of};
ghost use Rattle.gl_ast.specs.View.{expr_view};
ghost use Rattle.gl_meaning.specs.Actions.{Calls, runs, run_step, run_steps, run};
ghost use Rattle.gl_meaning.specs.Eval.{values_in};
ghost use Rattle.gl_meaning.specs.View.{class_view, step_view, seen_steps};
ghost use Rattle.gl_opc.specs.declared.app.App.{App};
ghost use Rattle.gl_code.specs.declared.page.Page.{Page};
ghost use Rattle.gl_actions.specs.World.{World, app_in, value_in, field_in, sets_in};
ghost use Rattle.gl_actions.specs.Frames.{Fits, scope_in, this_in};
ghost use Rattle.gl_actions.specs.Steps.{given_at, all_at, calls_in, callee_in};
ghost use Rattle.gl_actions.specs.Reads.{Reads};
ghost use Rattle.gl_actions.specs.Own.{IsOnPage, AddsOwn};

use crate::arguments::argument;
use crate::frame::{Frame, Here};
use crate::givens::{all_given, bound, given, goes, joined_values};
use crate::lookup::{action_of, field_place};
use crate::plainly::along;
use crate::sets::{Set, Sets};
use crate::turn::{Turn, depth_of, frame_of};
use gl_ast::{Expr, Exprs};
use gl_meaning::{Step, StepKind};
use gl_value::{Act, NamedValues, Text, Texts, Value};
use std::alloc::AllocError;

/// A value that is called, and what it is called with.
#[derive(Drop)]
pub struct Call {
    pub value: Value,
    pub given: Vec<Value>,
}

/// The place of a field of the instance's class.
pub fn place_of(frame: &Frame, field: &Text) -> Result<u16, AllocError>
    ensures name { IfOk result (λ q. (w : World) → Fits w frame.now → field_in w (this_in frame.now) q ≡ field.now) }
    ensures below { IfOk result (λ q. q < length (class_view frame.now.class.now).fields) }
{
    match field_place(frame.class.fields.as_slice(), field) {
        Some(place) if place <= u16::MAX as usize => Ok(place as u16),
        _ => Err(AllocError),
    }
}

/// Sets a field to the plain form of what an expression gives.
fn set_field(
    frame: &Frame,
    params: &NamedValues,
    field: &Text,
    to: &Expr,
    sets: &mut Sets,
) -> Result<(), AllocError>
    ensures sets { OnOk result ((w : World) → Fits w frame.now → sets_in w sets.new ≡ sets_in w sets.old ++ record { instance = this_in frame.now; field = field.now; value = plain (given_at w frame.now params.now sets.old (expr_view to.now)).value } ∷ []) }
    ensures own { OnOk result ((a : App) (page : Page) → IsOnPage a page frame.now → AddsOwn a page sets.old sets.new) }
{
    let place = place_of(frame, field)?;
    let here = Here {
        frame: *frame,
        params,
        sets: &*sets,
    };
    let to = given(&here, to)?.data_of()?;
    sets.push(Set {
        owner: frame.owner.id,
        field: place,
        to,
    })
}

/// What a step calls, and what it calls it with, as the sets are so far.
fn called(
    frame: &Frame,
    params: &NamedValues,
    sets: &Sets,
    name: &Text,
    rest: &Texts,
    args: &Exprs,
) -> Result<Call, AllocError>
    ensures value { IfOk result (λ x. (w : World) → Fits w frame.now → value_in w (view x.value) ≡ callee_in w frame.now name.now rest.now) }
    ensures given { IfOk result (λ x. (w : World) → Fits w frame.now → map (value_in w) (seen_items x.given.items) ≡ values_in (all_at w frame.now params.now sets.now (exprs_of args.now))) }
{
    let here = Here {
        frame: *frame,
        params,
        sets,
    };
    let value = along(argument(frame, name)?, rest.as_slice())?;
    let given = all_given(&here, args)?;
    Ok(Call { value, given })
}

/// Whether a step runs, as the sets are so far.
fn is_run(
    frame: &Frame,
    params: &NamedValues,
    sets: &Sets,
    when: &Option<Expr>,
) -> Result<bool, AllocError>
    ensures { IfOk result (λ b. (w : World) → Fits w frame.now → (calls : Calls) → b ≡ runs (app_in w) w.store calls (scope_in w frame.now params.now) (option_map expr_view when.now) (sets_in w sets.now)) }
{
    let here = Here {
        frame: *frame,
        params,
        sets,
    };
    goes(&here, when)
}

/// One step of an action: of the calls in it so many may nest.
#[cycle(run)]
fn step_on(
    turn: &Turn,
    frame: &Frame,
    params: &NamedValues,
    levels: u32,
    step: &Step,
    sets: &mut Sets,
) -> Result<(), AllocError>
    requires none { turn.now.none.now ≡ [] }
    ensures sets { OnOk result ((w : World) → Reads turn.now.app.now turn.now.page.now w → Fits w frame.now → sets_in w sets.new ≡ run_step (app_in w) w.store (calls_in w levels) (scope_in w frame.now params.now) (step_view step.now) (sets_in w sets.old)) }
    ensures own { OnOk result (IsOnPage turn.now.app.now turn.now.page.now frame.now → AddsOwn turn.now.app.now turn.now.page.now sets.old sets.new) }
{
    if !is_run(frame, params, sets, &step.when)? {
        return Ok(());
    }
    match &step.kind {
        StepKind::Set { field, to } => set_field(frame, params, field, to, sets),
        StepKind::Call { name, rest, args } => {
            let Call { value, given } = called(frame, params, sets, name, rest, args)?;
            value_on(turn, levels, &value, given, sets)
        }
    }
}

/// The steps of an action, in order.
#[cycle(run)]
fn steps_on(
    turn: &Turn,
    frame: &Frame,
    params: &NamedValues,
    levels: u32,
    steps: &[Step],
    sets: &mut Sets,
) -> Result<(), AllocError>
    requires none { turn.now.none.now ≡ [] }
    ensures sets { OnOk result ((w : World) → Reads turn.now.app.now turn.now.page.now w → Fits w frame.now → sets_in w sets.new ≡ run_steps (app_in w) w.store (calls_in w levels) (scope_in w frame.now params.now) (seen_steps steps.now) (sets_in w sets.old)) }
    ensures own { OnOk result (IsOnPage turn.now.app.now turn.now.page.now frame.now → AddsOwn turn.now.app.now turn.now.page.now sets.old sets.new) }
{
    for step in steps {
        step_on(turn, frame, params, levels, step, sets)?;
    }
    Ok(())
}

/// An action, with what it is given: it and those that it calls may nest so deep.
#[cycle(run)]
fn action_on(
    turn: &Turn,
    levels: u32,
    act: &Act,
    given: Vec<Value>,
    sets: &mut Sets,
) -> Result<(), AllocError>
    requires none { turn.now.none.now ≡ [] }
    ensures sets { OnOk result ((w : World) → Reads turn.now.app.now turn.now.page.now w → sets_in w sets.new ≡ calls_in w levels (value_in w (v.action act.now.owner act.now.name (v.values_of act.now.fixed))) (map (value_in w) (seen_items given.items)) (sets_in w sets.old)) }
    ensures own { OnOk result (AddsOwn turn.now.app.now turn.now.page.now sets.old sets.new) }
{
    if levels == 0 {
        return Ok(());
    }
    let frame = frame_of(turn, act.owner)?;
    match action_of(frame.class.actions.as_slice(), act.name.as_text()) {
        Some(action) => {
            let all = joined_values(turn.alloc, act.fixed.as_slice(), given)?;
            let params = bound(turn.alloc, action.params.as_slice(), all.as_slice())?;
            steps_on(
                turn,
                &frame,
                &params,
                levels - 1,
                action.steps.as_slice(),
                sets,
            )
        }
        None => Ok(()),
    }
}

/// A value that is called: what is no action does nothing.
#[cycle(run)]
fn value_on(
    turn: &Turn,
    levels: u32,
    value: &Value,
    given: Vec<Value>,
    sets: &mut Sets,
) -> Result<(), AllocError>
    requires none { turn.now.none.now ≡ [] }
    ensures sets { OnOk result ((w : World) → Reads turn.now.app.now turn.now.page.now w → sets_in w sets.new ≡ calls_in w levels (value_in w (view value.now)) (map (value_in w) (seen_items given.items)) (sets_in w sets.old)) }
    ensures own { OnOk result (AddsOwn turn.now.app.now turn.now.page.now sets.old sets.new) }
{
    match value {
        Value::Act(act) => action_on(turn, levels, act, given, sets),
        _ => Ok(()),
    }
}

/// A value that is called by an event, with its payload. As many calls may nest as components stand on the way to the owner.
pub fn run_value(
    turn: &Turn,
    value: &Value,
    payload: &Value,
    sets: &mut Sets,
) -> Result<(), AllocError>
    requires none { turn.now.none.now ≡ [] }
    ensures sets { OnOk result ((w : World) → Reads turn.now.app.now turn.now.page.now w → sets_in w sets.new ≡ run (app_in w) w.store w.forest (value_in w (view value.now)) (value_in w (view payload.now) ∷ []) (sets_in w sets.old)) }
    ensures own { OnOk result (AddsOwn turn.now.app.now turn.now.page.now sets.old sets.new) }
{
    match value {
        Value::Act(act) => {
            let frame = frame_of(turn, act.owner)?;
            let levels = depth_of(frame.owner)?;
            let mut given = Vec::new(turn.alloc);
            given.push(payload.copy()?)?;
            action_on(turn, levels, act, given, sets)
        }
        _ => Ok(()),
    }
}
