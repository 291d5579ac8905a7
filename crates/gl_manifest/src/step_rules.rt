// The form of steps and of the actions that they make.
ghost use Rattle.std.specs.Prelude.{◌≡◌, Some};
ghost use Rattle.serde_json.specs.View.{view, items_view};
ghost use Rattle.gl_meaning.specs.JsonText.{items_in};
ghost use Rattle.gl_meaning.specs.ManifestShape.{step_member, is_step, step_check, is_text, is_before, param_check, action_member, action_check};
ghost use Rattle.gl_shape.specs.View.{Tells};

use crate::texts::{check_arguments, check_expression, check_name, check_text};
use gl_shape::{
    ItemRule, MemberRule, PlaceFault, check_array, check_object, has_key, is_free_name, item_count,
};
use std::alloc::Global;

const MOST_PARAMS: usize = 16;

// The members of a step that sets a field, or of one that calls an action.
#[derive(Drop)]
struct StepRule {
    sets: bool,
}

impl MemberRule for StepRule {
    ghost rule = { λ s k d. step_member s.sets k d };

    #[tactic(auto, unfolding(gl_meaning::specs::ManifestShape::step_member))]
    fn check(&self, alloc: Global, key: &str, value: &serde_json::Value) -> Result<(), PlaceFault> {
        if key == "call" {
            check_text(alloc, value)
        } else if key == "set" {
            check_name(alloc, value)
        } else if key == "to" && self.sets {
            check_expression(alloc, value)
        } else if key == "when" {
            check_expression(alloc, value)
        } else if key == "with" && !self.sets {
            check_arguments(alloc, value)
        } else {
            Err(PlaceFault::here(alloc))
        }
    }
}

#[tactic(auto, unfolding(gl_meaning::specs::ManifestShape::is_step))]
fn is_step(json: &serde_json::Value) -> bool
    ensures { result ≡ is_step (view json.now) }
{
    if has_key(json, "set") {
        has_key(json, "to") && !has_key(json, "call")
    } else {
        has_key(json, "call")
    }
}

// The steps of an action.
struct DoRule;

impl ItemRule for DoRule {
    ghost rule = { λ s n d. step_check d };

    #[tactic(auto, unfolding(gl_meaning::specs::ManifestShape::step_check))]
    fn check(&self, alloc: Global, _: usize, value: &serde_json::Value) -> Result<(), PlaceFault> {
        let sets = has_key(value, "set");
        check_object(alloc, is_step(value), &StepRule { sets }, value)
    }
}

fn is_text(json: &serde_json::Value, name: &str) -> bool
    ensures { result ≡ is_text name.now (view json.now) }
{
    match json.as_str() {
        Some(text) => name == text,
        None => false,
    }
}

// Whether the text is among the first so many items.
#[tactic(auto, using(crate::proofs::Before::before))]
fn is_before(items: &[serde_json::Value], place: usize, name: &str) -> bool
    ensures { result ≡ is_before place name.now (items_view items.now) }
{
    for (at, item) in items.iter().enumerate() {
        if at >= place {
            return false;
        }
        if is_text(item, name) {
            return true;
        }
    }
    false
}

// Whether the text is among the first so many items of the array.
fn is_listed(json: &serde_json::Value, place: usize, name: &str) -> bool
    ensures { result ≡ is_before place name.now (items_in (Some (view json.now))) }
{
    match json.as_array() {
        Some(items) => is_before(items.as_slice(), place, name),
        None => false,
    }
}

// The parameters of an action.
#[derive(Drop)]
struct ParamRule<'a> {
    all: &'a serde_json::Value,
}

impl<'a> ItemRule for ParamRule<'a> {
    ghost rule = { λ s n d. param_check (view s.all.now) n d };

    #[tactic(auto, unfolding(gl_meaning::specs::ManifestShape::param_check))]
    fn check(
        &self,
        alloc: Global,
        place: usize,
        value: &serde_json::Value,
    ) -> Result<(), PlaceFault> {
        match value.as_str() {
            Some(name) if is_free_name(name.as_bytes()) && !is_listed(self.all, place, name) => Ok(
                (),
            ),
            _ => Err(PlaceFault::here(alloc)),
        }
    }
}

// The members of an action.
struct ActionRule;

impl MemberRule for ActionRule {
    ghost rule = { λ s k d. action_member k d };

    #[tactic(auto, unfolding(gl_meaning::specs::ManifestShape::action_member))]
    fn check(&self, alloc: Global, key: &str, value: &serde_json::Value) -> Result<(), PlaceFault> {
        if key == "do" {
            check_array(alloc, true, &DoRule, value)
        } else if key == "params" {
            check_array(
                alloc,
                item_count(value) <= MOST_PARAMS,
                &ParamRule { all: value },
                value,
            )
        } else {
            Err(PlaceFault::here(alloc))
        }
    }
}

/// An action under its name.
#[tactic(auto, unfolding(gl_meaning::specs::ManifestShape::action_check))]
pub fn check_action(alloc: Global, key: &str, json: &serde_json::Value) -> Result<(), PlaceFault>
    ensures { Tells (λ u. tt) result (action_check key.now (view json.now)) }
{
    if is_free_name(key.as_bytes()) {
        check_object(alloc, has_key(json, "do"), &ActionRule, json)
    } else {
        Err(PlaceFault::here(alloc))
    }
}
