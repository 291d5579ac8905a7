// The texts that a manifest may have, by their form alone.
ghost use Rattle.gl_meaning.specs.ManifestShape.{expression_check, arguments_check, flag_check, file_check, limit_check, modifier_check};
ghost use Rattle.gl_meaning.specs.NameTests.{is_name, is_class_name};
ghost use Rattle.gl_meaning.specs.Walk.{text_check, sound_if};
ghost use Rattle.gl_shape.specs.View.{Tells};
ghost use Rattle.serde_json.specs.View.{view};
ghost use Rattle.std.specs.Prelude.{true};

use gl_shape::{ItemRule, PlaceFault, check_array, is_class_name, is_free_name, is_name};
use std::alloc::Global;

const MOST_BYTES: usize = 65536;

const MOST_NESTING: u64 = 64;

fn sound_if(alloc: Global, fits: bool) -> Result<(), PlaceFault>
    ensures { Tells (λ u. tt) result (sound_if fits) }
{
    if fits {
        Ok(())
    } else {
        Err(PlaceFault::here(alloc))
    }
}

/// Any text.
pub fn check_text(alloc: Global, json: &serde_json::Value) -> Result<(), PlaceFault>
    ensures { Tells (λ u. tt) result (text_check (λ s. true) (view json.now)) }
{
    match json.as_str() {
        Some(_) => Ok(()),
        None => Err(PlaceFault::here(alloc)),
    }
}

/// A name, which may be reserved.
pub fn check_name(alloc: Global, json: &serde_json::Value) -> Result<(), PlaceFault>
    ensures { Tells (λ u. tt) result (text_check is_name (view json.now)) }
{
    match json.as_str() {
        Some(text) => sound_if(alloc, is_name(text.as_bytes())),
        None => Err(PlaceFault::here(alloc)),
    }
}

/// A class name.
pub fn check_class_name(alloc: Global, json: &serde_json::Value) -> Result<(), PlaceFault>
    ensures { Tells (λ u. tt) result (text_check is_class_name (view json.now)) }
{
    match json.as_str() {
        Some(text) => sound_if(alloc, is_class_name(text.as_bytes())),
        None => Err(PlaceFault::here(alloc)),
    }
}

/// The name of a file: a text that is not empty.
pub fn check_file(alloc: Global, json: &serde_json::Value) -> Result<(), PlaceFault>
    ensures { Tells (λ u. tt) result (file_check (view json.now)) }
{
    match json.as_str() {
        Some(text) => sound_if(alloc, !text.is_empty()),
        None => Err(PlaceFault::here(alloc)),
    }
}

/// The text of an expression, which is not too long.
#[tactic(auto, unfolding(gl_meaning::specs::ManifestShape::expression_check))]
pub fn check_expression(alloc: Global, json: &serde_json::Value) -> Result<(), PlaceFault>
    ensures { Tells (λ u. tt) result (expression_check (view json.now)) }
{
    match json.as_str() {
        Some(text) => sound_if(alloc, text.len() <= MOST_BYTES),
        None => Err(PlaceFault::here(alloc)),
    }
}

// Each item is the text of an expression.
struct ArgumentRule;

impl ItemRule for ArgumentRule {
    ghost rule = { λ s n d. expression_check d };

    fn check(&self, alloc: Global, _: usize, value: &serde_json::Value) -> Result<(), PlaceFault> {
        check_expression(alloc, value)
    }
}

/// An array of texts of expressions.
#[tactic(auto, unfolding(gl_meaning::specs::ManifestShape::arguments_check))]
pub fn check_arguments(alloc: Global, json: &serde_json::Value) -> Result<(), PlaceFault>
    ensures { Tells (λ u. tt) result (arguments_check (view json.now)) }
{
    check_array(alloc, true, &ArgumentRule, json)
}

/// A flag.
pub fn check_flag(alloc: Global, json: &serde_json::Value) -> Result<(), PlaceFault>
    ensures { Tells (λ u. tt) result (flag_check (view json.now)) }
{
    match json.as_bool() {
        Some(_) => Ok(()),
        None => Err(PlaceFault::here(alloc)),
    }
}

/// How deep components may nest.
#[tactic(auto, unfolding(gl_meaning::specs::ManifestShape::limit_check))]
pub fn check_limit(alloc: Global, json: &serde_json::Value) -> Result<(), PlaceFault>
    ensures { Tells (λ u. tt) result (limit_check (view json.now)) }
{
    match json.as_u64() {
        Some(limit) => sound_if(alloc, 1 <= limit && limit <= MOST_NESTING),
        None => Err(PlaceFault::here(alloc)),
    }
}

/// A modifier: a name that is neither reserved nor `on`.
#[tactic(auto, unfolding(gl_meaning::specs::ManifestShape::modifier_check))]
pub fn check_modifier(alloc: Global, json: &serde_json::Value) -> Result<(), PlaceFault>
    ensures { Tells (λ u. tt) result (modifier_check (view json.now)) }
{
    match json.as_str() {
        Some(text) => sound_if(alloc, is_free_name(text.as_bytes()) && text != "on"),
        None => Err(PlaceFault::here(alloc)),
    }
}
