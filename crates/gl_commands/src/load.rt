// Loads a template or JSON from a shelf.
ghost use Rattle.std.specs.Prelude.{◌≡◌, ◌∷◌, [], List, Some, IfErr};
ghost use Rattle.std.specs.Str.{chars};
ghost use Rattle.gl_ast.specs.Template.{body_of};
ghost use Rattle.gl_outside.specs.Shelf.{Entry};
ghost use Rattle.gl_load.specs.Loads.{Gives, Loads, HasCause, FailsAmong};
ghost use Rattle.serde_json.specs.View.{view};
ghost use Rattle.gl_commands.specs.Load.{tree_in, json_held, json_in};

use gl_ast::Template;
use gl_load::{LoadCause, LoadFault, fault_in, fetch_small, template_in};
use gl_outside::Shelf;
use gl_shape::json_of;
use serde_json::Value;
use std::alloc::Global;

/// The template that a file spells, or why there is none. Contracts see its tree.
#[tactic(auto, unfolding(crate::specs::Load::tree_in))]
pub fn template_of<S: Shelf>(
    alloc: Global,
    shelf: &mut S,
    name: &str,
) -> Result<Template, LoadFault>
    ensures told { (files : List Entry) → S.holds shelf.old ≡ Some files → Loads (λ t. body_of t.body) result (tree_in files (chars name.now)) }
    ensures causes { IfErr result (λ f. HasCause f.cause (S.misses shelf.old) (S.misses shelf.new) (S.faults shelf.old) (S.faults shelf.new)) }
    ensures named { IfErr result (λ f. FailsAmong f.cause f.file (chars name.now ∷ [])) }
{
    match template_in(alloc, shelf, name) {
        Ok(template) => Ok(template),
        Err(cause) => Err(fault_in(alloc, name, cause)),
    }
}

// The JSON that a file holds.
#[tactic(auto, unfolding(crate::specs::Load::json_held))]
fn json_held<S: Shelf>(alloc: Global, shelf: &mut S, name: &str) -> Result<Value, LoadCause>
    ensures told { (files : List Entry) → S.holds shelf.old ≡ Some files → Gives (λ v. view v) result (json_held files (chars name.now)) }
    ensures causes { IfErr result (λ e. HasCause e (S.misses shelf.old) (S.misses shelf.new) (S.faults shelf.old) (S.faults shelf.new)) }
{
    let bytes = fetch_small(alloc, shelf, name)?;
    match json_of(alloc, &bytes)? {
        Some(json) => Ok(json),
        None => Err(LoadCause::BadJson),
    }
}

/// The JSON that a file holds, or why there is none.
#[tactic(auto, unfolding(crate::specs::Load::json_in))]
pub fn json_in<S: Shelf>(alloc: Global, shelf: &mut S, name: &str) -> Result<Value, LoadFault>
    ensures told { (files : List Entry) → S.holds shelf.old ≡ Some files → Loads (λ v. view v) result (json_in files (chars name.now)) }
    ensures causes { IfErr result (λ f. HasCause f.cause (S.misses shelf.old) (S.misses shelf.new) (S.faults shelf.old) (S.faults shelf.new)) }
    ensures named { IfErr result (λ f. FailsAmong f.cause f.file (chars name.now ∷ [])) }
{
    match json_held(alloc, shelf, name) {
        Ok(json) => Ok(json),
        Err(cause) => Err(fault_in(alloc, name, cause)),
    }
}
