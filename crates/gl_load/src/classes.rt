// Loads the template of each class.
ghost use Rattle.std.specs.Prelude.{◌≡◌, ◌≤◌, ◌∷◌, [], List, Some, IfOk, IfErr, length};
ghost use Rattle.std.specs.Str.{chars};
ghost use Rattle.gl_outside.specs.Shelf.{Entry};
ghost use Rattle.gl_load.specs.Load.{template_in, templates_in, templates_fetched};
ghost use Rattle.gl_load.specs.Loads.{Loads, HasCause, FailsAmong};
ghost use Rattle.gl_load.specs.Refusal.{in_file};
ghost use Rattle.gl_load.specs.Trees.{tree_of};

use crate::fault::{fault_in, no_memory};
use crate::file::template_in;
use crate::{LoadFault, Templates};
use gl_ast::Template;
use gl_meaning::Classes;
use gl_outside::Shelf;
use std::alloc::Global;

// The template of a class, whose file has that name.
fn class_template<S: Shelf>(alloc: Global, shelf: &mut S, name: &str) -> Result<Template, LoadFault>
    ensures keeps { S.holds shelf.new ≡ S.holds shelf.old }
    ensures told { (files : List Entry) → S.holds shelf.old ≡ Some files
        → Loads tree_of result (in_file (chars name.now) (template_in files (chars name.now))) }
    ensures causes { IfErr result (λ f. HasCause f.cause (S.misses shelf.old) (S.misses shelf.new) (S.faults shelf.old) (S.faults shelf.new)) }
    ensures named { IfErr result (λ f. FailsAmong f.cause f.file (chars name.now ∷ [])) }
    ensures misses_stay { S.misses shelf.old ≤ S.misses shelf.new }
    ensures faults_stay { S.faults shelf.old ≤ S.faults shelf.new }
{
    match template_in(alloc, shelf, name) {
        Ok(template) => Ok(template),
        Err(cause) => Err(fault_in(alloc, name, cause)),
    }
}

/// The template of each class, in the order of the classes.
pub fn templates_in<S: Shelf>(
    alloc: Global,
    shelf: &mut S,
    classes: &Classes,
) -> Result<Templates, LoadFault>
    ensures keeps { S.holds shelf.new ≡ S.holds shelf.old }
    ensures told { (files : List Entry) → S.holds shelf.old ≡ Some files → Loads (λ t. t) result (templates_in files classes.now) }
    ensures many { IfOk result (λ t. length t ≡ length classes.now) }
    ensures causes { IfErr result (λ f. HasCause f.cause (S.misses shelf.old) (S.misses shelf.new) (S.faults shelf.old) (S.faults shelf.new)) }
    ensures named { (files : List Entry) → S.holds shelf.old ≡ Some files
        → IfErr result (λ f. FailsAmong f.cause f.file (templates_fetched files classes.now)) }
    ensures misses_stay { S.misses shelf.old ≤ S.misses shelf.new }
    ensures faults_stay { S.faults shelf.old ≤ S.faults shelf.new }
{
    let mut templates = Templates::new(alloc);
    for class in classes.as_slice() {
        let tree = class_template(alloc, shelf, class.file.as_str())?;
        if templates.push(tree).is_err() {
            return Err(no_memory(alloc));
        }
    }
    Ok(templates)
}
