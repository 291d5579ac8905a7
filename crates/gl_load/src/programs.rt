// The programs of an application.
ghost use Rattle.std.specs.Prelude.{◌≡◌, IfOk, IfErr, ℕ, List, length, option_map};
ghost use Rattle.std.specs.Str.{chars};
ghost use Rattle.gl_base.specs.Texts.{Text};
ghost use Rattle.gl_meaning.specs.Known.{Known, first_unknown};
ghost use Rattle.gl_meaning.specs.Manifest.{app_of};
ghost use Rattle.gl_meaning.specs.View.{manifest_view, class_view};
ghost use Rattle.gl_program.specs.View.{program_view, class_program_view};
ghost use Rattle.gl_opc.specs.Lowers.{Lowers};
ghost use Rattle.gl_opc.specs.Programs.{getters_exprs, actions_exprs, LowerEach, LowersClass, LowersApp};
ghost use Rattle.gl_load.specs.Load.{class_named, all_known};
ghost use Rattle.gl_load.specs.Names.{root_known, template_known, entry_known, class_known, classes_known, names_known, Knows, KnowsIn};
ghost use Rattle.gl_load.specs.Refusal.{in_file};
ghost use Rattle.gl_load.specs.Spelled.{IsSpelledClass, IsSpelledManifest};
ghost use Rattle.gl_load.specs.Trees.{tree_of};

use crate::entries::{EntryPrograms, entry_programs};
use crate::fault::{fault_in, no_memory};
use crate::{LoadCause, LoadFault, Templates};
use gl_ast::Template;
use gl_meaning::{Class, Kind, Manifest};
use gl_opc::{ClassProgram, LinkFault, Program, Programs, link};
use gl_wirec::compile;
use std::alloc::Global;

/// The class that the root names.
pub fn root_of(manifest: &Manifest) -> Option<&Class>
    ensures { option_map (λ c. class_view c.now) result ≡ class_named manifest.now.root manifest.now.classes }
{
    for class in manifest.classes.as_slice() {
        if manifest.root.same(&class.name) {
            return Some(class);
        }
    }
    None
}

// The root is a class.
fn find_root(manifest: &Manifest) -> Result<(), LoadCause>
    ensures { Knows result (root_known (manifest_view manifest.now)) }
{
    match root_of(manifest) {
        Some(_) => Ok(()),
        None => Err(LoadCause::UnknownName {
            kind: Kind::Component,
            name: manifest.root.copy()?,
        }),
    }
}

// The program of a class's template.
fn template_program(
    alloc: Global,
    manifest: &Manifest,
    class: &Class,
    template: &Template,
) -> Result<Program, LoadCause>
    ensures told { Knows result (template_known (manifest_view manifest.now) (class_view class.now) (tree_of template.now)) }
    ensures lowers { IfOk result (λ p. Lowers (program_view p) (tree_of template.now) (manifest_view manifest.now) (class_view class.now)) }
{
    let wire = compile(alloc, template)?;
    match link(alloc, &wire, manifest, class) {
        Ok(program) => Ok(program),
        Err(
            LinkFault::UnknownName {
                kind,
                name,
                place: _,
            },
        ) => Err(LoadCause::UnknownName { kind, name }),
        Err(LinkFault::Memory) => Err(LoadCause::Memory),
    }
}

// The same, with the template's file where a name is not known.
fn template_program_in(
    alloc: Global,
    manifest: &Manifest,
    class: &Class,
    template: &Template,
) -> Result<Program, LoadFault>
    ensures told { KnowsIn result (in_file class.now.file (template_known (manifest_view manifest.now) (class_view class.now) (tree_of template.now))) }
    ensures lowers { IfOk result (λ p. Lowers (program_view p) (tree_of template.now) (manifest_view manifest.now) (class_view class.now)) }
{
    match template_program(alloc, manifest, class, template) {
        Ok(program) => Ok(program),
        Err(cause) => Err(fault_in(alloc, class.file.as_str(), cause)),
    }
}

// The programs of what the manifest says of a class, with the manifest's file where a name is not known.
fn entry_programs_in(
    alloc: Global,
    name: &str,
    manifest: &Manifest,
    class: &Class,
) -> Result<EntryPrograms, LoadFault>
    requires { IsSpelledClass (class_view class.now) }
    ensures told { KnowsIn result (in_file (chars name.now) (entry_known (manifest_view manifest.now) (class_view class.now))) }
    ensures getters { IfOk result (λ p. LowerEach (manifest_view manifest.now) (class_view class.now) (getters_exprs (class_view class.now)) p.getters) }
    ensures actions { IfOk result (λ p. LowerEach (manifest_view manifest.now) (class_view class.now) (actions_exprs (class_view class.now)) p.actions) }
{
    match entry_programs(alloc, manifest, class) {
        Ok(programs) => Ok(programs),
        Err(cause) => Err(fault_in(alloc, name, cause)),
    }
}

// The programs of a class.
fn class_programs(
    alloc: Global,
    name: &str,
    manifest: &Manifest,
    class: &Class,
    template: &Template,
) -> Result<ClassProgram, LoadFault>
    requires { IsSpelledClass (class_view class.now) }
    ensures told { KnowsIn result (class_known (manifest_view manifest.now) (class_view class.now) (chars name.now) (tree_of template.now)) }
    ensures lowers { IfOk result (λ p. LowersClass (manifest_view manifest.now) (class_view class.now) (tree_of template.now) (class_program_view p)) }
{
    let template = template_program_in(alloc, manifest, class, template)?;
    let entries = entry_programs_in(alloc, name, manifest, class)?;
    Ok(ClassProgram {
        template,
        getters: entries.getters,
        actions: entries.actions,
    })
}

// The programs of the classes.
fn programs_of_classes(
    alloc: Global,
    name: &str,
    manifest: &Manifest,
    templates: &Templates,
) -> Result<Programs, LoadFault>
    requires spelled { IsSpelledManifest (manifest_view manifest.now) }
    requires many { length templates.now ≡ length manifest.now.classes }
    ensures told { KnowsIn result (classes_known (chars name.now) (manifest_view manifest.now) manifest.now.classes templates.now) }
    ensures lowers { IfOk result (λ p. LowersApp (manifest_view manifest.now) templates.now p) }
{
    let mut programs = Programs::new(alloc);
    for (place, class) in manifest.classes.as_slice().iter().enumerate() {
        let Some(template) = templates.get(place) else {
            unreachable!()
        };
        let program = class_programs(alloc, name, manifest, class, template)?;
        if programs.push(program).is_err() {
            return Err(no_memory(alloc));
        }
    }
    Ok(programs)
}

// The root is a class, or the manifest's file is told.
fn find_root_in(alloc: Global, name: &str, manifest: &Manifest) -> Result<(), LoadFault>
    ensures { KnowsIn result (in_file (chars name.now) (root_known (manifest_view manifest.now))) }
{
    match find_root(manifest) {
        Ok(()) => Ok(()),
        Err(cause) => Err(fault_in(alloc, name, cause)),
    }
}

/// The programs of an application whose classes have these templates, or the first name that is not known: the root, and then,
/// class by class, those of its template, of its getters and of its actions. What stands in the manifest is told of the
/// manifest's file, which has this name. It takes time in proportion to the manifest and the templates times the longest list of
/// names in which one is looked up.
pub fn programs_of(
    alloc: Global,
    name: &str,
    manifest: &Manifest,
    templates: &Templates,
) -> Result<Programs, LoadFault>
    requires spelled { IsSpelledManifest (manifest_view manifest.now) }
    requires many { length templates.now ≡ length manifest.now.classes }
    ensures told { KnowsIn result (all_known (chars name.now) (first_unknown (app_of (manifest_view manifest.now) templates.now))) }
    ensures known { IfOk result (λ p. Known (app_of (manifest_view manifest.now) templates.now)) }
    ensures lowers { IfOk result (λ p. LowersApp (manifest_view manifest.now) templates.now p) }
{
    find_root_in(alloc, name, manifest)?;
    programs_of_classes(alloc, name, manifest, templates)
}
