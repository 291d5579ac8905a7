// Loads an application with its script.
ghost use Rattle.std.specs.Prelude.{◌≡◌, ◌≤◌, List, Some, IfOk, IfErr};
ghost use Rattle.std.specs.Str.{chars};
ghost use Rattle.gl_outside.specs.Shelf.{Entry};
ghost use Rattle.gl_meaning.specs.View.{manifest_view, class_view, script_view};
ghost use Rattle.gl_opc.specs.IsApp.{IsAppWith};
ghost use Rattle.gl_script.specs.ScriptOver.{IsScriptOver};
ghost use Rattle.gl_load.specs.IsLoaded.{IsLoadedWith};
ghost use Rattle.gl_load.specs.Load.{class_named, root_fields, whole_in, whole_fetched};
ghost use Rattle.gl_load.specs.Loads.{Loads, HasCause, FailsAmong};
ghost use Rattle.gl_load.specs.View.{whole_view};

use crate::application::load_app;
use crate::events::load_script;
use crate::programs::root_of;
use crate::{LoadFault, Templates};
use gl_meaning::{Class, Script};
use gl_opc::App;
use gl_outside::Shelf;
use std::alloc::Global;

/// An application with its templates, in the order of the classes, and its script.
#[derive(Drop)]
pub struct Loaded {
    pub app: App,
    pub templates: Templates,
    pub script: Script,
}

// The class that the root names. Every name of the application is known, so there is one.
fn root_class(app: &App) -> &Class
    ensures { class_named app.now.manifest.root app.now.manifest.classes ≡ Some (class_view result.now) }
{
    match root_of(app.manifest()) {
        Some(class) => class,
        None => unreachable!(),
    }
}

// The application with its script.
#[tactic(auto, unfolding(crate::specs::Load::whole_in))]
fn whole_in<S: Shelf>(
    alloc: Global,
    shelf: &mut S,
    manifest: &str,
    script: &str,
) -> Result<Loaded, LoadFault>
    ensures keeps { S.holds shelf.new ≡ S.holds shelf.old }
    ensures told { (files : List Entry) → S.holds shelf.old ≡ Some files
        → Loads whole_view result (whole_in files (chars manifest.now) (chars script.now)) }
    ensures made { IfOk result (λ a. IsAppWith (manifest_view a.app.manifest) a.templates a.app.programs) }
    ensures over { IfOk result (λ a. IsScriptOver (root_fields (manifest_view a.app.manifest)) (script_view a.script)) }
    ensures causes { IfErr result (λ f. HasCause f.cause (S.misses shelf.old) (S.misses shelf.new) (S.faults shelf.old) (S.faults shelf.new)) }
    ensures named { (files : List Entry) → S.holds shelf.old ≡ Some files
        → IfErr result (λ f. FailsAmong f.cause f.file (whole_fetched files (chars manifest.now) (chars script.now))) }
    ensures misses_stay { S.misses shelf.old ≤ S.misses shelf.new }
    ensures faults_stay { S.faults shelf.old ≤ S.faults shelf.new }
{
    let loaded = load_app(alloc, shelf, manifest)?;
    let root = root_class(&loaded.app);
    let script = load_script(alloc, shelf, root, script)?;
    Ok(Loaded {
        app: loaded.app,
        templates: loaded.templates,
        script,
    })
}

/// Loads an application and its script, or gives the first refusal: the application is loaded, and then the script is fetched
/// and read, for the class that the root names. What is loaded is what the files
/// stand for.
pub fn load<S: Shelf>(
    alloc: Global,
    shelf: &mut S,
    manifest: &str,
    script: &str,
) -> Result<Loaded, LoadFault>
    ensures keeps { S.holds shelf.new ≡ S.holds shelf.old }
    ensures told { (files : List Entry) → S.holds shelf.old ≡ Some files
        → Loads whole_view result (whole_in files (chars manifest.now) (chars script.now)) }
    ensures loaded { (files : List Entry) → S.holds shelf.old ≡ Some files
        → IfOk result (λ a. IsLoadedWith files (chars manifest.now) (chars script.now) (whole_view a)) }
    ensures made { IfOk result (λ a. IsAppWith (manifest_view a.app.manifest) a.templates a.app.programs) }
    ensures over { IfOk result (λ a. IsScriptOver (root_fields (manifest_view a.app.manifest)) (script_view a.script)) }
    ensures causes { IfErr result (λ f. HasCause f.cause (S.misses shelf.old) (S.misses shelf.new) (S.faults shelf.old) (S.faults shelf.new)) }
    ensures named { (files : List Entry) → S.holds shelf.old ≡ Some files
        → IfErr result (λ f. FailsAmong f.cause f.file (whole_fetched files (chars manifest.now) (chars script.now))) }
    ensures misses_stay { S.misses shelf.old ≤ S.misses shelf.new }
    ensures faults_stay { S.faults shelf.old ≤ S.faults shelf.new }
{
    whole_in(alloc, shelf, manifest, script)
}
