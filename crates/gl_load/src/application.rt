// Loads an application: its manifest, the template of each class, its programs, and that no getter reaches itself.
ghost use Rattle.std.specs.Prelude.{◌≡◌, ◌≤◌, ◌∷◌, [], ℕ, List, Some, OnOk, IfOk, IfErr, length};
ghost use Rattle.std.specs.Str.{chars};
ghost use Rattle.gl_base.specs.Texts.{Text};
ghost use Rattle.gl_outside.specs.Shelf.{Entry};
ghost use Rattle.gl_parse.specs.ReadStmt.{expression_of};
ghost use Rattle.gl_ast.specs.Template.{Body};
ghost use Rattle.gl_meaning.specs.Known.{HasNoCycle};
ghost use Rattle.gl_meaning.specs.Manifest.{app_of};
ghost use Rattle.gl_meaning.specs.ManifestNames.{KeepsRules};
ghost use Rattle.gl_meaning.specs.ManifestOf.{read_manifest};
ghost use Rattle.gl_meaning.specs.ManifestRules.{KeepsLimits};
ghost use Rattle.gl_meaning.specs.View.{manifest_view};
ghost use Rattle.gl_cycles.specs.Through.{cycle_of};
ghost use Rattle.gl_load.specs.IsLoaded.{IsLoaded};
ghost use Rattle.gl_load.specs.Load.{manifest_read, manifest_in, no_cycle, checked, app_in, app_fetched};
ghost use Rattle.gl_load.specs.Loads.{Gives, Loads, HasCause, FailsAmong};
ghost use Rattle.gl_load.specs.Refusal.{in_file};
ghost use Rattle.gl_load.specs.Spelled.{IsSpelledManifest};
ghost use Rattle.gl_load.specs.View.{app_view};
ghost use Rattle.gl_opc.specs.IsApp.{IsAppWith};
ghost use Rattle.gl_load.specs.declared.fault.LoadCause.TheVariants.{ReadFault};

use crate::classes::templates_in;
use crate::fault::fault_in;
use crate::file::fetch_small;
use crate::programs::programs_of;
use crate::{LoadCause, LoadFault, Templates};
use gl_cycles::cycle;
use gl_manifest::{ManifestFault, read};
use gl_meaning::Manifest;
use gl_opc::App;
use gl_outside::Shelf;
use std::alloc::Global;

/// An application: its manifest with its programs, and the template of each class, in the order of the classes.
#[derive(Drop)]
pub struct Application {
    pub app: App,
    pub templates: Templates,
}

// What the bytes of a manifest say.
fn manifest_of(alloc: Global, bytes: &[u8]) -> Result<Manifest, LoadCause>
    ensures told { Gives manifest_view result (manifest_read (read_manifest expression_of bytes.now)) }
    ensures limits { IfOk result (λ m. KeepsLimits (manifest_view m)) }
    ensures rules { IfOk result (λ m. KeepsRules (manifest_view m)) }
    ensures spelled { IfOk result (λ m. IsSpelledManifest (manifest_view m)) }
    ensures causes { IfErr result (λ e. (misses misses_now faults faults_now : ℕ) → HasCause e misses misses_now faults faults_now) }
{
    match read(alloc, bytes) {
        Ok(manifest) => Ok(manifest),
        Err(ManifestFault::BadJson) => Err(LoadCause::BadJson),
        Err(ManifestFault::BadShape { pointer }) => Err(LoadCause::BadShape { pointer }),
        Err(ManifestFault::NotInGrammar { pointer }) => Err(LoadCause::BadExpression { pointer }),
        Err(ManifestFault::Memory) => Err(LoadCause::Memory),
    }
}

// The manifest that a file holds.
#[tactic(auto, unfolding(crate::specs::Load::manifest_in))]
fn manifest_file<S: Shelf>(alloc: Global, shelf: &mut S, name: &str) -> Result<Manifest, LoadCause>
    ensures keeps { S.holds shelf.new ≡ S.holds shelf.old }
    ensures told { (files : List Entry) → S.holds shelf.old ≡ Some files → Gives manifest_view result (manifest_in files (chars name.now)) }
    ensures limits { IfOk result (λ m. KeepsLimits (manifest_view m)) }
    ensures rules { IfOk result (λ m. KeepsRules (manifest_view m)) }
    ensures spelled { IfOk result (λ m. IsSpelledManifest (manifest_view m)) }
    ensures causes { IfErr result (λ e. HasCause e (S.misses shelf.old) (S.misses shelf.new) (S.faults shelf.old) (S.faults shelf.new)) }
    ensures misses_stay { S.misses shelf.old ≤ S.misses shelf.new }
    ensures faults_stay { S.faults shelf.old ≤ S.faults shelf.new }
{
    let bytes = fetch_small(alloc, shelf, name)?;
    manifest_of(alloc, &bytes)
}

// The same, with the file's name where it is refused.
fn manifest_in<S: Shelf>(alloc: Global, shelf: &mut S, name: &str) -> Result<Manifest, LoadFault>
    ensures keeps { S.holds shelf.new ≡ S.holds shelf.old }
    ensures told { (files : List Entry) → S.holds shelf.old ≡ Some files
        → Loads manifest_view result (in_file (chars name.now) (manifest_in files (chars name.now))) }
    ensures limits { IfOk result (λ m. KeepsLimits (manifest_view m)) }
    ensures rules { IfOk result (λ m. KeepsRules (manifest_view m)) }
    ensures spelled { IfOk result (λ m. IsSpelledManifest (manifest_view m)) }
    ensures causes { IfErr result (λ f. HasCause f.cause (S.misses shelf.old) (S.misses shelf.new) (S.faults shelf.old) (S.faults shelf.new)) }
    ensures named { IfErr result (λ f. FailsAmong f.cause f.file (chars name.now ∷ [])) }
    ensures misses_stay { S.misses shelf.old ≤ S.misses shelf.new }
    ensures faults_stay { S.faults shelf.old ≤ S.faults shelf.new }
{
    match manifest_file(alloc, shelf, name) {
        Ok(manifest) => Ok(manifest),
        Err(cause) => Err(fault_in(alloc, name, cause)),
    }
}

// The first getter that reaches itself, where there is one.
#[tactic(auto, using(gl_cycles::proofs::Throughs::is_cycle))]
fn cycle_cause(alloc: Global, manifest: &Manifest) -> Result<(), LoadCause>
    requires { KeepsLimits (manifest_view manifest.now) }
    ensures told { Gives (λ u. u) result (no_cycle (cycle_of manifest.now.classes)) }
    ensures causes { IfErr result (λ e. (misses misses_now faults faults_now : ℕ) → HasCause e misses misses_now faults faults_now) }
    ensures reads { IfErr result (λ e. e ≡ ReadFault → ⊥) }
    ensures none { OnOk result ((templates : List Body) → HasNoCycle (app_of (manifest_view manifest.now) templates)) }
{
    match cycle(manifest) {
        Some((class, getter)) => Err(LoadCause::GetterCycle {
            class: class.copy()?,
            getter: getter.copy()?,
        }),
        None => Ok(()),
    }
}

// No getter reaches itself, or the first that does is told of the manifest's file.
fn no_cycle(alloc: Global, name: &str, manifest: &Manifest) -> Result<(), LoadFault>
    requires { KeepsLimits (manifest_view manifest.now) }
    ensures told { Loads (λ u. u) result (in_file (chars name.now) (no_cycle (cycle_of manifest.now.classes))) }
    ensures causes { IfErr result (λ f. (misses misses_now faults faults_now : ℕ) → HasCause f.cause misses misses_now faults faults_now) }
    ensures named { IfErr result (λ f. (names : List Text) → FailsAmong f.cause f.file names) }
    ensures none { OnOk result ((templates : List Body) → HasNoCycle (app_of (manifest_view manifest.now) templates)) }
{
    match cycle_cause(alloc, manifest) {
        Ok(()) => Ok(()),
        Err(cause) => Err(fault_in(alloc, name, cause)),
    }
}

// The application of a manifest with these templates, whose names are known, and in which no getter reaches itself.
fn checked(
    alloc: Global,
    name: &str,
    manifest: Manifest,
    templates: Templates,
) -> Result<Application, LoadFault>
    requires limits { KeepsLimits (manifest_view manifest) }
    requires rules { KeepsRules (manifest_view manifest) }
    requires spelled { IsSpelledManifest (manifest_view manifest) }
    requires many { length templates ≡ length manifest.classes }
    ensures told { Loads app_view result (checked (chars name.now) (manifest_view manifest) templates) }
    ensures causes { IfErr result (λ f. (misses misses_now faults faults_now : ℕ) → HasCause f.cause misses misses_now faults faults_now) }
    ensures named { IfErr result (λ f. (names : List Text) → FailsAmong f.cause f.file names) }
    ensures made { IfOk result (λ a. IsAppWith (manifest_view a.app.manifest) a.templates a.app.programs) }
{
    let programs = programs_of(alloc, name, &manifest, &templates)?;
    no_cycle(alloc, name, &manifest)?;
    templates.spelled();
    Ok(Application {
        app: App::new(manifest, programs),
        templates,
    })
}

// The application of a manifest's file.
#[tactic(auto, unfolding(crate::specs::Load::app_in))]
fn application_in<S: Shelf>(
    alloc: Global,
    shelf: &mut S,
    manifest: &str,
) -> Result<Application, LoadFault>
    ensures keeps { S.holds shelf.new ≡ S.holds shelf.old }
    ensures told { (files : List Entry) → S.holds shelf.old ≡ Some files → Loads app_view result (app_in files (chars manifest.now)) }
    ensures made { IfOk result (λ a. IsAppWith (manifest_view a.app.manifest) a.templates a.app.programs) }
    ensures causes { IfErr result (λ f. HasCause f.cause (S.misses shelf.old) (S.misses shelf.new) (S.faults shelf.old) (S.faults shelf.new)) }
    ensures named { (files : List Entry) → S.holds shelf.old ≡ Some files
        → IfErr result (λ f. FailsAmong f.cause f.file (app_fetched files (chars manifest.now))) }
    ensures misses_stay { S.misses shelf.old ≤ S.misses shelf.new }
    ensures faults_stay { S.faults shelf.old ≤ S.faults shelf.new }
{
    let found = manifest_in(alloc, shelf, manifest)?;
    let templates = templates_in(alloc, shelf, &found.classes)?;
    checked(alloc, manifest, found, templates)
}

/// Loads an application, or gives the first refusal: the manifest is fetched and read, then the template of each class, in
/// the order of their names, then every name is to be known, and then no getter may reach itself. The programs are those of the
/// templates. What is loaded is what the files stand for.
pub fn load_app<S: Shelf>(
    alloc: Global,
    shelf: &mut S,
    manifest: &str,
) -> Result<Application, LoadFault>
    ensures keeps { S.holds shelf.new ≡ S.holds shelf.old }
    ensures told { (files : List Entry) → S.holds shelf.old ≡ Some files → Loads app_view result (app_in files (chars manifest.now)) }
    ensures loaded { (files : List Entry) → S.holds shelf.old ≡ Some files → IfOk result (λ a. IsLoaded files (chars manifest.now) (app_view a)) }
    ensures made { IfOk result (λ a. IsAppWith (manifest_view a.app.manifest) a.templates a.app.programs) }
    ensures causes { IfErr result (λ f. HasCause f.cause (S.misses shelf.old) (S.misses shelf.new) (S.faults shelf.old) (S.faults shelf.new)) }
    ensures named { (files : List Entry) → S.holds shelf.old ≡ Some files
        → IfErr result (λ f. FailsAmong f.cause f.file (app_fetched files (chars manifest.now))) }
    ensures misses_stay { S.misses shelf.old ≤ S.misses shelf.new }
    ensures faults_stay { S.faults shelf.old ≤ S.faults shelf.new }
{
    application_in(alloc, shelf, manifest)
}
