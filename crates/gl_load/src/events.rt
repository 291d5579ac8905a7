// Loads the script of an application.
ghost use Rattle.std.specs.Prelude.{◌≡◌, ◌≤◌, ◌∷◌, [], ℕ, List, Some, IfOk, IfErr};
ghost use Rattle.std.specs.Str.{chars};
ghost use Rattle.gl_outside.specs.Shelf.{Entry};
ghost use Rattle.gl_meaning.specs.ScriptOf.{script_reading};
ghost use Rattle.gl_meaning.specs.View.{class_view, script_view};
ghost use Rattle.gl_load.specs.Load.{script_read, script_file, script_in};
ghost use Rattle.gl_script.specs.ScriptOver.{IsScriptOver};
ghost use Rattle.gl_load.specs.Loads.{Gives, Loads, HasCause, FailsAmong};

use crate::fault::fault_in;
use crate::file::fetch_small;
use crate::{LoadCause, LoadFault};
use gl_meaning::{Class, Script};
use gl_outside::Shelf;
use gl_script::{ScriptFault, read};
use std::alloc::Global;

// What the bytes of a script say, for a root of this class.
fn script_of(alloc: Global, root: &Class, bytes: &[u8]) -> Result<Script, LoadCause>
    ensures told { Gives script_view result (script_read (script_reading (class_view root.now).fields bytes.now)) }
    ensures over { IfOk result (λ s. IsScriptOver (class_view root.now).fields (script_view s)) }
    ensures causes { IfErr result (λ e. (misses misses_now faults faults_now : ℕ) → HasCause e misses misses_now faults faults_now) }
{
    match read(alloc, bytes, root) {
        Ok(script) => Ok(script),
        Err(ScriptFault::BadJson) => Err(LoadCause::BadJson),
        Err(ScriptFault::BadShape { pointer }) => Err(LoadCause::BadShape { pointer }),
        Err(ScriptFault::UnknownName { index, name }) => Err(LoadCause::UnknownField {
            index,
            name,
        }),
        Err(ScriptFault::Memory) => Err(LoadCause::Memory),
    }
}

// The script that a file holds.
#[tactic(auto, unfolding(crate::specs::Load::script_file))]
fn script_file<S: Shelf>(
    alloc: Global,
    shelf: &mut S,
    root: &Class,
    name: &str,
) -> Result<Script, LoadCause>
    ensures keeps { S.holds shelf.new ≡ S.holds shelf.old }
    ensures told { (files : List Entry) → S.holds shelf.old ≡ Some files
        → Gives script_view result (script_file files (class_view root.now).fields (chars name.now)) }
    ensures over { IfOk result (λ s. IsScriptOver (class_view root.now).fields (script_view s)) }
    ensures causes { IfErr result (λ e. HasCause e (S.misses shelf.old) (S.misses shelf.new) (S.faults shelf.old) (S.faults shelf.new)) }
    ensures misses_stay { S.misses shelf.old ≤ S.misses shelf.new }
    ensures faults_stay { S.faults shelf.old ≤ S.faults shelf.new }
{
    let bytes = fetch_small(alloc, shelf, name)?;
    script_of(alloc, root, &bytes)
}

/// Loads the script of an application whose root is of this class, or gives its refusal.
#[tactic(auto, unfolding(crate::specs::Load::script_in))]
pub fn load_script<S: Shelf>(
    alloc: Global,
    shelf: &mut S,
    root: &Class,
    name: &str,
) -> Result<Script, LoadFault>
    ensures keeps { S.holds shelf.new ≡ S.holds shelf.old }
    ensures told { (files : List Entry) → S.holds shelf.old ≡ Some files
        → Loads script_view result (script_in files (class_view root.now).fields (chars name.now)) }
    ensures over { IfOk result (λ s. IsScriptOver (class_view root.now).fields (script_view s)) }
    ensures causes { IfErr result (λ f. HasCause f.cause (S.misses shelf.old) (S.misses shelf.new) (S.faults shelf.old) (S.faults shelf.new)) }
    ensures named { IfErr result (λ f. FailsAmong f.cause f.file (chars name.now ∷ [])) }
    ensures misses_stay { S.misses shelf.old ≤ S.misses shelf.new }
    ensures faults_stay { S.faults shelf.old ≤ S.faults shelf.new }
{
    match script_file(alloc, shelf, root, name) {
        Ok(script) => Ok(script),
        Err(cause) => Err(fault_in(alloc, name, cause)),
    }
}
