// Reads a script.
ghost use Rattle.std.specs.Prelude.{◌≡◌, IfOk};
ghost use Rattle.gl_meaning.specs.ScriptOf.{script_reading};
ghost use Rattle.gl_meaning.specs.View.{class_view, script_view};
ghost use Rattle.gl_script.specs.ScriptOver.{IsScriptOver};
ghost use Rattle.gl_script.specs.View.{Answers};

use crate::ScriptFault;
use crate::event::read_events;
use crate::fields::first_unknown;
use gl_meaning::{Class, Script};
use gl_shape::json_of;
use std::alloc::Global;

// The script that the bytes are.
fn script_of(alloc: Global, bytes: &[u8], root: &Class) -> Result<Script, ScriptFault>
    ensures { Answers result (script_reading (class_view root.now).fields bytes.now) }
{
    let json = match json_of(alloc, bytes)? {
        Some(json) => json,
        None => return Err(ScriptFault::BadJson),
    };
    let events = read_events(alloc, json)?;
    match first_unknown(&root.fields, &events) {
        Some((index, name)) => Err(ScriptFault::UnknownName {
            index: index as u64,
            name: name.copy()?,
        }),
        None => Ok(Script { events }),
    }
}

/// The script that the bytes are, for an application whose root is this class. Each event of it that sets, in a batch too, sets a
/// field of the root, and no batch holds a batch.
///
/// # Errors
///
/// [`ScriptFault::BadJson`] just where `serde_json` has no reading of the bytes, [`ScriptFault::BadShape`] with the
/// pointer of the first place that is not of the form, and [`ScriptFault::UnknownName`] where all is of the form: the
/// first event that sets what is no field of the root.
#[tactic(auto, using(crate::proofs::Overs::keeps_fields))]
pub fn read(alloc: Global, bytes: &[u8], root: &Class) -> Result<Script, ScriptFault>
    ensures told { Answers result (script_reading (class_view root.now).fields bytes.now) }
    ensures over { IfOk result (λ s. IsScriptOver (class_view root.now).fields (script_view s)) }
{
    script_of(alloc, bytes, root)
}
