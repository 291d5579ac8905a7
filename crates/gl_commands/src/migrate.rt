// Reads the wire of a file, and writes its JSON in version 2.
ghost use Rattle.std.specs.Prelude.{◌≡◌, ◌<◌, ◌∷◌, ◌++◌, [], ℕ, List, Some, IfOk, IsErrOf, codes};
ghost use Rattle.std.specs.Str.{chars};
ghost use Rattle.serde_json.specs.View.{view};
ghost use Rattle.gl_base.specs.Texts.{Text};
ghost use Rattle.gl_outside.specs.Shelf.{Entry};
ghost use Rattle.gl_wire.specs.Json.{wire_text};
ghost use Rattle.gl_wire.specs.View.{wire_view};
ghost use Rattle.gl_wirein.specs.Answer.{wire_in};
ghost use Rattle.gl_commands.specs.Command.{migrate_command};
ghost use Rattle.gl_commands.specs.Output.{migrated, outcome_of, output_or, written, Answers};
ghost use Rattle.gl_commands.specs.Plays.{Plays};
ghost use Rattle.gl_commands.specs.Run.{IsBadWire, status_of, HasCause, Tells, Untouched};

use crate::ending::{RunFault, status_of};
use crate::load::json_in;
use crate::put::put_text;
use crate::{PlayFault, Status};
use gl_outside::{Shelf, Sink};
use gl_value::Text;
use gl_wire::{Wire, to_text};
use gl_wirein::{WireFault, from_json};
use serde_json::Value;
use std::alloc::{AllocError, Global};

// The text of the JSON of a wire and a line feed.
fn wire_line(alloc: Global, wire: &Wire) -> Result<Text, AllocError>
    ensures { IfOk result (λ t. t ≡ wire_text (wire_view wire.now) ++ codes "\n") }
{
    let mut text = to_text(alloc, wire)?;
    text.push_ascii("\n")?;
    Ok(text)
}

// Writes the text of the JSON of a wire and a line feed, in one put.
fn write_line<K: Sink>(alloc: Global, wire: &Wire, out: &mut K) -> Result<(), PlayFault>
    ensures plays { Plays result (K.took out.old) (K.took out.new) (written ((wire_text (wire_view wire.now) ++ codes "\n") ∷ [])) }
    ensures failed { IsErrOf result PlayFault.WriteFault → K.faults out.old < K.faults out.new }
{
    let text = wire_line(alloc, wire)?;
    put_text(out, &text)
}

// That no wire has the JSON of a file; want of memory in its place, where there is none for the name.
fn bad_wire(alloc: Global, file: &str) -> RunFault
    ensures { IsBadWire (chars file.now) result }
{
    match Text::from_str(alloc, file) {
        Ok(file) => RunFault::BadWire { file },
        Err(_) => RunFault::Memory,
    }
}

// Writes the JSON in version 2 of the wire that JSON of a file is of.
fn write_migrated<K: Sink>(
    alloc: Global,
    file: &str,
    json: &Value,
    out: &mut K,
) -> Result<(), RunFault>
    ensures told { Answers (status_of result) (K.took out.old) (K.took out.new) (migrated (chars file.now) (wire_in (view json.now))) }
    ensures tells { (names : List Text) → Tells result (migrated (chars file.now) (wire_in (view json.now))) names }
    ensures causes { (misses misses_now faults faults_now : ℕ) → HasCause result misses misses_now faults faults_now (K.faults out.old) (K.faults out.new) }
    ensures untouched { Untouched result (K.took out.old) (K.took out.new) }
    ensures used { IsErrOf result RunFault.Usage → ⊥ }
    ensures limit { status_of result ≡ Status.NestingLimit → ⊥ }
{
    match from_json(alloc, json) {
        Ok(wire) => Ok(write_line(alloc, &wire, out)?),
        Err(WireFault::BadWire) => Err(bad_wire(alloc, file)),
        Err(WireFault::Memory) => Err(RunFault::Memory),
    }
}

/// Writes the JSON in version 2 of the wire of a file.
pub fn migrate_wire<S: Shelf, K: Sink>(
    alloc: Global,
    file: &str,
    shelf: &mut S,
    out: &mut K,
) -> Result<(), RunFault>
    ensures told { (files : List Entry) → S.holds shelf.old ≡ Some files
        → Answers (status_of result) (K.took out.old) (K.took out.new) (output_or (outcome_of (migrate_command (chars file.now)) files)) }
    ensures tells { (files : List Entry) → S.holds shelf.old ≡ Some files
        → Tells result (output_or (outcome_of (migrate_command (chars file.now)) files)) (chars file.now ∷ []) }
    ensures causes { HasCause result (S.misses shelf.old) (S.misses shelf.new) (S.faults shelf.old) (S.faults shelf.new) (K.faults out.old) (K.faults out.new) }
    ensures untouched { Untouched result (K.took out.old) (K.took out.new) }
    ensures used { IsErrOf result RunFault.Usage → ⊥ }
    ensures limit { status_of result ≡ Status.NestingLimit → ⊥ }
{
    let json = json_in(alloc, shelf, file)?;
    write_migrated(alloc, file, &json, out)
}
