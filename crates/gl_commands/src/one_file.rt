// The commands of one file: a template or its wire is written, or an application is checked.
ghost use Rattle.std.specs.Prelude.{◌≡◌, ◌∷◌, [], List, Some, IsErrOf};
ghost use Rattle.std.specs.Str.{chars};
ghost use Rattle.gl_outside.specs.Shelf.{Entry};
ghost use Rattle.gl_load.specs.Load.{app_fetched};
ghost use Rattle.gl_commands.specs.Command.{show_command, wire_command, check_command};
ghost use Rattle.gl_commands.specs.Output.{outcome_of, output_or, Answers};
ghost use Rattle.gl_commands.specs.Run.{status_of, HasCause, Tells, Untouched};

use crate::Status;
use crate::ending::RunFault;
use crate::load::template_of;
use crate::show::{write_classes, write_shown, write_wire};
use gl_load::load_app;
use gl_outside::{Shelf, Sink};
use std::alloc::Global;

/// Shows the canonical spelling of a template.
pub fn show_template<S: Shelf, K: Sink>(
    alloc: Global,
    template: &str,
    shelf: &mut S,
    out: &mut K,
) -> Result<(), RunFault>
    ensures told { (files : List Entry) → S.holds shelf.old ≡ Some files
        → Answers (status_of result) (K.took out.old) (K.took out.new) (output_or (outcome_of (show_command (chars template.now)) files)) }
    ensures tells { (files : List Entry) → S.holds shelf.old ≡ Some files
        → Tells result (output_or (outcome_of (show_command (chars template.now)) files)) (chars template.now ∷ []) }
    ensures causes { HasCause result (S.misses shelf.old) (S.misses shelf.new) (S.faults shelf.old) (S.faults shelf.new) (K.faults out.old) (K.faults out.new) }
    ensures untouched { Untouched result (K.took out.old) (K.took out.new) }
    ensures used { IsErrOf result RunFault.Usage → ⊥ }
    ensures limit { status_of result ≡ Status.NestingLimit → ⊥ }
{
    let spelled = template_of(alloc, shelf, template)?;
    write_shown(alloc, spelled.body(), out)?;
    Ok(())
}

/// Writes the wire of a template.
pub fn wire_template<S: Shelf, K: Sink>(
    alloc: Global,
    template: &str,
    shelf: &mut S,
    out: &mut K,
) -> Result<(), RunFault>
    ensures told { (files : List Entry) → S.holds shelf.old ≡ Some files
        → Answers (status_of result) (K.took out.old) (K.took out.new) (output_or (outcome_of (wire_command (chars template.now)) files)) }
    ensures tells { (files : List Entry) → S.holds shelf.old ≡ Some files
        → Tells result (output_or (outcome_of (wire_command (chars template.now)) files)) (chars template.now ∷ []) }
    ensures causes { HasCause result (S.misses shelf.old) (S.misses shelf.new) (S.faults shelf.old) (S.faults shelf.new) (K.faults out.old) (K.faults out.new) }
    ensures untouched { Untouched result (K.took out.old) (K.took out.new) }
    ensures used { IsErrOf result RunFault.Usage → ⊥ }
    ensures limit { status_of result ≡ Status.NestingLimit → ⊥ }
{
    let spelled = template_of(alloc, shelf, template)?;
    write_wire(alloc, spelled, out)?;
    Ok(())
}

/// Loads an application and writes how many classes it has.
pub fn check_app<S: Shelf, K: Sink>(
    alloc: Global,
    manifest: &str,
    shelf: &mut S,
    out: &mut K,
) -> Result<(), RunFault>
    ensures told { (files : List Entry) → S.holds shelf.old ≡ Some files
        → Answers (status_of result) (K.took out.old) (K.took out.new) (output_or (outcome_of (check_command (chars manifest.now)) files)) }
    ensures tells { (files : List Entry) → S.holds shelf.old ≡ Some files
        → Tells result (output_or (outcome_of (check_command (chars manifest.now)) files)) (app_fetched files (chars manifest.now)) }
    ensures causes { HasCause result (S.misses shelf.old) (S.misses shelf.new) (S.faults shelf.old) (S.faults shelf.new) (K.faults out.old) (K.faults out.new) }
    ensures untouched { Untouched result (K.took out.old) (K.took out.new) }
    ensures used { IsErrOf result RunFault.Usage → ⊥ }
    ensures limit { status_of result ≡ Status.NestingLimit → ⊥ }
{
    let application = load_app(alloc, shelf, manifest)?;
    write_classes(alloc, &application, out)?;
    Ok(())
}
