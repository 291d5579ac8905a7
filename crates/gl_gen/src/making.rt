// The sample of a size.
ghost use Rattle.std.specs.Prelude.{◌≡◌, ◌≤◌, IfOk};
ghost use Rattle.gl_gen.specs.Application.{manifest, templates};
ghost use Rattle.gl_gen.specs.Script.{script};

use crate::application::{manifest_of, templates_of};
use crate::rows::rows_of;
use crate::script::script_of;
use crate::whole::Sample;
use std::alloc::{AllocError, Global};

/// The sample application of `n` rows, from 1 to 10,000: its manifest, its templates and its script of 16 events. The same
/// `n` gives the same bytes. An error says that memory is wanting.
pub fn sample(alloc: Global, n: u32) -> Result<Sample, AllocError>
    requires some { 1 ≤ n }
    requires most { n ≤ 10000 }
    ensures manifest { IfOk result (λ s. s.manifest ≡ manifest n) }
    ensures templates { IfOk result (λ s. s.templates ≡ templates) }
    ensures script { IfOk result (λ s. s.script ≡ script n) }
{
    let rows = rows_of(alloc, n)?;
    let manifest = manifest_of(alloc, n, rows.as_slice())?;
    let templates = templates_of(alloc)?;
    let script = script_of(alloc, n, rows.as_slice())?;
    Ok(Sample {
        manifest,
        templates,
        script,
    })
}
