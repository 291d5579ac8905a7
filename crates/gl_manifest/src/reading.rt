// The manifest that bytes say.
ghost use Rattle.std.specs.Prelude.{IfOk};
ghost use Rattle.gl_meaning.specs.ManifestNames.{KeepsRules};
ghost use Rattle.gl_meaning.specs.ManifestOf.{read_manifest};
ghost use Rattle.gl_meaning.specs.ManifestRules.{KeepsLimits};
ghost use Rattle.gl_meaning.specs.View.{manifest_view};
ghost use Rattle.gl_parse.specs.ReadStmt.{expression_of};
ghost use Rattle.gl_manifest.specs.View.{Reads};

use crate::ManifestFault;
use crate::classes::manifest_of;
use crate::shape::check_manifest;
use gl_meaning::Manifest;
use gl_shape::{PlaceFault, json_of};
use std::alloc::Global;

// The manifest that the bytes say.
#[tactic(auto, using(crate::proofs::Limits::limit_fits), unfolding(gl_meaning::specs::ManifestOf::read_manifest))]
fn said(alloc: Global, bytes: &[u8]) -> Result<Manifest, ManifestFault>
    ensures { Reads result (read_manifest expression_of bytes.now) }
{
    let Some(json) = json_of(alloc, bytes)? else {
        return Err(ManifestFault::BadJson);
    };
    match check_manifest(alloc, &json) {
        Ok(()) => (),
        Err(PlaceFault::At { pointer }) => return Err(ManifestFault::BadShape { pointer }),
        Err(PlaceFault::Memory) => return Err(ManifestFault::Memory),
    }
    match manifest_of(alloc, &json) {
        Ok(manifest) => Ok(manifest),
        Err(PlaceFault::At { pointer }) => Err(ManifestFault::NotInGrammar { pointer }),
        Err(PlaceFault::Memory) => Err(ManifestFault::Memory),
    }
}

/// The manifest that the bytes say. `BadJson` exactly where `serde_json` reads no JSON from them; `BadShape` exactly where
/// the JSON is not of the form of a manifest, at the first place that is not; `NotInGrammar` exactly where it is of the
/// form and a text in it spells no expression, or no path of an argument where it is a `call`, at the first such text.
/// What is read keeps the rules of manifests: the limits, the order of names, which names differ, and which names modifiers may have.
#[tactic(auto, using(crate::proofs::Rules::keeps_limits, crate::proofs::Rules::keeps_rules))]
pub fn read(alloc: Global, bytes: &[u8]) -> Result<Manifest, ManifestFault>
    ensures reads { Reads result (read_manifest expression_of bytes.now) }
    ensures limits { IfOk result (λ m. KeepsLimits (manifest_view m)) }
    ensures rules { IfOk result (λ m. KeepsRules (manifest_view m)) }
{
    said(alloc, bytes)
}
