// A loaded application.
ghost use Rattle.std.specs.Prelude.{◌≡◌};
ghost use Rattle.gl_meaning.specs.ManifestNames.{KeepsRules};
ghost use Rattle.gl_meaning.specs.View.{manifest_view};
ghost use Rattle.gl_opc.specs.IsApp.{IsAppOf};

use crate::Programs;
use gl_meaning::Manifest;

/// A manifest with the programs of its classes. It keeps that the manifest keeps its rules, so that there are no more classes, fields and
/// parameters than the limits allow and names stand in byte order, and that the programs are those of some templates, with which every
/// name is known and no getter reaches itself.
#[derive(Drop)]
pub struct App {
    manifest: Manifest,
    programs: Programs,
    pub ghost rules: { ∥ KeepsRules (manifest_view manifest) ∥₁ },
    pub ghost made: { IsAppOf (manifest_view manifest) programs },
}

impl App {
    /// The application of this manifest with these programs. It takes no memory.
    pub fn new(manifest: Manifest, programs: Programs) -> App
        requires rules { ∥ KeepsRules (manifest_view manifest) ∥₁ }
        requires made { IsAppOf (manifest_view manifest) programs }
        ensures manifest { result.manifest ≡ manifest }
        ensures programs { result.programs ≡ programs }
    {
        App { manifest, programs }
    }

    /// What each application keeps. It does nothing.
    pub fn keeps(&self)
        ensures rules { ∥ KeepsRules (manifest_view self.now.manifest) ∥₁ }
        ensures made { IsAppOf (manifest_view self.now.manifest) self.now.programs }
    {}

    pub fn manifest(&self) -> &Manifest
        ensures { result.now ≡ self.now.manifest }
    {
        &self.manifest
    }

    /// The programs of each class, in the manifest's order.
    pub fn programs(&self) -> &Programs
        ensures { result.now ≡ self.now.programs }
    {
        &self.programs
    }
}
