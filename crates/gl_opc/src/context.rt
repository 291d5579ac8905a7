// What names are looked up in.
ghost use Rattle.std.specs.Prelude.{◌≡◌, true};
ghost use Rattle.gl_meaning.specs.View.{manifest_view, class_view};
ghost use Rattle.gl_opc.specs.NamePlaces.{all_rising, IsIndexOf};

use crate::names::NameIndex;
use gl_meaning::{Class, Manifest};
use gl_value::Texts;
use std::alloc::Global;

/// What the names of a wire are looked up in, with what is known of the order of these names.
#[derive(Drop)]
pub struct Context<'a> {
    pub alloc: Global,
    pub manifest: &'a Manifest,
    pub class: &'a Class,
    pub symbols: &'a Texts,
    /// Whether the names of the classes and of the class's members are known to rise.
    pub rise: bool,
    pub modifiers: &'a NameIndex,
    pub ghost ordered: { rise ≡ true → all_rising (manifest_view manifest.now) (class_view class.now) ≡ true },
    pub ghost indexed: { IsIndexOf modifiers.now (manifest_view manifest.now).modifiers },
}
