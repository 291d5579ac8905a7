// Names by numbers, and classes by paths.
ghost use Rattle.std.specs.Prelude.{◌≡◌, IfOk, option_map, codes};
ghost use Rattle.gl_meaning.specs.View.{class_view, seen_classes, manifest_view, path_view};
ghost use Rattle.gl_gone.specs.Lines.{entry_named, entry_at, modifier_name};

use gl_meaning::{Class, Manifest, Path, PathStep};
use gl_value::Text;
use std::alloc::{AllocError, Global};

/// The name of the modifier with a number: `on` is before the manifest's own.
pub fn name_of(alloc: Global, manifest: &Manifest, name: u32) -> Result<Text, AllocError>
    ensures { IfOk result (λ t. t ≡ modifier_name (manifest_view manifest.now) name) }
{
    match name.checked_sub(1) {
        None => on(alloc),
        Some(place) => manifest
            .modifiers
            .get(place as usize)
            .ok_or(AllocError)?
            .copy(),
    }
}

fn on(alloc: Global) -> Result<Text, AllocError>
    ensures { IfOk result (λ t. t ≡ codes "on") }
{
    let mut name = Text::new(alloc);
    name.push_ascii("on")?;
    Ok(name)
}

/// The first class of a name.
fn class_named<'a>(classes: &'a [Class], name: &Text) -> Option<&'a Class>
    ensures { option_map (λ c. class_view c.now) result ≡ entry_named name.now (seen_classes classes.now) }
{
    for class in classes {
        if name.same(&class.name) {
            return Some(class);
        }
    }
    None
}

/// The class of the instance at a path.
pub(crate) fn class_at<'a>(manifest: &'a Manifest, path: &Path) -> Option<&'a Class>
    ensures { option_map (λ c. class_view c.now) result ≡ entry_at (manifest_view manifest.now) (path_view path.now) }
{
    match path.steps.as_slice().split_last() {
        None => class_named(manifest.classes.as_slice(), &manifest.root),
        Some((PathStep::Into(name), _)) => class_named(manifest.classes.as_slice(), name),
        Some(_) => None,
    }
}
