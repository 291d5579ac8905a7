// The first getter that reaches itself.
ghost use Rattle.std.specs.Prelude.{◌≡◌, ◌≤◌, length, option_map};
ghost use Rattle.gl_meaning.specs.App as a;
ghost use Rattle.gl_meaning.specs.ManifestRules.{KeepsLimits};
ghost use Rattle.gl_meaning.specs.View.{manifest_view};
ghost use Rattle.gl_cycles.specs.Cycles.{most_getters, IsFirstIn, IsCycleOf};

use crate::marks::{close, has_mark};
use crate::mentions::rows_of;
use gl_meaning::{Getters, Manifest};
use gl_value::Text;

// The name of the first of a class's getters that reaches itself.
fn first_in(getters: &Getters) -> Option<&Text>
    requires { length getters.now ≤ most_getters }
    ensures { (c : a.Class) → c.getters ≡ getters.now → IsFirstIn c (option_map (λ n. n.now) result) }
{
    let list = getters.as_slice();
    let mut rows = rows_of(list);
    close(&mut rows);
    for (place, getter) in list.iter().enumerate() {
        if has_mark(rows[place], place) {
            return Some(&getter.name);
        }
    }
    None
}

/// The class and the getter of the first getter that reaches itself, by the manifest's order of classes and then
/// of getters; None just where no getter reaches itself. It takes no memory.
pub fn cycle(manifest: &Manifest) -> Option<(&Text, &Text)>
    requires { KeepsLimits (manifest_view manifest.now) }
    ensures { IsCycleOf (manifest_view manifest.now) (option_map (λ p. (p.0.now, p.1.now)) result) }
{
    for class in manifest.classes.as_slice() {
        if let Some(getter) = first_in(&class.getters) {
            return Some((&class.name, getter));
        }
    }
    None
}
