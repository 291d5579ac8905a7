// The lines of what an update destroyed.
ghost use Rattle.std.specs.Prelude.{◌≡◌, ◌++◌, [], OnOk, Some, codes, flat_map};
ghost use Rattle.std.specs.List.{list_all};
ghost use Rattle.gl_meaning.specs.View.{class_view, manifest_view, path_view};
ghost use Rattle.gl_lines.specs.Lines.{modifier_line};
ghost use Rattle.gl_gone.specs.Lines.{entry_at, class_line, modifier_name, ending_line};
ghost use Rattle.gl_gone.specs.View.{is_live};
ghost use Rattle.gl_gone.specs.Logs.{destroyed_text, gone_text};
ghost use Rattle.gl_gone.specs.Writes.{Writes};

use crate::endings::{Ending, Standing};
use crate::listing::standing;
use crate::lookup::{class_at, name_of};
use crate::numbers::Numbers;
use gl_code::Page;
use gl_lines::{push_destroyed_instance, push_destroyed_modifier};
use gl_meaning::{Class, Manifest, Path};
use gl_nodes::NodeId;
use gl_opc::App;
use gl_value::Text;
use gl_vm::Vm;
use std::alloc::{AllocError, Global};

/// A line for each modifier, and for each instance whose class has teardown, that stood in a page before an update and
/// stands there no more: children first, over what stood there before. The page is gone through only where
/// something that stood there lives no more.
pub fn push_destroyed(
    out: &mut Text,
    alloc: Global,
    before: &Standing,
    page: &Page,
    app: &App,
) -> Result<(), AllocError>
    ensures { OnOk result (Writes app.now before.now.list.items page.now out.old out.new) }
{
    if all_live(&page.vm, before.list.as_slice()) {
        return Ok(());
    }
    let after = standing(alloc, page)?;
    push_gone_of(out, alloc, before, &after, app.manifest())
}

/// Whether all of it lives in a machine, by the ids.
fn all_live(vm: &Vm, list: &[Ending]) -> bool
    ensures { result ≡ list_all (is_live vm.now) list.now }
{
    for ending in list {
        if !lives(vm, ending) {
            return false;
        }
    }
    true
}

fn lives(vm: &Vm, ending: &Ending) -> bool
    ensures { result ≡ is_live vm.now ending.now }
{
    match ending {
        Ending::Modifier { id, .. } => vm.mods.live(*id),
        Ending::Instance { owner } => vm.instances.live(owner.as_ref().id),
    }
}

// The lines of those of one list that don't stand in another.
fn push_gone_of(
    out: &mut Text,
    alloc: Global,
    before: &Standing,
    after: &Standing,
    manifest: &Manifest,
) -> Result<(), AllocError>
    ensures { OnOk result (out.new ≡ out.old ++ destroyed_text (manifest_view manifest.now) before.now.list.items after.now.list.items) }
{
    let numbers = Numbers::of(alloc, after.list.as_slice())?;
    push_all(out, alloc, before.list.as_slice(), &numbers, manifest)
}

fn push_all(
    out: &mut Text,
    alloc: Global,
    list: &[Ending],
    numbers: &Numbers,
    manifest: &Manifest,
) -> Result<(), AllocError>
    ensures { OnOk result (out.new ≡ out.old ++ flat_map (gone_text numbers.now (manifest_view manifest.now)) list.now) }
{
    for ending in list {
        push_gone(out, alloc, ending, numbers, manifest)?;
    }
    Ok(())
}

// Its line, where it has none of the numbers.
fn push_gone(
    out: &mut Text,
    alloc: Global,
    ending: &Ending,
    numbers: &Numbers,
    manifest: &Manifest,
) -> Result<(), AllocError>
    ensures { OnOk result (out.new ≡ out.old ++ gone_text numbers.now (manifest_view manifest.now) ending.now) }
{
    if numbers.has(ending) {
        Ok(())
    } else {
        push_line(out, alloc, ending, manifest)
    }
}

fn push_line(
    out: &mut Text,
    alloc: Global,
    ending: &Ending,
    manifest: &Manifest,
) -> Result<(), AllocError>
    ensures { OnOk result (out.new ≡ out.old ++ ending_line (manifest_view manifest.now) ending.now) }
{
    match ending {
        Ending::Modifier { node, name, .. } => push_modifier(out, alloc, *node, *name, manifest),
        Ending::Instance { owner } => push_instance(out, &owner.as_ref().path, manifest),
    }
}

fn push_modifier(
    out: &mut Text,
    alloc: Global,
    node: NodeId,
    name: u32,
    manifest: &Manifest,
) -> Result<(), AllocError>
    ensures { OnOk result (out.new ≡ out.old ++ modifier_line (codes "destroy ") node.1 (modifier_name (manifest_view manifest.now) name) []) }
{
    let name = name_of(alloc, manifest, name)?;
    push_destroyed_modifier(out, u128::from(node.number()), &name)
}

fn push_instance(out: &mut Text, path: &Path, manifest: &Manifest) -> Result<(), AllocError>
    ensures { OnOk result (out.new ≡ out.old ++ class_line (entry_at (manifest_view manifest.now) (path_view path.now))) }
{
    match class_at(manifest, path) {
        None => Ok(()),
        Some(class) => push_class(out, class),
    }
}

fn push_class(out: &mut Text, class: &Class) -> Result<(), AllocError>
    ensures { OnOk result (out.new ≡ out.old ++ class_line (Some (class_view class.now))) }
{
    if class.teardown {
        push_destroyed_instance(out, &class.name)
    } else {
        Ok(())
    }
}
