// The text of a turn.
ghost use Rattle.std.specs.Prelude.{◌≡◌, ◌++◌, [], Some, IfOk, OnOk, codes, flat_map, option_map};
ghost use Rattle.gl_arena.specs.Arena.{named};
ghost use Rattle.gl_mods.specs.View.{seen_installed};
ghost use Rattle.gl_nodes.specs.Tree.{node_at};
ghost use Rattle.gl_print.specs.Lines.{lines};
ghost use Rattle.gl_meaning.specs.Print.{head_line, missing_lines};
ghost use Rattle.gl_meaning.specs.View.{event_view, manifest_view};
ghost use Rattle.gl_code.specs.Tables.{tables_of};
ghost use Rattle.gl_session.specs.Writing.{told_id};

use gl_arena::ModId;
use gl_gone::name_of;
use gl_lines::{push_head, push_installed, push_missing, push_updated};
use gl_meaning::Event;
use gl_mods::{Commit, Installed, Mods};
use gl_nodes::{NodeId, NodeTree};
use gl_opc::App;
use gl_print::print_own;
use gl_value::Text;
use gl_vm::Vm;
use std::alloc::{AllocError, Global};

/// The number of a node that is there.
fn number_of(tree: &NodeTree, node: NodeId) -> Result<u128, AllocError>
    ensures { IfOk result (λ k. k ≡ node.1) }
{
    if tree.find(node).is_none() {
        return Err(AllocError);
    }
    Ok(tree.stamp(node))
}

/// The modifier of an id that is there.
fn installed(mods: &Mods, id: ModId) -> Result<&Installed, AllocError>
    ensures { IfOk result (λ m. named mods.now.table id ≡ Some (seen_installed m.now)) }
{
    if !mods.live(id) {
        return Err(AllocError);
    }
    Ok(mods.get(id))
}

/// The line of a modifier that was installed.
fn push_install(
    out: &mut Text,
    alloc: Global,
    app: &App,
    vm: &Vm,
    id: ModId,
) -> Result<(), AllocError>
    ensures { OnOk result (out.new ≡ out.old ++ told_id (codes "install ") (tables_of (manifest_view app.now.manifest)) vm.now id) }
{
    let modifier = installed(&vm.mods, id)?;
    let number = number_of(&vm.tree, modifier.node)?;
    let name = name_of(alloc, app.manifest(), modifier.name)?;
    push_installed(out, alloc, number, &name, &modifier.args, &modifier.named)
}

/// The line of a modifier that was updated.
fn push_update(
    out: &mut Text,
    alloc: Global,
    app: &App,
    vm: &Vm,
    id: ModId,
) -> Result<(), AllocError>
    ensures { OnOk result (out.new ≡ out.old ++ told_id (codes "update ") (tables_of (manifest_view app.now.manifest)) vm.now id) }
{
    let modifier = installed(&vm.mods, id)?;
    let number = number_of(&vm.tree, modifier.node)?;
    let name = name_of(alloc, app.manifest(), modifier.name)?;
    push_updated(out, alloc, number, &name, &modifier.args, &modifier.named)
}

fn push_installs(
    out: &mut Text,
    alloc: Global,
    app: &App,
    vm: &Vm,
    ids: &[ModId],
) -> Result<(), AllocError>
    ensures { OnOk result (out.new ≡ out.old ++ flat_map (told_id (codes "install ") (tables_of (manifest_view app.now.manifest)) vm.now) ids.now) }
{
    for id in ids {
        push_install(out, alloc, app, vm, *id)?;
    }
    Ok(())
}

fn push_updates(
    out: &mut Text,
    alloc: Global,
    app: &App,
    vm: &Vm,
    ids: &[ModId],
) -> Result<(), AllocError>
    ensures { OnOk result (out.new ≡ out.old ++ flat_map (told_id (codes "update ") (tables_of (manifest_view app.now.manifest)) vm.now) ids.now) }
{
    for id in ids {
        push_update(out, alloc, app, vm, *id)?;
    }
    Ok(())
}

/// What stands before the log: the head, the fires for which there was nothing, and the tree, in which each node has its own number.
pub(crate) fn front(
    alloc: Global,
    tree: &NodeTree,
    turn: u128,
    event: Option<&Event>,
    missing: &[u64],
) -> Result<Text, AllocError>
    ensures { IfOk result (λ t. t ≡ head_line turn (option_map (λ e. event_view e.now) event.entry) ++ (missing_lines missing.now ++ lines (node_at tree.now) (λ i. i.1) [] tree.now.forest)) }
{
    let mut out = Text::new(alloc);
    push_head(&mut out, turn, event)?;
    push_missing(&mut out, missing)?;
    let tree = print_own(alloc, tree)?;
    out.push_text(&tree)?;
    Ok(out)
}

/// What was installed, and then what was updated.
fn push_logged(
    out: &mut Text,
    alloc: Global,
    app: &App,
    vm: &Vm,
    commit: &Commit,
) -> Result<(), AllocError>
    ensures { OnOk result (out.new ≡ out.old ++ (flat_map (told_id (codes "install ") (tables_of (manifest_view app.now.manifest)) vm.now) commit.now.installs ++ flat_map (told_id (codes "update ") (tables_of (manifest_view app.now.manifest)) vm.now) commit.now.updates)) }
{
    push_installs(out, alloc, app, vm, commit.installs.as_slice())?;
    push_updates(out, alloc, app, vm, commit.updates.as_slice())
}

/// What was installed and what was updated in the turn, which is committed by that.
pub(crate) fn push_committed(
    out: &mut Text,
    alloc: Global,
    app: &App,
    vm: &mut Vm,
) -> Result<(), AllocError>
    ensures text { OnOk result (out.new ≡ out.old ++ (flat_map (told_id (codes "install ") (tables_of (manifest_view app.now.manifest)) vm.old) vm.old.mods.installs ++ flat_map (told_id (codes "update ") (tables_of (manifest_view app.now.manifest)) vm.old) vm.old.mods.updates)) }
    ensures vm { vm.new ≡ record vm.old { mods = record vm.old.mods { installs = []; updates = [] } } }
{
    let commit = vm.mods.commit();
    push_logged(out, alloc, app, vm, &commit)
}
