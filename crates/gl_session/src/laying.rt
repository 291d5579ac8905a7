// The sets of an event, laid on the cells of a page.
ghost use Rattle.std.specs.Prelude.{◌≡◌, map, reverse, IfOk, OnOk};
ghost use Rattle.gl_value.specs.View.{view};
ghost use Rattle.gl_plain.specs.State.{touch};
ghost use Rattle.gl_plain.specs.Turns.{begin};
ghost use Rattle.gl_vm.specs.Labels.{label, labelled};
ghost use Rattle.gl_vm.specs.View.{Calm};
ghost use Rattle.gl_vm.specs.Steps.{Does};
ghost use Rattle.gl_actions.specs.World.{World};
ghost use Rattle.gl_actions.specs.Reads.{Reads};
ghost use Rattle.gl_session.specs.Laying.{GivensFor, touch_of, touch_all};

use gl_actions::{Sets, cell_for};
use gl_code::Page;
use gl_opc::App;
use gl_refs::RefId;
use gl_value::Value;
use gl_vm::Vm;
use std::alloc::{AllocError, Global};

/// A cell, with the value that it is given.
#[derive(Drop)]
pub(crate) struct Given {
    pub(crate) cell: RefId,
    pub(crate) value: Value,
}

/// The cell of each set with its value, the first one last.
pub(crate) fn givens_for(
    alloc: Global,
    page: &Page,
    app: &App,
    sets: Sets,
) -> Result<Vec<Given>, AllocError>
    ensures { IfOk result (λ gs. (w : World) → Reads app.now page.now w → GivensFor w page.now sets (reverse gs.items)) }
{
    let mut waiting = sets.into_vec();
    let mut givens = Vec::new(alloc);
    while let Some(set) = waiting.pop() {
        let cell = cell_for(alloc, page, app, &set)?;
        givens.push(Given {
            cell,
            value: set.to,
        })?;
    }
    Ok(givens)
}

// Sets a cell, where it is a live one.
fn put(vm: &mut Vm, cell: RefId, value: Value) -> Result<(), AllocError>
    ensures step { OnOk result (Does (λ n. touch cell.1 (label cell.1) (labelled (view value))) vm.old vm.new) }
    ensures calm { Calm vm.old → Calm vm.new }
    ensures tree { OnOk result (vm.new.tree ≡ vm.old.tree) }
{
    if !vm.refs.room() {
        return Err(AllocError);
    }
    if !vm.refs.is_cell(cell) {
        return Err(AllocError);
    }
    vm.set(cell, value);
    Ok(())
}

/// Gives each cell its value, in order, the first one last.
pub(crate) fn lay(vm: &mut Vm, givens: Vec<Given>) -> Result<(), AllocError>
    ensures step { OnOk result (Does (λ n. touch_all (map touch_of (reverse givens.items))) vm.old vm.new) }
    ensures calm { Calm vm.old → Calm vm.new }
    ensures tree { OnOk result (vm.new.tree ≡ vm.old.tree) }
{
    let mut waiting = givens;
    while let Some(given) = waiting.pop() {
        put(vm, given.cell, given.value)?;
    }
    Ok(())
}

/// Begins a turn, where the counts have room.
pub(crate) fn begin_turn(vm: &mut Vm) -> Result<(), AllocError>
    ensures step { OnOk result (Does (λ n. begin) vm.old vm.new) }
    ensures calm { Calm vm.old → Calm vm.new }
    ensures tree { OnOk result (vm.new.tree ≡ vm.old.tree) }
{
    if !vm.refs.room() {
        return Err(AllocError);
    }
    vm.begin();
    Ok(())
}
