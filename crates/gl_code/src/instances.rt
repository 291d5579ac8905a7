// Instances of components: their cells, and what they see.
ghost use Rattle.std.specs.Prelude.{◌≡◌, [], IfOk, OnOk, suc, Some, None};
ghost use Rattle.gl_machine.specs.Sight.{sight};
ghost use Rattle.gl_vm.specs.View.{stamps, Calm, name_stamps};
ghost use Rattle.gl_code.specs.View.{seen_level, seen_owner};
ghost use Rattle.gl_value.specs.Value.{undefined};
ghost use Rattle.gl_value.specs.View.{view, seen_entries};
ghost use Rattle.gl_meaning.specs.View.{path_view};
ghost use Rattle.gl_plain.specs.Ids.{an_instance};
ghost use Rattle.gl_plain.specs.State.{named_as, instance_row, make};
ghost use Rattle.gl_vm.specs.Labels.{all_labelled};
ghost use Rattle.gl_vm.specs.Steps.{Does};
ghost use Rattle.gl_code.specs.Cells.{initial_value, initial_values, cells_at};
ghost use Rattle.gl_code.specs.Instances.{Lays, LaysOne};

use crate::cells::Cells;
use crate::paths::path_copy;
use crate::sight::{Level, Owner};
use gl_meaning::Path;
use gl_refs::{Ids, RefId};
use gl_scope::{Args, Locals};
use gl_value::{List, Text, Value};
use gl_vm::Vm;
use std::alloc::{AllocError, Global};
use std::rc::Rc;

/// The same references.
pub fn same_ids(alloc: Global, ids: &[RefId]) -> Result<Ids, AllocError>
    ensures { IfOk result (λ r. r ≡ ids.now) }
{
    let mut list = Vec::new(alloc);
    list.extend_from_slice(ids)?;
    Ok(Ids::from_vec(list))
}

// The value at a place, or else undefined.
fn value_at(values: &List, place: usize) -> Result<Value, AllocError>
    ensures { IfOk result (λ v. view v ≡ initial_value (Some values.now) place undefined) }
{
    match values.get(place) {
        Some(value) => value.copy(),
        None => Ok(Value::Undefined),
    }
}

// Makes a cell that holds a value.
fn lay(vm: &mut Vm, ids: &mut Ids, value: Value) -> Result<(), AllocError>
    ensures step { OnOk result (LaysOne (view value) ids.old ids.new vm.old vm.new) }
    ensures calm { Calm vm.old → Calm vm.new }
    ensures tree { vm.new.tree ≡ vm.old.tree }
{
    let id = vm.cell(value)?;
    ids.push(id)
}

// Makes the cells of these fields, which hold their initial values.
fn lay_initial(vm: &mut Vm, alloc: Global, fields: &[(Text, Value)]) -> Result<Ids, AllocError>
    ensures step { IfOk result (λ ids. Lays (all_labelled (initial_values None 0 (seen_entries fields.now))) ids vm.old vm.new) }
    ensures calm { Calm vm.old → Calm vm.new }
    ensures tree { vm.new.tree ≡ vm.old.tree }
{
    let mut ids = Ids::with_capacity(alloc, fields.len())?;
    for field in fields {
        let value = field.1.data_of()?;
        lay(vm, &mut ids, value)?;
    }
    Ok(ids)
}

// Makes the cells of these fields, which hold these values in turn.
fn lay_held(
    vm: &mut Vm,
    alloc: Global,
    fields: &[(Text, Value)],
    held: &List,
) -> Result<Ids, AllocError>
    ensures step { IfOk result (λ ids. Lays (all_labelled (initial_values (Some held.now) 0 (seen_entries fields.now))) ids vm.old vm.new) }
    ensures calm { Calm vm.old → Calm vm.new }
    ensures tree { vm.new.tree ≡ vm.old.tree }
{
    let mut ids = Ids::with_capacity(alloc, fields.len())?;
    for _field in fields {
        let value = value_at(held, ids.len())?;
        lay(vm, &mut ids, value)?;
    }
    Ok(ids)
}

/// Makes the cells of an instance of a class at a path.
pub fn lay_cells(
    vm: &mut Vm,
    alloc: Global,
    cells: &Cells,
    path: &Path,
    fields: &[(Text, Value)],
) -> Result<Ids, AllocError>
    ensures step { IfOk result (λ ids. Lays (all_labelled (initial_values (cells_at (path_view path.now) cells.now) 0 (seen_entries fields.now))) ids vm.old vm.new) }
    ensures calm { Calm vm.old → Calm vm.new }
    ensures tree { vm.new.tree ≡ vm.old.tree }
{
    match cells.at(path)? {
        None => lay_initial(vm, alloc, fields),
        Some(held) => lay_held(vm, alloc, fields, held),
    }
}

/// What the template of an instance sees of its own, with these arguments.
pub fn own_level(alloc: Global, owner: &Rc<Owner>, args: &Rc<Args>) -> Result<Level, AllocError>
    ensures { IfOk result (λ r. (n : _) (w : _) → seen_level n r w ≡ sight owner.now.value.class (seen_owner n owner.now.value) (name_stamps args.now.value) [] w) }
{
    Ok(Level {
        owner: Rc::clone(owner)?,
        args: Rc::clone(args)?,
        locals: Locals::new(alloc),
    })
}

/// One level of nesting fewer.
pub fn deeper(left: u32) -> Result<u32, AllocError>
    ensures { IfOk result (λ rest. left ≡ suc rest) }
{
    left.checked_sub(1).ok_or(AllocError)
}

/// Makes an instance of the class with a number at a path, with these cells.
pub fn instantiate(
    vm: &mut Vm,
    alloc: Global,
    class: u16,
    path: Path,
    cells: Ids,
) -> Result<Rc<Owner>, AllocError>
    ensures step { IfOk result (λ o. Does (λ n. make an_instance (instance_row (record { id = vm.old.instances.made; path = path_view path; cells = named_as (n.fields class) (stamps cells) }))) vm.old vm.new) }
    ensures owner { IfOk result (λ o. (n : _) → seen_owner n o.value ≡ record { id = vm.old.instances.made; path = path_view path; cells = named_as (n.fields class) (stamps cells) }) }
    ensures class { IfOk result (λ o. o.value.class ≡ class) }
    ensures cells { IfOk result (λ o. o.value.cells ≡ cells) }
    ensures calm { Calm vm.old → Calm vm.new }
    ensures tree { vm.new.tree ≡ vm.old.tree }
{
    let kept = path_copy(alloc, &path)?;
    let ids = same_ids(alloc, cells.as_slice())?;
    let id = vm.instance(class, kept, ids)?;
    let owner = Rc::new(
        alloc,
        Owner {
            id,
            class,
            path,
            cells,
        },
    )?;
    Ok(owner)
}
