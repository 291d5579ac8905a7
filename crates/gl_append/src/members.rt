// The members of a class: the cells of its fields, and its actions.
ghost use Rattle.std.specs.Prelude.{◌≡◌, Some, length, slice_get, IfOk, OnOk};
ghost use Rattle.gl_value.specs.Value as v;
ghost use Rattle.gl_plain.specs.Naming.{by_number};
ghost use Rattle.gl_plain.specs.State.{constant_form};
ghost use Rattle.gl_machine.specs.Sight.{inst_in};
ghost use Rattle.gl_machine.specs.Step as s;
ghost use Rattle.gl_vm.specs.View.{Tables, Calm};
ghost use Rattle.gl_append.specs.Steps.{Takes};
ghost use Rattle.gl_append.specs.Stepping.{MovesIn};

use crate::machine::Machine;
use gl_code::Owner;
use gl_refs::RefId;
use gl_value::{Act, List, Text, Value};
use gl_vm::Vm;
use std::alloc::AllocError;

// The cell of a field of an instance.
fn cell_at(owner: &Owner, field: u32) -> Result<RefId, AllocError>
    ensures { IfOk result (λ id. slice_get owner.now.cells field ≡ Some id) }
{
    match owner.cells.as_slice().get(field as usize) {
        Some(cell) => Ok(*cell),
        None => Err(AllocError),
    }
}

impl Machine {
    // The cell of a field, by its number in the class, which has so many.
    pub(crate) fn do_field(&mut self, count: usize, field: u32) -> Result<(), AllocError>
        ensures { OnOk result ((n : Tables) → length (n.fields self.old.sight.level.owner.value.class) ≡ count → (env : _) (store : _) → MovesIn n (s.do_field env store field) self.old self.new) }
    {
        if field as usize >= count {
            return Err(AllocError);
        }
        let cell = cell_at(self.sight.level.owner.as_ref(), field)?;
        self.push_old(cell)
    }

    // An action of the present instance, with no arguments fixed.
    pub(crate) fn do_action(&mut self, vm: &mut Vm, name: &Text) -> Result<(), AllocError>
        ensures step { OnOk result (Takes (λ n m. s.push_new (constant_form (v.action (by_number.owner (inst_in m.rest.sight)) name.now v.no_values)) m) vm.old self.old vm.new self.new) }
        ensures calm { Calm vm.old → Calm vm.new }
        ensures tree { vm.new.tree ≡ vm.old.tree }
    {
        let owner = self.sight.level.owner.as_ref().id.number();
        let name = name.copy()?;
        let fixed = List::new(self.alloc)?;
        let action = Act::new(self.alloc, owner, name, fixed)?;
        self.push_constant(vm, Value::Act(action))
    }
}
