// What is read of the machine.
ghost use Rattle.std.specs.Prelude.{◌≡◌, IfOk};
ghost use Rattle.gl_value.specs.View.{view};
ghost use Rattle.gl_actions.specs.World.{World, value_in, read_in};

use gl_refs::RefId;
use gl_value::Value;
use gl_vm::Vm;
use std::alloc::AllocError;

/// What a reference gives, where it may be read.
pub fn read(vm: &Vm, id: RefId) -> Result<Value, AllocError>
    ensures { IfOk result (λ v. (w : World) → value_in w (view v) ≡ read_in w vm.now id.1) }
{
    if !vm.refs.readable(id) {
        return Err(AllocError);
    }
    vm.value(id)
}
