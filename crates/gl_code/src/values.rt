// What references give, where they may be read.
ghost use Rattle.std.specs.Prelude.{◌≡◌, IfOk};
ghost use Rattle.gl_value.specs.View.{view};
ghost use Rattle.gl_plain.specs.State.{pair_of};
ghost use Rattle.gl_vm.specs.Labels.{labelled};
ghost use Rattle.gl_vm.specs.View.{state_of};

use gl_refs::RefId;
use gl_value::Value;
use gl_vm::Vm;
use std::alloc::AllocError;

/// What a reference gives, where it may be read.
pub fn value_of(vm: &Vm, id: RefId) -> Result<Value, AllocError>
    ensures { IfOk result (λ v. (n : _) (touched : _) → (pair_of (state_of n vm.now touched).look id.1).value ≡ labelled (view v)) }
{
    if !vm.refs.readable(id) {
        return Err(AllocError);
    }
    vm.value(id)
}
