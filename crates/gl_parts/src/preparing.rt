// References that are kept before what they give is copied.
ghost use Rattle.std.specs.Prelude.{◌≡◌, OnOk};
ghost use Rattle.gl_vm.specs.View.{Calm};
ghost use Rattle.gl_vm.specs.Steps.{Prepares};

use gl_refs::RefId;
use gl_vm::Vm;
use std::alloc::AllocError;

// Has what these references give be kept, where each may be read, so that their values are copied. The state is as it was.
pub(crate) fn prepare(vm: &mut Vm, ids: &[RefId]) -> Result<(), AllocError>
    requires calm { Calm vm.old }
    ensures step { OnOk result (Prepares vm.old vm.new) }
    ensures calm { Calm vm.new }
    ensures tree { vm.new.tree ≡ vm.old.tree }
{
    for id in ids {
        if !vm.refs.readable(*id) {
            return Err(AllocError);
        }
        vm.prepare(*id)?;
    }
    Ok(())
}
