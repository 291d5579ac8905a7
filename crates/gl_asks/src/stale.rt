// Whether a position is stale. What does not fit the machine is told as want of memory.
ghost use Rattle.std.specs.Prelude.{◌≡◌, ◌∷◌, [], true, IfOk};
ghost use Rattle.gl_refs.specs.Refs.{forms_of};
ghost use Rattle.gl_plain.specs.Renew as r;
ghost use Rattle.gl_vm.specs.View.{Calm, Agrees, is_all, state_of};
ghost use Rattle.gl_vm.specs.Steps.{Does};
ghost use Rattle.gl_asks.specs.Asked.{Counted};

use gl_refs::RefId;
use gl_vm::Vm;
use std::alloc::AllocError;

/// Whether a position is stale: a source that it read at its last evaluation was touched. Where the number of its id alone tells
/// that it isn't, it is not looked at, and no question is counted. It takes no memory; it is not answered of what is no live position that was evaluated, before the first turn, and where the question can't be counted.
#[inline(never)]
pub fn is_stale(vm: &mut Vm, id: RefId) -> Result<bool, AllocError>
    requires calm { Calm vm.old }
    ensures exact { IfOk result (λ b. (n : _) (touched : _) → Agrees touched vm.old → r.is_stale (state_of n vm.old touched) id.1 ≡ b) }
    ensures position { IfOk result (λ b. b ≡ true → is_all (forms_of vm.new.refs id) ≡ true) }
    ensures still { Does (λ n st. st) vm.old vm.new }
    ensures calm { Calm vm.new }
    ensures counted { Counted vm.old vm.new (id ∷ []) result }
{
    if vm.quiet(id) {
        return Ok(false);
    }
    match vm.stale(id) {
        Some(stale) => Ok(stale),
        None => Err(AllocError),
    }
}
