// Positions that are evaluated again where they are stale. What does not fit the machine is told as want of memory.
ghost use Rattle.std.specs.Prelude.{◌≡◌, IfOk, OnOk};
ghost use Rattle.gl_value.specs.View.{view};
ghost use Rattle.gl_meaning.specs.Eval.{takes_first};
ghost use Rattle.gl_meaning.specs.Parts.{attribute_value};
ghost use Rattle.gl_plain.specs.Binding.{first_value};
ghost use Rattle.gl_plain.specs.Renew as r;
ghost use Rattle.gl_plain.specs.Renew.{spot_pairs};
ghost use Rattle.gl_vm.specs.Labels.{labelled};
ghost use Rattle.gl_vm.specs.View.{Calm, Agrees, state_of};
ghost use Rattle.gl_vm.specs.Steps.{Does};

use gl_asks::is_stale;
use gl_code::{takes, value_of};
use gl_parts::attribute_over;
use gl_refs::RefId;
use gl_value::{Text, Value};
use gl_vm::Vm;
use std::alloc::{AllocError, Global};

/// Evaluates a position again where it is stale, and tells whether it was.
#[inline(never)]
pub(crate) fn reread(vm: &mut Vm, id: RefId) -> Result<bool, AllocError>
    requires calm { Calm vm.old }
    ensures step { OnOk result (Does (λ n. r.reread id.1) vm.old vm.new) }
    ensures stale { IfOk result (λ b. (n : _) (touched : _) → Agrees touched vm.old → r.is_stale (state_of n vm.old touched) id.1 ≡ b) }
    ensures calm { Calm vm.new }
    ensures tree { OnOk result (vm.new.tree ≡ vm.old.tree) }
{
    if is_stale(vm, id)? {
        vm.evaluate(id)?;
        Ok(true)
    } else {
        Ok(false)
    }
}

/// What the first reference of a position gives.
#[inline(never)]
pub(crate) fn shown(vm: &Vm, id: RefId) -> Result<Value, AllocError>
    ensures { IfOk result (λ v. (n : _) (touched : _) → first_value (spot_pairs (state_of n vm.now touched) id.1) ≡ labelled (view v)) }
{
    vm.refs.sound();
    match vm.refs.parts(id) {
        Some([first, ..]) => value_of(vm, *first),
        _ => Err(AllocError),
    }
}

/// The text that an attribute has over a position, where it isn't left out.
#[inline(never)]
pub(crate) fn attribute(alloc: Global, vm: &Vm, id: RefId) -> Result<Option<Text>, AllocError>
    ensures { IfOk result (λ o. (n : _) (touched : _) → attribute_value (spot_pairs (state_of n vm.now touched) id.1) ≡ o) }
{
    vm.refs.sound();
    match vm.refs.parts(id) {
        Some(ids) => attribute_over(alloc, vm, ids),
        None => Err(AllocError),
    }
}

/// Evaluates a condition again where it is stale, and tells whether the main body is to be shown.
#[inline(never)]
pub(crate) fn condition(vm: &mut Vm, unless: bool, id: RefId) -> Result<bool, AllocError>
    requires calm { Calm vm.old }
    ensures step { OnOk result (Does (λ n. r.reread id.1) vm.old vm.new) }
    ensures shows { IfOk result (λ b. (n : _) (touched : _) → takes_first unless (first_value (spot_pairs (state_of n vm.new touched) id.1)) ≡ b) }
    ensures calm { Calm vm.new }
    ensures tree { OnOk result (vm.new.tree ≡ vm.old.tree) }
{
    reread(vm, id)?;
    let value = shown(vm, id)?;
    Ok(takes(unless, &value))
}
