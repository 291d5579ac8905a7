// The stack of references.
ghost use Rattle.std.specs.Prelude.{◌≡◌, None, Some, IfOk, OnOk};
ghost use Rattle.gl_machine.specs.Step as s;
ghost use Rattle.gl_vm.specs.View.{stamps, name_stamps};
ghost use Rattle.gl_append.specs.MachineView.{seen_pushed, seen_stack};

use crate::machine::Pushed;
use gl_refs::{Ids, NamedIds};
use std::alloc::{AllocError, Global};

// Takes the last reference of the stack.
pub(crate) fn pop_pushed(stack: &mut Vec<Pushed>) -> Result<Pushed, AllocError>
    ensures { IfOk result (λ e. s.popped (seen_stack stack.old.items) ≡ Some (seen_stack stack.new.items, seen_pushed e)) }
{
    match stack.pop() {
        Some(pushed) => Ok(pushed),
        None => Err(AllocError),
    }
}

// Takes the last ones of the stack, this many.
pub(crate) fn take_last(stack: &mut Vec<Pushed>, count: u32) -> Result<Vec<Pushed>, AllocError>
    ensures taken { IfOk result (λ v. seen_stack v.items ≡ s.upper count (seen_stack stack.old.items)) }
    ensures rest { OnOk result (seen_stack stack.new.items ≡ s.lower count (seen_stack stack.old.items)) }
{
    let count = count as usize;
    if count > stack.len() {
        return Err(AllocError);
    }
    let taken = stack.split_off(stack.len() - count)?;
    Ok(taken)
}

// Those without a name, in order.
pub(crate) fn positional(alloc: Global, taken: &[Pushed]) -> Result<Ids, AllocError>
    ensures { IfOk result (λ v. stamps v ≡ s.positional (seen_stack taken.now)) }
{
    let mut ids = Ids::with_capacity(alloc, taken.len())?;
    for pushed in taken {
        if pushed.name.is_none() {
            ids.push(pushed.id)?;
        }
    }
    Ok(ids)
}

// Those with a name, in order.
pub(crate) fn named_ones(alloc: Global, taken: &[Pushed]) -> Result<NamedIds, AllocError>
    ensures { IfOk result (λ v. name_stamps v ≡ s.named_ones (seen_stack taken.now)) }
{
    let mut ids = NamedIds::new(alloc);
    for pushed in taken {
        if let Some(name) = &pushed.name {
            ids.push(name.copy()?, pushed.id)?;
        }
    }
    Ok(ids)
}
