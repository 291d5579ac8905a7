// What stands in a page that an update may destroy.
ghost use Rattle.std.specs.Prelude.{◌≡◌, ◌++◌, ◌∷◌, [], map, IfOk, OnOk};
ghost use Rattle.gl_machine.specs.Code.{live_of, lives_of, items_of};
ghost use Rattle.gl_machine.specs.Gone.{gone_modifier, gone_instance, none_lives, gone, gone_in, gone_items, gone_mods};
ghost use Rattle.gl_code.specs.View.{seen_owner};
ghost use Rattle.gl_code.specs.CodeView.{seen_code, seen_codes, seen_item_code, seen_mod_spot, all_items};
ghost use Rattle.gl_gone.specs.View.{seen_ending, all_seen, IsKept, AllKept, Lists};

use crate::endings::{Ending, Standing};
use gl_arena::ModId;
use gl_code::{Code, Codes, ItemCode, ModSpot, Owner, Page};
use gl_vm::Vm;
use std::alloc::{AllocError, Global};
use std::rc::Rc;

/// What stands in a page that an update may destroy. Where the page keeps nothing for a modifier of its program, it
/// answers as for want of memory.
pub fn standing(alloc: Global, page: &Page) -> Result<Standing, AllocError>
    ensures { IfOk result (λ s. Lists page.now s.list.items) }
{
    let mut list = Vec::new(alloc);
    list_code(&mut list, &page.vm, &page.code)?;
    Ok(Standing { list })
}

#[cycle(listing)]
fn list_codes(list: &mut Vec<Ending>, vm: &Vm, codes: &Codes) -> Result<(), AllocError>
    ensures seen { (n : _) → OnOk result (all_seen n list.new.items ≡ all_seen n list.old.items ++ gone_in none_lives (lives_of (seen_codes n codes.now))) }
    ensures kept { OnOk result (AllKept vm.now list.old.items → AllKept vm.now list.new.items) }
{
    for code in codes.list.as_slice() {
        list_code(list, vm, code)?;
    }
    Ok(())
}

#[cycle(listing)]
fn list_code(list: &mut Vec<Ending>, vm: &Vm, code: &Code) -> Result<(), AllocError>
    ensures seen { (n : _) → OnOk result (all_seen n list.new.items ≡ all_seen n list.old.items ++ gone none_lives (live_of (seen_code n code.now))) }
    ensures kept { OnOk result (AllKept vm.now list.old.items → AllKept vm.now list.new.items) }
{
    match code {
        Code::Still { .. } | Code::Put { .. } => Ok(()),
        Code::Element { mods, body, .. } => list_element(list, vm, mods.as_slice(), body),
        Code::Branch { body, .. } => list_codes(list, vm, body),
        Code::Listed { items, .. } => list_items(list, vm, items),
        Code::Unlisted { body, .. } => list_codes(list, vm, body),
        Code::Let { body, .. } => list_codes(list, vm, body),
        Code::Component { owner, body, .. } => list_component(list, vm, owner, body),
        Code::Root { owner, body } => list_component(list, vm, owner, body),
        Code::Yield { body, .. } => list_codes(list, vm, body),
    }
}

// An element's modifiers come after what is in it.
#[cycle(listing)]
fn list_element(
    list: &mut Vec<Ending>,
    vm: &Vm,
    mods: &[ModSpot],
    body: &Codes,
) -> Result<(), AllocError>
    ensures seen { (n : _) → OnOk result (all_seen n list.new.items ≡ all_seen n list.old.items ++ (gone_in none_lives (lives_of (seen_codes n body.now)) ++ gone_mods none_lives (map seen_mod_spot mods.now))) }
    ensures kept { OnOk result (AllKept vm.now list.old.items → AllKept vm.now list.new.items) }
{
    list_codes(list, vm, body)?;
    list_mods(list, vm, mods)
}

#[cycle(listing)]
fn list_items(list: &mut Vec<Ending>, vm: &Vm, items: &Vec<ItemCode>) -> Result<(), AllocError>
    ensures seen { (n : _) → OnOk result (all_seen n list.new.items ≡ all_seen n list.old.items ++ gone_items none_lives (items_of (all_items (map (seen_item_code n) items.now.items)))) }
    ensures kept { OnOk result (AllKept vm.now list.old.items → AllKept vm.now list.new.items) }
{
    for item in items.as_slice() {
        list_codes(list, vm, &item.body)?;
    }
    Ok(())
}

// An instance comes after what is in it.
#[cycle(listing)]
fn list_component(
    list: &mut Vec<Ending>,
    vm: &Vm,
    owner: &Rc<Owner>,
    body: &Codes,
) -> Result<(), AllocError>
    ensures seen { (n : _) → OnOk result (all_seen n list.new.items ≡ all_seen n list.old.items ++ (gone_in none_lives (lives_of (seen_codes n body.now)) ++ gone_instance (seen_owner n owner.now.value) ∷ [])) }
    ensures kept { OnOk result (AllKept vm.now list.old.items → AllKept vm.now list.new.items) }
{
    list_codes(list, vm, body)?;
    let ending = instance_ending(owner)?;
    push_ending(list, vm, ending)
}

fn list_mods(list: &mut Vec<Ending>, vm: &Vm, mods: &[ModSpot]) -> Result<(), AllocError>
    ensures seen { (n : _) → OnOk result (all_seen n list.new.items ≡ all_seen n list.old.items ++ gone_mods none_lives (map seen_mod_spot mods.now)) }
    ensures kept { OnOk result (AllKept vm.now list.old.items → AllKept vm.now list.new.items) }
{
    for spot in mods {
        let ending = modifier_ending(vm, spot.id)?;
        push_ending(list, vm, ending)?;
    }
    Ok(())
}

fn push_ending(list: &mut Vec<Ending>, vm: &Vm, ending: Ending) -> Result<(), AllocError>
    ensures seen { (n : _) → OnOk result (all_seen n list.new.items ≡ all_seen n list.old.items ++ seen_ending n ending ∷ []) }
    ensures kept { OnOk result (IsKept vm.now ending → AllKept vm.now list.old.items → AllKept vm.now list.new.items) }
{
    list.push(ending)?;
    Ok(())
}

/// A modifier, with its node and the number of its name, as they are kept for it.
fn modifier_ending(vm: &Vm, id: ModId) -> Result<Ending, AllocError>
    ensures seen { IfOk result (λ e. (n : _) → seen_ending n e ≡ gone_modifier id.1) }
    ensures kept { IfOk result (λ e. IsKept vm.now e) }
{
    vm.mods.sound();
    if !vm.mods.live(id) {
        return Err(AllocError);
    }
    let installed = vm.mods.get(id);
    Ok(Ending::Modifier {
        id,
        node: installed.node,
        name: installed.name,
    })
}

/// An instance.
fn instance_ending(owner: &Rc<Owner>) -> Result<Ending, AllocError>
    ensures seen { IfOk result (λ e. (n : _) → seen_ending n e ≡ gone_instance (seen_owner n owner.now.value)) }
    ensures kept { IfOk result (λ e. (vm : _) → IsKept vm e) }
{
    Ok(Ending::Instance {
        owner: Rc::clone(owner)?,
    })
}
