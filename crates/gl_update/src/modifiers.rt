// Modifiers that get other values of their arguments.
ghost use Rattle.std.specs.Prelude.{◌≡◌, ◌∷◌, [], map, IfOk, OnOk};
ghost use Rattle.gl_meaning.specs.Eval.{values_in};
ghost use Rattle.gl_plain.specs.Tags.{first_values, named_with, values_from};
ghost use Rattle.gl_plain.specs.Renew as r;
ghost use Rattle.gl_plain.specs.Renew.{spot_pairs};
ghost use Rattle.gl_plain.specs.State.{pair_of};
ghost use Rattle.gl_vm.specs.Labels.{all_labelled, names_labelled};
ghost use Rattle.gl_vm.specs.View.{Calm, stamps, state_of};
ghost use Rattle.gl_vm.specs.Steps.{Does};
ghost use Rattle.gl_code.specs.CodeView.{seen_mod_spot};

use gl_asks::is_stale;
use gl_code::{ModSpot, value_of};
use gl_parts::values_of;
use gl_refs::RefId;
use gl_value::{List, NamedValues, Text};
use gl_vm::Vm;
use std::alloc::{AllocError, Global};

/// The values of the positional arguments.
#[inline(never)]
fn positional(alloc: Global, vm: &Vm, spot: &ModSpot) -> Result<List, AllocError>
    ensures { IfOk result (λ v. (n : _) (touched : _) → first_values spot.now.positional (values_in (spot_pairs (state_of n vm.now touched) spot.now.spot.id.1)) ≡ all_labelled v) }
{
    vm.refs.sound();
    let Some(ids) = vm.refs.parts(spot.spot.id) else {
        return Err(AllocError);
    };
    match ids.split_at_checked(spot.positional) {
        Some((first, _)) => values_of(alloc, vm, first),
        None => Err(AllocError),
    }
}

/// What references give, with these names.
#[inline(never)]
fn paired(alloc: Global, vm: &Vm, names: &[Text], ids: &[RefId]) -> Result<NamedValues, AllocError>
    ensures { IfOk result (λ v. (n : _) (touched : _) → named_with names.now (map (λ q. (pair_of (state_of n vm.now touched).look q).value) (stamps ids.now)) ≡ names_labelled v) }
{
    let mut values = NamedValues::new(alloc);
    let count = ids.len();
    for (place, name) in names.iter().enumerate() {
        if place >= count {
            return Ok(values);
        }
        values.push(name.copy()?, value_of(vm, ids[place])?)?;
    }
    Ok(values)
}

/// The values of the arguments with names.
#[inline(never)]
fn named(alloc: Global, vm: &Vm, spot: &ModSpot) -> Result<NamedValues, AllocError>
    ensures { IfOk result (λ v. (n : _) (touched : _) → named_with spot.now.names (values_from spot.now.positional (values_in (spot_pairs (state_of n vm.now touched) spot.now.spot.id.1))) ≡ names_labelled v) }
{
    vm.refs.sound();
    let Some(ids) = vm.refs.parts(spot.spot.id) else {
        return Err(AllocError);
    };
    match ids.split_at_checked(spot.positional) {
        Some((_, rest)) => paired(alloc, vm, spot.names.as_slice(), rest),
        None => Err(AllocError),
    }
}

#[inline(never)]
fn renew_mod(vm: &mut Vm, alloc: Global, spot: &ModSpot) -> Result<(), AllocError>
    requires calm { Calm vm.old }
    ensures step { OnOk result (Does (λ n. r.renew_mods (seen_mod_spot spot.now ∷ [])) vm.old vm.new) }
    ensures calm { Calm vm.new }
    ensures tree { OnOk result (vm.new.tree ≡ vm.old.tree) }
{
    if !is_stale(vm, spot.spot.id)? {
        return Ok(());
    }
    let args = positional(alloc, vm, spot)?;
    let named = named(alloc, vm, spot)?;
    vm.evaluate(spot.spot.id)?;
    if !vm.mods.live(spot.id) {
        return Err(AllocError);
    }
    vm.refresh(spot.id, args, named)
}

/// The modifiers of an element: each gets the values of now where its position is stale.
#[inline(never)]
pub(crate) fn renew_mods(vm: &mut Vm, alloc: Global, mods: &[ModSpot]) -> Result<(), AllocError>
    requires calm { Calm vm.old }
    ensures step { OnOk result (Does (λ n. r.renew_mods (map seen_mod_spot mods.now)) vm.old vm.new) }
    ensures calm { Calm vm.new }
    ensures tree { OnOk result (vm.new.tree ≡ vm.old.tree) }
{
    for spot in mods {
        renew_mod(vm, alloc, spot)?;
    }
    Ok(())
}
