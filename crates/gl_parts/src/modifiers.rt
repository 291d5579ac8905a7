// The modifiers of an element, which are installed where it ends.
ghost use Rattle.std.specs.Prelude.{◌≡◌, ◌++◌, ◌∷◌, [], map, length, IfOk, OnOk};
ghost use Rattle.gl_plain.specs.State.{pair_of};
ghost use Rattle.gl_plain.specs.Binding.{place};
ghost use Rattle.gl_plain.specs.Tags as t;
ghost use Rattle.gl_vm.specs.Labels.{all_labelled, names_labelled};
ghost use Rattle.gl_vm.specs.View.{stamps, name_stamps, state_of, Calm};
ghost use Rattle.gl_code.specs.CodeView.{seen_mod_spot};
ghost use Rattle.gl_parts.specs.Parts.{seen_part, seen_parts, Leads, grown_after};

use crate::preparing::prepare;
use crate::waiting::Waiting;
use gl_code::{ModSpot, Spot, position, value_of};
use gl_nodes::NodeId;
use gl_refs::{Ids, NamedIds, RefId};
use gl_value::{List, ListBuilder, NamedValues, Text, Texts};
use gl_vm::Vm;
use std::alloc::{AllocError, Global};

// The positional references, and then those with names.
fn all_ids(alloc: Global, args: &[RefId], named: &[(Text, RefId)]) -> Result<Ids, AllocError>
    ensures { IfOk result (λ v. stamps v ≡ stamps args.now ++ map (λ y. y.1) (name_stamps named.now)) }
{
    let mut ids = Ids::with_capacity(alloc, args.len().saturating_add(named.len()))?;
    for id in args {
        ids.push(*id)?;
    }
    for entry in named {
        ids.push(entry.1)?;
    }
    Ok(ids)
}

// The names alone.
fn names_in(alloc: Global, named: &[(Text, RefId)]) -> Result<Texts, AllocError>
    ensures { IfOk result (λ v. v ≡ map (λ y. y.0) (name_stamps named.now)) }
{
    let mut names = Texts::new(alloc);
    for entry in named {
        names.push(entry.0.copy()?)?;
    }
    Ok(names)
}

// What references give, in order.
fn values_got(alloc: Global, vm: &Vm, ids: &[RefId]) -> Result<ListBuilder, AllocError>
    ensures { IfOk result (λ v. (n : _) (touched : _) → all_labelled v ≡ map (λ r. (pair_of (state_of n vm.now touched).look r).value) (stamps ids.now)) }
{
    let mut values = ListBuilder::new(alloc);
    for id in ids {
        values.push(value_of(vm, *id)?)?;
    }
    Ok(values)
}

/// What references give, in order.
pub fn values_of(alloc: Global, vm: &Vm, ids: &[RefId]) -> Result<List, AllocError>
    ensures { IfOk result (λ v. (n : _) (touched : _) → all_labelled v ≡ map (λ r. (pair_of (state_of n vm.now touched).look r).value) (stamps ids.now)) }
{
    Ok(values_got(alloc, vm, ids)?.build()?)
}

// What references give, with their names.
fn named_values_of(
    alloc: Global,
    vm: &Vm,
    named: &[(Text, RefId)],
) -> Result<NamedValues, AllocError>
    ensures { IfOk result (λ v. (n : _) (touched : _) → names_labelled v ≡ map (λ y. (y.0, (pair_of (state_of n vm.now touched).look y.1).value)) (name_stamps named.now)) }
{
    let mut values = NamedValues::new(alloc);
    for entry in named {
        values.push(entry.0.copy()?, value_of(vm, entry.1)?)?;
    }
    Ok(values)
}

// Installs a modifier in a place of a node, with the values that its references have. They are a position.
fn install(
    alloc: Global,
    vm: &mut Vm,
    node: NodeId,
    at: u64,
    name: u32,
    args: &Ids,
    named: &NamedIds,
) -> Result<ModSpot, AllocError>
    requires calm { Calm vm.old }
    ensures step { IfOk result (λ r. Leads (λ n st st'. t.install node.1 at (record { name = n.modifier name; ids = stamps args.now; names = name_stamps named.now }) (place (record { ids = stamps args.now ++ map (λ y. y.1) (name_stamps named.now); made = []; state = st })) ≡ (seen_mod_spot r, st')) vm.old vm.new) }
    ensures calm { Calm vm.new }
    ensures tree { vm.new.tree ≡ vm.old.tree }
{
    let ids = all_ids(alloc, args.as_slice(), named.as_slice())?;
    prepare(vm, ids.as_slice())?;
    let names = names_in(alloc, named.as_slice())?;
    let values = values_of(alloc, vm, args.as_slice())?;
    let named_values = named_values_of(alloc, vm, named.as_slice())?;
    let spot = position(vm, ids)?;
    let id = vm.install(node, at, name, values, named_values)?;
    Ok(ModSpot {
        id,
        positional: args.len(),
        names,
        spot: Spot {
            id: spot,
            made: Ids::new(alloc),
        },
    })
}

// Installs the modifier that a part of a tag is, where it is one. Its place is how many stand before it.
fn install_part(
    alloc: Global,
    vm: &mut Vm,
    node: NodeId,
    spots: &mut Vec<ModSpot>,
    part: &Waiting,
) -> Result<(), AllocError>
    requires calm { Calm vm.old }
    ensures step { OnOk result (Leads (λ n st st'. (ws : _) → grown_after (map seen_mod_spot spots.old.items) (t.install_parts node.1 (length spots.old.items) (seen_part n part.now ∷ ws) st) ≡ grown_after (map seen_mod_spot spots.new.items) (t.install_parts node.1 (length spots.new.items) ws st')) vm.old vm.new) }
    ensures calm { Calm vm.new }
    ensures tree { vm.new.tree ≡ vm.old.tree }
{
    match part {
        Waiting::Modifier { name, args, named } => {
            let at = spots.len() as u64;
            let spot = install(alloc, vm, node, at, *name, args, named)?;
            spots.push(spot)?;
            Ok(())
        }
        Waiting::Fixed { .. } => Ok(()),
        Waiting::Live { .. } => Ok(()),
    }
}

/// Installs the modifiers among the parts of a tag, where its element ends.
pub fn install_all(
    alloc: Global,
    vm: &mut Vm,
    node: NodeId,
    parts: &[Waiting],
) -> Result<Vec<ModSpot>, AllocError>
    requires calm { Calm vm.old }
    ensures step { IfOk result (λ r. Leads (λ n st st'. t.install_parts node.1 0 (seen_parts n parts.now) st ≡ record { spots = map seen_mod_spot r.items; state = st' }) vm.old vm.new) }
    ensures calm { Calm vm.new }
    ensures tree { vm.new.tree ≡ vm.old.tree }
{
    let mut spots = Vec::new(alloc);
    for part in parts {
        install_part(alloc, vm, node, &mut spots, part)?;
    }
    spots.shrink_to_fit();
    Ok(spots)
}
