// What a list with items has now, where it is read again.
ghost use Rattle.std.specs.Prelude.{◌≡◌, ◌≢◌, [], map, IfOk, OnOk, IsTrue};
ghost use Rattle.gl_value.specs.View.{view};
ghost use Rattle.gl_each.specs.Key.{entry_keys};
ghost use Rattle.gl_plain.specs.Binding.{first_value};
ghost use Rattle.gl_plain.specs.Renew.{spot_pairs};
ghost use Rattle.gl_plain.specs.Renew as r;
ghost use Rattle.gl_vm.specs.Labels.{labelled};
ghost use Rattle.gl_vm.specs.View.{Calm, state_of};
ghost use Rattle.gl_vm.specs.Steps.{Does};
ghost use Rattle.gl_update.specs.OldItems.{code_key};
ghost use Rattle.gl_update.specs.Read.{Gives, IsOf, entries_now};

use crate::old_items::are_keys_of;
use crate::taken::{Listed, Ready, boxed_ready, value_now};
use gl_code::{ItemCode, keyed_items_of};
use gl_each::keys;
use gl_value::{List, Text, Value, key_of};
use gl_vm::Vm;
use std::alloc::{AllocError, Global};

/// A list with items, and its values of now where they have the keys of the items, in their order; else what it has now for
/// other items.
#[derive(Drop)]
pub(crate) enum Read {
    Same(Box<Listed>, List),
    Other(Box<Listed>, Box<Ready>),
}

// Whether the value at a place has the key that the item there has. It is asked at both ends before all keys are made, since a list
// that changed mostly differs there.
#[inline(never)]
fn is_alike(
    key: &Text,
    items: &[ItemCode],
    values: &List,
    place: usize,
) -> Result<bool, AllocError> {
    let Some(value) = values.get(place) else {
        return Ok(false);
    };
    let Some(item) = items.get(place) else {
        return Ok(false);
    };
    let found = key_of(value, place as u64, key.as_str())?;
    Ok(found.same(&item.spot.key))
}

// Whether there are values, and they have the keys of the items, in their order.
#[inline(never)]
fn keys_stay(
    alloc: Global,
    key: &Text,
    items: &[ItemCode],
    values: &List,
) -> Result<bool, AllocError>
    ensures some { IfOk result (λ b. IsTrue b → values.now ≢ []) }
    ensures keys { IfOk result (λ b. IsTrue b → entry_keys (entries_now key.now values.now) ≡ map code_key items.now) }
{
    if values.is_empty() || values.len() != items.len() {
        return Ok(false);
    }
    if !is_alike(key, items, values, 0)? {
        return Ok(false);
    }
    if !is_alike(key, items, values, items.len().saturating_sub(1))? {
        return Ok(false);
    }
    let found = keys(alloc, values.as_slice(), key.as_str())?;
    Ok(are_keys_of(found.as_slice(), items))
}

// The list with what it has now for other items.
#[inline(never)]
fn other(alloc: Global, list: Box<Listed>, value: Value) -> Result<Read, AllocError>
    ensures is { IfOk result (IsOf list) }
    ensures gives { IfOk result (Gives (labelled (view value)) list) }
{
    let found = keyed_items_of(alloc, value, list.listing.key.as_text())?;
    let ready = boxed_ready(alloc, found.0, found.1)?;
    Ok(Read::Other(list, ready))
}

// The list with its values, where their keys are those of its items.
#[inline(never)]
fn same_or_other(alloc: Global, list: Box<Listed>, value: Value) -> Result<Read, AllocError>
    ensures is { IfOk result (IsOf list) }
    ensures gives { IfOk result (Gives (labelled (view value)) list) }
{
    match value {
        Value::List(values) => {
            let key = list.listing.key.as_text();
            if keys_stay(alloc, key, list.items.as_slice(), &values)? {
                Ok(Read::Same(list, values))
            } else {
                other(alloc, list, Value::List(values))
            }
        }
        value => other(alloc, list, value),
    }
}

/// What a list with items has now. Its position is evaluated again where it is stale.
#[inline(never)]
pub(crate) fn read_listed(vm: &mut Vm, alloc: Global, list: Box<Listed>) -> Result<Read, AllocError>
    requires calm { Calm vm.old }
    ensures step { OnOk result (Does (λ n. r.reread list.value.spot.id.1) vm.old vm.new) }
    ensures is { IfOk result (IsOf list) }
    ensures gives { IfOk result (λ x. (n : _) (touched : _) → Gives (first_value (spot_pairs (state_of n vm.new touched) list.value.spot.id.1)) list x) }
    ensures calm { Calm vm.new }
    ensures tree { OnOk result (vm.new.tree ≡ vm.old.tree) }
{
    let value = value_now(vm, list.spot.id)?;
    same_or_other(alloc, list, value)
}
