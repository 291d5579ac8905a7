// The items of an `each`.
ghost use Rattle.std.specs.Prelude.{◌≡◌, ◌++◌, IfOk, OnOk, drop};
ghost use Rattle.gl_machine.specs.RenewCode as r;
ghost use Rattle.gl_machine.specs.Sight.{with_locals};
ghost use Rattle.gl_vm.specs.View.{stamps};
ghost use Rattle.gl_code.specs.View.{seen_locals, seen_sight};
ghost use Rattle.gl_code.specs.CodeView.{seen_listing};
ghost use Rattle.gl_machine.specs.RenewCode.{refs_in};

use crate::code::Listing;
use crate::sight::Sight;
use gl_refs::{Ids, RefId};
use gl_scope::Locals;
use std::alloc::{AllocError, Global};

// Adds the parameter that an operand of Item names, one more than its symbol; 0 names none.
fn push_operand(locals: &mut Locals, operand: u32, id: RefId) -> Result<(), AllocError>
    ensures { OnOk result (seen_locals locals.new ≡ seen_locals locals.old ++ r.by_operand operand id.1) }
{
    match operand.checked_sub(1) {
        Some(symbol) => locals.push(symbol, id),
        None => Ok(()),
    }
}

/// What is seen in an item with these references of its value and its index.
pub fn item_sight(listing: &Listing, value: RefId, index: RefId) -> Result<Sight, AllocError>
    ensures { IfOk result (λ w. (n : _) → seen_sight n w ≡ with_locals (r.item_locals (seen_listing n listing.now) value.1 index.1) (seen_sight n listing.now.sight.value)) }
{
    let mut sight = listing.sight.as_ref().copy()?;
    push_operand(&mut sight.level.locals, listing.value, value)?;
    push_operand(&mut sight.level.locals, listing.index, index)?;
    Ok(sight)
}

/// The references of an item's parameters.
pub fn item_params(
    alloc: Global,
    listing: &Listing,
    value: RefId,
    index: RefId,
) -> Result<Ids, AllocError>
    ensures { IfOk result (λ v. (n : _) → stamps v ≡ r.refs_in (r.item_locals (seen_listing n listing.now) value.1 index.1)) }
{
    let mut locals = Locals::new(alloc);
    push_operand(&mut locals, listing.value, value)?;
    push_operand(&mut locals, listing.index, index)?;
    params_from(alloc, locals.as_slice(), 0)
}

// The references of these parameters.
fn ids_in(alloc: Global, locals: &[(u32, RefId)]) -> Result<Ids, AllocError>
    ensures { IfOk result (λ v. stamps v ≡ refs_in (seen_locals locals.now)) }
{
    let mut ids = Ids::with_capacity(alloc, locals.len())?;
    for local in locals {
        ids.push(local.1)?;
    }
    Ok(ids)
}

/// The references of the parameters from a place on.
pub fn params_from(alloc: Global, locals: &[(u32, RefId)], at: usize) -> Result<Ids, AllocError>
    ensures { IfOk result (λ v. stamps v ≡ refs_in (drop at (seen_locals locals.now))) }
{
    if at > locals.len() {
        return Err(AllocError);
    }
    let (_, rest) = locals.split_at(at);
    ids_in(alloc, rest)
}
