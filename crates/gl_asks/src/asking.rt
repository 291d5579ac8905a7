// The walk over a region of the updating program that asks its positions, in order, up to the first that is stale, or one too many.
ghost use Rattle.std.specs.Prelude.{◌≡◌, ◌∷◌, [], ◌++◌, map, IfOk};
ghost use Rattle.gl_plain.specs.Counts.{positions_of, positions_in, positions_items, attr_positions, mod_positions};
ghost use Rattle.gl_machine.specs.Code.{live_of, lives_of, items_of};
ghost use Rattle.gl_code.specs.CodeView.{seen_attr_spot, seen_mod_spot, seen_code, seen_codes, seen_item_code, all_items};
ghost use Rattle.gl_vm.specs.View.{Calm};
ghost use Rattle.gl_vm.specs.Steps.{Does};
ghost use Rattle.gl_asks.specs.Asked.{Asked, Counted};
ghost use Rattle.gl_asks.specs.Spots.{attr_ids, mod_ids, code_ids, body_ids, items_ids};

use crate::stale::is_stale;
use gl_code::{AttrSpot, Code, Codes, ItemCode, ModSpot, Spot};
use gl_refs::RefId;
use gl_vm::Vm;
use std::alloc::AllocError;

// One position, where so many more may be asked.
#[inline(never)]
fn ask(vm: &mut Vm, left: &mut usize, id: RefId) -> Result<bool, AllocError>
    requires calm { Calm vm.old }
    ensures asked { IfOk result (Asked vm.old left.old left.new (λ n. id.1 ∷ [])) }
    ensures still { Does (λ n st. st) vm.old vm.new }
    ensures calm { Calm vm.new }
    ensures counted { Counted vm.old vm.new (id ∷ []) result }
{
    if *left == 0 {
        return Ok(true);
    }
    *left -= 1;
    is_stale(vm, id)
}

#[inline(never)]
fn ask_attrs(vm: &mut Vm, left: &mut usize, attrs: &[AttrSpot]) -> Result<bool, AllocError>
    requires calm { Calm vm.old }
    ensures asked { IfOk result (Asked vm.old left.old left.new (λ n. attr_positions (map seen_attr_spot attrs.now))) }
    ensures still { Does (λ n st. st) vm.old vm.new }
    ensures calm { Calm vm.new }
    ensures counted { Counted vm.old vm.new (attr_ids attrs.now) result }
{
    for attr in attrs {
        if ask(vm, left, attr.spot.id)? {
            return Ok(true);
        }
    }
    Ok(false)
}

#[inline(never)]
fn ask_mods(vm: &mut Vm, left: &mut usize, mods: &[ModSpot]) -> Result<bool, AllocError>
    requires calm { Calm vm.old }
    ensures asked { IfOk result (Asked vm.old left.old left.new (λ n. mod_positions (map seen_mod_spot mods.now))) }
    ensures still { Does (λ n st. st) vm.old vm.new }
    ensures calm { Calm vm.new }
    ensures counted { Counted vm.old vm.new (mod_ids mods.now) result }
{
    for modifier in mods {
        if ask(vm, left, modifier.spot.id)? {
            return Ok(true);
        }
    }
    Ok(false)
}

/// Whether a body is entered, of which so many positions may still be asked.
#[cycle(asking)]
#[inline(never)]
pub(crate) fn ask_codes(vm: &mut Vm, left: &mut usize, codes: &Codes) -> Result<bool, AllocError>
    requires calm { Calm vm.old }
    ensures asked { IfOk result (Asked vm.old left.old left.new (λ n. positions_in (lives_of (seen_codes n codes.now)))) }
    ensures still { Does (λ n st. st) vm.old vm.new }
    ensures calm { Calm vm.new }
    ensures counted { Counted vm.old vm.new (body_ids codes.now) result }
{
    for code in codes.list.as_slice() {
        if ask_code(vm, left, code)? {
            return Ok(true);
        }
    }
    Ok(false)
}

#[cycle(asking)]
#[inline(never)]
fn ask_code(vm: &mut Vm, left: &mut usize, code: &Code) -> Result<bool, AllocError>
    requires calm { Calm vm.old }
    ensures asked { IfOk result (Asked vm.old left.old left.new (λ n. positions_of (live_of (seen_code n code.now)))) }
    ensures still { Does (λ n st. st) vm.old vm.new }
    ensures calm { Calm vm.new }
    ensures counted { Counted vm.old vm.new (code_ids code.now) result }
{
    match code {
        Code::Still { .. } => Ok(false),
        Code::Put { spot, .. } => ask(vm, left, spot.id),
        Code::Element {
            attrs,
            mods,
            body,
            ..
        } => ask_element(vm, left, attrs.as_slice(), body, mods.as_slice()),
        Code::Branch { spot, body, .. } => ask_spot(vm, left, spot, body),
        Code::Listed { spot, items, .. } => ask_list(vm, left, spot, items),
        Code::Unlisted { spot, body, .. } => ask_spot(vm, left, spot, body),
        Code::Let { body, .. } => ask_codes(vm, left, body),
        Code::Component { body, .. } => ask_codes(vm, left, body),
        Code::Root { body, .. } => ask_codes(vm, left, body),
        Code::Yield { body, .. } => ask_codes(vm, left, body),
    }
}

// An element's attributes come before what is in it, and its modifiers after it.
#[cycle(asking)]
#[inline(never)]
fn ask_element(
    vm: &mut Vm,
    left: &mut usize,
    attrs: &[AttrSpot],
    body: &Codes,
    mods: &[ModSpot],
) -> Result<bool, AllocError>
    requires calm { Calm vm.old }
    ensures asked { IfOk result (Asked vm.old left.old left.new (λ n. attr_positions (map seen_attr_spot attrs.now) ++ (positions_in (lives_of (seen_codes n body.now)) ++ mod_positions (map seen_mod_spot mods.now)))) }
    ensures still { Does (λ n st. st) vm.old vm.new }
    ensures calm { Calm vm.new }
    ensures counted { Counted vm.old vm.new (attr_ids attrs.now ++ (body_ids body.now ++ mod_ids mods.now)) result }
{
    if ask_attrs(vm, left, attrs)? {
        return Ok(true);
    }
    if ask_codes(vm, left, body)? {
        return Ok(true);
    }
    ask_mods(vm, left, mods)
}

// A position, with the body that it chooses.
#[cycle(asking)]
#[inline(never)]
fn ask_spot(vm: &mut Vm, left: &mut usize, spot: &Spot, body: &Codes) -> Result<bool, AllocError>
    requires calm { Calm vm.old }
    ensures asked { IfOk result (Asked vm.old left.old left.new (λ n. spot.now.id.1 ∷ positions_in (lives_of (seen_codes n body.now)))) }
    ensures still { Does (λ n st. st) vm.old vm.new }
    ensures calm { Calm vm.new }
    ensures counted { Counted vm.old vm.new (spot.now.id ∷ body_ids body.now) result }
{
    if ask(vm, left, spot.id)? {
        return Ok(true);
    }
    ask_codes(vm, left, body)
}

// The position of a list, with its items.
#[cycle(asking)]
#[inline(never)]
fn ask_list(
    vm: &mut Vm,
    left: &mut usize,
    spot: &Spot,
    items: &Vec<ItemCode>,
) -> Result<bool, AllocError>
    requires calm { Calm vm.old }
    ensures asked { IfOk result (Asked vm.old left.old left.new (λ n. spot.now.id.1 ∷ positions_items (items_of (all_items (map (seen_item_code n) items.now.items))))) }
    ensures still { Does (λ n st. st) vm.old vm.new }
    ensures calm { Calm vm.new }
    ensures counted { Counted vm.old vm.new (spot.now.id ∷ items_ids items.now.items) result }
{
    if ask(vm, left, spot.id)? {
        return Ok(true);
    }
    ask_items(vm, left, items)
}

/// Whether the items of a list are entered, of which so many positions may still be asked.
#[cycle(asking)]
#[inline(never)]
pub(crate) fn ask_items(
    vm: &mut Vm,
    left: &mut usize,
    items: &Vec<ItemCode>,
) -> Result<bool, AllocError>
    requires calm { Calm vm.old }
    ensures asked { IfOk result (Asked vm.old left.old left.new (λ n. positions_items (items_of (all_items (map (seen_item_code n) items.now.items))))) }
    ensures still { Does (λ n st. st) vm.old vm.new }
    ensures calm { Calm vm.new }
    ensures counted { Counted vm.old vm.new (items_ids items.now.items) result }
{
    for item in items.as_slice() {
        if ask_codes(vm, left, &item.body)? {
            return Ok(true);
        }
    }
    Ok(false)
}
