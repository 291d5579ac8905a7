// The items of a list that is read again and whose keys are what they were: each stays in its place, and is given its value and
// its index of now.
ghost use Rattle.std.specs.Prelude.{◌≡◌, ◌∷◌, ◌++◌, ◌+◌, ◌<◌, ◌^◌, [], Some, length, map, slice_get, IfOk, OnOk, IfErr};
ghost use Rattle.gl_value.specs.Value.{count_value};
ghost use Rattle.gl_meaning.specs.Path as p;
ghost use Rattle.gl_each.specs.Key.{entry_keys};
ghost use Rattle.gl_plain.specs.Live.{times_items};
ghost use Rattle.gl_plain.specs.Naming.{by_number, dropped_as};
ghost use Rattle.gl_plain.specs.Renew as r;
ghost use Rattle.gl_machine.specs.Code as c;
ghost use Rattle.gl_machine.specs.Code.{Code as PlainCode, ItemCodes, items_of};
ghost use Rattle.gl_vm.specs.Labels.{label, labelled};
ghost use Rattle.gl_vm.specs.View.{Calm};
ghost use Rattle.gl_vm.specs.Steps.{Does, Rooted};
ghost use Rattle.gl_code.specs.CodeView.{seen_code, seen_listing, seen_spot, seen_item_code, all_items};
ghost use Rattle.gl_code.specs.declared.code.Listing.{Listing as ListingCode};
ghost use Rattle.gl_update.specs.View.{trail_view};
ghost use Rattle.gl_update.specs.Counted.{CodeMoved, ItemsAlong};
ghost use Rattle.gl_update.specs.Questions.{Asks, AsksStaying, AsksSync};
ghost use Rattle.gl_update.specs.ListItems.{SyncItems, Syncs};
ghost use Rattle.gl_update.specs.OldItems.{code_key};
ghost use Rattle.gl_update.specs.Read.{entries_now};
ghost use Rattle.gl_code.specs.Renewing.{Renews, RenewFails};
ghost use Rattle.gl_seats.specs.Parts.{code_nest, items_nest};
ghost use Rattle.gl_seats.specs.Seats.{NodesRenewed};
ghost use Rattle.gl_nodes.specs.Flat.{stamp_of};

use crate::along::{walk_item, with_items};
use crate::counting::Moved;
use crate::ending_items::end_items;
use crate::syncing::give;
use crate::taken::Listed;
use crate::trail::Trail;
use gl_code::{AppendBlock, Cells, Code, ItemCode, ItemSpot, VmFault, counted};
use gl_meaning::PathStep;
use gl_nodes::NodeId;
use gl_opc::App;
use gl_value::List;
use gl_vm::Vm;
use std::alloc::{AllocError, Global};

// An item is given the value at an index, and the index.
#[inline(never)]
fn give_at(vm: &mut Vm, spot: &ItemSpot, values: &List, index: usize) -> Result<(), AllocError>
    ensures step { OnOk result ((x : _) → slice_get values.now index ≡ Some x → Does (λ n st. r.give spot.now.index.1 (label spot.now.index.1) (labelled (count_value index)) (r.give spot.now.value.1 (label spot.now.value.1) (labelled x) st)) vm.old vm.new) }
    ensures calm { Calm vm.old → Calm vm.new }
    ensures tree { OnOk result (vm.new.tree ≡ vm.old.tree) }
{
    match values.get(index) {
        Some(value) => {
            give(vm, spot.value, value.copy()?)?;
            give(vm, spot.index, counted(index as u64))
        }
        None => Err(AllocError),
    }
}

// None of the old items is left to be ended.
#[inline(never)]
fn end_none(vm: &mut Vm, alloc: Global) -> Result<(), AllocError>
    requires calm { Calm vm.old }
    ensures step { OnOk result (Does (λ n. dropped_as by_number (λ q. times_items q (items_of (all_items [])))) vm.old vm.new) }
    ensures calm { Calm vm.new }
    ensures roots { OnOk result (Rooted vm.old.tree vm.new.tree) }
{
    let none = Vec::new(alloc);
    end_items(vm, none.as_slice())
}

// The items, one after another, each with the value at its place. The trail is that of the items of the list.
#[cycle(renewing)]
#[inline(never)]
fn stay_items<A: AppendBlock>(
    vm: &mut Vm,
    alloc: Global,
    app: &App,
    cells: &Cells,
    trail: &mut Trail<'_>,
    left: u32,
    items: &mut Vec<ItemCode>,
    values: &List,
    parent: &Option<NodeId>,
    moved: &mut Moved,
) -> Result<(), VmFault>
    requires calm { Calm vm.old }
    ensures ok { OnOk result ((k : _) → entry_keys (entries_now k values.now) ≡ map code_key items.old.items → (z : ListingCode) → Renews app.now cells.now (SyncItems (λ n. seen_listing n z) left (trail_view trail.old) (entries_now k values.now) (λ n. map (seen_item_code n) items.old.items)) vm.old (λ n. all_items (map (seen_item_code n) items.new.items)) vm.new) }
    ensures fails { (k : _) → entry_keys (entries_now k values.now) ≡ map code_key items.old.items → (z : ListingCode) → IfErr result (RenewFails {A = ItemCodes} app.now cells.now (SyncItems (λ n. seen_listing n z) left (trail_view trail.old) (entries_now k values.now) (λ n. map (seen_item_code n) items.old.items)) vm.old) }
    ensures moved { OnOk result (ItemsAlong moved.old moved.new items.old.items items.new.items) }
    ensures asked { OnOk result ((k : _) → entry_keys (entries_now k values.now) ≡ map code_key items.old.items → (z : ListingCode) → Asks app.now cells.now (AsksStaying (λ n. seen_listing n z) left (trail_view trail.old) (entries_now k values.now) (λ n. map (seen_item_code n) items.old.items)) vm.old moved.old.asked moved.new.asked) }
    ensures trail { OnOk result (trail.new ≡ trail.old) }
    ensures calm { Calm vm.new }
    ensures nodes { OnOk result (NodesRenewed vm.old.tree vm.new.tree moved.old.items moved.new.items (stamp_of parent.now) (λ n. items_nest n items.old.items) (λ n. items_nest n items.new.items)) }
{
    let mut index: usize = 0;
    for kept in items.iter_mut() {
        give_at(vm, &kept.spot, values, index)?;
        match walk_item::<A>(vm, alloc, app, cells, trail, left, kept, parent, moved) {
            Ok(()) => index += 1,
            Err(fault) => return Err(fault),
        }
    }
    end_none(vm, alloc)?;
    Ok(())
}

// The trail goes to the items of a list, which counts as a question. The list and its values are handed through, so that they are
// dropped here where it can't.
#[inline(never)]
fn begin_stay(
    trail: &mut Trail<'_>,
    list: Box<Listed>,
    values: List,
    moved: &mut Moved,
) -> Result<(Box<Listed>, List), AllocError>
    ensures list { IfOk result (λ x. x.0 ≡ list) }
    ensures values { IfOk result (λ x. x.1 ≡ values) }
    ensures base { OnOk result (trail.new.base ≡ trail.old.base) }
    ensures steps { OnOk result (trail.new.path.steps ≡ trail.old.path.steps ++ p.items ∷ []) }
    ensures view { OnOk result (trail_view trail.new ≡ p.items ∷ trail_view trail.old) }
    ensures room { OnOk result (length trail.old.path.steps < 2 ^ 64) }
    ensures moved { moved.new.items ≡ moved.old.items }
    ensures asked { OnOk result (moved.new.asked ≡ moved.old.asked + 1) }
{
    moved.ask(1)?;
    trail.push(PathStep::Items)?;
    Ok((list, values))
}

// The list with its items. Its values are dropped here.
#[inline(never)]
fn end_stay(alloc: Global, list: Box<Listed>, values: List) -> Result<Box<Code>, AllocError>
    ensures { IfOk result (λ r. (n : _) → seen_code n r.value ≡ c.listed_code (seen_listing n list.value.listing) (seen_spot list.value.spot) (all_items (map (seen_item_code n) list.value.items.items))) }
{
    drop(values);
    with_items(alloc, list)
}

// A list is lost, where its items could not be updated. It is dropped here, so that the walk takes less stack.
#[inline(never)]
fn lost_stay(list: Box<Listed>, values: List, fault: VmFault) -> VmFault
    ensures { result ≡ fault }
{
    drop(list);
    drop(values);
    fault
}

/// The items of a list get the values and indexes that they have now, where their keys are what they were.
#[cycle(renewing)]
#[inline(never)]
pub(crate) fn stay_list<A: AppendBlock>(
    vm: &mut Vm,
    alloc: Global,
    app: &App,
    cells: &Cells,
    trail: &mut Trail<'_>,
    left: u32,
    list: Box<Listed>,
    values: List,
    parent: &Option<NodeId>,
    moved: &mut Moved,
) -> Result<Box<Code>, VmFault>
    requires calm { Calm vm.old }
    requires keys { entry_keys (entries_now list.value.listing.key values) ≡ map code_key list.value.items.items }
    ensures ok { IfOk result (λ r. Renews app.now cells.now (Syncs (λ n. seen_listing n list.value.listing) (seen_spot list.value.spot) left (trail_view trail.old) (entries_now list.value.listing.key values) (λ n. map (seen_item_code n) list.value.items.items)) vm.old (λ n. seen_code n r.value) vm.new) }
    ensures fails { IfErr result (RenewFails {A = PlainCode} app.now cells.now (Syncs (λ n. seen_listing n list.value.listing) (seen_spot list.value.spot) left (trail_view trail.old) (entries_now list.value.listing.key values) (λ n. map (seen_item_code n) list.value.items.items)) vm.old) }
    ensures moved { IfOk result (λ r. CodeMoved moved.old moved.new (λ n. c.listed_code (seen_listing n list.value.listing) (seen_spot list.value.spot) (all_items (map (seen_item_code n) list.value.items.items))) (λ n. seen_code n r.value)) }
    ensures asked { OnOk result (Asks app.now cells.now (AsksSync (λ n. seen_listing n list.value.listing) left (p.items ∷ trail_view trail.old) (entries_now list.value.listing.key values) (λ n. map (seen_item_code n) list.value.items.items)) vm.old moved.old.asked moved.new.asked) }
    ensures trail { OnOk result (trail.new ≡ trail.old) }
    ensures calm { Calm vm.new }
    ensures nodes { IfOk result (λ r. NodesRenewed vm.old.tree vm.new.tree moved.old.items moved.new.items (stamp_of parent.now) (λ n. items_nest n list.value.items.items) (λ n. code_nest n r.value)) }
{
    let mut begun = begin_stay(trail, list, values, moved)?;
    let mark = moved.mark(vm);
    let stayed = begun.0.items.len();
    match stay_items::<A>(
        vm,
        alloc,
        app,
        cells,
        trail,
        left,
        &mut begun.0.items,
        &begun.1,
        parent,
        moved,
    ) {
        Ok(()) => {
            trail.pop(alloc);
            moved.settle(&mark, stayed);
            Ok(end_stay(alloc, begun.0, begun.1)?)
        }
        Err(fault) => Err(lost_stay(begun.0, begun.1, fault)),
    }
}
