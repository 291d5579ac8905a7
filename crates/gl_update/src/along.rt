// The items of a list that wasn't touched are walked along in order, each in its place, where they are entered.
ghost use Rattle.std.specs.Prelude.{◌≡◌, ◌∷◌, ◌++◌, ◌<◌, ◌^◌, [], length, map, false, IfOk, OnOk, IfErr};
ghost use Rattle.gl_value.specs.Value.{plain};
ghost use Rattle.gl_value.specs.View.{view};
ghost use Rattle.gl_meaning.specs.Path as p;
ghost use Rattle.gl_meaning.specs.Path.{item, items};
ghost use Rattle.gl_machine.specs.Code as c;
ghost use Rattle.gl_machine.specs.Code.{Code as PlainCode, ItemCodes};
ghost use Rattle.gl_vm.specs.View.{Calm};
ghost use Rattle.gl_code.specs.CodeView.{seen_code, seen_listing, seen_spot, seen_item_code, all_items};
ghost use Rattle.gl_update.specs.View.{trail_view};
ghost use Rattle.gl_update.specs.Counted.{CodeMoved, ItemsAlong, KeptMoved};
ghost use Rattle.gl_update.specs.Questions.{Asks, AsksBody, AsksItems, AsksList};
ghost use Rattle.gl_update.specs.ListItems.{Item, AlongItem, AlongItems, EntersList, GoesAlong, spot_key};
ghost use Rattle.gl_code.specs.Renewing.{Renews, RenewFails};
ghost use Rattle.gl_seats.specs.Parts.{code_nest, item_nest, items_nest};
ghost use Rattle.gl_seats.specs.Seats.{NodesRenewed};
ghost use Rattle.gl_nodes.specs.Flat.{stamp_of};

use crate::codes::renew_codes;
use crate::counting::Moved;
use crate::taken::{Listed, ask_items, boxed_code};
use crate::trail::Trail;
use gl_asks::enters_body;
use gl_code::{AppendBlock, Cells, Code, ItemCode, ItemSpot, VmFault};
use gl_meaning::PathStep;
use gl_nodes::NodeId;
use gl_opc::App;
use gl_vm::Vm;
use std::alloc::{AllocError, Global};

// The trail goes to an item.
#[inline(never)]
fn enter_item(trail: &mut Trail<'_>, spot: &ItemSpot) -> Result<(), AllocError>
    ensures base { OnOk result (trail.new.base ≡ trail.old.base) }
    ensures steps { OnOk result (trail.new.path.steps ≡ trail.old.path.steps ++ item (plain (view spot.now.key)) spot.now.occurrence ∷ []) }
    ensures view { OnOk result (trail_view trail.new ≡ item (plain (view spot.now.key)) spot.now.occurrence ∷ trail_view trail.old) }
    ensures room { OnOk result (length trail.old.path.steps < 2 ^ 64) }
{
    trail.push(PathStep::Item {
        key: spot.key.copy()?,
        occurrence: spot.occurrence,
    })
}

/// An item, where it is entered. The trail is that of the items of the list.
#[cycle(renewing)]
#[inline(never)]
pub(crate) fn walk_item<A: AppendBlock>(
    vm: &mut Vm,
    alloc: Global,
    app: &App,
    cells: &Cells,
    trail: &mut Trail<'_>,
    left: u32,
    item: &mut ItemCode,
    parent: &Option<NodeId>,
    moved: &mut Moved,
) -> Result<(), VmFault>
    requires calm { Calm vm.old }
    ensures ok { OnOk result (Renews app.now cells.now (AlongItem left (trail_view trail.old) (λ n. seen_item_code n item.old)) vm.old (λ n. seen_item_code n item.new) vm.new) }
    ensures fails { IfErr result (RenewFails {A = Item} app.now cells.now (AlongItem left (trail_view trail.old) (λ n. seen_item_code n item.old)) vm.old) }
    ensures moved { OnOk result (KeptMoved moved.old moved.new false (λ n. seen_item_code n item.old) (λ n. seen_item_code n item.new)) }
    ensures asked { OnOk result (Asks app.now cells.now (λ n. AsksBody left (p.item (seen_item_code n item.old).0.key (seen_item_code n item.old).0.occurrence ∷ trail_view trail.old) (λ m. (seen_item_code m item.old).1.1) n) vm.old moved.old.asked moved.new.asked) }
    ensures key { OnOk result ((n : _) → spot_key (seen_item_code n item.new) ≡ spot_key (seen_item_code n item.old)) }
    ensures trail { OnOk result (trail.new ≡ trail.old) }
    ensures calm { Calm vm.new }
    ensures nodes { OnOk result (NodesRenewed vm.old.tree vm.new.tree moved.old.items moved.new.items (stamp_of parent.now) (λ n. item_nest n item.old) (λ n. item_nest n item.new)) }
{
    moved.ask(1)?;
    let mark = moved.mark(vm);
    if enters_body(vm, &item.body)? {
        enter_item(trail, &item.spot)?;
        match renew_codes::<A>(
            vm,
            alloc,
            app,
            cells,
            trail,
            left,
            &mut item.body,
            parent,
            moved,
        ) {
            Ok(()) => {
                trail.pop(alloc);
                moved.close(&mark, vm);
                Ok(())
            }
            Err(fault) => Err(fault),
        }
    } else {
        Ok(())
    }
}

// The items, one after another. The trail is theirs.
#[cycle(renewing)]
#[inline(never)]
fn walk_items<A: AppendBlock>(
    vm: &mut Vm,
    alloc: Global,
    app: &App,
    cells: &Cells,
    trail: &mut Trail<'_>,
    left: u32,
    items: &mut Vec<ItemCode>,
    parent: &Option<NodeId>,
    moved: &mut Moved,
) -> Result<(), VmFault>
    requires calm { Calm vm.old }
    ensures ok { OnOk result (Renews app.now cells.now (AlongItems left (trail_view trail.old) (λ n. map (seen_item_code n) items.old.items)) vm.old (λ n. all_items (map (seen_item_code n) items.new.items)) vm.new) }
    ensures fails { IfErr result (RenewFails {A = ItemCodes} app.now cells.now (AlongItems left (trail_view trail.old) (λ n. map (seen_item_code n) items.old.items)) vm.old) }
    ensures moved { OnOk result (ItemsAlong moved.old moved.new items.old.items items.new.items) }
    ensures asked { OnOk result (Asks app.now cells.now (AsksItems left (trail_view trail.old) (λ n. map (seen_item_code n) items.old.items)) vm.old moved.old.asked moved.new.asked) }
    ensures trail { OnOk result (trail.new ≡ trail.old) }
    ensures calm { Calm vm.new }
    ensures nodes { OnOk result (NodesRenewed vm.old.tree vm.new.tree moved.old.items moved.new.items (stamp_of parent.now) (λ n. items_nest n items.old.items) (λ n. items_nest n items.new.items)) }
{
    for item in items.iter_mut() {
        match walk_item::<A>(vm, alloc, app, cells, trail, left, item, parent, moved) {
            Ok(()) => {}
            Err(fault) => return Err(fault),
        }
    }
    Ok(())
}

/// The list with its items.
#[inline(never)]
pub(crate) fn with_items(alloc: Global, list: Box<Listed>) -> Result<Box<Code>, AllocError>
    ensures { IfOk result (λ r. (n : _) → seen_code n r.value ≡ c.listed_code (seen_listing n list.value.listing) (seen_spot list.value.spot) (all_items (map (seen_item_code n) list.value.items.items))) }
{
    let list = Box::into_inner(list);
    boxed_code(alloc, Code::listed(list.listing, list.spot, list.items))
}

// A list is lost, where its items could not be updated. It is dropped here, so that the walk takes less stack.
#[inline(never)]
fn lost_items(list: Box<Listed>, fault: VmFault) -> VmFault
    ensures { result ≡ fault }
{
    drop(list);
    fault
}

// The items of a list that are entered. It stands in the frame of its caller.
#[cycle(renewing)]
#[inline(always)]
fn walk_entered<A: AppendBlock>(
    vm: &mut Vm,
    alloc: Global,
    app: &App,
    cells: &Cells,
    trail: &mut Trail<'_>,
    left: u32,
    list: Box<Listed>,
    parent: &Option<NodeId>,
    moved: &mut Moved,
) -> Result<Box<Code>, VmFault>
    requires calm { Calm vm.old }
    ensures ok { IfOk result (λ r. Renews app.now cells.now (EntersList (λ n. seen_listing n list.value.listing) (seen_spot list.value.spot) left (trail_view trail.old) (λ n. map (seen_item_code n) list.value.items.items)) vm.old (λ n. seen_code n r.value) vm.new) }
    ensures fails { IfErr result (RenewFails {A = PlainCode} app.now cells.now (EntersList (λ n. seen_listing n list.value.listing) (seen_spot list.value.spot) left (trail_view trail.old) (λ n. map (seen_item_code n) list.value.items.items)) vm.old) }
    ensures moved { IfOk result (λ r. CodeMoved moved.old moved.new (λ n. c.listed_code (seen_listing n list.value.listing) (seen_spot list.value.spot) (all_items (map (seen_item_code n) list.value.items.items))) (λ n. seen_code n r.value)) }
    ensures asked { OnOk result (Asks app.now cells.now (AsksItems left (items ∷ trail_view trail.old) (λ n. map (seen_item_code n) list.value.items.items)) vm.old moved.old.asked moved.new.asked) }
    ensures trail { OnOk result (trail.new ≡ trail.old) }
    ensures calm { Calm vm.new }
    ensures nodes { IfOk result (λ r. NodesRenewed vm.old.tree vm.new.tree moved.old.items moved.new.items (stamp_of parent.now) (λ n. items_nest n list.value.items.items) (λ n. code_nest n r.value)) }
{
    let mut list = list;
    trail.push(PathStep::Items)?;
    match walk_items::<A>(
        vm,
        alloc,
        app,
        cells,
        trail,
        left,
        &mut list.items,
        parent,
        moved,
    ) {
        Ok(()) => {
            trail.pop(alloc);
            Ok(with_items(alloc, list)?)
        }
        Err(fault) => Err(lost_items(list, fault)),
    }
}

/// The items of a list are walked along, where they are entered.
#[cycle(renewing)]
#[inline(never)]
pub(crate) fn walk_list<A: AppendBlock>(
    vm: &mut Vm,
    alloc: Global,
    app: &App,
    cells: &Cells,
    trail: &mut Trail<'_>,
    left: u32,
    list: Box<Listed>,
    parent: &Option<NodeId>,
    moved: &mut Moved,
) -> Result<Box<Code>, VmFault>
    requires calm { Calm vm.old }
    ensures ok { IfOk result (λ r. Renews app.now cells.now (GoesAlong (λ n. seen_listing n list.value.listing) (seen_spot list.value.spot) left (trail_view trail.old) (λ n. map (seen_item_code n) list.value.items.items)) vm.old (λ n. seen_code n r.value) vm.new) }
    ensures fails { IfErr result (RenewFails {A = PlainCode} app.now cells.now (GoesAlong (λ n. seen_listing n list.value.listing) (seen_spot list.value.spot) left (trail_view trail.old) (λ n. map (seen_item_code n) list.value.items.items)) vm.old) }
    ensures moved { IfOk result (λ r. CodeMoved moved.old moved.new (λ n. c.listed_code (seen_listing n list.value.listing) (seen_spot list.value.spot) (all_items (map (seen_item_code n) list.value.items.items))) (λ n. seen_code n r.value)) }
    ensures asked { OnOk result (Asks app.now cells.now (AsksList left (items ∷ trail_view trail.old) (λ n. map (seen_item_code n) list.value.items.items)) vm.old moved.old.asked moved.new.asked) }
    ensures trail { OnOk result (trail.new ≡ trail.old) }
    ensures calm { Calm vm.new }
    ensures nodes { IfOk result (λ r. NodesRenewed vm.old.tree vm.new.tree moved.old.items moved.new.items (stamp_of parent.now) (λ n. items_nest n list.value.items.items) (λ n. code_nest n r.value)) }
{
    let asked = ask_items(vm, list, moved)?;
    let mark = moved.mark(vm);
    let enters = asked.1;
    if enters {
        match walk_entered::<A>(vm, alloc, app, cells, trail, left, asked.0, parent, moved) {
            Ok(code) => {
                moved.close(&mark, vm);
                Ok(code)
            }
            Err(fault) => Err(fault),
        }
    } else {
        Ok(with_items(alloc, asked.0)?)
    }
}
