// The items of a list become those of other entries: an old item with the key of an entry is kept, where there is none one
// is appended, and what is left of the old ones is ended.
ghost use Rattle.std.specs.Prelude.{◌≡◌, ◌∷◌, ◌++◌, ◌+◌, ◌<◌, ◌^◌, [], is_some, length, map, reverse, IfOk, OnOk, IfErr};
ghost use Rattle.gl_value.specs.Value.{count_value, plain};
ghost use Rattle.gl_value.specs.View.{view};
ghost use Rattle.gl_meaning.specs.Path.{item, items};
ghost use Rattle.gl_meaning.specs.View.{path_view};
ghost use Rattle.gl_each.specs.Key.{entry_key, entry_keys};
ghost use Rattle.gl_each.specs.Moved.{moves as count_moves};
ghost use Rattle.gl_each.specs.View.{seen_steps};
ghost use Rattle.gl_plain.specs.Live.{times_items};
ghost use Rattle.gl_plain.specs.Naming.{by_number, dropped_as};
ghost use Rattle.gl_plain.specs.Renew as r;
ghost use Rattle.gl_machine.specs.Code as c;
ghost use Rattle.gl_machine.specs.Code.{Code as PlainCode, ItemCodes, items_of};
ghost use Rattle.gl_vm.specs.Labels.{label, labelled};
ghost use Rattle.gl_vm.specs.View.{Calm};
ghost use Rattle.gl_vm.specs.Steps.{Does};
ghost use Rattle.gl_code.specs.CodeView.{seen_code, seen_listing, seen_spot, seen_item_code, all_items};
ghost use Rattle.gl_code.specs.Entries.{seen_entry, seen_left};
ghost use Rattle.gl_update.specs.View.{trail_view};
ghost use Rattle.gl_update.specs.ListItems.{Item, spot_key, there, FreshItem, KeptItem, SyncItems, Syncs};
ghost use Rattle.gl_guards.specs.AlongAsks.{stay_count};
ghost use Rattle.gl_update.specs.Questions.{Asks, AsksKept, AsksOne, AsksStaying, AsksSync, old_items};
ghost use Rattle.gl_update.specs.Counted.{CodeMoved, HasKey, ItemMoved, ItemsMoved, KeptMoved, one_if};
ghost use Rattle.gl_update.specs.OldItems.{IsReady, OneItem, Rising, unboxed};
ghost use Rattle.gl_code.specs.Renewing.{Renews, RenewFails};
ghost use Rattle.gl_seats.specs.Parts.{code_nest, item_nest, items_nest};
ghost use Rattle.gl_seats.specs.Seats.{NodesRenewed, SeatsBefore, UnseatsEach};
ghost use Rattle.gl_update.specs.Standing.{Places, Settles, ItemKept, OneKept, NodesSynced};
ghost use Rattle.gl_nodes.specs.Flat.{stamp_of};

use crate::codes::renew_body;
use crate::counting::Moved;
use crate::ending_items::end_items;
use crate::items::{add, fresh_item, item_path};
use crate::old_items::{Next, Work};
use crate::standing::{place_item, settle_item};
use crate::taken::{Begun, Listed, Ready, begin_sync, end_sync, lost_sync};
use crate::trail::Trail;
use gl_code::{AppendBlock, Cells, Code, Entry, ItemCode, Listing, VmFault, counted};
use gl_meaning::{Path, PathStep};
use gl_nodes::NodeId;
use gl_opc::App;
use gl_refs::RefId;
use gl_seats::Seat;
use gl_value::Value;
use gl_vm::Vm;
use std::alloc::{AllocError, Global};
use std::mem;

/// Gives an item's reference a value, where it is a live one.
#[inline(never)]
pub(crate) fn give(vm: &mut Vm, id: RefId, value: Value) -> Result<(), AllocError>
    ensures step { OnOk result (Does (λ n. r.give id.1 (label id.1) (labelled (view value))) vm.old vm.new) }
    ensures calm { Calm vm.old → Calm vm.new }
    ensures tree { OnOk result (vm.new.tree ≡ vm.old.tree) }
{
    if !vm.refs.room() {
        return Err(AllocError);
    }
    if !vm.refs.is_item(id) {
        return Err(AllocError);
    }
    vm.give(id, value);
    Ok(())
}

// An old item is given the value and the index of an entry, and the trail is at it.
#[inline(never)]
fn begin_item(
    vm: &mut Vm,
    trail: &mut Trail<'_>,
    old: Box<ItemCode>,
    entry: Box<Entry>,
) -> Result<Box<ItemCode>, AllocError>
    ensures item { IfOk result (λ r. r ≡ old) }
    ensures step { OnOk result (Does (λ n st. r.give old.value.spot.index.1 (label old.value.spot.index.1) (labelled (count_value entry.value.index)) (r.give old.value.spot.value.1 (label old.value.spot.value.1) (labelled (view entry.value.value)) st)) vm.old vm.new) }
    ensures base { OnOk result (trail.new.base ≡ trail.old.base) }
    ensures steps { OnOk result (trail.new.path.steps ≡ trail.old.path.steps ++ item (plain (view entry.value.key)) entry.value.occurrence ∷ []) }
    ensures view { OnOk result (trail_view trail.new ≡ item (plain (view entry.value.key)) entry.value.occurrence ∷ trail_view trail.old) }
    ensures room { OnOk result (length trail.old.path.steps < 2 ^ 64) }
    ensures calm { Calm vm.old → Calm vm.new }
    ensures tree { OnOk result (vm.new.tree ≡ vm.old.tree) }
{
    let entry = Box::into_inner(entry);
    give(vm, old.spot.value, entry.value)?;
    give(vm, old.spot.index, counted(entry.index))?;
    trail.push(PathStep::Item {
        key: entry.key,
        occurrence: entry.occurrence,
    })?;
    Ok(old)
}

// An old item that is to move does so, before it is walked along.
#[inline(never)]
fn placed(
    vm: &mut Vm,
    moves: bool,
    item: Box<ItemCode>,
    seat: &Seat,
    moved: &mut Moved,
) -> Result<Box<ItemCode>, AllocError>
    ensures item { IfOk result (λ r. r ≡ item) }
    ensures step { OnOk result (Does (λ n st. st) vm.old vm.new) }
    ensures moved { OnOk result (moved.new.items ≡ moved.old.items + one_if moves) }
    ensures asked { moved.new.asked ≡ moved.old.asked }
    ensures calm { Calm vm.old → Calm vm.new }
    ensures places { OnOk result ((n : _) → Places vm.old.tree vm.new.tree moves seat.now (item_nest n item.value)) }
{
    place_item(vm, moves, &item.body, &item.comment, seat, moved)?;
    Ok(item)
}

// An item that was walked along is settled.
#[inline(never)]
fn settled(
    vm: &Vm,
    moves: bool,
    item: Box<ItemCode>,
    seat: &mut Seat,
) -> Result<Box<ItemCode>, AllocError>
    ensures item { IfOk result (λ r. r ≡ item) }
    ensures settles { OnOk result ((n : _) → Settles vm.now.tree moves seat.old seat.new (item_nest n item.value)) }
{
    settle_item(vm, moves, &item.body, &item.comment, seat)?;
    Ok(item)
}

// An item is lost, where what stands in it could not be updated. It is dropped here, so that the walk takes less stack.
#[inline(never)]
fn lost_item(item: Box<ItemCode>, fault: VmFault) -> VmFault
    ensures { result ≡ fault }
{
    drop(item);
    fault
}

// An old item moves where it is to, is given the value and the index of an entry, and what was rendered in it is walked along. The trail is
// that of the items of the list.
#[cycle(renewing)]
#[inline(never)]
fn kept_item<A: AppendBlock>(
    vm: &mut Vm,
    alloc: Global,
    app: &App,
    cells: &Cells,
    trail: &mut Trail<'_>,
    left: u32,
    old: Box<ItemCode>,
    entry: Box<Entry>,
    moves: bool,
    seat: &mut Seat,
    moved: &mut Moved,
) -> Result<Box<ItemCode>, VmFault>
    requires calm { Calm vm.old }
    ensures ok { IfOk result (λ r. Renews app.now cells.now (KeptItem left (item (plain (view entry.value.key)) entry.value.occurrence ∷ trail_view trail.old) (seen_entry entry.value) (λ n. seen_item_code n old.value)) vm.old (λ n. seen_item_code n r.value) vm.new) }
    ensures fails { IfErr result (RenewFails {A = Item} app.now cells.now (KeptItem left (item (plain (view entry.value.key)) entry.value.occurrence ∷ trail_view trail.old) (seen_entry entry.value) (λ n. seen_item_code n old.value)) vm.old) }
    ensures moved { IfOk result (λ r. KeptMoved moved.old moved.new moves (λ n. seen_item_code n old.value) (λ n. seen_item_code n r.value)) }
    ensures asked { OnOk result (Asks app.now cells.now (AsksKept left (item (plain (view entry.value.key)) entry.value.occurrence ∷ trail_view trail.old) (seen_entry entry.value) (λ n. seen_item_code n old.value)) vm.old moved.old.asked moved.new.asked) }
    ensures key { IfOk result (λ r. (n : _) → spot_key (seen_item_code n r.value) ≡ spot_key (seen_item_code n old.value)) }
    ensures trail { OnOk result (trail.new ≡ trail.old) }
    ensures calm { Calm vm.new }
    ensures nodes { IfOk result (λ r. ItemKept vm.old.tree vm.new.tree moved.old.items moved.new.items moves seat.old seat.new (λ n. item_nest n old.value) (λ n. item_nest n r.value)) }
{
    let old = placed(vm, moves, old, seat, moved)?;
    let mut kept = begin_item(vm, trail, old, entry)?;
    match renew_body::<A>(
        vm,
        alloc,
        app,
        cells,
        trail,
        left,
        &mut kept.body,
        &seat.parent,
        moved,
    ) {
        Ok(()) => {
            trail.pop(alloc);
            Ok(settled(vm, moves, kept, seat)?)
        }
        Err(fault) => Err(lost_item(kept, fault)),
    }
}

// An item, out of the way.
fn boxed(alloc: Global, item: ItemCode) -> Result<Box<ItemCode>, AllocError>
    ensures { IfOk result (λ b. b.value ≡ item) }
{
    Ok(Box::new(alloc, item)?)
}

// The item of an entry, which is a new one.
#[inline(never)]
fn new_item<A: AppendBlock>(
    vm: &mut Vm,
    alloc: Global,
    app: &App,
    cells: &Cells,
    left: u32,
    listing: &Listing,
    base: &Path,
    entry: Box<Entry>,
    seat: &Seat,
) -> Result<Box<ItemCode>, VmFault>
    requires calm { Calm vm.old }
    ensures ok { IfOk result (λ r. Renews app.now cells.now (FreshItem (λ n. seen_listing n listing.now) left (item (plain (view entry.value.key)) entry.value.occurrence ∷ path_view base.now) (seen_entry entry.value)) vm.old (λ n. seen_item_code n r.value) vm.new) }
    ensures fails { IfErr result (RenewFails {A = Item} app.now cells.now (FreshItem (λ n. seen_listing n listing.now) left (item (plain (view entry.value.key)) entry.value.occurrence ∷ path_view base.now) (seen_entry entry.value)) vm.old) }
    ensures key { IfOk result (λ r. (n : _) → spot_key (seen_item_code n r.value) ≡ entry_key (seen_entry entry.value)) }
    ensures calm { Calm vm.new }
    ensures seats { IfOk result (λ r. (n : _) → SeatsBefore vm.old.tree.forest vm.new.tree.forest (stamp_of seat.now.parent) (stamp_of seat.now.next) (item_nest n r.value)) }
    ensures moves { OnOk result (vm.new.tree.moves ≡ vm.old.tree.moves) }
{
    let entry = Box::into_inner(entry);
    let path = item_path(alloc, base, &entry.key, entry.occurrence)?;
    match fresh_item::<A>(vm, alloc, app, cells, left, listing, path, entry, seat) {
        Ok(item) => Ok(boxed(alloc, item)?),
        Err(fault) => Err(fault),
    }
}

// The item of an entry: the old one that was taken for it, or a new one. The trail is that of the items of the list.
#[cycle(renewing)]
#[inline(never)]
fn entry_item<A: AppendBlock>(
    vm: &mut Vm,
    alloc: Global,
    app: &App,
    cells: &Cells,
    trail: &mut Trail<'_>,
    left: u32,
    listing: &Listing,
    base: &Path,
    next: Next,
    seat: &mut Seat,
    moved: &mut Moved,
) -> Result<Box<ItemCode>, VmFault>
    requires calm { Calm vm.old }
    requires base { path_view base.now ≡ trail_view trail.old }
    ensures ok { IfOk result (λ r. Renews app.now cells.now (OneItem (λ n. seen_listing n listing.now) left (item (plain (view next.entry.value.key)) next.entry.value.occurrence ∷ trail_view trail.old) (seen_entry next.entry.value) (unboxed next.old)) vm.old (λ n. seen_item_code n r.value) vm.new) }
    ensures fails { IfErr result (RenewFails {A = Item} app.now cells.now (OneItem (λ n. seen_listing n listing.now) left (item (plain (view next.entry.value.key)) next.entry.value.occurrence ∷ trail_view trail.old) (seen_entry next.entry.value) (unboxed next.old)) vm.old) }
    ensures moved { IfOk result (λ r. ItemMoved moved.old moved.new next.moves (unboxed next.old) r.value) }
    ensures asked { OnOk result (Asks app.now cells.now (AsksOne left (item (plain (view next.entry.value.key)) next.entry.value.occurrence ∷ trail_view trail.old) (seen_entry next.entry.value) (unboxed next.old)) vm.old moved.old.asked moved.new.asked) }
    ensures key { IfOk result (λ r. (n : _) → HasKey n (unboxed next.old) (entry_key (seen_entry next.entry.value)) r.value) }
    ensures trail { OnOk result (trail.new ≡ trail.old) }
    ensures calm { Calm vm.new }
    ensures nodes { IfOk result (λ r. OneKept vm.old.tree vm.new.tree moved.old.items moved.new.items next.moves seat.old seat.new (unboxed next.old) r.value) }
{
    let Next { entry, old, moves } = next;
    match old {
        Some(item) => kept_item::<A>(
            vm, alloc, app, cells, trail, left, item, entry, moves, seat, moved,
        ),
        None => new_item::<A>(vm, alloc, app, cells, left, listing, base, entry, seat),
    }
}

// One more item, at the end.
#[inline(never)]
fn add_item(items: &mut Vec<ItemCode>, item: Box<ItemCode>) -> Result<(), AllocError>
    ensures { OnOk result (items.new.items ≡ items.old.items ++ item.value ∷ []) }
{
    add(items, Box::into_inner(item))
}

// The old items that were not taken are ended.
#[inline(never)]
fn end_left(vm: &mut Vm, alloc: Global, work: &mut Work) -> Result<(), AllocError>
    requires calm { Calm vm.old }
    ensures step { OnOk result (Does (λ n. dropped_as by_number (λ q. times_items q (items_of (all_items (map (seen_item_code n) (there work.old.olds.items)))))) vm.old vm.new) }
    ensures calm { Calm vm.new }
    ensures unseats { OnOk result ((n : _) → UnseatsEach vm.old.tree.forest vm.new.tree.forest (map (item_nest n) (there work.old.olds.items))) }
    ensures moves { OnOk result (vm.new.tree.moves ≡ vm.old.tree.moves) }
{
    let untaken = mem::replace(&mut work.olds, Vec::new(alloc));
    let olds = Work::left(alloc, untaken)?;
    end_items(vm, olds.as_slice())
}

// One more old item stays, where there is one for the entry.
#[inline(never)]
fn count_stayed(stayed: &mut usize, next: &Next) -> Result<(), AllocError>
    ensures { OnOk result (stayed.new ≡ stayed.old + one_if (is_some (unboxed next.now.old))) }
{
    if next.old.is_none() {
        return Ok(());
    }
    match stayed.checked_add(1) {
        Some(more) => {
            *stayed = more;
            Ok(())
        }
        None => Err(AllocError),
    }
}

// The entries that wait, one after another, and then the end of the old items that are left. The trail is that of the items
// of the list.
#[cycle(renewing)]
#[inline(never)]
fn sync_items<A: AppendBlock>(
    vm: &mut Vm,
    alloc: Global,
    app: &App,
    cells: &Cells,
    trail: &mut Trail<'_>,
    left: u32,
    begun: &mut Begun,
    moved: &mut Moved,
) -> Result<Vec<ItemCode>, VmFault>
    requires calm { Calm vm.old }
    requires base { path_view begun.old.base ≡ trail_view trail.old }
    requires ready { IsReady begun.old.work }
    requires rising { Rising 0 (reverse (seen_steps begun.old.work.steps.items)) }
    ensures ok { IfOk result (λ r. Renews app.now cells.now (SyncItems (λ n. seen_listing n begun.old.listing) left (trail_view trail.old) (seen_left begun.old.work.waiting.items) (λ n. map (seen_item_code n) (there begun.old.work.olds.items))) vm.old (λ n. all_items (map (seen_item_code n) r.items)) vm.new) }
    ensures fails { IfErr result (RenewFails {A = ItemCodes} app.now cells.now (SyncItems (λ n. seen_listing n begun.old.listing) left (trail_view trail.old) (seen_left begun.old.work.waiting.items) (λ n. map (seen_item_code n) (there begun.old.work.olds.items))) vm.old) }
    ensures moved { IfOk result (λ r. ItemsMoved moved.old moved.new (count_moves (reverse (seen_steps begun.old.work.steps.items))) (there begun.old.work.olds.items) r.items) }
    ensures asked { OnOk result (Asks app.now cells.now (AsksStaying (λ n. seen_listing n begun.old.listing) left (trail_view trail.old) (seen_left begun.old.work.waiting.items) (λ n. map (seen_item_code n) (there begun.old.work.olds.items))) vm.old moved.old.asked moved.new.asked) }
    ensures stayed { OnOk result ((n : _) (run : _) → begun.new.stayed ≡ begun.old.stayed + stay_count (seen_left begun.old.work.waiting.items) (old_items run left (map (seen_item_code n) (there begun.old.work.olds.items)))) }
    ensures keys { IfOk result (λ r. (n : _) → map spot_key (map (seen_item_code n) r.items) ≡ entry_keys (seen_left begun.old.work.waiting.items)) }
    ensures listing { OnOk result (begun.new.listing ≡ begun.old.listing) }
    ensures spot { OnOk result (begun.new.spot ≡ begun.old.spot) }
    ensures trail { OnOk result (trail.new ≡ trail.old) }
    ensures calm { Calm vm.new }
    ensures nodes { IfOk result (λ r. NodesSynced vm.old.tree vm.new.tree moved.old.items moved.new.items begun.old.seat (there begun.old.work.olds.items) r.items) }
{
    let mut done = Vec::new(alloc);
    while let Some(next) = begun.work.next(alloc)? {
        count_stayed(&mut begun.stayed, &next)?;
        match entry_item::<A>(
            vm,
            alloc,
            app,
            cells,
            trail,
            left,
            &begun.listing,
            &begun.base,
            next,
            &mut begun.seat,
            moved,
        ) {
            Ok(item) => add_item(&mut done, item)?,
            Err(fault) => return Err(fault),
        }
    }
    end_left(vm, alloc, &mut begun.work)?;
    Ok(done)
}

/// The items of a list become those that it has now.
#[cycle(renewing)]
#[inline(never)]
pub(crate) fn sync_list<A: AppendBlock>(
    vm: &mut Vm,
    alloc: Global,
    app: &App,
    cells: &Cells,
    trail: &mut Trail<'_>,
    left: u32,
    list: Box<Listed>,
    ready: Box<Ready>,
    parent: &Option<NodeId>,
    moved: &mut Moved,
) -> Result<Box<Code>, VmFault>
    requires calm { Calm vm.old }
    requires keys { ready.value.keys ≡ entry_keys (seen_left ready.value.entries.items) }
    ensures ok { IfOk result (λ r. Renews app.now cells.now (Syncs (λ n. seen_listing n list.value.listing) (seen_spot list.value.spot) left (trail_view trail.old) (seen_left ready.value.entries.items) (λ n. map (seen_item_code n) list.value.items.items)) vm.old (λ n. seen_code n r.value) vm.new) }
    ensures fails { IfErr result (RenewFails {A = PlainCode} app.now cells.now (Syncs (λ n. seen_listing n list.value.listing) (seen_spot list.value.spot) left (trail_view trail.old) (seen_left ready.value.entries.items) (λ n. map (seen_item_code n) list.value.items.items)) vm.old) }
    ensures moved { IfOk result (λ r. CodeMoved moved.old moved.new (λ n. c.listed_code (seen_listing n list.value.listing) (seen_spot list.value.spot) (all_items (map (seen_item_code n) list.value.items.items))) (λ n. seen_code n r.value)) }
    ensures asked { OnOk result (Asks app.now cells.now (AsksSync (λ n. seen_listing n list.value.listing) left (items ∷ trail_view trail.old) (seen_left ready.value.entries.items) (λ n. map (seen_item_code n) list.value.items.items)) vm.old moved.old.asked moved.new.asked) }
    ensures trail { OnOk result (trail.new ≡ trail.old) }
    ensures calm { Calm vm.new }
    ensures nodes { IfOk result (λ r. NodesRenewed vm.old.tree vm.new.tree moved.old.items moved.new.items (stamp_of parent.now) (λ n. items_nest n list.value.items.items) (λ n. code_nest n r.value)) }
{
    let mut begun = begin_sync(alloc, trail, list, ready, parent, moved)?;
    let mark = moved.mark(vm);
    match sync_items::<A>(vm, alloc, app, cells, trail, left, &mut begun, moved) {
        Ok(items) => {
            trail.pop(alloc);
            moved.settle(&mark, begun.stayed);
            Ok(end_sync(alloc, begun, items)?)
        }
        Err(fault) => Err(lost_sync(begun, fault)),
    }
}
