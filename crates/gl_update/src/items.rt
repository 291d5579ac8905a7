// Items that are appended.
ghost use Rattle.std.specs.Prelude.{◌≡◌, ◌++◌, ◌∷◌, [], map, IfOk, OnOk, IfErr};
ghost use Rattle.gl_value.specs.Value.{plain};
ghost use Rattle.gl_value.specs.View.{view};
ghost use Rattle.gl_meaning.specs.Path.{item};
ghost use Rattle.gl_meaning.specs.View.{path_view};
ghost use Rattle.gl_each.specs.Key.{entry_key};
ghost use Rattle.gl_machine.specs.Code.{ItemCodes};
ghost use Rattle.gl_machine.specs.RenewCode.{start};
ghost use Rattle.gl_vm.specs.View.{Calm};
ghost use Rattle.gl_code.specs.View.{seen_sight};
ghost use Rattle.gl_code.specs.CodeView.{seen_listing, seen_item_spot, seen_item_code, all_items};
ghost use Rattle.gl_code.specs.Entries.{seen_entry, seen_left};
ghost use Rattle.gl_update.specs.ListItems.{Item, spot_key, BodyItem, FreshItem, FreshItems};
ghost use Rattle.gl_code.specs.Renewing.{Renews, RenewFails};
ghost use Rattle.gl_seats.specs.Parts.{item_nest, items_nest};
ghost use Rattle.gl_seats.specs.Seats.{SeatsBefore};
ghost use Rattle.gl_nodes.specs.Flat.{stamp_of};

use crate::standing::seat_with_comment;
use gl_code::{
    AppendBlock, Cells, Entry, ItemCode, ItemSpot, Listing, Sight, VmFault, below, counted,
    item_params, item_sight,
};
use gl_meaning::{Path, PathStep};
use gl_opc::App;
use gl_seats::Seat;
use gl_value::Value;
use gl_vm::Vm;
use std::alloc::{AllocError, Global};

/// The path of an item, below that of the items of its list.
#[inline(never)]
pub(crate) fn item_path(
    alloc: Global,
    base: &Path,
    key: &Value,
    occurrence: u64,
) -> Result<Path, AllocError>
    ensures { IfOk result (λ q. path_view q ≡ item (plain (view key.now)) occurrence ∷ path_view base.now) }
{
    let key = key.copy()?;
    below(alloc, base, PathStep::Item { key, occurrence })
}

/// One more item, at the end.
#[inline(never)]
pub(crate) fn add(items: &mut Vec<ItemCode>, item: ItemCode) -> Result<(), AllocError>
    ensures { OnOk result (items.new.items ≡ items.old.items ++ item ∷ []) }
{
    items.push(item)?;
    Ok(())
}

// The body of an item is appended, which has its references: what is seen there, and the address of its first word.
#[inline(never)]
fn item_body<A: AppendBlock>(
    vm: &mut Vm,
    alloc: Global,
    app: &App,
    cells: &Cells,
    sight: Sight,
    pc: u32,
    path: Path,
    left: u32,
    spot: ItemSpot,
    seat: &Seat,
) -> Result<ItemCode, VmFault>
    requires calm { Calm vm.old }
    ensures ok { IfOk result (λ r. Renews app.now cells.now (BodyItem (λ n. start (seen_sight n sight) pc (path_view path) left) (seen_item_spot spot)) vm.old (λ n. seen_item_code n r) vm.new) }
    ensures fails { IfErr result (RenewFails {A = Item} app.now cells.now (BodyItem (λ n. start (seen_sight n sight) pc (path_view path) left) (seen_item_spot spot)) vm.old) }
    ensures key { IfOk result (λ r. (n : _) → (seen_item_code n r).0 ≡ seen_item_spot spot) }
    ensures calm { Calm vm.new }
    ensures seats { IfOk result (λ r. (n : _) → SeatsBefore vm.old.tree.forest vm.new.tree.forest (stamp_of seat.now.parent) (stamp_of seat.now.next) (item_nest n r)) }
    ensures moves { OnOk result (vm.new.tree.moves ≡ vm.old.tree.moves) }
{
    match A::append_block(vm, alloc, app, cells, sight, pc, path, left) {
        Ok(body) => {
            let comment = seat_with_comment(vm, seat, &body)?;
            Ok(ItemCode::rendered(spot, comment, body))
        }
        Err(fault) => Err(fault),
    }
}

/// Appends an item of a list at its path, and puts its nodes into the tree.
#[inline(never)]
pub(crate) fn fresh_item<A: AppendBlock>(
    vm: &mut Vm,
    alloc: Global,
    app: &App,
    cells: &Cells,
    left: u32,
    listing: &Listing,
    path: Path,
    entry: Entry,
    seat: &Seat,
) -> Result<ItemCode, VmFault>
    requires calm { Calm vm.old }
    ensures ok { IfOk result (λ r. Renews app.now cells.now (FreshItem (λ n. seen_listing n listing.now) left (path_view path) (seen_entry entry)) vm.old (λ n. seen_item_code n r) vm.new) }
    ensures fails { IfErr result (RenewFails {A = Item} app.now cells.now (FreshItem (λ n. seen_listing n listing.now) left (path_view path) (seen_entry entry)) vm.old) }
    ensures key { IfOk result (λ r. (n : _) → spot_key (seen_item_code n r) ≡ entry_key (seen_entry entry)) }
    ensures calm { Calm vm.new }
    ensures seats { IfOk result (λ r. (n : _) → SeatsBefore vm.old.tree.forest vm.new.tree.forest (stamp_of seat.now.parent) (stamp_of seat.now.next) (item_nest n r)) }
    ensures moves { OnOk result (vm.new.tree.moves ≡ vm.old.tree.moves) }
{
    let value = vm.item(entry.value)?;
    let index = vm.item(counted(entry.index))?;
    let sight = item_sight(listing, value, index)?;
    let params = item_params(alloc, listing, value, index)?;
    let spot = ItemSpot {
        key: entry.key,
        occurrence: entry.occurrence,
        value,
        index,
        params,
    };
    item_body::<A>(
        vm,
        alloc,
        app,
        cells,
        sight,
        listing.body,
        path,
        left,
        spot,
        seat,
    )
}

/// Appends all items of a list, of which the first one is the last, below the path of its items, and puts their nodes into
/// the tree.
#[inline(never)]
pub(crate) fn fresh_items<A: AppendBlock>(
    vm: &mut Vm,
    alloc: Global,
    app: &App,
    cells: &Cells,
    left: u32,
    listing: &Listing,
    base: &Path,
    entries: Vec<Entry>,
    seat: &Seat,
) -> Result<Vec<ItemCode>, VmFault>
    requires calm { Calm vm.old }
    ensures ok { IfOk result (λ r. Renews app.now cells.now (FreshItems (λ n. seen_listing n listing.now) left (path_view base.now) (seen_left entries.items)) vm.old (λ n. all_items (map (seen_item_code n) r.items)) vm.new) }
    ensures fails { IfErr result (RenewFails {A = ItemCodes} app.now cells.now (FreshItems (λ n. seen_listing n listing.now) left (path_view base.now) (seen_left entries.items)) vm.old) }
    ensures calm { Calm vm.new }
    ensures seats { IfOk result (λ r. (n : _) → SeatsBefore vm.old.tree.forest vm.new.tree.forest (stamp_of seat.now.parent) (stamp_of seat.now.next) (items_nest n r.items)) }
    ensures moves { OnOk result (vm.new.tree.moves ≡ vm.old.tree.moves) }
{
    let mut waiting = entries;
    let mut done = Vec::new(alloc);
    while let Some(entry) = waiting.pop() {
        let path = item_path(alloc, base, &entry.key, entry.occurrence)?;
        match fresh_item::<A>(vm, alloc, app, cells, left, listing, path, entry, seat) {
            Ok(item) => add(&mut done, item)?,
            Err(fault) => return Err(fault),
        }
    }
    Ok(done)
}
