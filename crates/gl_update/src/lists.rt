// `each`: items are kept by their keys, appended, and ended.
ghost use Rattle.std.specs.Prelude.{◌≡◌, ◌≢◌, ◌+◌, [], map, IfOk, OnOk, IfErr};
ghost use Rattle.gl_nodes.specs.Flat.{stamp_of};
ghost use Rattle.gl_plain.specs.Live.{times_in, times_comment, times_items};
ghost use Rattle.gl_plain.specs.Naming.{by_number};
ghost use Rattle.gl_machine.specs.Code as c;
ghost use Rattle.gl_machine.specs.Code.{Code as PlainCode, live_of, lives_of, items_of as lives_in};
ghost use Rattle.gl_guards.specs.Along.{along_code_as};
ghost use Rattle.gl_vm.specs.View.{Calm};
ghost use Rattle.gl_code.specs.CodeView.{seen_code, seen_codes, seen_listing, seen_spot, seen_item_code, all_items};
ghost use Rattle.gl_code.specs.Entries.{seen_left};
ghost use Rattle.gl_update.specs.Counted.{CodeMoved, IsListed, IsUnlisted};
ghost use Rattle.gl_update.specs.Questions.{Asks, AsksCode, AsksListed, AsksRelist, AsksUnlisted};
ghost use Rattle.gl_update.specs.View.{trail_view};
ghost use Rattle.gl_update.specs.ListItems.{ListsFresh, ListsNone, Relists};
ghost use Rattle.gl_code.specs.Renewing.{Renews, RenewFails};
ghost use Rattle.gl_seats.specs.Parts.{code_nest, body_nest, items_nest};
ghost use Rattle.gl_seats.specs.Seats.{NodesRenewed, Replaces};

use crate::along::walk_list;
use crate::codes::renew_else;
use crate::counting::Moved;
use crate::ending::end_branch;
use crate::ending_items::end_items;
use crate::items::fresh_items;
use crate::reading::{Read, read_listed};
use crate::standing::seat_with_comment;
use crate::staying::stay_list;
use crate::syncing::sync_list;
use crate::taken::{
    Listed, Ready, Taken, Unlisted, ask_list, boxed_code, first_of, lost_list, put_list,
    read_unlisted, take_list, without_items,
};
use crate::trail::Trail;
use gl_code::{AppendBlock, Cells, Code, Codes, Entry, ItemCode, Listing, Spot, VmFault};
use gl_meaning::PathStep;
use gl_nodes::NodeId;
use gl_opc::App;
use gl_seats::{behind, behind_items};
use gl_vm::Vm;
use std::alloc::Global;

/// An `each`, with or without items. Anything else is told as want of memory.
#[cycle(renewing)]
#[inline(never)]
pub(crate) fn renew_list<A: AppendBlock>(
    vm: &mut Vm,
    alloc: Global,
    app: &App,
    cells: &Cells,
    trail: &mut Trail<'_>,
    left: u32,
    code: &mut Code,
    parent: &Option<NodeId>,
    moved: &mut Moved,
) -> Result<(), VmFault>
    requires calm { Calm vm.old }
    ensures ok { OnOk result (Renews app.now cells.now (λ n run. along_code_as by_number run left (trail_view trail.old) (seen_code n code.old)) vm.old (λ n. seen_code n code.new) vm.new) }
    ensures fails { IfErr result (RenewFails {A = PlainCode} app.now cells.now (λ n run. along_code_as by_number run left (trail_view trail.old) (seen_code n code.old)) vm.old) }
    ensures moved { OnOk result (CodeMoved moved.old moved.new (λ n. seen_code n code.old) (λ n. seen_code n code.new)) }
    ensures asked { OnOk result (Asks app.now cells.now (AsksCode left (trail_view trail.old) (λ n. seen_code n code.old)) vm.old moved.old.asked moved.new.asked) }
    ensures trail { OnOk result (trail.new ≡ trail.old) }
    ensures calm { Calm vm.new }
    ensures nodes { OnOk result (NodesRenewed vm.old.tree vm.new.tree moved.old.items moved.new.items (stamp_of parent.now) (λ n. code_nest n code.old) (λ n. code_nest n code.new)) }
{
    moved.ask(1)?;
    match take_list(alloc, code)? {
        Taken::Items(list) => match renew_listed::<A>(
            vm, alloc, app, cells, trail, left, list, parent, moved,
        ) {
            Ok(new) => {
                put_list(code, new);
                Ok(())
            }
            Err(fault) => Err(fault),
        },
        Taken::Other(list) => match renew_unlisted::<A>(
            vm, alloc, app, cells, trail, left, list, parent, moved,
        ) {
            Ok(new) => {
                put_list(code, new);
                Ok(())
            }
            Err(fault) => Err(fault),
        },
        Taken::Nothing => Err(VmFault::Memory),
    }
}

// An `each` with items: it is read again where its position is stale, and else its items are walked along. It stands in the frame of
// its caller, so that a level of lists takes no more stack.
#[cycle(renewing)]
#[inline(always)]
fn renew_listed<A: AppendBlock>(
    vm: &mut Vm,
    alloc: Global,
    app: &App,
    cells: &Cells,
    trail: &mut Trail<'_>,
    left: u32,
    list: Box<Listed>,
    parent: &Option<NodeId>,
    moved: &mut Moved,
) -> Result<Box<Code>, VmFault>
    requires calm { Calm vm.old }
    ensures ok { IfOk result (λ r. Renews app.now cells.now (λ n run. along_code_as by_number run left (trail_view trail.old) (c.listed_code (seen_listing n list.value.listing) (seen_spot list.value.spot) (all_items (map (seen_item_code n) list.value.items.items)))) vm.old (λ n. seen_code n r.value) vm.new) }
    ensures fails { IfErr result (RenewFails {A = PlainCode} app.now cells.now (λ n run. along_code_as by_number run left (trail_view trail.old) (c.listed_code (seen_listing n list.value.listing) (seen_spot list.value.spot) (all_items (map (seen_item_code n) list.value.items.items)))) vm.old) }
    ensures moved { IfOk result (λ r. CodeMoved moved.old moved.new (λ n. c.listed_code (seen_listing n list.value.listing) (seen_spot list.value.spot) (all_items (map (seen_item_code n) list.value.items.items))) (λ n. seen_code n r.value)) }
    ensures asked { OnOk result (Asks app.now cells.now (AsksListed (λ n. seen_listing n list.value.listing) (seen_spot list.value.spot) left (trail_view trail.old) (λ n. map (seen_item_code n) list.value.items.items)) vm.old moved.old.asked moved.new.asked) }
    ensures trail { OnOk result (trail.new ≡ trail.old) }
    ensures calm { Calm vm.new }
    ensures nodes { IfOk result (λ r. NodesRenewed vm.old.tree vm.new.tree moved.old.items moved.new.items (stamp_of parent.now) (λ n. items_nest n list.value.items.items) (λ n. code_nest n r.value)) }
{
    let asked = ask_list(vm, list)?;
    let stale = asked.1;
    if stale {
        relist::<A>(vm, alloc, app, cells, trail, left, asked.0, parent, moved)
    } else {
        walk_list::<A>(vm, alloc, app, cells, trail, left, asked.0, parent, moved)
    }
}

// An `each` with items is read again. Where it has none any more, they are ended and the other body is appended. It stands in the
// frame of its caller too.
#[cycle(renewing)]
#[inline(always)]
fn relist<A: AppendBlock>(
    vm: &mut Vm,
    alloc: Global,
    app: &App,
    cells: &Cells,
    trail: &mut Trail<'_>,
    left: u32,
    list: Box<Listed>,
    parent: &Option<NodeId>,
    moved: &mut Moved,
) -> Result<Box<Code>, VmFault>
    requires calm { Calm vm.old }
    ensures ok { IfOk result (λ r. Renews app.now cells.now (Relists (λ n. seen_listing n list.value.listing) (seen_spot list.value.spot) left (trail_view trail.old) (λ n. map (seen_item_code n) list.value.items.items)) vm.old (λ n. seen_code n r.value) vm.new) }
    ensures fails { IfErr result (RenewFails {A = PlainCode} app.now cells.now (Relists (λ n. seen_listing n list.value.listing) (seen_spot list.value.spot) left (trail_view trail.old) (λ n. map (seen_item_code n) list.value.items.items)) vm.old) }
    ensures moved { IfOk result (λ r. CodeMoved moved.old moved.new (λ n. c.listed_code (seen_listing n list.value.listing) (seen_spot list.value.spot) (all_items (map (seen_item_code n) list.value.items.items))) (λ n. seen_code n r.value)) }
    ensures asked { OnOk result (Asks app.now cells.now (AsksRelist (λ n. seen_listing n list.value.listing) (seen_spot list.value.spot) left (trail_view trail.old) (λ n. map (seen_item_code n) list.value.items.items)) vm.old moved.old.asked moved.new.asked) }
    ensures trail { OnOk result (trail.new ≡ trail.old) }
    ensures calm { Calm vm.new }
    ensures nodes { IfOk result (λ r. NodesRenewed vm.old.tree vm.new.tree moved.old.items moved.new.items (stamp_of parent.now) (λ n. items_nest n list.value.items.items) (λ n. code_nest n r.value)) }
{
    let read = read_listed(vm, alloc, list)?;
    match read {
        Read::Same(list, values) => stay_list::<A>(
            vm, alloc, app, cells, trail, left, list, values, parent, moved,
        ),
        Read::Other(list, ready) => {
            if ready.entries.is_empty() {
                end_list::<A>(vm, alloc, app, cells, trail, left, list, ready, parent)
            } else {
                sync_list::<A>(
                    vm, alloc, app, cells, trail, left, list, ready, parent, moved,
                )
            }
        }
    }
}

// The items are ended, and the other body is appended in their place.
#[inline(never)]
fn end_list<A: AppendBlock>(
    vm: &mut Vm,
    alloc: Global,
    app: &App,
    cells: &Cells,
    trail: &Trail<'_>,
    left: u32,
    list: Box<Listed>,
    ready: Box<Ready>,
    parent: &Option<NodeId>,
) -> Result<Box<Code>, VmFault>
    requires calm { Calm vm.old }
    ensures ok { IfOk result (λ r. Renews app.now cells.now (ListsNone (λ n. seen_listing n list.value.listing) (seen_spot list.value.spot) left (trail_view trail.now) (λ n q. times_items q (lives_in (all_items (map (seen_item_code n) list.value.items.items))))) vm.old (λ n. seen_code n r.value) vm.new) }
    ensures fails { IfErr result (RenewFails {A = PlainCode} app.now cells.now (ListsNone (λ n. seen_listing n list.value.listing) (seen_spot list.value.spot) left (trail_view trail.now) (λ n q. times_items q (lives_in (all_items (map (seen_item_code n) list.value.items.items))))) vm.old) }
    ensures none { IfOk result (λ r. (n : _) → IsUnlisted (live_of (seen_code n r.value))) }
    ensures calm { Calm vm.new }
    ensures nodes { IfOk result (λ r. (n : _) → Replaces vm.old.tree.forest vm.new.tree.forest (stamp_of parent.now) (items_nest n list.value.items.items) (code_nest n r.value)) }
    ensures moves { OnOk result (vm.new.tree.moves ≡ vm.old.tree.moves) }
{
    drop(ready);
    let list = Box::into_inner(list);
    match unlist::<A>(
        vm,
        alloc,
        app,
        cells,
        trail,
        left,
        list.listing,
        list.spot,
        &list.items,
        parent,
    ) {
        Ok(code) => Ok(boxed_code(alloc, code)?),
        Err(fault) => Err(fault),
    }
}

// The items are ended, and the other body is appended in their place.
#[inline(never)]
fn unlist<A: AppendBlock>(
    vm: &mut Vm,
    alloc: Global,
    app: &App,
    cells: &Cells,
    trail: &Trail<'_>,
    left: u32,
    listing: Listing,
    spot: Spot,
    items: &Vec<ItemCode>,
    parent: &Option<NodeId>,
) -> Result<Code, VmFault>
    requires calm { Calm vm.old }
    ensures ok { IfOk result (λ r. Renews app.now cells.now (ListsNone (λ n. seen_listing n listing) (seen_spot spot) left (trail_view trail.now) (λ n q. times_items q (lives_in (all_items (map (seen_item_code n) items.now.items))))) vm.old (λ n. seen_code n r) vm.new) }
    ensures fails { IfErr result (RenewFails {A = PlainCode} app.now cells.now (ListsNone (λ n. seen_listing n listing) (seen_spot spot) left (trail_view trail.now) (λ n q. times_items q (lives_in (all_items (map (seen_item_code n) items.now.items))))) vm.old) }
    ensures none { IfOk result (λ r. (n : _) → IsUnlisted (live_of (seen_code n r))) }
    ensures calm { Calm vm.new }
    ensures nodes { IfOk result (λ r. (n : _) → Replaces vm.old.tree.forest vm.new.tree.forest (stamp_of parent.now) (items_nest n items.now.items) (code_nest n r)) }
    ensures moves { OnOk result (vm.new.tree.moves ≡ vm.old.tree.moves) }
{
    let sight = listing.sight.as_ref().copy()?;
    let path = trail.below(alloc, PathStep::Else)?;
    let seat = behind_items(&vm.tree, parent, items.as_slice())?;
    end_items(vm, items.as_slice())?;
    match A::append_block(vm, alloc, app, cells, sight, listing.other, path, left) {
        Ok(codes) => {
            let comment = seat_with_comment(vm, &seat, &codes)?;
            Ok(Code::unlisted(listing, spot, comment, codes))
        }
        Err(fault) => Err(fault),
    }
}

// An `each` without items. Where it has some now, what stood there is ended and all items are appended.
#[cycle(renewing)]
#[inline(never)]
fn renew_unlisted<A: AppendBlock>(
    vm: &mut Vm,
    alloc: Global,
    app: &App,
    cells: &Cells,
    trail: &mut Trail<'_>,
    left: u32,
    list: Box<Unlisted>,
    parent: &Option<NodeId>,
    moved: &mut Moved,
) -> Result<Box<Code>, VmFault>
    requires calm { Calm vm.old }
    ensures ok { IfOk result (λ r. Renews app.now cells.now (λ n run. along_code_as by_number run left (trail_view trail.old) (c.unlisted_code (seen_listing n list.value.listing) (seen_spot list.value.spot) (stamp_of list.value.comment) (seen_codes n list.value.body))) vm.old (λ n. seen_code n r.value) vm.new) }
    ensures fails { IfErr result (RenewFails {A = PlainCode} app.now cells.now (λ n run. along_code_as by_number run left (trail_view trail.old) (c.unlisted_code (seen_listing n list.value.listing) (seen_spot list.value.spot) (stamp_of list.value.comment) (seen_codes n list.value.body))) vm.old) }
    ensures moved { IfOk result (λ r. CodeMoved moved.old moved.new (λ n. c.unlisted_code (seen_listing n list.value.listing) (seen_spot list.value.spot) (stamp_of list.value.comment) (seen_codes n list.value.body)) (λ n. seen_code n r.value)) }
    ensures asked { OnOk result (Asks app.now cells.now (AsksUnlisted (seen_spot list.value.spot) left (trail_view trail.old) (λ n. seen_codes n list.value.body)) vm.old moved.old.asked moved.new.asked) }
    ensures trail { OnOk result (trail.new ≡ trail.old) }
    ensures calm { Calm vm.new }
    ensures nodes { IfOk result (λ r. NodesRenewed vm.old.tree vm.new.tree moved.old.items moved.new.items (stamp_of parent.now) (λ n. body_nest n list.value.body list.value.comment) (λ n. code_nest n r.value)) }
{
    let read = read_unlisted(vm, alloc, list)?;
    if read.1.entries.is_empty() {
        let mut list = first_of(read.0, read.1);
        match renew_else::<A>(
            vm,
            alloc,
            app,
            cells,
            trail,
            left,
            &mut list.body,
            parent,
            moved,
        ) {
            Ok(()) => Ok(without_items(alloc, list)?),
            Err(fault) => Err(lost_list(list, fault)),
        }
    } else {
        begin_list::<A>(vm, alloc, app, cells, trail, left, read.0, read.1, parent)
    }
}

// What stood there is ended, and these items are appended in its place.
#[inline(never)]
fn begin_list<A: AppendBlock>(
    vm: &mut Vm,
    alloc: Global,
    app: &App,
    cells: &Cells,
    trail: &Trail<'_>,
    left: u32,
    list: Box<Unlisted>,
    ready: Box<Ready>,
    parent: &Option<NodeId>,
) -> Result<Box<Code>, VmFault>
    requires calm { Calm vm.old }
    ensures ok { IfOk result (λ r. Renews app.now cells.now (ListsFresh (λ n. seen_listing n list.value.listing) (seen_spot list.value.spot) left (trail_view trail.now) (seen_left ready.value.entries.items) (λ n q. times_in q (lives_of (seen_codes n list.value.body)) + times_comment q (stamp_of list.value.comment))) vm.old (λ n. seen_code n r.value) vm.new) }
    ensures fails { IfErr result (RenewFails {A = PlainCode} app.now cells.now (ListsFresh (λ n. seen_listing n list.value.listing) (seen_spot list.value.spot) left (trail_view trail.now) (seen_left ready.value.entries.items) (λ n q. times_in q (lives_of (seen_codes n list.value.body)) + times_comment q (stamp_of list.value.comment))) vm.old) }
    ensures some { IfOk result (λ r. (n : _) → IsListed (live_of (seen_code n r.value))) }
    ensures calm { Calm vm.new }
    ensures nodes { IfOk result (λ r. (n : _) → Replaces vm.old.tree.forest vm.new.tree.forest (stamp_of parent.now) (body_nest n list.value.body list.value.comment) (code_nest n r.value)) }
    ensures moves { OnOk result (vm.new.tree.moves ≡ vm.old.tree.moves) }
{
    let list = Box::into_inner(list);
    let ready = Box::into_inner(ready);
    match list_items::<A>(
        vm,
        alloc,
        app,
        cells,
        trail,
        left,
        list.listing,
        list.spot,
        &list.comment,
        &list.body,
        ready.entries,
        parent,
    ) {
        Ok(code) => Ok(boxed_code(alloc, code)?),
        Err(fault) => Err(fault),
    }
}

// What stood there is ended, and these items are appended in its place.
#[inline(never)]
fn list_items<A: AppendBlock>(
    vm: &mut Vm,
    alloc: Global,
    app: &App,
    cells: &Cells,
    trail: &Trail<'_>,
    left: u32,
    listing: Listing,
    spot: Spot,
    comment: &Option<NodeId>,
    body: &Codes,
    entries: Vec<Entry>,
    parent: &Option<NodeId>,
) -> Result<Code, VmFault>
    requires calm { Calm vm.old }
    ensures ok { IfOk result (λ r. Renews app.now cells.now (ListsFresh (λ n. seen_listing n listing) (seen_spot spot) left (trail_view trail.now) (seen_left entries.items) (λ n q. times_in q (lives_of (seen_codes n body.now)) + times_comment q (stamp_of comment.now))) vm.old (λ n. seen_code n r) vm.new) }
    ensures fails { IfErr result (RenewFails {A = PlainCode} app.now cells.now (ListsFresh (λ n. seen_listing n listing) (seen_spot spot) left (trail_view trail.now) (seen_left entries.items) (λ n q. times_in q (lives_of (seen_codes n body.now)) + times_comment q (stamp_of comment.now))) vm.old) }
    ensures some { IfOk result (λ r. (n : _) → IsListed (live_of (seen_code n r))) }
    ensures calm { Calm vm.new }
    ensures nodes { IfOk result (λ r. (n : _) → Replaces vm.old.tree.forest vm.new.tree.forest (stamp_of parent.now) (body_nest n body.now comment.now) (code_nest n r)) }
    ensures moves { OnOk result (vm.new.tree.moves ≡ vm.old.tree.moves) }
{
    let base = trail.below(alloc, PathStep::Items)?;
    let seat = behind(&vm.tree, parent, body, comment)?;
    end_branch(vm, body, comment)?;
    match fresh_items::<A>(vm, alloc, app, cells, left, &listing, &base, entries, &seat) {
        Ok(items) => Ok(Code::listed(listing, spot, items)),
        Err(fault) => Err(fault),
    }
}
