// Lists that are taken out of the updating program, each in a box: so the walk of what is in them takes little stack.
ghost use Rattle.std.specs.Prelude.{◌≡◌, ◌∷◌, ◌++◌, ◌+◌, ◌<◌, ◌^◌, [], length, map, reverse, IfOk, OnOk};
ghost use Rattle.gl_value.specs.View.{view};
ghost use Rattle.gl_meaning.specs.Render.{entries, values_listed};
ghost use Rattle.gl_each.specs.Key.{entry_keys};
ghost use Rattle.gl_each.specs.Moved.{moves as count_moves};
ghost use Rattle.gl_each.specs.View.{seen_steps};
ghost use Rattle.gl_kept.specs.Between.{moves_between};
ghost use Rattle.gl_nodes.specs.Flat.{stamp_of};
ghost use Rattle.gl_plain.specs.Binding.{first_value};
ghost use Rattle.gl_plain.specs.Renew.{spot_pairs};
ghost use Rattle.gl_plain.specs.Renew as r;
ghost use Rattle.gl_plain.specs.Counts.{positions_items};
ghost use Rattle.gl_machine.specs.Code as c;
ghost use Rattle.gl_machine.specs.Code.{items_of};
ghost use Rattle.gl_guards.specs.Along.{enters_few};
ghost use Rattle.gl_vm.specs.Labels.{labelled};
ghost use Rattle.gl_vm.specs.View.{Agrees, Calm, state_of};
ghost use Rattle.gl_vm.specs.Steps.{Does};
ghost use Rattle.gl_code.specs.CodeView.{seen_code, seen_codes, seen_listing, seen_spot, seen_item_code, all_items};
ghost use Rattle.gl_code.specs.Entries.{seen_left};
ghost use Rattle.gl_update.specs.ListItems.{there};
ghost use Rattle.gl_update.specs.OldItems.{code_key, IsReady, Rising};
ghost use Rattle.gl_update.specs.TakenLists.{TakenOut};
ghost use Rattle.gl_seats.specs.Parts.{items_nest};
ghost use Rattle.gl_seats.specs.Seats.{IsBefore};
ghost use Rattle.gl_meaning.specs.Path as p;
ghost use Rattle.gl_meaning.specs.View.{path_view};
ghost use Rattle.gl_update.specs.View.{trail_view};

use crate::counting::Moved;
use crate::old_items::Work;
use crate::positions::{reread, shown};
use crate::trail::Trail;
use gl_asks::{enters_items, is_stale};
use gl_code::{Code, Codes, Entry, ItemCode, Listing, Spot, VmFault, keyed_items_of};
use gl_each::Keys;
use gl_meaning::Path;
use gl_nodes::NodeId;
use gl_refs::{Ids, RefId};
use gl_seats::{Seat, before_items};
use gl_value::{Text, Value};
use gl_vm::Vm;
use std::alloc::{AllocError, Global};
use std::mem;

/// An `each` with items.
#[derive(Drop)]
pub(crate) struct Listed {
    pub(crate) listing: Listing,
    pub(crate) spot: Spot,
    pub(crate) items: Vec<ItemCode>,
}

/// An `each` without.
#[derive(Drop)]
pub(crate) struct Unlisted {
    pub(crate) listing: Listing,
    pub(crate) spot: Spot,
    pub(crate) comment: Option<NodeId>,
    pub(crate) body: Codes,
}

/// An `each`, or anything else.
#[derive(Drop)]
pub(crate) enum Taken {
    Items(Box<Listed>),
    Other(Box<Unlisted>),
    Nothing,
}

/// What a list has now: the keys of its items, and its entries, the first one last.
#[derive(Drop)]
pub(crate) struct Ready {
    pub(crate) keys: Keys,
    pub(crate) entries: Vec<Entry>,
}

// What stands in the place of a list while it is updated.
fn hollow(alloc: Global) -> Code {
    Code::Let {
        made: Ids::new(alloc),
        params: Ids::new(alloc),
        body: Codes {
            list: Vec::new(alloc),
        },
    }
}

/// Takes a list out of its place.
#[inline(never)]
pub(crate) fn take_list(alloc: Global, code: &mut Code) -> Result<Taken, AllocError>
    ensures { IfOk result (TakenOut code.old) }
{
    match mem::replace(code, hollow(alloc)) {
        Code::Listed {
            listing,
            spot,
            items,
        } => Ok(Taken::Items(boxed_items(alloc, listing, spot, items)?)),
        Code::Unlisted {
            listing,
            spot,
            comment,
            body,
        } => Ok(Taken::Other(boxed_other(alloc, listing, spot, comment, body)?)),
        _ => Ok(Taken::Nothing),
    }
}

fn boxed_items(
    alloc: Global,
    listing: Listing,
    spot: Spot,
    items: Vec<ItemCode>,
) -> Result<Box<Listed>, AllocError>
    ensures listing { IfOk result (λ b. b.value.listing ≡ listing) }
    ensures spot { IfOk result (λ b. b.value.spot ≡ spot) }
    ensures items { IfOk result (λ b. b.value.items ≡ items) }
{
    Ok(Box::new(
        alloc,
        Listed {
            listing,
            spot,
            items,
        },
    )?)
}

fn boxed_other(
    alloc: Global,
    listing: Listing,
    spot: Spot,
    comment: Option<NodeId>,
    body: Codes,
) -> Result<Box<Unlisted>, AllocError>
    ensures listing { IfOk result (λ b. b.value.listing ≡ listing) }
    ensures spot { IfOk result (λ b. b.value.spot ≡ spot) }
    ensures comment { IfOk result (λ b. b.value.comment ≡ comment) }
    ensures body { IfOk result (λ b. b.value.body ≡ body) }
{
    Ok(Box::new(
        alloc,
        Unlisted {
            listing,
            spot,
            comment,
            body,
        },
    )?)
}

/// Puts a list in its place.
#[inline(never)]
pub(crate) fn put_list(code: &mut Code, list: Box<Code>)
    ensures { code.new ≡ list.value }
{
    *code = Box::into_inner(list);
}

/// The same, in a box.
#[inline(never)]
pub(crate) fn boxed_code(alloc: Global, code: Code) -> Result<Box<Code>, AllocError>
    ensures { IfOk result (λ b. b.value ≡ code) }
{
    Ok(Box::new(alloc, code)?)
}

/// What a position gives now: it is evaluated again where it is stale.
pub(crate) fn value_now(vm: &mut Vm, id: RefId) -> Result<Value, AllocError>
    requires calm { Calm vm.old }
    ensures step { OnOk result (Does (λ n. r.reread id.1) vm.old vm.new) }
    ensures value { IfOk result (λ v. (n : _) (touched : _) → first_value (spot_pairs (state_of n vm.new touched) id.1) ≡ labelled (view v)) }
    ensures calm { Calm vm.new }
    ensures tree { OnOk result (vm.new.tree ≡ vm.old.tree) }
{
    reread(vm, id)?;
    shown(vm, id)
}

/// What a list has now. Its position is evaluated again where it is stale.
#[inline(never)]
pub(crate) fn read_list(
    vm: &mut Vm,
    alloc: Global,
    key: &Text,
    id: RefId,
) -> Result<Box<Ready>, AllocError>
    requires calm { Calm vm.old }
    ensures step { OnOk result (Does (λ n. r.reread id.1) vm.old vm.new) }
    ensures entries { IfOk result (λ x. (n : _) (touched : _) → seen_left x.value.entries.items ≡ entries key.now 0 [] (values_listed (first_value (spot_pairs (state_of n vm.new touched) id.1)))) }
    ensures keys { IfOk result (λ x. x.value.keys ≡ entry_keys (seen_left x.value.entries.items)) }
    ensures calm { Calm vm.new }
    ensures tree { OnOk result (vm.new.tree ≡ vm.old.tree) }
{
    let value = value_now(vm, id)?;
    let read = keyed_items_of(alloc, value, key)?;
    boxed_ready(alloc, read.0, read.1)
}

/// Whether the position of a list with items is stale. The list is handed through, so that it is dropped here where it isn't known.
#[inline(never)]
pub(crate) fn ask_list(vm: &mut Vm, list: Box<Listed>) -> Result<(Box<Listed>, bool), AllocError>
    requires calm { Calm vm.old }
    ensures list { IfOk result (λ x. x.0 ≡ list) }
    ensures exact { IfOk result (λ x. (n : _) (touched : _) → Agrees touched vm.old → r.is_stale (state_of n vm.old touched) list.value.spot.id.1 ≡ x.1) }
    ensures still { Does (λ n st. st) vm.old vm.new }
    ensures calm { Calm vm.new }
    ensures tree { OnOk result (vm.new.tree ≡ vm.old.tree) }
{
    let stale = is_stale(vm, list.spot.id)?;
    Ok((list, stale))
}

/// Whether the items of a list are entered, which counts as a question. The list is handed through likewise.
#[inline(never)]
pub(crate) fn ask_items(
    vm: &mut Vm,
    list: Box<Listed>,
    moved: &mut Moved,
) -> Result<(Box<Listed>, bool), AllocError>
    requires calm { Calm vm.old }
    ensures list { IfOk result (λ x. x.0 ≡ list) }
    ensures asked { IfOk result (λ x. (n : _) (touched : _) → Agrees touched vm.old → enters_few (state_of n vm.old touched) (positions_items (items_of (all_items (map (seen_item_code n) list.value.items.items)))) ≡ x.1) }
    ensures moved { moved.new.items ≡ moved.old.items }
    ensures counted { OnOk result (moved.new.asked ≡ moved.old.asked + 1) }
    ensures still { Does (λ n st. st) vm.old vm.new }
    ensures calm { Calm vm.new }
    ensures tree { OnOk result (vm.new.tree ≡ vm.old.tree) }
{
    moved.ask(1)?;
    let enters = enters_items(vm, &list.items)?;
    Ok((list, enters))
}

/// What a list without items has now.
#[inline(never)]
pub(crate) fn read_unlisted(
    vm: &mut Vm,
    alloc: Global,
    list: Box<Unlisted>,
) -> Result<(Box<Unlisted>, Box<Ready>), AllocError>
    requires calm { Calm vm.old }
    ensures list { IfOk result (λ x. x.0 ≡ list) }
    ensures step { OnOk result (Does (λ n. r.reread list.value.spot.id.1) vm.old vm.new) }
    ensures entries { IfOk result (λ x. (n : _) (touched : _) → seen_left x.1.value.entries.items ≡ entries list.value.listing.key 0 [] (values_listed (first_value (spot_pairs (state_of n vm.new touched) list.value.spot.id.1)))) }
    ensures keys { IfOk result (λ x. x.1.value.keys ≡ entry_keys (seen_left x.1.value.entries.items)) }
    ensures calm { Calm vm.new }
    ensures tree { OnOk result (vm.new.tree ≡ vm.old.tree) }
{
    let ready = read_list(vm, alloc, list.listing.key.as_text(), list.spot.id)?;
    Ok((list, ready))
}

/// Keys with their entries, in a box.
pub(crate) fn boxed_ready(
    alloc: Global,
    keys: Keys,
    entries: Vec<Entry>,
) -> Result<Box<Ready>, AllocError>
    ensures keys { IfOk result (λ x. x.value.keys ≡ keys) }
    ensures entries { IfOk result (λ x. x.value.entries ≡ entries) }
{
    Ok(Box::new(alloc, Ready { keys, entries })?)
}

/// A list while its items become others: what is to be done of them, their path, where the next one goes, and how many stayed.
#[derive(Drop)]
pub(crate) struct Begun {
    pub(crate) listing: Listing,
    pub(crate) spot: Spot,
    pub(crate) work: Work,
    pub(crate) base: Path,
    pub(crate) seat: Seat,
    /// How many old items have been given to an entry.
    pub(crate) stayed: usize,
}

/// The items of a list are to become those that it has now, which counts as a question. The trail goes to its items.
#[inline(never)]
pub(crate) fn begin_sync(
    alloc: Global,
    trail: &mut Trail<'_>,
    list: Box<Listed>,
    ready: Box<Ready>,
    parent: &Option<NodeId>,
    moved: &mut Moved,
) -> Result<Box<Begun>, AllocError>
    requires keys { ready.value.keys ≡ entry_keys (seen_left ready.value.entries.items) }
    ensures listing { IfOk result (λ b. b.value.listing ≡ list.value.listing) }
    ensures spot { IfOk result (λ b. b.value.spot ≡ list.value.spot) }
    ensures ready { IfOk result (λ b. IsReady b.value.work) }
    ensures rising { IfOk result (λ b. Rising 0 (reverse (seen_steps b.value.work.steps.items))) }
    ensures parent { IfOk result (λ b. b.value.seat.parent ≡ parent.now) }
    ensures before { IfOk result (λ b. (n : _) → IsBefore (items_nest n list.value.items.items) (stamp_of b.value.seat.next)) }
    ensures waiting { IfOk result (λ b. b.value.work.waiting ≡ ready.value.entries) }
    ensures keys { IfOk result (λ b. b.value.work.keys ≡ map code_key list.value.items.items) }
    ensures moves { IfOk result (λ b. count_moves (reverse (seen_steps b.value.work.steps.items)) ≡ moves_between b.value.work.keys ready.value.keys) }
    ensures olds { IfOk result (λ b. there b.value.work.olds.items ≡ list.value.items.items) }
    ensures base { OnOk result (trail.new.base ≡ trail.old.base) }
    ensures steps { OnOk result (trail.new.path.steps ≡ trail.old.path.steps ++ p.items ∷ []) }
    ensures view { OnOk result (trail_view trail.new ≡ p.items ∷ trail_view trail.old) }
    ensures room { OnOk result (length trail.old.path.steps < 2 ^ 64) }
    ensures path { IfOk result (λ b. path_view b.value.base ≡ trail_view trail.new) }
    ensures stayed { IfOk result (λ b. b.value.stayed ≡ 0) }
    ensures moved { moved.new.items ≡ moved.old.items }
    ensures asked { OnOk result (moved.new.asked ≡ moved.old.asked + 1) }
{
    moved.ask(1)?;
    let Listed {
        listing,
        spot,
        items,
    } = Box::into_inner(list);
    let Ready { keys, entries } = Box::into_inner(ready);
    let seat = before_items(parent, items.as_slice())?;
    let work = Work::new(alloc, items, entries, &keys)?;
    let base = trail.enter_items(alloc)?;
    boxed_sync(
        alloc,
        Begun {
            listing,
            spot,
            work,
            base,
            seat,
            stayed: 0,
        },
    )
}

fn boxed_sync(alloc: Global, begun: Begun) -> Result<Box<Begun>, AllocError>
    ensures { IfOk result (λ b. b.value ≡ begun) }
{
    Ok(Box::new(alloc, begun)?)
}

/// The list with these items.
#[inline(never)]
pub(crate) fn end_sync(
    alloc: Global,
    begun: Box<Begun>,
    items: Vec<ItemCode>,
) -> Result<Box<Code>, AllocError>
    ensures { IfOk result (λ r. (n : _) → seen_code n r.value ≡ c.listed_code (seen_listing n begun.value.listing) (seen_spot begun.value.spot) (all_items (map (seen_item_code n) items.items))) }
{
    let begun = Box::into_inner(begun);
    boxed_code(alloc, Code::listed(begun.listing, begun.spot, items))
}

/// A list is lost, where its items could not be updated. It is dropped here, so that the walk takes less stack.
#[inline(never)]
pub(crate) fn lost_sync(begun: Box<Begun>, fault: VmFault) -> VmFault
    ensures { result ≡ fault }
{
    drop(begun);
    fault
}

/// The list alone. What it has now is dropped here.
#[inline(never)]
pub(crate) fn first_of(list: Box<Unlisted>, ready: Box<Ready>) -> Box<Unlisted>
    ensures { result ≡ list }
{
    drop(ready);
    list
}

/// The same of a list without items.
#[inline(never)]
pub(crate) fn lost_list(list: Box<Unlisted>, fault: VmFault) -> VmFault
    ensures { result ≡ fault }
{
    drop(list);
    fault
}

/// A list without, as it is.
#[inline(never)]
pub(crate) fn without_items(alloc: Global, list: Box<Unlisted>) -> Result<Box<Code>, AllocError>
    ensures { IfOk result (λ r. (n : _) → seen_code n r.value ≡ c.unlisted_code (seen_listing n list.value.listing) (seen_spot list.value.spot) (stamp_of list.value.comment) (seen_codes n list.value.body)) }
{
    let list = Box::into_inner(list);
    boxed_code(
        alloc,
        Code::unlisted(list.listing, list.spot, list.comment, list.body),
    )
}
