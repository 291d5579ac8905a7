// The question whether a region is entered. It takes no memory, and is answered where its positions can be asked.
ghost use Rattle.std.specs.Prelude.{◌≡◌, map, IfOk};
ghost use Rattle.gl_plain.specs.Counts.{positions_in, positions_items};
ghost use Rattle.gl_machine.specs.Code.{lives_of, items_of};
ghost use Rattle.gl_guards.specs.Along.{few, enters_few, whole, enters_whole};
ghost use Rattle.gl_asks.specs.Asked.{Counted};
ghost use Rattle.gl_asks.specs.Spots.{body_ids, items_ids};
ghost use Rattle.gl_vm.specs.View.{Calm, Agrees, state_of};
ghost use Rattle.gl_vm.specs.Steps.{Does};
ghost use Rattle.gl_code.specs.CodeView.{seen_codes, seen_item_code, all_items};

use crate::asking::{ask_codes, ask_items};
use gl_code::{Codes, ItemCode};
use gl_vm::Vm;
use std::alloc::AllocError;

// How many positions of a region are asked at most.
#[tactic(auto, unfolding(gl_guards::specs::Along::few))]
fn most() -> usize
    ensures { result ≡ few }
{
    32
}

// How many positions of a page are asked at most.
#[tactic(auto, unfolding(gl_guards::specs::Along::whole))]
fn all() -> usize
    ensures { result ≡ whole }
{
    usize::MAX
}

/// Whether a page is entered by an update, of which this is the body: one of its positions is stale.
#[inline(never)]
pub fn enters_page(vm: &mut Vm, body: &Codes) -> Result<bool, AllocError>
    requires calm { Calm vm.old }
    ensures asked { IfOk result (λ b. (n : _) (touched : _) → Agrees touched vm.old → enters_whole (state_of n vm.old touched) (positions_in (lives_of (seen_codes n body.now))) ≡ b) }
    ensures still { Does (λ n st. st) vm.old vm.new }
    ensures calm { Calm vm.new }
    ensures counted { Counted vm.old vm.new (body_ids body.now) result }
{
    let mut left = all();
    ask_codes(vm, &mut left, body)
}

/// Whether what was rendered of a body is entered by an update: it has many positions, or one of its few is stale.
#[inline(never)]
pub fn enters_body(vm: &mut Vm, body: &Codes) -> Result<bool, AllocError>
    requires calm { Calm vm.old }
    ensures asked { IfOk result (λ b. (n : _) (touched : _) → Agrees touched vm.old → enters_few (state_of n vm.old touched) (positions_in (lives_of (seen_codes n body.now))) ≡ b) }
    ensures still { Does (λ n st. st) vm.old vm.new }
    ensures calm { Calm vm.new }
    ensures counted { Counted vm.old vm.new (body_ids body.now) result }
{
    let mut left = most();
    ask_codes(vm, &mut left, body)
}

/// Whether the items of a list are entered by an update: they have many positions, or one of their few is stale.
#[inline(never)]
pub fn enters_items(vm: &mut Vm, items: &Vec<ItemCode>) -> Result<bool, AllocError>
    requires calm { Calm vm.old }
    ensures asked { IfOk result (λ b. (n : _) (touched : _) → Agrees touched vm.old → enters_few (state_of n vm.old touched) (positions_items (items_of (all_items (map (seen_item_code n) items.now.items)))) ≡ b) }
    ensures still { Does (λ n st. st) vm.old vm.new }
    ensures calm { Calm vm.new }
    ensures counted { Counted vm.old vm.new (items_ids items.now.items) result }
{
    let mut left = most();
    ask_items(vm, &mut left, items)
}
