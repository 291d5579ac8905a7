// The items of a list are ended.
ghost use Rattle.std.specs.Prelude.{◌≡◌, map, OnOk};
ghost use Rattle.gl_plain.specs.Live.{times_items};
ghost use Rattle.gl_plain.specs.Naming.{by_number, dropped_as};
ghost use Rattle.gl_machine.specs.Code.{items_of};
ghost use Rattle.gl_vm.specs.View.{Calm};
ghost use Rattle.gl_vm.specs.Steps.{Does};
ghost use Rattle.gl_code.specs.CodeView.{seen_item_code, all_items};
ghost use Rattle.gl_seats.specs.Parts.{item_nest};
ghost use Rattle.gl_seats.specs.Seats.{UnseatsEach};

use gl_code::ItemCode;
use gl_vm::Vm;
use std::alloc::AllocError;

/// Ends all that was rendered of the items of a list.
#[inline(never)]
pub(crate) fn end_items(vm: &mut Vm, items: &[ItemCode]) -> Result<(), AllocError>
    requires calm { Calm vm.old }
    ensures step { OnOk result (Does (λ n. dropped_as by_number (λ q. times_items q (items_of (all_items (map (seen_item_code n) items.now))))) vm.old vm.new) }
    ensures calm { Calm vm.new }
    ensures unseats { OnOk result ((n : _) → UnseatsEach vm.old.tree.forest vm.new.tree.forest (map (item_nest n) items.now)) }
    ensures moves { OnOk result (vm.new.tree.moves ≡ vm.old.tree.moves) }
{
    gl_ends::end_items(vm, items)
}
