// What was rendered in a branch is ended.
ghost use Rattle.std.specs.Prelude.{◌≡◌, ◌+◌, OnOk};
ghost use Rattle.gl_nodes.specs.Flat.{stamp_of};
ghost use Rattle.gl_plain.specs.Live.{times_in, times_comment};
ghost use Rattle.gl_plain.specs.Naming.{by_number, dropped_as};
ghost use Rattle.gl_machine.specs.Code.{lives_of};
ghost use Rattle.gl_vm.specs.View.{Calm};
ghost use Rattle.gl_vm.specs.Steps.{Does};
ghost use Rattle.gl_code.specs.CodeView.{seen_codes};
ghost use Rattle.gl_seats.specs.Parts.{body_nest};
ghost use Rattle.gl_seats.specs.Seats.{Unseats};

use gl_code::Codes;
use gl_nodes::NodeId;
use gl_vm::Vm;
use std::alloc::AllocError;

/// Ends what was rendered in a branch, with the comment that stands there where no node does.
#[inline(never)]
pub(crate) fn end_branch(
    vm: &mut Vm,
    codes: &Codes,
    comment: &Option<NodeId>,
) -> Result<(), AllocError>
    requires calm { Calm vm.old }
    ensures step { OnOk result (Does (λ n. dropped_as by_number (λ q. times_in q (lives_of (seen_codes n codes.now)) + times_comment q (stamp_of comment.now))) vm.old vm.new) }
    ensures calm { Calm vm.new }
    ensures unseats { OnOk result ((n : _) → Unseats vm.old.tree.forest vm.new.tree.forest (body_nest n codes.now comment.now)) }
    ensures moves { OnOk result (vm.new.tree.moves ≡ vm.old.tree.moves) }
{
    gl_ends::end_branch(vm, codes, comment)
}
