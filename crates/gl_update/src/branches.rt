// `if` and `unless`: the body that is shown is walked along, or the other one is appended in its place.
ghost use Rattle.std.specs.Prelude.{◌≡◌, ◌≢◌, ◌+◌, OnOk, IfErr};
ghost use Rattle.gl_nodes.specs.Flat.{stamp_of};
ghost use Rattle.gl_plain.specs.Live.{times_in, times_comment};
ghost use Rattle.gl_plain.specs.Naming.{by_number, dropped_as};
ghost use Rattle.gl_machine.specs.Code as c;
ghost use Rattle.gl_machine.specs.Code.{Code as PlainCode, lives_of};
ghost use Rattle.gl_machine.specs.RenewCode.{fresh_branch};
ghost use Rattle.gl_guards.specs.Along.{along_code_as};
ghost use Rattle.gl_vm.specs.View.{Calm};
ghost use Rattle.gl_code.specs.CodeView.{seen_choice, seen_codes, seen_spot};
ghost use Rattle.gl_update.specs.Counted.{CodeMoved};
ghost use Rattle.gl_update.specs.Questions.{Asks, AsksCode};
ghost use Rattle.gl_update.specs.View.{trail_view};
ghost use Rattle.gl_code.specs.Renewing.{Renews, RenewFails};
ghost use Rattle.gl_seats.specs.Parts.{body_nest};
ghost use Rattle.gl_seats.specs.Seats.{NodesRenewed, Replaces};

use crate::codes::renew_side;
use crate::counting::Moved;
use crate::ending::end_branch;
use crate::positions::condition;
use crate::standing::seat_with_comment;
use crate::trail::Trail;
use gl_code::{AppendBlock, Cells, Choice, Codes, Spot, VmFault, chosen, side};
use gl_nodes::NodeId;
use gl_opc::App;
use gl_seats::behind;
use gl_vm::Vm;
use std::alloc::Global;

/// A branch: its condition is evaluated again where it is stale.
#[cycle(renewing)]
#[inline(never)]
pub(crate) fn renew_branch<A: AppendBlock>(
    vm: &mut Vm,
    alloc: Global,
    app: &App,
    cells: &Cells,
    trail: &mut Trail<'_>,
    left: u32,
    choice: &Choice,
    spot: &Spot,
    main: &mut bool,
    comment: &mut Option<NodeId>,
    body: &mut Codes,
    parent: &Option<NodeId>,
    moved: &mut Moved,
) -> Result<(), VmFault>
    requires calm { Calm vm.old }
    ensures ok { OnOk result (Renews app.now cells.now (λ n run. along_code_as by_number run left (trail_view trail.old) (c.branch_code (seen_choice n choice.now) (seen_spot spot.now) main.old (stamp_of comment.old) (seen_codes n body.old))) vm.old (λ n. c.branch_code (seen_choice n choice.now) (seen_spot spot.now) main.new (stamp_of comment.new) (seen_codes n body.new)) vm.new) }
    ensures fails { IfErr result (RenewFails {A = PlainCode} app.now cells.now (λ n run. along_code_as by_number run left (trail_view trail.old) (c.branch_code (seen_choice n choice.now) (seen_spot spot.now) main.old (stamp_of comment.old) (seen_codes n body.old))) vm.old) }
    ensures moved { OnOk result (CodeMoved moved.old moved.new (λ n. c.branch_code (seen_choice n choice.now) (seen_spot spot.now) main.old (stamp_of comment.old) (seen_codes n body.old)) (λ n. c.branch_code (seen_choice n choice.now) (seen_spot spot.now) main.new (stamp_of comment.new) (seen_codes n body.new))) }
    ensures asked { OnOk result (Asks app.now cells.now (AsksCode left (trail_view trail.old) (λ n. c.branch_code (seen_choice n choice.now) (seen_spot spot.now) main.old (stamp_of comment.old) (seen_codes n body.old))) vm.old moved.old.asked moved.new.asked) }
    ensures trail { OnOk result (trail.new ≡ trail.old) }
    ensures calm { Calm vm.new }
    ensures nodes { OnOk result (NodesRenewed vm.old.tree vm.new.tree moved.old.items moved.new.items (stamp_of parent.now) (λ n. body_nest n body.old comment.old) (λ n. body_nest n body.new comment.new)) }
{
    moved.ask(1)?;
    let shows = condition(vm, choice.unless, spot.id)?;
    if shows == *main {
        renew_side::<A>(
            vm,
            alloc,
            app,
            cells,
            trail,
            side(shows),
            left,
            body,
            parent,
            moved,
        )
    } else {
        *main = shows;
        flip::<A>(
            vm, alloc, app, cells, trail, left, choice, shows, comment, body, parent,
        )
    }
}

/// The other body is appended in the place of what stood there, which is ended.
#[inline(never)]
fn flip<A: AppendBlock>(
    vm: &mut Vm,
    alloc: Global,
    app: &App,
    cells: &Cells,
    trail: &Trail<'_>,
    left: u32,
    choice: &Choice,
    shows: bool,
    comment: &mut Option<NodeId>,
    body: &mut Codes,
    parent: &Option<NodeId>,
) -> Result<(), VmFault>
    requires calm { Calm vm.old }
    ensures ok { OnOk result ((s : _) → Renews app.now cells.now (λ n run st. fresh_branch run (seen_choice n choice.now) s shows (trail_view trail.now) left (dropped_as by_number (λ q. times_in q (lives_of (seen_codes n body.old)) + times_comment q (stamp_of comment.old)) st)) vm.old (λ n. c.branch_code (seen_choice n choice.now) s shows (stamp_of comment.new) (seen_codes n body.new)) vm.new) }
    ensures fails { (s : _) → IfErr result (RenewFails {A = PlainCode} app.now cells.now (λ n run st. fresh_branch run (seen_choice n choice.now) s shows (trail_view trail.now) left (dropped_as by_number (λ q. times_in q (lives_of (seen_codes n body.old)) + times_comment q (stamp_of comment.old)) st)) vm.old) }
    ensures calm { Calm vm.new }
    ensures nodes { OnOk result ((n : _) → Replaces vm.old.tree.forest vm.new.tree.forest (stamp_of parent.now) (body_nest n body.old comment.old) (body_nest n body.new comment.new)) }
    ensures moves { OnOk result (vm.new.tree.moves ≡ vm.old.tree.moves) }
{
    let sight = choice.sight.as_ref().copy()?;
    let path = trail.below(alloc, side(shows))?;
    let seat = behind(&vm.tree, parent, body, comment)?;
    end_branch(vm, body, comment)?;
    let pc = chosen(shows, choice.first, choice.second);
    match A::append_block(vm, alloc, app, cells, sight, pc, path, left) {
        Ok(codes) => {
            *comment = seat_with_comment(vm, &seat, &codes)?;
            *body = codes;
            Ok(())
        }
        Err(fault) => Err(fault),
    }
}
