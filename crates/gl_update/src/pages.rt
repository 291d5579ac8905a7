// The update of a page.
ghost use Rattle.std.specs.Prelude.{◌≡◌, ◌+◌, ◌<◌, ◌^◌, IfOk, IsOk, OnOk, IfErr, None};
ghost use Rattle.gl_plain.specs.Naming.{by_number};
ghost use Rattle.gl_machine.specs.Code.{Code as PlainCode, Codes as PlainCodes, live_of};
ghost use Rattle.gl_machine.specs.Shape.{nest};
ghost use Rattle.gl_guards.specs.Along.{along_root_code_as, along_page_as};
ghost use Rattle.gl_guards.specs.AlongAsks.{along_asks_page, along_asks_root};
ghost use Rattle.gl_guards.specs.Once.{KeysOnce};
ghost use Rattle.gl_kept.specs.Between.{moved_between};
ghost use Rattle.gl_vm.specs.View.{Calm};
ghost use Rattle.gl_code.specs.CodeView.{seen_code, seen_codes};
ghost use Rattle.gl_code.specs.Hung.{nest_of};
ghost use Rattle.gl_code.specs.Renewing.{Renews, RenewFails};
ghost use Rattle.gl_update.specs.Counted.{CodesMoved};
ghost use Rattle.gl_update.specs.Questions.{Asks};
ghost use Rattle.gl_update.specs.Idle.{IsFresh, IsIdle, AsksAlone, StaysAs};
ghost use Rattle.gl_update.specs.View.{trail_view};
ghost use Rattle.gl_seats.specs.Parts.{code_nest, codes_nest};
ghost use Rattle.gl_seats.specs.Seats.{NodesRenewed};

use crate::codes::renew_codes;
use crate::counting::Moved;
use crate::trail::Trail;
use gl_asks::enters_page;
use gl_code::{AppendBlock, Cells, Code, Codes, Page, VmFault};
use gl_meaning::{Path, PathSteps};
use gl_opc::App;
use gl_vm::Vm;
use std::alloc::Global;

/// Changes a page so that it shows the cells of now: what a touched source reached is evaluated again, branches of which the
/// condition flipped are ended and the other ones appended, items are kept by their keys. New instances have the initial
/// values of their fields. Where the nodes of the page stood in its tree as they were rendered, in their order, and no others, they do so then.
/// What has few positions, none of them stale, is passed over, and so is the whole page where none is: then, where each can be asked, it is
/// never want of memory, and nothing is another but the count of questions. It answers how many items were moved, each by one move of nodes; that they are
/// those between the two updating programs is said of one in which no key of a list stands twice. After a fault the page is not to be used.
pub fn update<A: AppendBlock>(
    alloc: Global,
    app: &App,
    cells: &Cells,
    page: &mut Page,
) -> Result<Moved, VmFault>
    requires calm { Calm page.old.vm }
    ensures ok { OnOk result (Renews app.now cells.now (λ n run. along_root_code_as by_number app.now.manifest.limit run (seen_code n page.old.code)) page.old.vm (λ n. seen_code n page.new.code) page.new.vm) }
    ensures fails { IfErr result (RenewFails {A = PlainCode} app.now cells.now (λ n run. along_root_code_as by_number app.now.manifest.limit run (seen_code n page.old.code)) page.old.vm) }
    ensures nodes { OnOk result ((n : _) → nest_of page.old.vm.tree.forest ≡ nest (live_of (seen_code n page.old.code)) → nest_of page.new.vm.tree.forest ≡ nest (live_of (seen_code n page.new.code))) }
    ensures moved { IfOk result (λ m. (n : _) → KeysOnce (live_of (seen_code n page.old.code)) → m.items ≡ moved_between (live_of (seen_code n page.old.code)) (live_of (seen_code n page.new.code))) }
    ensures asked { IfOk result (λ m. Asks app.now cells.now (λ n run. along_asks_root by_number app.now.manifest.limit run (seen_code n page.old.code)) page.old.vm 0 m.asked) }
    ensures moves { IfOk result (λ m. page.new.vm.tree.moves ≡ page.old.vm.tree.moves + m.items) }
    ensures idle { IsIdle app.now.manifest.limit page.old → IsOk result × StaysAs page.old page.new }
    ensures calm { Calm page.new.vm }
{
    page.vm.tree.flat();
    match renew_page::<A>(alloc, app, cells, page) {
        Ok(moved) => {
            page.vm.tree.flat();
            Ok(moved)
        }
        Err(fault) => Err(fault),
    }
}

// The walk along a page. It answers how many items were moved.
fn renew_page<A: AppendBlock>(
    alloc: Global,
    app: &App,
    cells: &Cells,
    page: &mut Page,
) -> Result<Moved, VmFault>
    requires calm { Calm page.old.vm }
    ensures ok { OnOk result (Renews app.now cells.now (λ n run. along_root_code_as by_number app.now.manifest.limit run (seen_code n page.old.code)) page.old.vm (λ n. seen_code n page.new.code) page.new.vm) }
    ensures fails { IfErr result (RenewFails {A = PlainCode} app.now cells.now (λ n run. along_root_code_as by_number app.now.manifest.limit run (seen_code n page.old.code)) page.old.vm) }
    ensures moved { IfOk result (λ m. (n : _) → KeysOnce (live_of (seen_code n page.old.code)) → m.items ≡ moved_between (live_of (seen_code n page.old.code)) (live_of (seen_code n page.new.code))) }
    ensures asked { IfOk result (λ m. Asks app.now cells.now (λ n run. along_asks_root by_number app.now.manifest.limit run (seen_code n page.old.code)) page.old.vm 0 m.asked) }
    ensures idle { IsIdle app.now.manifest.limit page.old → (IsOk result × IfOk result (λ m. m.items ≡ 0)) × StaysAs page.old page.new }
    ensures calm { Calm page.new.vm }
    ensures nodes { IfOk result (λ m. NodesRenewed page.old.vm.tree page.new.vm.tree 0 m.items None (λ n. code_nest n page.old.code) (λ n. code_nest n page.new.code)) }
{
    let limit = app.manifest().limit;
    if limit == 0 {
        return Err(VmFault::Memory);
    }
    let root = Path {
        steps: PathSteps::new(alloc),
    };
    let mut trail = Trail::of(alloc, &root);
    let mut moved = Moved::none();
    match &mut page.code {
        Code::Root { body, .. } => match renew_top::<A>(
            &mut page.vm,
            alloc,
            app,
            cells,
            &mut trail,
            limit - 1,
            body,
            &mut moved,
        ) {
            Ok(()) => Ok(moved),
            Err(fault) => Err(fault),
        },
        _ => Err(VmFault::Memory),
    }
}

// The body of the page: it is passed over where nothing in it is stale.
fn renew_top<A: AppendBlock>(
    vm: &mut Vm,
    alloc: Global,
    app: &App,
    cells: &Cells,
    trail: &mut Trail<'_>,
    left: u32,
    body: &mut Codes,
    moved: &mut Moved,
) -> Result<(), VmFault>
    requires calm { Calm vm.old }
    ensures ok { OnOk result (Renews app.now cells.now (λ n run. along_page_as by_number run left (trail_view trail.old) (seen_codes n body.old)) vm.old (λ n. seen_codes n body.new) vm.new) }
    ensures fails { IfErr result (RenewFails {A = PlainCodes} app.now cells.now (λ n run. along_page_as by_number run left (trail_view trail.old) (seen_codes n body.old)) vm.old) }
    ensures moved { OnOk result (CodesMoved moved.old moved.new (λ n. seen_codes n body.old) (λ n. seen_codes n body.new)) }
    ensures asked { OnOk result (Asks app.now cells.now (λ n run. along_asks_page by_number run left (trail_view trail.old) (seen_codes n body.old)) vm.old moved.old.asked moved.new.asked) }
    ensures idle { moved.old.asked + 1 < 2 ^ 128 → IsFresh vm.old body.old → (IsOk result × (moved.new.items ≡ moved.old.items)) × ((body.new ≡ body.old) × AsksAlone vm.old vm.new) }
    ensures calm { Calm vm.new }
    ensures nodes { OnOk result (NodesRenewed vm.old.tree vm.new.tree moved.old.items moved.new.items None (λ n. codes_nest n body.old) (λ n. codes_nest n body.new)) }
{
    moved.ask(1)?;
    let mark = moved.mark(vm);
    if enters_page(vm, body)? {
        match renew_codes::<A>(vm, alloc, app, cells, trail, left, body, &None, moved) {
            Ok(()) => {
                moved.close(&mark, vm);
                Ok(())
            }
            Err(fault) => Err(fault),
        }
    } else {
        Ok(())
    }
}
