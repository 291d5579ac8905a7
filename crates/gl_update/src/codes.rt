// What was rendered is walked along: what is stale is changed.
ghost use Rattle.std.specs.Prelude.{◌≡◌, ◌∷◌, map, OnOk, IfErr};
ghost use Rattle.gl_meaning.specs.Path.{main, otherwise, slot};
ghost use Rattle.gl_meaning.specs.View.{path_view, path_step_view};
ghost use Rattle.gl_plain.specs.Naming.{by_number};
ghost use Rattle.gl_machine.specs.Code as c;
ghost use Rattle.gl_machine.specs.Code.{Code as PlainCode, Codes as PlainCodes};
ghost use Rattle.gl_guards.specs.Along.{along_code_as, along_codes_as, along_body_as};
ghost use Rattle.gl_vm.specs.View.{Calm};
ghost use Rattle.gl_code.specs.CodeView.{seen_attr_spot, seen_code, seen_codes, seen_mod_spot};
ghost use Rattle.gl_update.specs.Counted.{CodeMoved, CodesMoved};
ghost use Rattle.gl_update.specs.Questions.{Asks, AsksBody, AsksCode, AsksIn};
ghost use Rattle.gl_update.specs.View.{trail_view};
ghost use Rattle.gl_code.specs.Renewing.{Renews, RenewFails};
ghost use Rattle.gl_seats.specs.Parts.{code_nest, codes_nest};
ghost use Rattle.gl_seats.specs.Seats.{NodesRenewed};
ghost use Rattle.gl_machine.specs.Shape.{end, tree as nested};
ghost use Rattle.gl_nodes.specs.Flat.{stamp_of};

use crate::branches::renew_branch;
use crate::counting::Moved;
use crate::lists::renew_list;
use crate::modifiers::renew_mods;
use crate::nodes::{renew_attrs, renew_text};
use crate::trail::Trail;
use gl_asks::enters_body;
use gl_code::{AppendBlock, AttrSpot, Cells, Code, Codes, ModSpot, VmFault};
use gl_meaning::{Path, PathStep};
use gl_nodes::NodeId;
use gl_opc::App;
use gl_value::Text;
use gl_vm::Vm;
use std::alloc::Global;

/// What was rendered of a body, of which the path is the trail. Its nodes stand in the parent, or at the top.
#[cycle(renewing)]
#[inline(never)]
pub(crate) fn renew_codes<A: AppendBlock>(
    vm: &mut Vm,
    alloc: Global,
    app: &App,
    cells: &Cells,
    trail: &mut Trail<'_>,
    left: u32,
    codes: &mut Codes,
    parent: &Option<NodeId>,
    moved: &mut Moved,
) -> Result<(), VmFault>
    requires calm { Calm vm.old }
    ensures ok { OnOk result (Renews app.now cells.now (λ n run. along_codes_as by_number run left (trail_view trail.old) 0 (seen_codes n codes.old)) vm.old (λ n. seen_codes n codes.new) vm.new) }
    ensures fails { IfErr result (RenewFails {A = PlainCodes} app.now cells.now (λ n run. along_codes_as by_number run left (trail_view trail.old) 0 (seen_codes n codes.old)) vm.old) }
    ensures moved { OnOk result (CodesMoved moved.old moved.new (λ n. seen_codes n codes.old) (λ n. seen_codes n codes.new)) }
    ensures asked { OnOk result (Asks app.now cells.now (AsksIn left (trail_view trail.old) (λ n. seen_codes n codes.old)) vm.old moved.old.asked moved.new.asked) }
    ensures trail { OnOk result (trail.new ≡ trail.old) }
    ensures calm { Calm vm.new }
    ensures nodes { OnOk result (NodesRenewed vm.old.tree vm.new.tree moved.old.items moved.new.items (stamp_of parent.now) (λ n. codes_nest n codes.old) (λ n. codes_nest n codes.new)) }
{
    for (place, code) in codes.list.iter_mut().enumerate() {
        trail.push(PathStep::At(place as u64))?;
        match renew_code::<A>(vm, alloc, app, cells, trail, left, code, parent, moved) {
            Ok(()) => trail.pop(alloc),
            Err(fault) => return Err(fault),
        }
    }
    Ok(())
}

/// A body that is a region, of which the path is the trail: it is passed over where its few positions are fresh. It stands in the frame
/// of its caller, so that a level takes no more stack.
#[cycle(renewing)]
#[inline(always)]
pub(crate) fn renew_body<A: AppendBlock>(
    vm: &mut Vm,
    alloc: Global,
    app: &App,
    cells: &Cells,
    trail: &mut Trail<'_>,
    left: u32,
    codes: &mut Codes,
    parent: &Option<NodeId>,
    moved: &mut Moved,
) -> Result<(), VmFault>
    requires calm { Calm vm.old }
    ensures ok { OnOk result (Renews app.now cells.now (λ n run. along_body_as by_number run left (trail_view trail.old) (seen_codes n codes.old)) vm.old (λ n. seen_codes n codes.new) vm.new) }
    ensures fails { IfErr result (RenewFails {A = PlainCodes} app.now cells.now (λ n run. along_body_as by_number run left (trail_view trail.old) (seen_codes n codes.old)) vm.old) }
    ensures moved { OnOk result (CodesMoved moved.old moved.new (λ n. seen_codes n codes.old) (λ n. seen_codes n codes.new)) }
    ensures asked { OnOk result (Asks app.now cells.now (AsksBody left (trail_view trail.old) (λ n. seen_codes n codes.old)) vm.old moved.old.asked moved.new.asked) }
    ensures trail { OnOk result (trail.new ≡ trail.old) }
    ensures calm { Calm vm.new }
    ensures nodes { OnOk result (NodesRenewed vm.old.tree vm.new.tree moved.old.items moved.new.items (stamp_of parent.now) (λ n. codes_nest n codes.old) (λ n. codes_nest n codes.new)) }
{
    moved.ask(1)?;
    let mark = moved.mark(vm);
    if enters_body(vm, codes)? {
        match renew_codes::<A>(vm, alloc, app, cells, trail, left, codes, parent, moved) {
            Ok(()) => {
                moved.close(&mark, vm);
                Ok(())
            }
            Err(fault) => Err(fault),
        }
    } else {
        Ok(())
    }
}

/// What was rendered of a statement, of which the path is the trail.
#[cycle(renewing)]
#[inline(never)]
pub(crate) fn renew_code<A: AppendBlock>(
    vm: &mut Vm,
    alloc: Global,
    app: &App,
    cells: &Cells,
    trail: &mut Trail<'_>,
    left: u32,
    code: &mut Code,
    parent: &Option<NodeId>,
    moved: &mut Moved,
) -> Result<(), VmFault>
    requires calm { Calm vm.old }
    ensures ok { OnOk result (Renews app.now cells.now (λ n run. along_code_as by_number run left (trail_view trail.old) (seen_code n code.old)) vm.old (λ n. seen_code n code.new) vm.new) }
    ensures fails { IfErr result (RenewFails {A = PlainCode} app.now cells.now (λ n run. along_code_as by_number run left (trail_view trail.old) (seen_code n code.old)) vm.old) }
    ensures moved { OnOk result (CodeMoved moved.old moved.new (λ n. seen_code n code.old) (λ n. seen_code n code.new)) }
    ensures asked { OnOk result (Asks app.now cells.now (AsksCode left (trail_view trail.old) (λ n. seen_code n code.old)) vm.old moved.old.asked moved.new.asked) }
    ensures trail { OnOk result (trail.new ≡ trail.old) }
    ensures calm { Calm vm.new }
    ensures nodes { OnOk result (NodesRenewed vm.old.tree vm.new.tree moved.old.items moved.new.items (stamp_of parent.now) (λ n. code_nest n code.old) (λ n. code_nest n code.new)) }
{
    match code {
        Code::Still { .. } => Ok(()),
        Code::Put { node, spot } => {
            moved.ask(1)?;
            renew_text(vm, alloc, *node, spot.id)?;
            Ok(())
        }
        Code::Element {
            node,
            attrs,
            mods,
            body,
            ..
        } => renew_element::<A>(
            vm, alloc, app, cells, trail, left, *node, attrs, mods, body, moved,
        ),
        Code::Branch {
            choice,
            spot,
            main,
            comment,
            body,
        } => renew_branch::<A>(
            vm, alloc, app, cells, trail, left, choice, spot, main, comment, body, parent, moved,
        ),
        Code::Listed { .. } => renew_list::<A>(
            vm, alloc, app, cells, trail, left, code, parent, moved,
        ),
        Code::Unlisted { .. } => renew_list::<A>(
            vm, alloc, app, cells, trail, left, code, parent, moved,
        ),
        Code::Let { body, .. } => renew_let::<A>(
            vm, alloc, app, cells, trail, left, body, parent, moved,
        ),
        Code::Component { owner, body, .. } => {
            renew_component::<A>(
                vm,
                alloc,
                app,
                cells,
                &owner.path,
                left,
                body,
                parent,
                moved,
            )
        }
        Code::Root { .. } => Err(VmFault::Memory),
        Code::Yield { name, body, .. } => renew_yield::<A>(
            vm, alloc, app, cells, trail, left, name, body, parent, moved,
        ),
    }
}

/// An element: its attributes, what is in it, and its modifiers.
#[cycle(renewing)]
#[inline(never)]
fn renew_element<A: AppendBlock>(
    vm: &mut Vm,
    alloc: Global,
    app: &App,
    cells: &Cells,
    trail: &mut Trail<'_>,
    left: u32,
    node: NodeId,
    attrs: &Vec<AttrSpot>,
    mods: &Vec<ModSpot>,
    body: &mut Codes,
    moved: &mut Moved,
) -> Result<(), VmFault>
    requires calm { Calm vm.old }
    ensures ok { OnOk result ((made : _) → Renews app.now cells.now (λ n run. along_code_as by_number run left (trail_view trail.old) (c.element_code node.1 made (map seen_attr_spot attrs.now.items) (map seen_mod_spot mods.now.items) (seen_codes n body.old))) vm.old (λ n. c.element_code node.1 made (map seen_attr_spot attrs.now.items) (map seen_mod_spot mods.now.items) (seen_codes n body.new)) vm.new) }
    ensures fails { (made : _) → IfErr result (RenewFails {A = PlainCode} app.now cells.now (λ n run. along_code_as by_number run left (trail_view trail.old) (c.element_code node.1 made (map seen_attr_spot attrs.now.items) (map seen_mod_spot mods.now.items) (seen_codes n body.old))) vm.old) }
    ensures moved { OnOk result (CodesMoved moved.old moved.new (λ n. seen_codes n body.old) (λ n. seen_codes n body.new)) }
    ensures asked { OnOk result ((made : _) → Asks app.now cells.now (AsksCode left (trail_view trail.old) (λ n. c.element_code node.1 made (map seen_attr_spot attrs.now.items) (map seen_mod_spot mods.now.items) (seen_codes n body.old))) vm.old moved.old.asked moved.new.asked) }
    ensures trail { OnOk result (trail.new ≡ trail.old) }
    ensures calm { Calm vm.new }
    ensures nodes { OnOk result ((p : _) → NodesRenewed vm.old.tree vm.new.tree moved.old.items moved.new.items p (λ n. nested node.1 (codes_nest n body.old) end) (λ n. nested node.1 (codes_nest n body.new) end)) }
{
    moved.ask(attrs.len())?;
    moved.ask(mods.len())?;
    renew_attrs(vm, alloc, node, attrs.as_slice())?;
    match renew_codes::<A>(vm, alloc, app, cells, trail, left, body, &Some(node), moved) {
        Ok(()) => {
            renew_mods(vm, alloc, mods.as_slice())?;
            Ok(())
        }
        Err(fault) => Err(fault),
    }
}

/// What was rendered of a body, of which the path is one step below the trail.
#[cycle(renewing)]
#[inline(never)]
pub(crate) fn renew_below<A: AppendBlock>(
    vm: &mut Vm,
    alloc: Global,
    app: &App,
    cells: &Cells,
    trail: &mut Trail<'_>,
    step: PathStep,
    left: u32,
    body: &mut Codes,
    parent: &Option<NodeId>,
    moved: &mut Moved,
) -> Result<(), VmFault>
    requires calm { Calm vm.old }
    ensures ok { OnOk result (Renews app.now cells.now (λ n run. along_codes_as by_number run left (path_step_view step ∷ trail_view trail.old) 0 (seen_codes n body.old)) vm.old (λ n. seen_codes n body.new) vm.new) }
    ensures fails { IfErr result (RenewFails {A = PlainCodes} app.now cells.now (λ n run. along_codes_as by_number run left (path_step_view step ∷ trail_view trail.old) 0 (seen_codes n body.old)) vm.old) }
    ensures moved { OnOk result (CodesMoved moved.old moved.new (λ n. seen_codes n body.old) (λ n. seen_codes n body.new)) }
    ensures asked { OnOk result (Asks app.now cells.now (AsksIn left (path_step_view step ∷ trail_view trail.old) (λ n. seen_codes n body.old)) vm.old moved.old.asked moved.new.asked) }
    ensures trail { OnOk result (trail.new ≡ trail.old) }
    ensures calm { Calm vm.new }
    ensures nodes { OnOk result (NodesRenewed vm.old.tree vm.new.tree moved.old.items moved.new.items (stamp_of parent.now) (λ n. codes_nest n body.old) (λ n. codes_nest n body.new)) }
{
    trail.push(step)?;
    match renew_codes::<A>(vm, alloc, app, cells, trail, left, body, parent, moved) {
        Ok(()) => {
            trail.pop(alloc);
            Ok(())
        }
        Err(fault) => Err(fault),
    }
}

/// A body that is a region, of which the path is one step below the trail.
#[cycle(renewing)]
#[inline(always)]
pub(crate) fn renew_side<A: AppendBlock>(
    vm: &mut Vm,
    alloc: Global,
    app: &App,
    cells: &Cells,
    trail: &mut Trail<'_>,
    step: PathStep,
    left: u32,
    body: &mut Codes,
    parent: &Option<NodeId>,
    moved: &mut Moved,
) -> Result<(), VmFault>
    requires calm { Calm vm.old }
    ensures ok { OnOk result (Renews app.now cells.now (λ n run. along_body_as by_number run left (path_step_view step ∷ trail_view trail.old) (seen_codes n body.old)) vm.old (λ n. seen_codes n body.new) vm.new) }
    ensures fails { IfErr result (RenewFails {A = PlainCodes} app.now cells.now (λ n run. along_body_as by_number run left (path_step_view step ∷ trail_view trail.old) (seen_codes n body.old)) vm.old) }
    ensures moved { OnOk result (CodesMoved moved.old moved.new (λ n. seen_codes n body.old) (λ n. seen_codes n body.new)) }
    ensures asked { OnOk result (Asks app.now cells.now (AsksBody left (path_step_view step ∷ trail_view trail.old) (λ n. seen_codes n body.old)) vm.old moved.old.asked moved.new.asked) }
    ensures trail { OnOk result (trail.new ≡ trail.old) }
    ensures calm { Calm vm.new }
    ensures nodes { OnOk result (NodesRenewed vm.old.tree vm.new.tree moved.old.items moved.new.items (stamp_of parent.now) (λ n. codes_nest n body.old) (λ n. codes_nest n body.new)) }
{
    moved.ask(1)?;
    let mark = moved.mark(vm);
    if enters_body(vm, body)? {
        match renew_below::<A>(
            vm, alloc, app, cells, trail, step, left, body, parent, moved,
        ) {
            Ok(()) => {
                moved.close(&mark, vm);
                Ok(())
            }
            Err(fault) => Err(fault),
        }
    } else {
        Ok(())
    }
}

/// The body of a `let`.
#[cycle(renewing)]
#[inline(never)]
fn renew_let<A: AppendBlock>(
    vm: &mut Vm,
    alloc: Global,
    app: &App,
    cells: &Cells,
    trail: &mut Trail<'_>,
    left: u32,
    body: &mut Codes,
    parent: &Option<NodeId>,
    moved: &mut Moved,
) -> Result<(), VmFault>
    requires calm { Calm vm.old }
    ensures ok { OnOk result (Renews app.now cells.now (λ n run. along_codes_as by_number run left (main ∷ trail_view trail.old) 0 (seen_codes n body.old)) vm.old (λ n. seen_codes n body.new) vm.new) }
    ensures fails { IfErr result (RenewFails {A = PlainCodes} app.now cells.now (λ n run. along_codes_as by_number run left (main ∷ trail_view trail.old) 0 (seen_codes n body.old)) vm.old) }
    ensures moved { OnOk result (CodesMoved moved.old moved.new (λ n. seen_codes n body.old) (λ n. seen_codes n body.new)) }
    ensures asked { OnOk result (Asks app.now cells.now (AsksIn left (main ∷ trail_view trail.old) (λ n. seen_codes n body.old)) vm.old moved.old.asked moved.new.asked) }
    ensures trail { OnOk result (trail.new ≡ trail.old) }
    ensures calm { Calm vm.new }
    ensures nodes { OnOk result (NodesRenewed vm.old.tree vm.new.tree moved.old.items moved.new.items (stamp_of parent.now) (λ n. codes_nest n body.old) (λ n. codes_nest n body.new)) }
{
    let step = PathStep::Then;
    renew_below::<A>(
        vm, alloc, app, cells, trail, step, left, body, parent, moved,
    )
}

/// What stands in the place of a list's items.
#[cycle(renewing)]
#[inline(never)]
pub(crate) fn renew_else<A: AppendBlock>(
    vm: &mut Vm,
    alloc: Global,
    app: &App,
    cells: &Cells,
    trail: &mut Trail<'_>,
    left: u32,
    body: &mut Codes,
    parent: &Option<NodeId>,
    moved: &mut Moved,
) -> Result<(), VmFault>
    requires calm { Calm vm.old }
    ensures ok { OnOk result (Renews app.now cells.now (λ n run. along_body_as by_number run left (otherwise ∷ trail_view trail.old) (seen_codes n body.old)) vm.old (λ n. seen_codes n body.new) vm.new) }
    ensures fails { IfErr result (RenewFails {A = PlainCodes} app.now cells.now (λ n run. along_body_as by_number run left (otherwise ∷ trail_view trail.old) (seen_codes n body.old)) vm.old) }
    ensures moved { OnOk result (CodesMoved moved.old moved.new (λ n. seen_codes n body.old) (λ n. seen_codes n body.new)) }
    ensures asked { OnOk result (Asks app.now cells.now (AsksBody left (otherwise ∷ trail_view trail.old) (λ n. seen_codes n body.old)) vm.old moved.old.asked moved.new.asked) }
    ensures trail { OnOk result (trail.new ≡ trail.old) }
    ensures calm { Calm vm.new }
    ensures nodes { OnOk result (NodesRenewed vm.old.tree vm.new.tree moved.old.items moved.new.items (stamp_of parent.now) (λ n. codes_nest n body.old) (λ n. codes_nest n body.new)) }
{
    let step = PathStep::Else;
    renew_side::<A>(
        vm, alloc, app, cells, trail, step, left, body, parent, moved,
    )
}

/// A block that was yielded to, or what stands in its place.
#[cycle(renewing)]
#[inline(never)]
fn renew_yield<A: AppendBlock>(
    vm: &mut Vm,
    alloc: Global,
    app: &App,
    cells: &Cells,
    trail: &mut Trail<'_>,
    left: u32,
    name: &Text,
    body: &mut Codes,
    parent: &Option<NodeId>,
    moved: &mut Moved,
) -> Result<(), VmFault>
    requires calm { Calm vm.old }
    ensures ok { OnOk result (Renews app.now cells.now (λ n run. along_codes_as by_number run left (slot name.now ∷ trail_view trail.old) 0 (seen_codes n body.old)) vm.old (λ n. seen_codes n body.new) vm.new) }
    ensures fails { IfErr result (RenewFails {A = PlainCodes} app.now cells.now (λ n run. along_codes_as by_number run left (slot name.now ∷ trail_view trail.old) 0 (seen_codes n body.old)) vm.old) }
    ensures moved { OnOk result (CodesMoved moved.old moved.new (λ n. seen_codes n body.old) (λ n. seen_codes n body.new)) }
    ensures asked { OnOk result (Asks app.now cells.now (AsksIn left (slot name.now ∷ trail_view trail.old) (λ n. seen_codes n body.old)) vm.old moved.old.asked moved.new.asked) }
    ensures trail { OnOk result (trail.new ≡ trail.old) }
    ensures calm { Calm vm.new }
    ensures nodes { OnOk result (NodesRenewed vm.old.tree vm.new.tree moved.old.items moved.new.items (stamp_of parent.now) (λ n. codes_nest n body.old) (λ n. codes_nest n body.new)) }
{
    let step = PathStep::Slot(name.copy()?);
    renew_below::<A>(
        vm, alloc, app, cells, trail, step, left, body, parent, moved,
    )
}

/// What was rendered of a component, of which the path is its instance's: one level of nesting less is left.
#[cycle(renewing)]
#[inline(never)]
fn renew_component<A: AppendBlock>(
    vm: &mut Vm,
    alloc: Global,
    app: &App,
    cells: &Cells,
    path: &Path,
    left: u32,
    body: &mut Codes,
    parent: &Option<NodeId>,
    moved: &mut Moved,
) -> Result<(), VmFault>
    requires calm { Calm vm.old }
    ensures ok { OnOk result ((i : _) (made gm : _) (args : _) (k : _) (p : _) → i.path ≡ path_view path.now → Renews app.now cells.now (λ n run. along_code_as by_number run left p (c.component_code i made gm args k (seen_codes n body.old))) vm.old (λ n. c.component_code i made gm args k (seen_codes n body.new)) vm.new) }
    ensures fails { (i : _) (made gm : _) (args : _) (k : _) (p : _) → i.path ≡ path_view path.now → IfErr result (RenewFails {A = PlainCode} app.now cells.now (λ n run. along_code_as by_number run left p (c.component_code i made gm args k (seen_codes n body.old))) vm.old) }
    ensures moved { OnOk result (CodesMoved moved.old moved.new (λ n. seen_codes n body.old) (λ n. seen_codes n body.new)) }
    ensures asked { OnOk result ((i : _) (made gm : _) (args : _) (k : _) (p : _) → i.path ≡ path_view path.now → Asks app.now cells.now (AsksCode left p (λ n. c.component_code i made gm args k (seen_codes n body.old))) vm.old moved.old.asked moved.new.asked) }
    ensures calm { Calm vm.new }
    ensures nodes { OnOk result (NodesRenewed vm.old.tree vm.new.tree moved.old.items moved.new.items (stamp_of parent.now) (λ n. codes_nest n body.old) (λ n. codes_nest n body.new)) }
{
    if left == 0 {
        return Err(VmFault::Memory);
    }
    let mut trail = Trail::of(alloc, path);
    renew_body::<A>(
        vm,
        alloc,
        app,
        cells,
        &mut trail,
        left - 1,
        body,
        parent,
        moved,
    )
}
