// The whole page.
ghost use Rattle.std.specs.Prelude.{◌≡◌, [], Some, None, position, IfOk, IfErr, OnOk};
ghost use Rattle.std.specs.Str.{bytes_eq};
ghost use Rattle.gl_meaning.specs.View.{class_view, manifest_view};
ghost use Rattle.gl_opc.specs.Numbers.{class_number};
ghost use Rattle.gl_machine.specs.Code.{live_of};
ghost use Rattle.gl_machine.specs.Shape.{nest};
ghost use Rattle.gl_machine.specs.Mach as m;
ghost use Rattle.gl_machine.specs.Sight.{sight, not_passed};
ghost use Rattle.gl_vm.specs.View.{Calm};
ghost use Rattle.gl_code.specs.View.{seen_owner, seen_sight};
ghost use Rattle.gl_code.specs.CodeView.{seen_code, seen_codes};
ghost use Rattle.gl_append.specs.MachineView.{seen_here};
ghost use Rattle.gl_code.specs.Hung.{nest_of};
ghost use Rattle.gl_append.specs.Page.{MakesRoot, RunsRoot, RootFails, Appends, AppendFails};

use crate::machine::Machine;
use gl_code::{
    Cells, Code, Codes, Owner, Page, Sight, VmFault, class_at, deeper, hang, instantiate,
    lay_cells, own_level,
};
use gl_meaning::{Class, Manifest, Path, PathSteps};
use gl_opc::App;
use gl_scope::Args;
use gl_value::Text;
use gl_vm::Vm;
use std::alloc::{AllocError, Global};
use std::rc::Rc;

impl Machine {
    // What was rendered of the present body.
    pub(crate) fn finish(self) -> Codes
        ensures { (n : _) → seen_codes n result ≡ m.all_of (seen_here n self.here).codes }
    {
        let Machine { here, .. } = self;
        let mut list = here.codes;
        list.shrink_to_fit();
        Codes { list }
    }
}

// The place of the first class of a name.
fn place_of(classes: &[Class], name: &Text) -> Option<usize>
    ensures { result ≡ position (λ x. bytes_eq name.now x.name) classes.now }
{
    classes.iter().position(|class| name.same(&class.name))
}

// The place of the class that is rendered.
fn root_place(manifest: &Manifest) -> Option<usize>
    ensures { result ≡ class_number (manifest_view manifest.now) manifest.now.root }
{
    place_of(manifest.classes.as_slice(), &manifest.root)
}

// The number of the class that is rendered.
fn root_class(manifest: &Manifest) -> Result<u16, AllocError>
    ensures { IfOk result (λ q. class_number (manifest_view manifest.now) manifest.now.root ≡ Some q) }
{
    match root_place(manifest) {
        None => Err(AllocError),
        Some(place) => {
            if place > u16::MAX as usize {
                return Err(AllocError);
            }
            Ok(place as u16)
        }
    }
}

// Makes the root: its cells, and its instance.
fn make_root(
    vm: &mut Vm,
    alloc: Global,
    class: &Class,
    cells: &Cells,
    number: u16,
) -> Result<Rc<Owner>, AllocError>
    ensures step { IfOk result (λ o. MakesRoot (class_view class.now) cells.now number vm.old vm.new o.value) }
    ensures class { IfOk result (λ o. o.value.class ≡ number) }
    ensures calm { Calm vm.old → Calm vm.new }
{
    let path = Path {
        steps: PathSteps::new(alloc),
    };
    let ids = lay_cells(vm, alloc, cells, &path, class.fields.as_slice())?;
    let owner = instantiate(vm, alloc, number, path, ids)?;
    Ok(owner)
}

// What the root sees: no arguments, and nothing passed.
fn root_sight(alloc: Global, owner: &Rc<Owner>) -> Result<Sight, AllocError>
    ensures { IfOk result (λ s. (n : _) → seen_sight n s ≡ sight owner.now.value.class (seen_owner n owner.now.value) [] [] not_passed) }
{
    let args = Rc::new(alloc, Args::new(alloc))?;
    let level = own_level(alloc, owner, &args)?;
    Ok(Sight {
        level,
        chain: Vec::new(alloc),
    })
}

/// Appends the page: the root over these cells, with all below it.
pub fn append(alloc: Global, app: &App, cells: &Cells) -> Result<Page, VmFault>
    ensures ok { IfOk result (λ p. Appends app.now cells.now p.vm p.code) }
    ensures nodes { IfOk result (λ p. (n : _) → nest_of p.vm.tree.forest ≡ nest (live_of (seen_code n p.code))) }
    ensures fails { IfErr result (AppendFails app.now cells.now) }
    ensures calm { IfOk result (λ p. Calm p.vm) }
{
    let manifest = app.manifest();
    let number = root_class(manifest)?;
    let class = class_at(app, number)?;
    if !manifest.root.same(&class.name) {
        return Err(VmFault::Memory);
    }
    let mut vm = Vm::new(alloc)?;
    if manifest.limit == 0 {
        return Err(VmFault::NestingLimit);
    }
    let left = deeper(manifest.limit)?;
    let owner = make_root(&mut vm, alloc, class, cells, number)?;
    match append_root(&mut vm, alloc, app, cells, owner, left) {
        Ok(code) => {
            hang_page(&mut vm, &code)?;
            Ok(Page { vm, code })
        }
        Err(fault) => Err(fault),
    }
}

// Appends what is below the root.
fn append_root(
    vm: &mut Vm,
    alloc: Global,
    app: &App,
    cells: &Cells,
    owner: Rc<Owner>,
    left: u32,
) -> Result<Code, VmFault>
    requires calm { Calm vm.old }
    ensures ok { IfOk result (λ k. RunsRoot app.now cells.now owner.value left vm.old vm.new k) }
    ensures fails { IfErr result (RootFails app.now cells.now owner.value left vm.old) }
    ensures calm { Calm vm.new }
{
    let sight = root_sight(alloc, &owner)?;
    let path = Path {
        steps: PathSteps::new(alloc),
    };
    let mut machine = Machine::new(alloc, sight, 0, path, left);
    match machine.run(vm, app, cells) {
        Ok(()) => Ok(Code::root(owner, machine.finish())),
        Err(fault) => Err(fault),
    }
}

// Puts the nodes of a page into the tree, where no node stands in it yet.
fn hang_page(vm: &mut Vm, code: &Code) -> Result<(), AllocError>
    ensures nodes { OnOk result ((n : _) → nest_of vm.new.tree.forest ≡ nest (live_of (seen_code n code.now))) }
    ensures rest { OnOk result ((vm.new ≡ record vm.old { tree = vm.new.tree }) × (vm.new.tree.nodes ≡ vm.old.tree.nodes)) }
{
    if vm.tree.first(None).is_some() {
        return Err(AllocError);
    }
    match code {
        Code::Root { body, .. } => hang(&mut vm.tree, None, body),
        _ => Err(AllocError),
    }
}
