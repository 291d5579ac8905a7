// Components.
ghost use Rattle.std.specs.Prelude.{◌≡◌, IfOk, OnOk, None, suc};
ghost use Rattle.gl_meaning.specs.View.{path_view, class_view};
ghost use Rattle.gl_plain.specs.Ids.{a_block};
ghost use Rattle.gl_plain.specs.State.{block_row, make};
ghost use Rattle.gl_machine.specs.Sight.{sight};
ghost use Rattle.gl_machine.specs.Step as s;
ghost use Rattle.gl_vm.specs.View.{Calm, name_stamps};
ghost use Rattle.gl_vm.specs.Steps.{Does, Numbers};
ghost use Rattle.gl_code.specs.View.{refs_made, seen_owner, seen_sight};
ghost use Rattle.gl_append.specs.Steps.{Changes, MovesFrame};
ghost use Rattle.gl_append.specs.Components.{Invokes, component_entered, program_entered};

use crate::machine::{Frame, Kind, Machine, Making};
use gl_arena::{BlockId, Id, InstMark};
use gl_code::{
    Cells, Code, Owner, Sight, after, deeper, instantiate, lay_cells, onward, own_level, path_copy,
};
use gl_meaning::{Class, Path, PathStep};
use gl_refs::Ids;
use gl_scope::{Args, Block, Locals, Passed, Scope};
use gl_vm::Vm;
use std::alloc::{AllocError, Global};
use std::mem;
use std::rc::Rc;

// Makes a block for what is passed to a component. What is seen in it stands with those who see it, so of the block the
// id alone is used.
fn pass(vm: &mut Vm, alloc: Global, class: u16, owner: Id<InstMark>) -> Result<BlockId, AllocError>
    ensures step { IfOk result (λ id. Does (λ n. make a_block block_row) vm.old vm.new) }
    ensures id { IfOk result (λ id. Numbers vm.old.scopes vm.new.scopes id) }
    ensures calm { Calm vm.old → Calm vm.new }
    ensures tree { vm.new.tree ≡ vm.old.tree }
{
    vm.block(Block {
        class,
        start: 0,
        scope: Scope {
            owner,
            args: Args::new(alloc),
            locals: Locals::new(alloc),
            passed: Passed::new(alloc),
            spread: None,
        },
    })
}

impl Machine {
    // A component of this class begins over these cells, where components may nest one deeper.
    pub(crate) fn do_invoke(
        &mut self,
        vm: &mut Vm,
        class: &Class,
        cells: &Cells,
    ) -> Result<(), AllocError>
        ensures step { OnOk result (Invokes (class_view class.now) cells.now vm.old self.old vm.new self.new) }
        ensures calm { Calm vm.old → Calm vm.new }
        ensures tree { vm.new.tree ≡ vm.old.tree }
    {
        let path = self.next_path()?;
        let path = onward(path, PathStep::Into(class.name.copy()?))?;
        let present = self.sight.level.owner.as_ref();
        let block = pass(vm, self.alloc, present.class, present.id)?;
        let ids = lay_cells(vm, self.alloc, cells, &path, class.fields.as_slice())?;
        let own = path_copy(self.alloc, &path)?;
        let owner = instantiate(vm, self.alloc, self.making.class, own, ids)?;
        self.begin_component(owner, block, path)
    }

    // The program of a component is begun, of which the tag ends here.
    fn begin_component(
        &mut self,
        owner: Rc<Owner>,
        block: BlockId,
        path: Path,
    ) -> Result<(), AllocError>
        ensures { OnOk result ((left : _) → self.old.left ≡ suc left → Changes (λ n. component_entered (path_view path) owner.value.class (seen_owner n owner.value) block.1 (refs_made owner.value.cells) left) self.old self.new) }
    {
        let making = mem::replace(&mut self.making, Making::idle(self.alloc));
        let Making {
            tag: _,
            class: _,
            args,
            parts: _,
            start,
            slots,
        } = making;
        let chain = self.sight.with_passed(block, start, slots)?;
        let args = Rc::new(self.alloc, args)?;
        let level = own_level(self.alloc, &owner, &args)?;
        self.enter_program(owner, block, args, Sight { level, chain }, path)
    }

    fn enter_program(
        &mut self,
        owner: Rc<Owner>,
        block: BlockId,
        args: Rc<Args>,
        sight: Sight,
        path: Path,
    ) -> Result<(), AllocError>
        ensures { OnOk result ((left : _) → self.old.left ≡ suc left → Changes (λ n. program_entered (seen_sight n sight) (path_view path) (seen_owner n owner.value) block.1 (refs_made owner.value.cells) (name_stamps args.value) left) self.old self.new) }
    {
        let back = self.leave_for(sight)?;
        self.getter = None;
        self.pending = Ids::new(self.alloc);
        self.pc = 0;
        self.left = deeper(self.left)?;
        let made = mem::replace(&mut self.made, Ids::new(self.alloc));
        self.begin(
            path,
            Kind::Component {
                back,
                owner,
                block,
                made,
                args,
            },
        )
    }

    // A component's program ends.
    pub(crate) fn end_component(&mut self, frame: Frame) -> Result<(), AllocError>
        ensures { OnOk result (MovesFrame (λ n. s.do_done) self.old frame self.new) }
    {
        let Frame { here, kind } = frame;
        match kind {
            Kind::Component {
                back,
                owner,
                block,
                made,
                args,
            } => {
                if self.is_calling() {
                    return Err(AllocError);
                }
                self.left = after(self.left)?;
                let body = self.end(here);
                let code = Code::component(owner, block, made, args, body);
                self.return_with(back, code)
            }
            _ => Err(AllocError),
        }
    }
}
