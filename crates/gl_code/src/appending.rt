// What appends bodies, as those see it that stand beside the opcodes.
ghost use Rattle.std.specs.Prelude.{IfOk, IfErr};
ghost use Rattle.gl_meaning.specs.View.{path_view};
ghost use Rattle.gl_machine.specs.Code.{Codes as PlainCodes};
ghost use Rattle.gl_machine.specs.RenewCode.{start};
ghost use Rattle.gl_vm.specs.View.{Calm};
ghost use Rattle.gl_vm.specs.Steps.{Rooted};
ghost use Rattle.gl_code.specs.View.{seen_sight};
ghost use Rattle.gl_code.specs.CodeView.{seen_codes};
ghost use Rattle.gl_code.specs.Renewing.{Renews, RenewFails};

use crate::{Cells, Codes, Sight, VmFault};
use gl_meaning::Path;
use gl_opc::App;
use gl_vm::Vm;
use std::alloc::Global;

/// What runs the words of a block. An update asks for no more than this contract, so it stands beside the opcodes, which keep it.
pub trait AppendBlock {
    /// Appends one block in the middle of a page, over the cells of now and those that are given for paths: from the address of its first
    /// word, with what is seen there, at its path, where components may still nest so deep. Its nodes are made, and stand nowhere yet: the
    /// caller puts them into the tree (`hang` in an element). The answer is the part of the updating program that was recorded.
    /// `NestingLimit` comes where a component of it would stand deeper.
    fn append_block(
        vm: &mut Vm,
        alloc: Global,
        app: &App,
        cells: &Cells,
        sight: Sight,
        pc: u32,
        path: Path,
        left: u32,
    ) -> Result<Codes, VmFault>
        requires calm { Calm vm.old }
        ensures ok { IfOk result (λ r. Renews app.now cells.now (λ n run. run (start (seen_sight n sight) pc (path_view path) left)) vm.old (λ n. seen_codes n r) vm.new) }
        ensures fails { IfErr result (RenewFails {A = PlainCodes} app.now cells.now (λ n run. run (start (seen_sight n sight) pc (path_view path) left)) vm.old) }
        ensures roots { IfOk result (λ r. Rooted vm.old.tree vm.new.tree) }
        ensures calm { Calm vm.new };
}
