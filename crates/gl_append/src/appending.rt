// Bodies that are appended in the middle of a page.
use crate::machine::Machine;
use gl_code::{AppendBlock, Cells, Codes, Sight, VmFault};
use gl_meaning::Path;
use gl_opc::App;
use gl_vm::Vm;
use std::alloc::Global;

/// The opcodes, which append what an update asks for.
pub struct Opcodes;

impl AppendBlock for Opcodes {
    #[inline(never)]
    fn append_block(
        vm: &mut Vm,
        alloc: Global,
        app: &App,
        cells: &Cells,
        sight: Sight,
        pc: u32,
        path: Path,
        left: u32,
    ) -> Result<Codes, VmFault> {
        let mut machine = Machine::new(alloc, sight, pc, path, left);
        match machine.run(vm, app, cells) {
            Ok(()) => Ok(machine.finish()),
            Err(fault) => Err(fault),
        }
    }
}
