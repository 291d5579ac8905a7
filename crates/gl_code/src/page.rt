// The whole page.

use crate::code::Code;
use gl_vm::Vm;

/// What is rendered: what the machine keeps, and the program that updates it.
#[derive(Drop)]
pub struct Page {
    pub vm: Vm,
    pub code: Code,
}
