// The programs of a class.
use crate::{Program, ProgramList};

/// The programs of a class: that of its template, those of its getters by name, and those of all expressions of its
/// actions by name and step. In a step `when` comes first.
#[derive(Drop)]
pub struct ClassProgram {
    pub template: Program,
    pub getters: ProgramList,
    pub actions: ProgramList,
}
