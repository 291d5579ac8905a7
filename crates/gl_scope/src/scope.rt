// A scope, and a block with the scope that wrote it.
ghost use Rattle.std.specs.Prelude.{◌≡◌, IfOk};

use crate::{Args, Locals, Passed};
use gl_arena::{BlockId, Id, InstMark};
use std::alloc::AllocError;

/// What an expression sees.
#[derive(Drop)]
pub struct Scope {
    /// The instance of `this`.
    pub owner: Id<InstMark>,
    pub args: Args,
    pub locals: Locals,
    pub passed: Passed,
    /// The parts that the invocation wrote, as a block that starts at their first word. The root has none.
    pub spread: Option<BlockId>,
}

impl Scope {
    pub fn copy(&self) -> Result<Scope, AllocError>
        ensures { IfOk result (λ s. s ≡ self.now) }
    {
        Ok(Scope {
            owner: self.owner,
            args: self.args.copy()?,
            locals: self.locals.copy()?,
            passed: self.passed.copy()?,
            spread: self.spread,
        })
    }
}

/// A block: its class, the address of its first word in that class's program, and the scope that wrote it.
#[derive(Drop)]
pub struct Block {
    pub class: u16,
    pub start: u32,
    pub scope: Scope,
}
