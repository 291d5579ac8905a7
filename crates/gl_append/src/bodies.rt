// Bodies that begin and end.
ghost use Rattle.std.specs.Prelude.{◌≡◌, [], false, IfOk, OnOk, Some, None};
ghost use Rattle.gl_meaning.specs.View.{path_view};
ghost use Rattle.gl_machine.specs.Mach as m;
ghost use Rattle.gl_machine.specs.Step as s;
ghost use Rattle.gl_append.specs.MachineView.{seen_here};
ghost use Rattle.gl_append.specs.Steps.{Moves, Begins, Ends, PopsFrame};

use crate::machine::{Frame, Here, Kind, Machine};
use gl_code::{Codes, Slot, below};
use gl_meaning::{Path, PathStep};
use gl_value::Text;
use std::alloc::AllocError;
use std::mem;

impl Machine {
    // The path of the next statement.
    pub(crate) fn next_path(&self) -> Result<Path, AllocError>
        ensures { IfOk result (λ p. (n : _) → path_view p ≡ m.next_at (seen_here n self.now.here)) }
    {
        below(self.alloc, &self.here.path, PathStep::At(self.here.index))
    }

    // A body begins.
    pub(crate) fn begin(&mut self, path: Path, kind: Kind) -> Result<(), AllocError>
        ensures { OnOk result (Begins self.old self.new path kind) }
    {
        if !self.calls.is_empty() {
            return Err(AllocError);
        }
        let fresh = Here {
            path,
            index: 0,
            codes: Vec::new(self.alloc),
        };
        let here = mem::replace(&mut self.here, fresh);
        self.frames.push(Frame { here, kind })?;
        Ok(())
    }

    // A body ends: the one round it is gone on with, and what was rendered is handed out.
    pub(crate) fn end(&mut self, here: Here) -> Codes
        ensures { Ends self.old self.new here result }
    {
        let ended = mem::replace(&mut self.here, here);
        let mut list = ended.codes;
        list.shrink_to_fit();
        Codes { list }
    }

    // Whether a call is under way.
    pub(crate) fn is_calling(&self) -> bool
        ensures { result ≡ false → self.now.calls.items ≡ [] }
    {
        match self.calls.as_slice() {
            [] => false,
            _ => true,
        }
    }

    // The last frame, where there is one and no call is under way.
    pub(crate) fn pop_frame(&mut self) -> Result<Option<Frame>, AllocError>
        ensures { IfOk result (PopsFrame self.old self.new) }
    {
        if self.is_calling() {
            return Err(AllocError);
        }
        match self.frames.pop() {
            Some(frame) => Ok(Some(frame)),
            None => Ok(None),
        }
    }

    // A block that is passed: its words are passed over.
    pub(crate) fn do_block(&mut self, name: &Text, next: u32) -> Result<(), AllocError>
        ensures { OnOk result (Moves (λ n. s.do_block name.now next) self.old self.new) }
    {
        let name = name.copy()?;
        self.advance()?;
        let start = self.pc;
        self.making.slots.push(Slot { name, start })?;
        self.pc = next;
        Ok(())
    }

    // No block is passed.
    pub(crate) fn do_bare(&mut self) -> Result<(), AllocError>
        ensures { OnOk result (Moves (λ n. s.do_bare) self.old self.new) }
    {
        self.advance()
    }
}
