// `let` and the parameters of blocks.
ghost use Rattle.std.specs.Prelude.{◌≡◌, ◌∷◌, [], suc, IfOk, OnOk};
ghost use Rattle.gl_meaning.specs.View.{path_view};
ghost use Rattle.gl_machine.specs.Step as s;
ghost use Rattle.gl_plain.specs.Ids.{ref};
ghost use Rattle.gl_machine.specs.Sight.{with_locals};
ghost use Rattle.gl_vm.specs.View.{stamps, Calm};
ghost use Rattle.gl_code.specs.View.{seen_sight};
ghost use Rattle.gl_machine.specs.Mach.{going};
ghost use Rattle.gl_append.specs.MachineView.{mach_by, seen_here, seen_kind};
ghost use Rattle.gl_append.specs.Steps.{Moves, Changes, Takes, TakesFirst, KeepsMade, let_entered};

use crate::machine::{Frame, Kind, Machine};
use crate::stack::{positional, take_last};
use gl_code::{Code, Sight, onward, params_from, same_ids};
use gl_meaning::{Path, PathStep};
use gl_refs::{Ids, RefId};
use gl_value::Value;
use gl_vm::Vm;
use std::alloc::{AllocError, Global};
use std::mem;

impl Frame {
    // The frame, which keeps what was made for a parameter.
    pub(crate) fn keeping(self, id: RefId) -> Result<Frame, AllocError>
        ensures here { IfOk result (λ f. f.here ≡ self.here) }
        ensures kind { IfOk result (λ f. (n : _) → seen_kind n f.kind ≡ s.with_made (ref id.1) (seen_kind n self.kind)) }
    {
        let Frame { here, kind } = self;
        let kind = match kind {
            Kind::Let {
                sight,
                pending,
                mut made,
            } => {
                made.push(id)?;
                Kind::Let {
                    sight,
                    pending,
                    made,
                }
            }
            Kind::Block {
                back,
                name,
                mut made,
                locals,
            } => {
                made.push(id)?;
                Kind::Block {
                    back,
                    name,
                    made,
                    locals,
                }
            }
            _ => return Err(AllocError),
        };
        Ok(Frame { here, kind })
    }
}

impl Machine {
    // A `let` over the last ones of the stack begins.
    pub(crate) fn do_let(&mut self, count: u32) -> Result<(), AllocError>
        ensures { OnOk result (Moves (λ n. s.do_let count) self.old self.new) }
    {
        let taken = take_last(&mut self.stack, count)?;
        let pending = positional(self.alloc, taken.as_slice())?;
        let sight = self.sight.copy()?;
        let path = self.next_path()?;
        let path = onward(path, PathStep::Then)?;
        self.begin_let(path, sight, pending)
    }

    // A `let` ends.
    pub(crate) fn do_end_let(&mut self) -> Result<(), AllocError>
        ensures { OnOk result (Moves (λ n m. s.with_top m s.do_end_let) self.old self.new) }
    {
        match self.pop_frame()? {
            Some(frame) => self.end_let(frame),
            None => Err(AllocError),
        }
    }

    fn end_let(&mut self, frame: Frame) -> Result<(), AllocError>
        ensures { OnOk result ((n : _) (st : _) → s.do_end_let (mach_by n st self.old) (mach_by n st self.old).rest.frames (seen_here n frame.here) (seen_kind n frame.kind) ≡ going (mach_by n st self.new)) }
    {
        let Frame { here, kind } = frame;
        match kind {
            Kind::Let {
                sight,
                pending,
                made,
            } => {
                if self.is_calling() {
                    return Err(AllocError);
                }
                let locals = self.sight.level.locals.as_slice();
                let params = params_from(self.alloc, locals, sight.level.locals.len())?;
                self.sight = sight;
                self.pending = pending;
                let body = self.end(here);
                let code = Code::named(made, params, body);
                self.show(code)
            }
            _ => Err(AllocError),
        }
    }

    fn begin_let(&mut self, path: Path, sight: Sight, pending: Ids) -> Result<(), AllocError>
        ensures { OnOk result (Changes (λ n. let_entered (stamps pending) (seen_sight n sight) (path_view path)) self.old self.new) }
    {
        self.advance()?;
        let pending = mem::replace(&mut self.pending, pending);
        let made = mem::replace(&mut self.made, Ids::new(self.alloc));
        self.begin(
            path,
            Kind::Let {
                sight,
                pending,
                made,
            },
        )
    }

    // A parameter takes the reference that is next among those that wait, or a new one, which is undefined.
    pub(crate) fn do_bind(&mut self, vm: &mut Vm, symbol: u32) -> Result<(), AllocError>
        ensures step { OnOk result (Takes (λ n m. s.do_bind symbol m m.rest.pending) vm.old self.old vm.new self.new) }
        ensures calm { Calm vm.old → Calm vm.new }
        ensures tree { vm.new.tree ≡ vm.old.tree }
    {
        match take_first(self.alloc, &mut self.pending)? {
            Some(id) => self.add_param(symbol, id),
            None => {
                let id = vm.constant(Value::Undefined)?;
                self.keep_made(id)?;
                self.add_param(symbol, id)
            }
        }
    }

    // What is made for a parameter is kept by the last frame.
    fn keep_made(&mut self, id: RefId) -> Result<(), AllocError>
        ensures { OnOk result (KeepsMade self.old self.new id) }
    {
        match self.pop_frame()? {
            Some(frame) => {
                let frame = frame.keeping(id)?;
                self.frames.push(frame)?;
                Ok(())
            }
            None => Err(AllocError),
        }
    }

    fn add_param(&mut self, symbol: u32, id: RefId) -> Result<(), AllocError>
        ensures { OnOk result (Changes (λ n m. record m { pc = suc m.pc; rest = record m.rest { sight = with_locals ((symbol, id.1) ∷ []) m.rest.sight } }) self.old self.new) }
    {
        self.advance()?;
        self.sight.level.locals.push(symbol, id)
    }
}

// Takes the first of a list.
pub(crate) fn take_first(alloc: Global, ids: &mut Ids) -> Result<Option<RefId>, AllocError>
    ensures { IfOk result (TakesFirst ids.old ids.new) }
{
    match ids.as_slice().split_first() {
        None => Ok(None),
        Some((first, rest)) => {
            let first = *first;
            let rest = same_ids(alloc, rest)?;
            *ids = rest;
            Ok(Some(first))
        }
    }
}
