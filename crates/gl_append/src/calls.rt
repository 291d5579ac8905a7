// Words elsewhere that are run for the present place: getters, and the parts for which `...attributes` stands.
ghost use Rattle.std.specs.Prelude.{◌≡◌, IfOk, OnOk, Some, true};
ghost use Rattle.gl_machine.specs.Sight.{passing, passing_in};
ghost use Rattle.gl_machine.specs.Step as s;
ghost use Rattle.gl_code.specs.View.{seen_sight};
ghost use Rattle.gl_append.specs.Steps.{Moves, LeavesFor, GoesBack, PopsCall, EndsParts};

use crate::machine::{Back, Call, Machine};
use gl_code::{Sight, copied, same_ids};
use std::alloc::AllocError;
use std::mem;

impl Machine {
    // Another scope is seen. Behind the present word it goes on as before.
    pub(crate) fn leave_for(&mut self, sight: Sight) -> Result<Back, AllocError>
        ensures { IfOk result (λ b. LeavesFor self.old self.new b sight) }
    {
        self.advance()?;
        let pending = same_ids(self.alloc, self.pending.as_slice())?;
        let sight = mem::replace(&mut self.sight, sight);
        Ok(Back {
            getter: self.getter,
            pc: self.pc,
            sight,
            pending,
        })
    }

    // A getter of the present instance, by its number in the class.
    pub(crate) fn do_getter(&mut self, getter: u32) -> Result<(), AllocError>
        ensures { OnOk result ((env : _) (store : _) → Moves (λ n. s.do_getter env store getter) self.old self.new) }
    {
        let sight = self.sight.own()?;
        let back = self.leave_for(sight)?;
        self.calls.push(Call::Getter(back))?;
        self.getter = Some(getter);
        self.pc = 0;
        Ok(())
    }

    // The words at an address are run in another scope, up to the word behind the parts.
    pub(crate) fn enter_parts(&mut self, parts: u32, sight: Sight) -> Result<(), AllocError>
        ensures { OnOk result ((k : _) (slots : _) → Moves (λ n m. s.spread_to m (passing k parts slots (seen_sight n sight))) self.old self.new) }
    {
        let back = self.leave_for(sight)?;
        self.calls.push(Call::Parts(back))?;
        self.getter = None;
        self.pc = parts;
        Ok(())
    }

    // `...attributes`: the parts that were passed, in the scope that wrote them.
    pub(crate) fn do_spread(&mut self) -> Result<(), AllocError>
        ensures { OnOk result (Moves (λ n m. s.spread_to m (passing_in m.rest.sight)) self.old self.new) }
    {
        match self.sight.chain.as_slice().split_first() {
            None => self.advance(),
            Some((link, rest)) => {
                let parts = link.parts;
                let level = link.level.copy()?;
                let chain = copied(self.alloc, rest)?;
                self.enter_parts(parts, Sight { level, chain })
            }
        }
    }

    // Goes back to where a call was begun.
    pub(crate) fn go_back(&mut self, back: Back)
        ensures { GoesBack self.old self.new back }
    {
        self.getter = back.getter;
        self.pc = back.pc;
        self.sight = back.sight;
        self.pending = back.pending;
    }

    // The last call, where there is one.
    pub(crate) fn pop_call(&mut self) -> Option<Call>
        ensures { PopsCall self.old self.new result }
    {
        match self.calls.pop() {
            Some(call) => Some(call),
            None => None,
        }
    }

    // Behind the words of the parts for which `...attributes` stands it is gone on where that was. Tells whether these are
    // the words that were run.
    pub(crate) fn end_parts(&mut self) -> Result<bool, AllocError>
        ensures { IfOk result (EndsParts self.old self.new) }
    {
        match self.calls.as_slice().split_last() {
            None => Ok(false),
            Some((Call::Getter(_), _)) => Ok(false),
            Some((Call::Each(_), _)) => Ok(false),
            Some((Call::Parts(_), _)) => self.leave_parts(),
        }
    }

    fn leave_parts(&mut self) -> Result<bool, AllocError>
        ensures { IfOk result (λ b. (b ≡ true) × EndsParts self.old self.new b) }
    {
        match self.pop_call() {
            Some(Call::Parts(back)) => {
                self.go_back(back);
                Ok(true)
            }
            _ => Err(AllocError),
        }
    }
}
