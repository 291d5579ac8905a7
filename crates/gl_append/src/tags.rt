// Tags that are begun, and their parts.
ghost use Rattle.std.specs.Prelude.{◌≡◌, ◌∷◌, [], OnOk};
ghost use Rattle.gl_machine.specs.Step as s;
ghost use Rattle.gl_machine.specs.Mach.{idle};
ghost use Rattle.gl_parts.specs.Parts.{seen_part};
ghost use Rattle.gl_append.specs.MachineView.{seen_pushed, seen_making};
ghost use Rattle.gl_append.specs.Steps.{Moves};

use crate::machine::{Machine, Making, Pushed};
use crate::stack::{named_ones, positional, take_last};
use gl_parts::Waiting;
use gl_scope::Args;
use gl_value::Text;
use std::alloc::{AllocError, Global};

impl Making {
    // No tag is under way. It takes no memory.
    pub(crate) fn idle(alloc: Global) -> Making
        ensures { (n : _) → seen_making n result ≡ idle }
    {
        Making {
            tag: Text::new(alloc),
            class: 0,
            args: Args::new(alloc),
            parts: Vec::new(alloc),
            start: 0,
            slots: Vec::new(alloc),
        }
    }
}

impl Machine {
    // A tag begins.
    pub(crate) fn do_open(&mut self, tag: &Text) -> Result<(), AllocError>
        ensures { OnOk result (Moves (λ n. s.do_open tag.now) self.old self.new) }
    {
        self.advance()?;
        self.making.tag = tag.copy()?;
        Ok(())
    }

    // A component's tag begins.
    pub(crate) fn do_comp(&mut self, class: u16) -> Result<(), AllocError>
        ensures { OnOk result (Moves (λ n. s.do_comp class) self.old self.new) }
    {
        self.advance()?;
        self.making.class = class;
        self.making.start = self.pc;
        Ok(())
    }

    // A part of the tag.
    pub(crate) fn add_part(&mut self, part: Waiting) -> Result<(), AllocError>
        ensures { OnOk result (Moves (λ n. s.add_parts (seen_part n part ∷ [])) self.old self.new) }
    {
        self.advance()?;
        self.making.parts.push(part)?;
        Ok(())
    }

    // An attribute with a text.
    pub(crate) fn do_attr(&mut self, name: &Text, text: &Text) -> Result<(), AllocError>
        ensures { OnOk result (Moves (λ n. s.do_attr name.now text.now) self.old self.new) }
    {
        let name = name.copy()?;
        let text = text.copy()?;
        self.add_part(Waiting::Fixed { name, text })
    }

    // An attribute with the reference on the top.
    pub(crate) fn do_attr_ref(&mut self, name: &Text, top: Pushed) -> Result<(), AllocError>
        ensures { OnOk result (Moves (λ n m. s.do_attr_ref name.now m (m.stack, seen_pushed top)) self.old self.new) }
    {
        let name = name.copy()?;
        self.add_part(Waiting::Live { name, id: top.id })
    }

    // A modifier over the last ones of the stack.
    pub(crate) fn do_mod(&mut self, name: u32, count: u32) -> Result<(), AllocError>
        ensures { OnOk result (Moves (λ n. s.do_mod count (n.modifier name)) self.old self.new) }
    {
        let taken = take_last(&mut self.stack, count)?;
        let args = positional(self.alloc, taken.as_slice())?;
        let named = named_ones(self.alloc, taken.as_slice())?;
        self.add_part(Waiting::Modifier { name, args, named })
    }

    // An argument with the reference on the top. The parts begin behind the last of them.
    pub(crate) fn do_arg(&mut self, name: &Text, top: Pushed) -> Result<(), AllocError>
        ensures { OnOk result (Moves (λ n m. s.do_arg name.now m (m.stack, seen_pushed top)) self.old self.new) }
    {
        self.advance()?;
        self.making.args.push(name.copy()?, top.id)?;
        self.making.start = self.pc;
        Ok(())
    }
}
