// Elements: where a tag ends and the body begins, and where the body ends.
ghost use Rattle.std.specs.Prelude.{◌≡◌, map, OnOk};
ghost use Rattle.gl_meaning.specs.View.{path_view};
ghost use Rattle.gl_machine.specs.Step as s;
ghost use Rattle.gl_vm.specs.View.{Agrees, Calm};
ghost use Rattle.gl_vm.specs.Steps.{Rooted};
ghost use Rattle.gl_code.specs.CodeView.{seen_attr_spot};
ghost use Rattle.gl_append.specs.MachineView.{seen_here, seen_kind, mach_of};
ghost use Rattle.gl_parts.specs.Parts.{seen_parts};
ghost use Rattle.gl_append.specs.Steps.{Changes, Takes, GoesOn};
ghost use Rattle.gl_append.specs.TagSteps.{element_begun, element_entered};

use crate::machine::{Frame, Kind, Machine, Making};
use gl_code::{AttrSpot, Code};
use gl_meaning::Path;
use gl_nodes::{Attrs, NodeId};
use gl_parts::{Attributes, Waiting, flush, install_all};
use gl_refs::Ids;
use gl_vm::Vm;
use std::alloc::AllocError;
use std::mem;

impl Machine {
    // The body of an element begins at a path.
    fn enter_element(
        &mut self,
        path: Path,
        node: NodeId,
        attrs: Vec<AttrSpot>,
        parts: Vec<Waiting>,
    ) -> Result<(), AllocError>
        ensures { OnOk result (Changes (λ n. element_entered node.1 (map seen_attr_spot attrs.items) (seen_parts n parts.items) (path_view path)) self.old self.new) }
    {
        self.advance()?;
        let made = mem::replace(&mut self.made, Ids::new(self.alloc));
        self.begin(
            path,
            Kind::Element {
                node,
                made,
                attrs,
                parts,
            },
        )
    }

    // The element is made with these attributes, and its body begins.
    fn begin_element(&mut self, vm: &mut Vm, given: Attributes) -> Result<(), AllocError>
        ensures step { OnOk result (Takes (λ n. element_begun given.attrs.items (map seen_attr_spot given.spots.items)) vm.old self.old vm.new self.new) }
        ensures calm { Calm vm.old → Calm vm.new }
        ensures roots { OnOk result (Rooted vm.old.tree vm.new.tree) }
    {
        let Attributes { attrs, spots } = given;
        let path = self.next_path()?;
        let making = mem::replace(&mut self.making, Making::idle(self.alloc));
        let node = vm.element_with(making.tag, Attrs::from_vec(attrs))?;
        self.enter_element(path, node, spots, making.parts)
    }

    // A tag ends: the element is made with its attributes, and its body begins.
    pub(crate) fn do_flush(&mut self, vm: &mut Vm) -> Result<(), AllocError>
        requires calm { Calm vm.old }
        ensures step { OnOk result (Takes (λ n. s.do_flush) vm.old self.old vm.new self.new) }
        ensures calm { Calm vm.new }
        ensures roots { OnOk result (Rooted vm.old.tree vm.new.tree) }
    {
        let given = flush(self.alloc, vm, self.making.parts.as_slice())?;
        self.begin_element(vm, given)
    }

    // An element ends: its modifiers are installed.
    pub(crate) fn do_close(&mut self, vm: &mut Vm) -> Result<(), AllocError>
        requires calm { Calm vm.old }
        ensures step { OnOk result (Takes (λ n m. s.with_top m s.do_close) vm.old self.old vm.new self.new) }
        ensures calm { Calm vm.new }
        ensures tree { vm.new.tree ≡ vm.old.tree }
    {
        match self.pop_frame()? {
            Some(frame) => self.end_element(vm, frame),
            None => Err(AllocError),
        }
    }

    // The element of a frame ends.
    fn end_element(&mut self, vm: &mut Vm, frame: Frame) -> Result<(), AllocError>
        requires calm { Calm vm.old }
        ensures step { OnOk result ((n : _) (touched : _) → Agrees touched vm.old → GoesOn n (s.do_close (mach_of n touched vm.old self.old) (mach_of n touched vm.old self.old).rest.frames (seen_here n frame.here) (seen_kind n frame.kind)) vm.new self.new) }
        ensures calm { Calm vm.new }
        ensures tree { vm.new.tree ≡ vm.old.tree }
    {
        if self.is_calling() {
            return Err(AllocError);
        }
        let Frame { here, kind } = frame;
        match kind {
            Kind::Element {
                node,
                made,
                attrs,
                parts,
            } => {
                let mods = install_all(self.alloc, vm, node, parts.as_slice())?;
                let body = self.end(here);
                let code = Code::element(node, made, attrs, mods, body);
                self.show(code)
            }
            _ => Err(AllocError),
        }
    }
}
