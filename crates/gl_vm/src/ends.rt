// What ends.
ghost use Rattle.std.specs.Prelude.{◌≡◌, ◌≢◌, ◌↔◌, true, false, None, IsSome, IsTrue};
ghost use Rattle.gl_arena.specs.Arena.{named as named_in};
ghost use Rattle.gl_refs.specs.Forms.{IsUnread};
ghost use Rattle.gl_refs.specs.State.{is_source};
ghost use Rattle.gl_refs.specs.Refs.{rows_of, forms_of};
ghost use Rattle.gl_plain.specs.Ids.{ref as ref_id, instance_id, block_id};
ghost use Rattle.gl_plain.specs.Naming.{by_number, dropped_as};
ghost use Rattle.gl_vm.specs.Led.{Led};
ghost use Rattle.gl_vm.specs.View.{Calm};
ghost use Rattle.gl_vm.specs.Steps.{Does, dropped_one, on_count};

use crate::Vm;
use gl_arena::{BlockId, Id, InstMark, NodeMark};
use gl_refs::RefId;

impl Vm {
    /// Ends a reference that no live one reads.
    pub fn end_reference(&mut self, id: RefId)
        requires live { IsSome (forms_of self.old.refs id) }
        requires unread { IsUnread (forms_of self.old.refs) id }
        ensures step { (is_source (rows_of self.old.refs id) ≡ true → Led self.old.refs) → Does (λ n. dropped_one (ref_id id.1)) self.old self.new }
        ensures ended { forms_of self.new.refs id ≡ None }
        ensures others { (i : _) → i ≢ id → forms_of self.new.refs i ≡ forms_of self.old.refs i }
        ensures rest { self.new ≡ record self.old { refs = self.new.refs } }
        ensures calm { Calm self.old → Calm self.new }
        ensures led { Led self.old.refs → Led self.new.refs }
    {
        self.refs.sound();
        self.refs.free(id);
    }

    /// Ends a reference where it lives and no live one reads it, and tells whether that was so. It takes no memory.
    pub fn end_if_unread(&mut self, id: RefId) -> bool
        ensures told { IsTrue result ↔ (IsSome (forms_of self.old.refs id) × IsUnread (forms_of self.old.refs) id) }
        ensures step { result ≡ true → Calm self.old → Does (λ n. dropped_one (ref_id id.1)) self.old self.new }
        ensures ended { result ≡ true → forms_of self.new.refs id ≡ None }
        ensures others { (i : _) → i ≢ id → forms_of self.new.refs i ≡ forms_of self.old.refs i }
        ensures still { result ≡ false → self.new ≡ self.old }
        ensures rest { self.new ≡ record self.old { refs = self.new.refs } }
        ensures calm { Calm self.old → Calm self.new }
    {
        if self.refs.unread(id) {
            self.end_reference(id);
            true
        } else {
            false
        }
    }

    /// Ends an instance. The references of its fields stay.
    pub fn end_instance(&mut self, id: Id<InstMark>)
        requires { IsSome (named_in self.old.instances id) }
        ensures step { Does (λ n. dropped_one (instance_id id.1)) self.old self.new }
        ensures rest { self.new ≡ record self.old { instances = self.new.instances } }
    {
        drop(self.instances.remove(id));
    }

    /// Ends a block.
    pub fn end_block(&mut self, id: BlockId)
        requires { IsSome (named_in self.old.scopes id) }
        ensures step { Does (λ n. dropped_one (block_id id.1)) self.old self.new }
        ensures rest { self.new ≡ record self.old { scopes = self.new.scopes } }
    {
        self.scopes.stamps();
        self.scopes.free(id);
    }

    /// Ends the modifiers of a node, also those that were installed or got other values in this turn.
    pub fn end_modifiers(&mut self, node: Id<NodeMark>)
        ensures step { Does (λ n. dropped_as by_number (on_count self.old.mods node)) self.old self.new }
        ensures rest { self.new ≡ record self.old { mods = self.new.mods } }
    {
        self.mods.sound();
        self.mods.drop_node(node);
    }
}
