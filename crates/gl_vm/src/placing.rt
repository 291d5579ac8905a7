// Instances, blocks and modifiers that are made, and modifiers that get other values.
ghost use Rattle.std.specs.Prelude.{◌≡◌, ◌+◌, IfOk, OnOk, OnErr, Some, IsSome};
ghost use Rattle.gl_arena.specs.Arena.{IsOwn, Sets, by_stamp, named as named_in};
ghost use Rattle.gl_scope.specs.View.{seen_block};
ghost use Rattle.gl_plain.specs.Ids.{an_instance, a_block, a_modifier};
ghost use Rattle.gl_plain.specs.State.{named_as, instance_row, block_row, modifier_row, make, note_installed};
ghost use Rattle.gl_vm.specs.Labels.{all_labelled, names_labelled};
ghost use Rattle.gl_meaning.specs.View.{path_view};
ghost use Rattle.gl_vm.specs.View.{stamps};
ghost use Rattle.gl_vm.specs.Steps.{Does, Numbers, installed_at, put_args};

use crate::{Instance, Vm};
use gl_arena::{Arena, BlockId, Id, InstMark, ModId, NodeMark};
use gl_meaning::Path;
use gl_refs::Ids;
use gl_scope::Block;
use gl_value::{List, NamedValues};
use std::alloc::AllocError;

fn put_instance(
    instances: &mut Arena<Instance, InstMark>,
    instance: Instance,
) -> Result<Id<InstMark>, AllocError>
    ensures stamps { IfOk result (λ id. Sets instances.old instances.new instances.old.made (Some instance) × IsOwn instances.new id) }
    ensures given { IfOk result (λ id. (id.1 ≡ instances.old.made) × (instances.new.made ≡ instances.old.made + 1)) }
    ensures err { OnErr result (instances.new ≡ instances.old) }
{
    match instances.insert(instance) {
        Ok(id) => Ok(id),
        Err((_, error)) => Err(error),
    }
}

impl Vm {
    /// Makes an instance, with the references of its fields.
    pub fn instance(
        &mut self,
        class: u16,
        path: Path,
        cells: Ids,
    ) -> Result<Id<InstMark>, AllocError>
        ensures step { IfOk result (λ id. Does (λ names. make an_instance (instance_row (record { id = self.old.instances.made; path = path_view path; cells = named_as (names.fields class) (stamps cells) }))) self.old self.new) }
        ensures id { IfOk result (λ id. Numbers self.old.instances self.new.instances id) }
        ensures rest { self.new ≡ record self.old { instances = self.new.instances } }
        ensures err { OnErr result (self.new ≡ self.old) }
    {
        put_instance(&mut self.instances, Instance { class, path, cells })
    }

    /// Makes a block.
    pub fn block(&mut self, block: Block) -> Result<BlockId, AllocError>
        ensures step { IfOk result (λ id. Does (λ names. make a_block block_row) self.old self.new) }
        ensures id { IfOk result (λ id. Numbers self.old.scopes self.new.scopes id) }
        ensures block { IfOk result (λ id. by_stamp self.new.scopes self.old.scopes.made ≡ Some (seen_block block)) }
        ensures rest { self.new ≡ record self.old { scopes = self.new.scopes } }
        ensures err { OnErr result (self.new ≡ self.old) }
    {
        self.scopes.stamps();
        self.scopes.push(block)
    }

    /// Installs a modifier on a node.
    pub fn install(
        &mut self,
        node: Id<NodeMark>,
        place: u64,
        name: u32,
        args: List,
        named: NamedValues,
    ) -> Result<ModId, AllocError>
        ensures step { IfOk result (λ id. Does (λ names st. note_installed self.old.mods.table.made (make a_modifier (modifier_row (installed_at node.1 place (names.modifier name) (all_labelled args) (names_labelled named))) st)) self.old self.new) }
        ensures id { IfOk result (λ id. Numbers self.old.mods.table self.new.mods.table id) }
        ensures rest { self.new ≡ record self.old { mods = self.new.mods } }
    {
        self.mods.install(node, place, name, args, named)
    }

    /// Gives a modifier other values of its arguments.
    pub fn refresh(&mut self, id: ModId, args: List, named: NamedValues) -> Result<(), AllocError>
        requires { IsSome (named_in self.old.mods.table id) }
        ensures step { OnOk result (Does (λ names. put_args id.1 (all_labelled args) (names_labelled named)) self.old self.new) }
        ensures rest { self.new ≡ record self.old { mods = self.new.mods } }
        ensures err { OnErr result (self.new ≡ self.old) }
    {
        self.mods.sound();
        self.mods.refresh(id, args, named)
    }
}
