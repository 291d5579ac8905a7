// What was rendered of the parts of a tag.
ghost use Rattle.std.specs.Prelude.{◌≡◌, OnOk, IsTrue, ◌+◌, map};
ghost use Rattle.gl_plain.specs.Ids.{node as node_id, modifier_id, hit, occurs};
ghost use Rattle.gl_plain.specs.Live.{times_attrs, times_mods};
ghost use Rattle.gl_vm.specs.Led.{Led};
ghost use Rattle.gl_vm.specs.View.{Calm};
ghost use Rattle.gl_code.specs.View.{refs_made};
ghost use Rattle.gl_code.specs.CodeView.{seen_attr_spot, seen_mod_spot};
ghost use Rattle.gl_machine.specs.Shape.{leaf};
ghost use Rattle.gl_seats.specs.Seats.{Unseats};
ghost use Rattle.gl_ends.specs.Ending.{Ends, times_spots};

use crate::references::{end_references, end_spot};
use crate::things::end_node;
use gl_arena::ModId;
use gl_code::{AttrSpot, ModSpot};
use gl_nodes::NodeId;
use gl_refs::Ids;
use gl_vm::Vm;
use std::alloc::AllocError;

// Ends the positions of attributes.
fn end_attrs(vm: &mut Vm, attrs: &[AttrSpot]) -> Result<(), AllocError>
    ensures ends { (n : _) → OnOk result (Ends n (λ q. times_attrs q (map seen_attr_spot attrs.now)) vm.old vm.new) }
    ensures calm { Calm vm.old → Calm vm.new }
    ensures led { Led vm.old.refs → Led vm.new.refs }
    ensures tree { OnOk result (vm.new.tree ≡ vm.old.tree) }
{
    for attr in attrs {
        end_spot(vm, &attr.spot)?;
    }
    Ok(())
}

// Whether the ids are those of these modifiers.
fn are_all(ids: &[ModId], mods: &[ModSpot]) -> bool
    ensures { IsTrue result → ids.now ≡ map (λ m. m.id) mods.now }
{
    if ids.len() != mods.len() {
        return false;
    }
    for i in 0..ids.len() {
        if ids[i] != mods[i].id {
            return false;
        }
    }
    true
}

// Ends the modifiers of a node. Where these are not all that it has, in their order, it answers as for want of memory.
fn end_installed(vm: &mut Vm, node: NodeId, mods: &[ModSpot]) -> Result<(), AllocError>
    ensures ends { (n : _) → OnOk result (Ends n (λ q. occurs q (map (λ m. modifier_id m.id.1) mods.now)) vm.old vm.new) }
    ensures calm { Calm vm.old → Calm vm.new }
    ensures led { Led vm.old.refs → Led vm.new.refs }
    ensures tree { OnOk result (vm.new.tree ≡ vm.old.tree) }
{
    if !are_all(vm.mods.on_node(node), mods) {
        return Err(AllocError);
    }
    vm.mods.sound();
    vm.end_modifiers(node);
    Ok(())
}

// Ends the positions of modifiers.
fn end_spots(vm: &mut Vm, mods: &[ModSpot]) -> Result<(), AllocError>
    ensures ends { (n : _) → OnOk result (Ends n (λ q. times_spots q mods.now) vm.old vm.new) }
    ensures calm { Calm vm.old → Calm vm.new }
    ensures led { Led vm.old.refs → Led vm.new.refs }
    ensures tree { OnOk result (vm.new.tree ≡ vm.old.tree) }
{
    for one in mods {
        end_spot(vm, &one.spot)?;
    }
    Ok(())
}

/// Ends the modifiers of a node, and then their positions.
pub(crate) fn end_mods(vm: &mut Vm, node: NodeId, mods: &[ModSpot]) -> Result<(), AllocError>
    ensures ends { (n : _) → OnOk result (Ends n (λ q. times_mods q (map seen_mod_spot mods.now)) vm.old vm.new) }
    ensures calm { Calm vm.old → Calm vm.new }
    ensures led { Led vm.old.refs → Led vm.new.refs }
    ensures tree { OnOk result (vm.new.tree ≡ vm.old.tree) }
{
    end_installed(vm, node, mods)?;
    end_spots(vm, mods)
}

/// Ends the positions of an element's attributes, what was made for its tag, and the node.
pub(crate) fn end_tag(
    vm: &mut Vm,
    node: NodeId,
    made: &Ids,
    attrs: &[AttrSpot],
) -> Result<(), AllocError>
    ensures ends { (n : _) → OnOk result (Ends n (λ q. hit q (node_id node.1) + (occurs q (refs_made made.now) + times_attrs q (map seen_attr_spot attrs.now))) vm.old vm.new) }
    ensures calm { Calm vm.old → Calm vm.new }
    ensures led { Led vm.old.refs → Led vm.new.refs }
    ensures unseats { OnOk result (Unseats vm.old.tree.forest vm.new.tree.forest (leaf node.1)) }
    ensures moves { OnOk result (vm.new.tree.moves ≡ vm.old.tree.moves) }
{
    end_attrs(vm, attrs)?;
    end_references(vm, made)?;
    end_node(vm, node)
}
