// Nodes, instances and blocks that end, where they live.
ghost use Rattle.std.specs.Prelude.{◌≡◌, OnOk, ◌+◌};
ghost use Rattle.gl_nodes.specs.Flat.{stamp_of};
ghost use Rattle.gl_plain.specs.Ids.{node as node_id, instance_id, block_id, hit, occurs};
ghost use Rattle.gl_plain.specs.Live.{times_comment};
ghost use Rattle.gl_vm.specs.Led.{Led};
ghost use Rattle.gl_vm.specs.View.{Calm};
ghost use Rattle.gl_code.specs.View.{refs_made};
ghost use Rattle.gl_machine.specs.Shape.{leaf, nest_comment};
ghost use Rattle.gl_seats.specs.Seats.{Unseats};
ghost use Rattle.gl_ends.specs.Ending.{Ends};

use crate::references::end_references;
use gl_arena::{BlockId, Id, InstMark};
use gl_code::Owner;
use gl_nodes::NodeId;
use gl_vm::Vm;
use std::alloc::AllocError;

/// Ends a node. Where it does not stand in the tree, or has children, it answers as for want of memory.
pub(crate) fn end_node(vm: &mut Vm, node: NodeId) -> Result<(), AllocError>
    ensures ends { (n : _) → OnOk result (Ends n (λ q. hit q (node_id node.1)) vm.old vm.new) }
    ensures calm { Calm vm.old → Calm vm.new }
    ensures led { Led vm.old.refs → Led vm.new.refs }
    ensures unseats { OnOk result (Unseats vm.old.tree.forest vm.new.tree.forest (leaf node.1)) }
    ensures moves { OnOk result (vm.new.tree.moves ≡ vm.old.tree.moves) }
{
    vm.end_node(node)
}

/// Ends the comment of a branch or an item that has one.
pub(crate) fn end_comment(vm: &mut Vm, comment: &Option<NodeId>) -> Result<(), AllocError>
    ensures ends { (n : _) → OnOk result (Ends n (λ q. times_comment q (stamp_of comment.now)) vm.old vm.new) }
    ensures calm { Calm vm.old → Calm vm.new }
    ensures led { Led vm.old.refs → Led vm.new.refs }
    ensures unseats { OnOk result (Unseats vm.old.tree.forest vm.new.tree.forest (nest_comment (stamp_of comment.now))) }
    ensures moves { OnOk result (vm.new.tree.moves ≡ vm.old.tree.moves) }
{
    match comment {
        Some(node) => end_node(vm, *node),
        None => Ok(()),
    }
}

/// Ends a block. Where it is not live, it answers as for want of memory.
pub(crate) fn end_block(vm: &mut Vm, id: BlockId) -> Result<(), AllocError>
    ensures ends { (n : _) → OnOk result (Ends n (λ q. hit q (block_id id.1)) vm.old vm.new) }
    ensures calm { Calm vm.old → Calm vm.new }
    ensures led { Led vm.old.refs → Led vm.new.refs }
    ensures tree { OnOk result (vm.new.tree ≡ vm.old.tree) }
{
    if !vm.scopes.live(id) {
        return Err(AllocError);
    }
    vm.end_block(id);
    Ok(())
}

fn end_instance(vm: &mut Vm, id: Id<InstMark>) -> Result<(), AllocError>
    ensures ends { (n : _) → OnOk result (Ends n (λ q. hit q (instance_id id.1)) vm.old vm.new) }
    ensures calm { Calm vm.old → Calm vm.new }
    ensures led { Led vm.old.refs → Led vm.new.refs }
    ensures tree { OnOk result (vm.new.tree ≡ vm.old.tree) }
{
    if !vm.instances.live(id) {
        return Err(AllocError);
    }
    vm.end_instance(id);
    Ok(())
}

/// Ends an instance, and the references of its fields.
pub(crate) fn end_owner(vm: &mut Vm, owner: &Owner) -> Result<(), AllocError>
    ensures ends { (n : _) → OnOk result (Ends n (λ q. hit q (instance_id owner.now.id.1) + occurs q (refs_made owner.now.cells)) vm.old vm.new) }
    ensures calm { Calm vm.old → Calm vm.new }
    ensures led { Led vm.old.refs → Led vm.new.refs }
    ensures tree { OnOk result (vm.new.tree ≡ vm.old.tree) }
{
    end_references(vm, &owner.cells)?;
    end_instance(vm, owner.id)
}
