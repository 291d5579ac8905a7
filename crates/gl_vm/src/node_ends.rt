// Nodes that end.
ghost use Rattle.std.specs.Prelude.{◌≡◌, OnOk, OnErr};
ghost use Rattle.gl_nodes.specs.Flat.{IsFlat, RemovesLeaf};
ghost use Rattle.gl_plain.specs.Ids.{node as node_id};
ghost use Rattle.gl_vm.specs.Steps.{Does, dropped_one};

use crate::Vm;
use gl_nodes::NodeId;
use std::alloc::AllocError;

impl Vm {
    /// Ends a node that stands in the tree and has no children. Where it does not stand there, or has children, it answers
    /// as for want of memory.
    pub fn end_node(&mut self, node: NodeId) -> Result<(), AllocError>
        ensures step { OnOk result (Does (λ n. dropped_one (node_id node.1)) self.old self.new) }
        ensures leaf { OnOk result (RemovesLeaf self.old.tree self.new.tree node) }
        ensures moves { self.new.tree.moves ≡ self.old.tree.moves }
        ensures sound { IsFlat self.new.tree }
        ensures rest { self.new ≡ record self.old { tree = self.new.tree } }
        ensures err { OnErr result (self.new ≡ self.old) }
    {
        self.tree.remove_leaf(node)
    }
}
