// Nodes taken out by ids of which the caller knows nothing: what has to hold of them is asked.
ghost use Rattle.std.specs.Prelude.{◌≡◌, OnOk, OnErr, IsTrue};
ghost use Rattle.gl_nodes.specs.Flat.{IsFlat, IsLeaf, RemovesLeaf};

use crate::links::{first_at, parent_at};
use crate::{NodeId, NodeTree, Range};
use std::alloc::AllocError;

impl NodeTree {
    /// Takes a node without children out of the tree, and ends its id. Where the node does not stand in the tree, or has
    /// children, it answers as for want of memory.
    pub fn remove_leaf(&mut self, node: NodeId) -> Result<(), AllocError>
        ensures ok { OnOk result (RemovesLeaf self.old self.new node) }
        ensures made { self.new.made ≡ self.old.made }
        ensures moves { self.new.moves ≡ self.old.moves }
        ensures inserts { self.new.inserts ≡ self.old.inserts }
        ensures sound { IsFlat self.new }
        ensures err { OnErr result (self.new ≡ self.old) }
    {
        self.flat();
        if !self.is_leaf(node) {
            return Err(AllocError);
        }
        self.remove_range(Range::Nodes {
            first: node,
            last: node,
        });
        Ok(())
    }

    // Whether it stands in the tree and has no children.
    fn is_leaf(&self, node: NodeId) -> bool
        ensures { IsTrue result → IsLeaf self.now node }
    {
        if parent_at(&self.entries, node).is_none() {
            return false;
        }
        first_at(&self.entries, node).is_none()
    }
}
