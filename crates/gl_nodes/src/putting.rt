// Nodes put in by ids of which the caller knows nothing: what has to hold of them is asked.
ghost use Rattle.std.specs.Prelude.{◌≡◌, ◌+◌, Some, None, OnOk, OnErr, IsTrue};
ghost use Rattle.gl_nodes.specs.Tree.{IsMade, IsPlace, ParentIsElement};
ghost use Rattle.gl_nodes.specs.Flat.{IsFlat, PutsFlat, PutsLast, TakesNodes, stamp_of};

use crate::links::{hangs_below, parent_at};
use crate::{Node, NodeId, NodeTree};
use std::alloc::AllocError;

impl NodeTree {
    /// Puts a node at the end of the children of a parent, or of the forest. Where the node is not a made one that is
    /// not in the tree, or the parent not an element of the tree, it answers as for want of memory.
    pub fn put_last(&mut self, parent: Option<NodeId>, node: NodeId) -> Result<(), AllocError>
        ensures ok { OnOk result (PutsLast self.old self.new (stamp_of parent) node.1) }
        ensures made { OnOk result (self.new.made ≡ self.old.made) }
        ensures moves { OnOk result (self.new.moves ≡ self.old.moves) }
        ensures inserts { OnOk result (self.new.inserts ≡ self.old.inserts + 1) }
        ensures sound { IsFlat self.new }
        ensures err { OnErr result (self.new ≡ self.old) }
    {
        self.flat();
        if !self.can_put(&parent, node) {
            return Err(AllocError);
        }
        self.insert_before(parent, node, None)
    }

    /// Puts a node before a child of a parent, or at the end of its children. Where the node is not a made one that is
    /// not in the tree, the parent not an element of the tree, or the next one not a child of it, it answers as for
    /// want of memory.
    pub fn put_before(
        &mut self,
        parent: Option<NodeId>,
        node: NodeId,
        next: Option<NodeId>,
    ) -> Result<(), AllocError>
        ensures ok { OnOk result (PutsFlat self.old self.new (stamp_of parent) (stamp_of next) node.1) }
        ensures made { OnOk result (self.new.made ≡ self.old.made) }
        ensures moves { OnOk result (self.new.moves ≡ self.old.moves) }
        ensures inserts { OnOk result (self.new.inserts ≡ self.old.inserts + 1) }
        ensures sound { IsFlat self.new }
        ensures err { OnErr result (self.new ≡ self.old) }
    {
        self.flat();
        if !self.can_put(&parent, node) {
            return Err(AllocError);
        }
        if !self.has_child(&parent, &next) {
            return Err(AllocError);
        }
        self.insert_before(parent, node, next)
    }

    // Whether the node is a made one that is not in the tree, and nodes may stand below the parent.
    fn can_put(&self, parent: &Option<NodeId>, node: NodeId) -> bool
        ensures { IsTrue result → IsMade node self.now × TakesNodes self.now parent.now }
    {
        if !self.waits(node) {
            return false;
        }
        self.takes(parent)
    }

    // Whether the next one is a child of the parent, or there is none.
    fn has_child(&self, parent: &Option<NodeId>, next: &Option<NodeId>) -> bool
        ensures { IsTrue result → TakesNodes self.now parent.now → IsPlace self.now parent.now next.now }
    {
        match next {
            Some(id) => self.is_child(parent, *id),
            None => true,
        }
    }

    fn is_child(&self, parent: &Option<NodeId>, id: NodeId) -> bool
        ensures { IsTrue result → TakesNodes self.now parent.now → IsPlace self.now parent.now (Some id) }
    {
        let above = match parent {
            Some(above) => *above,
            None => self.root,
        };
        hangs_below(&self.entries, id, above)
    }

    // Whether it is a made node that is not in the tree.
    fn waits(&self, node: NodeId) -> bool
        ensures { IsTrue result → IsMade node self.now }
    {
        if self.find(node).is_none() {
            return false;
        }
        parent_at(&self.entries, node).is_none()
    }

    // Whether nodes may stand below it: an element of the tree, or none.
    fn takes(&self, parent: &Option<NodeId>) -> bool
        ensures { IsTrue result → TakesNodes self.now parent.now }
    {
        match parent {
            Some(id) => self.takes_below(*id),
            None => true,
        }
    }

    fn takes_below(&self, id: NodeId) -> bool
        ensures { IsTrue result → TakesNodes self.now (Some id) }
    {
        if !self.is_element(id) {
            return false;
        }
        parent_at(&self.entries, id).is_some()
    }

    fn is_element(&self, id: NodeId) -> bool
        ensures { IsTrue result → ParentIsElement self.now (Some id) }
    {
        matches!(self.find(id), Some(Node::Element { .. }))
    }
}
