// Runs of siblings moved by ids of which the caller knows nothing: what has to hold of them is asked.
ghost use Rattle.std.specs.Prelude.{◌≡◌, ◌≢◌, ◌+◌, ◌<◌, ◌^◌, Some, OnOk, OnErr, IsTrue, IsFalse};
ghost use Rattle.gl_arena.specs.Id.{Id};
ghost use Rattle.gl_nodes.specs.Tree.{CanMove};
ghost use Rattle.gl_nodes.specs.Flat.{IsFlat, Shifts};
ghost use Rattle.gl_nodes.specs.Links.{AreBeside, Leads, parent_of};
ghost use Rattle.gl_nodes.specs.View.{links_of};

use crate::links::{Entries, hangs_below, next_at, parent_at};
use crate::{NodeId, NodeTree, Range};
use std::alloc::AllocError;

impl NodeTree {
    /// Moves the siblings from the first to the last before a third one, or to the end. Where these are no siblings in
    /// this order, or the third is none or is one of them, it answers as for want of memory.
    pub fn shift(
        &mut self,
        first: NodeId,
        last: NodeId,
        next: Option<NodeId>,
    ) -> Result<(), AllocError>
        ensures ok { OnOk result (Shifts self.old self.new first last next) }
        ensures sound { IsFlat self.new }
        ensures err { OnErr result (self.new ≡ self.old) }
    {
        self.flat();
        if self.moves == u128::MAX {
            return Err(AllocError);
        }
        if !self.can_shift(first, last, &next) {
            return Err(AllocError);
        }
        self.move_range(Range::Nodes { first, last }, next);
        Ok(())
    }

    // Whether these are siblings in this order, and the next is another one, or there is none.
    fn can_shift(&self, first: NodeId, last: NodeId, next: &Option<NodeId>) -> bool
        ensures { IsTrue result → CanMove self.now.forest (Some (first, last)) next.now }
    {
        if !are_beside(&self.entries, first, next) {
            return false;
        }
        leads(&self.entries, first, last, next)
    }
}

// Whether the node has a parent, which is that of the next one too.
fn are_beside(entries: &Entries, id: NodeId, next: &Option<NodeId>) -> bool
    ensures { IsTrue result → AreBeside (links_of entries.now) id next.now }
{
    match parent_at(entries, id) {
        Some(parent) => is_below(entries, next, parent),
        None => false,
    }
}

// Whether the next one links to this parent, or there is none.
fn is_below(entries: &Entries, next: &Option<NodeId>, parent: NodeId) -> bool
    ensures { IsTrue result → (w : Id) → next.now ≡ Some w → parent_of (links_of entries.now w) ≡ Some parent }
{
    match next {
        Some(id) => hangs_below(entries, *id, parent),
        None => true,
    }
}

// Whether the next one is this.
fn is_next(next: &Option<NodeId>, id: NodeId) -> bool
    ensures { IsFalse result → next.now ≢ Some id }
{
    match next {
        Some(other) => *other == id,
        None => false,
    }
}

// Whether siblings lead from the first to the last, and none of them is the next.
fn leads(entries: &Entries, first: NodeId, last: NodeId, next: &Option<NodeId>) -> bool
    ensures { IsTrue result → Leads (links_of entries.now) first last next.now }
{
    let mut at = first;
    for _ in 0..u64::MAX {
        if is_next(next, at) {
            return false;
        }
        if at == last {
            return true;
        }
        match next_at(entries, at) {
            Some(id) => at = id,
            None => return false,
        }
    }
    false
}
