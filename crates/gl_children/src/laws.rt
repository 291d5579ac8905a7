//! The laws of the nodes of a page by look-ups. Each function does nothing: its contract is the law.

ghost use Rattle.gl_children.specs.Laws.{ChildrenHavePlaces, TopIsDrawn, ChildrenAreDrawn, UpdatedChildren, ChildrenBy};

/// The nodes at the top, and the children of each node, are those of the rendering, in order.
pub fn children()
    ensures places { ChildrenHavePlaces }
    ensures top { TopIsDrawn }
    ensures kids { ChildrenAreDrawn }
    ensures updated { UpdatedChildren }
    ensures numbers { ChildrenBy }
{}
