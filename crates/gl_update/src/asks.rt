// What an update asks before it changes something.
ghost use Rattle.std.specs.Prelude.{◌≡◌, IsTrue};
ghost use Rattle.gl_vm.specs.Steps.{times_named};
ghost use Rattle.gl_update.specs.Asked.{IsText, HasOnce};

use gl_nodes::{Attr, Node, NodeId, NodeTree};
use gl_value::Text;

/// Whether it is a text that was made.
#[inline(never)]
pub(crate) fn is_text(tree: &NodeTree, node: NodeId) -> bool
    ensures { IsTrue result → IsText tree.now node }
{
    matches!(tree.find(node), Some(Node::Text(_)))
}

#[inline(never)]
fn count_named(attrs: &[Attr], name: &Text) -> usize
    ensures { result ≡ times_named name.now attrs.now }
{
    let mut count: usize = 0;
    for attr in attrs {
        if name.same(&attr.0) {
            count += 1;
        }
    }
    count
}

/// Whether it is an element that has one attribute of that name.
#[inline(never)]
pub(crate) fn has_once(tree: &NodeTree, node: NodeId, name: &Text) -> bool
    ensures { IsTrue result → HasOnce tree.now node name.now }
{
    match tree.find(node) {
        Some(Node::Element { attrs, .. }) => count_named(attrs.as_slice(), name) == 1,
        _ => false,
    }
}
