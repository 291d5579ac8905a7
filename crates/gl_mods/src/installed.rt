// An installed modifier.
use gl_arena::{Id, NodeMark};
use gl_value::{List, ListBuilder, NamedValues};

/// The values that listen for an event, in order.
pub type Acts = ListBuilder;

/// A modifier of a node, with the values of its arguments at the last rendering.
#[derive(Drop)]
pub struct Installed {
    pub node: Id<NodeMark>,
    /// Its place among the modifiers of the node.
    pub place: u64,
    /// The number of its name: 0 for `on`, and from 1 on the modifiers of the manifest in their order.
    pub name: u32,
    pub args: List,
    pub named: NamedValues,
}
