// What the machine keeps.
use gl_arena::{Arena, InstMark};
use gl_meaning::Path;
use gl_mods::Mods;
use gl_nodes::NodeTree;
use gl_refs::{Ids, Refs};
use gl_scope::BlockStack;

/// An instance: the number of its class, its path, and the references of its fields in the order of the class.
#[derive(Drop)]
pub struct Instance {
    pub class: u16,
    pub path: Path,
    pub cells: Ids,
}

/// What the machine keeps: references, nodes, the blocks that were passed, instances and modifiers. Contracts of steps
/// see it as the state of the plain machine, for any names of fields and modifiers, and for any test that tells the
/// sources that were touched since the turn began.
#[derive(Drop)]
pub struct Vm {
    pub refs: Refs,
    pub tree: NodeTree,
    pub scopes: BlockStack,
    pub instances: Arena<Instance, InstMark>,
    pub mods: Mods,
}
