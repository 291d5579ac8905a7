// What an update may destroy.
use gl_arena::ModId;
use gl_code::Owner;
use gl_nodes::NodeId;
use std::rc::Rc;

/// What an update may destroy.
#[derive(Drop)]
pub enum Ending {
    /// A modifier, with what its line tells: its node, and the number of its name.
    Modifier { id: ModId, node: NodeId, name: u32 },
    /// An instance.
    Instance { owner: Rc<Owner> },
}

/// What stands in a page that an update may destroy, in the order in which a log tells it: children first.
#[derive(Drop)]
pub struct Standing {
    pub list: Vec<Ending>,
}
