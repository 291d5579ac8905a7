// What can be destroyed.
ghost use Rattle.std.specs.Prelude.{◌≡◌};
ghost use Rattle.gl_destroy.specs.What.{is_logged};
ghost use Rattle.gl_destroy.specs.View.{seen_what};

use gl_arena::{Id, NodeMark};

/// What can be destroyed.
#[derive(Clone, Copy)]
pub enum What {
    /// A modifier of a node: its place among the modifiers of that node, and its name in a pool of texts.
    Modifier {
        node: Id<NodeMark>,
        place: u64,
        name: u32,
    },
    /// An instance of a class, which may have teardown.
    Instance {
        class: u16,
        teardown: bool,
    },
    /// A block of a template, which is never logged.
    Group,
}

impl What {
    /// Whether a log tells of it: a modifier, or an instance whose class has teardown.
    pub fn is_logged(&self) -> bool
        ensures { result ≡ is_logged (seen_what self.now) }
    {
        match self {
            What::Modifier { .. } => true,
            What::Instance { teardown, .. } => *teardown,
            What::Group => false,
        }
    }
}
