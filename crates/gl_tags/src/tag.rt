// One tag.
use gl_arena::{Id, TagMark};
use smallvec::SmallVec;

/// The id of a tag.
pub type TagId = Id<TagMark>;

/// The dirtyable tags that a combined one leads to, sorted, each once.
pub(crate) type Leads = SmallVec<TagId, 2>;

/// When something was touched last: the revision, and how many dirtyings there were when that one was over.
/// The second tells apart what happened before and after within one revision.
#[derive(Clone, Copy)]
pub(crate) struct Touch {
    pub(crate) revision: u64,
    pub(crate) order: u64,
}

impl Touch {
    /// What was never touched.
    pub(crate) const NEVER: Touch = Touch {
        revision: 0,
        order: 0,
    };
}

/// A tag. A combined one keeps the greatest touch of its leads as it was at the count `mark` of dirtyings.
#[derive(Drop)]
pub(crate) enum Tag {
    Constant,
    Dirtyable(Touch),
    Combined {
        leads: Leads,
        kept: Touch,
        mark: u64,
    },
}
