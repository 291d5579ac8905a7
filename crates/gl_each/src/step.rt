// Plans and their steps.
use crate::{Places, PlanSteps};

/// What a plan does for one new item: it keeps the old item at a place where it stands, it moves the old item at
/// a place, or it puts a new item in. Places are counted from 0.
#[derive(Clone, Copy)]
pub enum PlanStep {
    Retain { old: u64 },
    Move { old: u64 },
    Insert,
}

impl PlanStep {
    ghost use Rattle.std.specs.Prelude.{◌≡◌};
    ghost use Rattle.std.specs.Option.{option_to_list};
    ghost use Rattle.gl_each.specs.Sync.{kept_by};
    ghost use Rattle.gl_each.specs.View.{step_view};

    /// The old place whose item the step keeps. It takes no memory.
    pub fn kept(&self) -> Option<u64>
        ensures { option_to_list result ≡ kept_by (step_view self.now) }
    {
        match self {
            PlanStep::Retain { old } | PlanStep::Move { old } => Some(*old),
            PlanStep::Insert => None,
        }
    }
}

/// The steps of a plan, one for each new item in order, and the old places that no step keeps, rising.
#[derive(Drop)]
pub struct Plan {
    pub steps: PlanSteps,
    pub removed: Places,
}
