// A turn: what it writes, and how much it had to do.
ghost use Rattle.std.specs.Prelude.{◌≡◌, ◌+◌, IfOk};
ghost use Rattle.gl_session.specs.Turn.{work_view, added};

use gl_value::Text;
use std::alloc::AllocError;

/// How much a turn had to do, or some turns together.
#[derive(Clone, Copy, Debug, PartialEq, Eq)]
pub struct Work {
    /// The positions that were evaluated: those that are new, and those that had read what was touched.
    pub evaluated: u128,
    /// The nodes that were made.
    pub made: u128,
    /// The items of lists that were moved: those that stayed, before which one of the same list stands now that stood behind
    /// them.
    pub moved: u128,
}

impl Work {
    /// With that of more turns. A sum without room answers as for want of memory.
    pub(crate) fn with(self, more: Work) -> Result<Work, AllocError>
        ensures { IfOk result (λ w. work_view w ≡ added (work_view self) (work_view more)) }
    {
        Ok(Work {
            evaluated: self
                .evaluated
                .checked_add(more.evaluated)
                .ok_or(AllocError)?,
            made: self.made.checked_add(more.made).ok_or(AllocError)?,
            moved: self.moved.checked_add(more.moved).ok_or(AllocError)?,
        })
    }
}

/// What a turn writes (its head, a line for each fire for which there was nothing, the tree of numbered nodes, and the log),
/// and how much it had to do.
#[derive(Drop)]
pub struct Turn {
    pub text: Text,
    pub work: Work,
}

/// A turn of an event, and how many questions the update answered in it.
#[derive(Drop)]
pub(crate) struct Made {
    pub(crate) turn: Turn,
    pub(crate) asked: u128,
}

/// Questions with those of one more turn, likewise.
pub(crate) fn summed(asks: u128, more: u128) -> Result<u128, AllocError>
    ensures { IfOk result (λ n. n ≡ asks + more) }
{
    match asks.checked_add(more) {
        Some(all) => Ok(all),
        None => Err(AllocError),
    }
}
