// A list of what is due, of which the first is the last of a vector.
ghost use Rattle.std.specs.Prelude.{◌≡◌, ◌∷◌, [], OnOk, MatchOption};
ghost use Rattle.gl_parse.specs.Dues.{seen, due_view};

use crate::due::Due;
use std::alloc::AllocError;

/// Puts this first.
#[tactic(auto, using(crate::proofs::Meeting::stacks))]
pub fn due<'a>(list: &mut Vec<Due<'a>>, due: Due<'a>) -> Result<(), AllocError>
    ensures { OnOk result (seen list.new.items ≡ due_view due.entry ∷ seen list.old.items) }
{
    list.push(due)?;
    Ok(())
}

/// Takes the first off.
#[tactic(auto, using(crate::proofs::Meeting::stacks))]
pub fn next<'a>(list: &mut Vec<Due<'a>>) -> Option<Due<'a>>
    ensures { MatchOption result (seen list.old.items ≡ []) (λ d. seen list.old.items ≡ due_view d ∷ seen list.new.items) }
{
    match list.pop() {
        Some(due) => Some(due),
        None => None,
    }
}
