// Blocks that were passed, with what their writer sees.
ghost use Rattle.std.specs.Prelude.{◌≡◌, IfOk, Option, option_map};
ghost use Rattle.std.specs.Str.{chars};
ghost use Rattle.gl_machine.specs.Sight.{passing_in};
ghost use Rattle.gl_base.specs.Names.{named};
ghost use Rattle.gl_code.specs.View.{seen_sight, seen_slots};
ghost use Rattle.gl_code.specs.Written.{block_of, seen_written};

use crate::sight::{Sight, Slot, copied};
use std::alloc::AllocError;

/// A block that was passed: the address of its first word, and what its writer sees.
#[derive(Drop)]
pub struct Written {
    pub start: u32,
    pub sight: Sight,
}

// The address of the block of a name.
fn start_of(slots: &[Slot], name: &str) -> Option<u32>
    ensures { result ≡ named (chars name.now) (seen_slots slots.now) }
{
    for slot in slots {
        if slot.name.is(name) {
            return Some(slot.start);
        }
    }
    None
}

impl Sight {
    /// The block of a name that was passed.
    pub fn block(&self, name: &str) -> Result<Option<Written>, AllocError>
        ensures { IfOk result (λ o. (n : _) → option_map (seen_written n) o ≡ block_of (chars name.now) (passing_in (seen_sight n self.now))) }
    {
        match self.chain.as_slice().split_first() {
            None => Ok(None),
            Some((link, rest)) => match start_of(link.slots.as_slice(), name) {
                None => Ok(None),
                Some(start) => {
                    let level = link.level.copy()?;
                    let chain = copied(*self.chain.allocator(), rest)?;
                    let sight = Sight { level, chain };
                    Ok(Some(Written { start, sight }))
                }
            },
        }
    }
}
