// Lists that have little room to spare.
ghost use Rattle.std.specs.Prelude.{◌≡◌, [], ◌∷◌, ◌++◌, OnOk, OnErr};

use std::alloc::AllocError;

/// Adds an item at the end of a list. A list that is full gets room for an eighth more of its items and for one,
/// so that a short list takes no more memory than its items do.
pub fn push_tight<T: Drop>(list: &mut Vec<T>, item: T) -> Result<(), AllocError>
    ensures ok { OnOk result (list.new.items ≡ list.old.items ++ item ∷ []) }
    ensures err { OnErr result (list.new.items ≡ list.old.items) }
{
    if list.len() == list.capacity() {
        list.reserve_exact(1 + list.len() / 8)?;
    }
    list.push(item)?;
    Ok(())
}
