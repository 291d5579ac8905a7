// A shelf of files: what it holds, where it tells, and how often it had no file or failed.
ghost use Rattle.std.specs.Prelude.{◌≡◌, ◌<◌, ◌≤◌, ◌++◌, ℕ, List, take, Option, OnOk, OnErr, IsErrOf};
ghost use Rattle.gl_outside.specs.declared.shelf.ShelfFault.TheVariants.{Memory};
ghost use Rattle.gl_outside.specs.Shelf.{Entry, Reads, IsAbsent, Begins};

use std::alloc::{AllocError, AllocFailed};
use thiserror::Error;

/// Why a fetch gave no file.
#[derive(Clone, Copy, Debug, PartialEq, Eq, Error)]
pub enum ShelfFault {
    /// There is no file of that name.
    #[error("absent")]
    Absent,
    /// The file could not be read.
    #[error("read fault")]
    Failed,
    /// There was no memory, or a count stood at its last value.
    #[error("out of memory")]
    Memory,
}

impl From<AllocError> for ShelfFault {
    ghost from_gives = { λ _ e. e ≡ Memory };

    fn from(_: AllocError) -> Self {
        ShelfFault::Memory
    }
}

impl<T: Drop> From<AllocFailed<T>> for ShelfFault {
    ghost from_gives = { λ _ e. e ≡ Memory };

    fn from(_: AllocFailed<T>) -> Self {
        ShelfFault::Memory
    }
}

/// Files to read, each by its name.
pub trait Shelf {
    /// The files that it holds, where it tells.
    ghost holds: { Self → Option (List Entry) };

    /// How often a name was asked for that it did not hold.
    ghost misses: { Self → ℕ };

    /// How often it failed.
    ghost faults: { Self → ℕ };

    /// Appends the first `most` bytes of the named file, or the whole of a shorter one. Where the
    /// shelf tells what it holds, `Ok` comes only for a name that it holds, and `Absent` only for
    /// another. After an error `into` still begins with what it held.
    fn fetch(&mut self, name: &str, most: usize, into: &mut Vec<u8>) -> Result<(), ShelfFault>
        ensures keeps { holds self.new ≡ holds self.old }
        ensures read { OnOk result (Reads (holds self.old) name.now most into.old.items into.new.items) }
        ensures begins { Begins into.old.items into.new.items }
        ensures absent { IsErrOf result ShelfFault.Absent → IsAbsent (holds self.old) name.now }
        ensures missed { IsErrOf result ShelfFault.Absent → misses self.old < misses self.new }
        ensures failed { IsErrOf result ShelfFault.Failed → faults self.old < faults self.new }
        ensures misses_stay { misses self.old ≤ misses self.new }
        ensures faults_stay { faults self.old ≤ faults self.new };
}

// Appends the first `most` bytes, or all of fewer.
pub(crate) fn append_front(bytes: &[u8], most: usize, into: &mut Vec<u8>) -> Result<(), AllocError>
    ensures ok { OnOk result (into.new.items ≡ into.old.items ++ take most bytes.now) }
    ensures err { OnErr result (into.new.items ≡ into.old.items) }
{
    let count = bytes.len().min(most);
    into.extend_from_slice(&bytes[..count])
}
