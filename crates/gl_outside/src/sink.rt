// A sink of bytes: what it took, where it tells, and how often it failed or wanted memory.
ghost use Rattle.std.specs.Prelude.{◌≡◌, ◌<◌, ◌≤◌, ℕ, List, Option, OnOk, IsErrOf};
ghost use Rattle.gl_base.specs.Taking.{Takes, TakesFront};
ghost use Rattle.gl_outside.specs.declared.sink.SinkFault.TheVariants.{Memory};
ghost use Rattle.gl_outside.specs.Sink.{Wanted};

use std::alloc::{AllocError, AllocFailed};
use thiserror::Error;

/// Why a put took not the whole piece.
#[derive(Clone, Copy, Debug, PartialEq, Eq, Error)]
pub enum SinkFault {
    /// The piece could not be written.
    #[error("write fault")]
    Failed,
    /// There was no memory, or a count stood at its last value.
    #[error("out of memory")]
    Memory,
}

impl From<AllocError> for SinkFault {
    ghost from_gives = { λ _ e. e ≡ Memory };

    fn from(_: AllocError) -> Self {
        SinkFault::Memory
    }
}

impl<T: Drop> From<AllocFailed<T>> for SinkFault {
    ghost from_gives = { λ _ e. e ≡ Memory };

    fn from(_: AllocFailed<T>) -> Self {
        SinkFault::Memory
    }
}

/// A place to write bytes to.
pub trait Sink {
    /// The bytes that it took, where it tells.
    ghost took: { Self → Option (List ℕ) };

    /// How often a put failed.
    ghost faults: { Self → ℕ };

    /// How often it wanted memory.
    ghost wants: { Self → ℕ };

    /// Takes the whole piece. After `Failed` it took the front of the piece, which may be empty, and
    /// after `Memory` it took nothing of it.
    fn put(&mut self, piece: &[u8]) -> Result<(), SinkFault>
        ensures whole { OnOk result (Takes (took self.old) (took self.new) piece.now) }
        ensures failed { IsErrOf result SinkFault.Failed → faults self.old < faults self.new }
        ensures front { IsErrOf result SinkFault.Failed → TakesFront (took self.old) (took self.new) piece.now }
        ensures memory { IsErrOf result SinkFault.Memory → Wanted (faults self.old) (wants self.old) (wants self.new) }
        ensures nothing { IsErrOf result SinkFault.Memory → took self.new ≡ took self.old }
        ensures faults_stay { faults self.old ≤ faults self.new }
        ensures wants_stay { wants self.old ≤ wants self.new };
}
