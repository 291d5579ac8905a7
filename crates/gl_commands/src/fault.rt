// Why a session is not played to its end.
ghost use Rattle.std.specs.Prelude.{◌≡◌};

use std::alloc::AllocError;
use thiserror::Error;

/// Why a session is not played to its end, or a text is not written.
#[derive(Clone, Copy, Debug, PartialEq, Eq, Error)]
pub enum PlayFault {
    /// A component would stand deeper than the application's limit says, in the turn of that number.
    #[error("turn {turn}: nesting limit {limit}")]
    NestingLimit { turn: u64, limit: u32 },
    #[error("write fault")]
    WriteFault,
    #[error("out of memory")]
    Memory,
}

impl From<AllocError> for PlayFault {
    ghost use Rattle.gl_commands.specs.declared.fault.PlayFault.TheVariants.{Memory};

    ghost from_gives = { λ _ e. e ≡ Memory };

    fn from(_: AllocError) -> Self {
        PlayFault::Memory
    }
}
