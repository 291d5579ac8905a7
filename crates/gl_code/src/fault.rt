// Why the machine stops.
ghost use Rattle.std.specs.Prelude.{◌≡◌};

use std::alloc::AllocError;
use thiserror::Error;

/// Why the machine stops before all is rendered.
#[derive(Debug, Drop, Error)]
pub enum VmFault {
    /// A component would stand deeper than the application's limit says.
    #[error("components nest too deep")]
    NestingLimit,
    #[error("out of memory")]
    Memory,
}

impl From<AllocError> for VmFault {
    ghost use Rattle.gl_code.specs.declared.fault.VmFault.TheVariants.{Memory};

    ghost from_gives = { λ _ e. e ≡ Memory };

    fn from(_: AllocError) -> Self {
        VmFault::Memory
    }
}
