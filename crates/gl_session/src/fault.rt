// Why an event makes no turn.
ghost use Rattle.std.specs.Prelude.{◌≡◌};

use gl_code::VmFault;
use std::alloc::AllocError;
use thiserror::Error;

/// Why an event makes no turn.
#[derive(Debug, Drop, Error)]
pub enum EventFault {
    /// A component would stand deeper than the application's limit says.
    #[error("components nest too deep")]
    NestingLimit,
    #[error("out of memory")]
    Memory,
    /// An event before stopped the session, for this reason.
    #[error("the session has stopped: {0}")]
    Stopped(VmFault),
}

impl From<VmFault> for EventFault {
    ghost use Rattle.gl_session.specs.Faults.{event_fault};

    ghost from_gives = { λ fault e. e ≡ event_fault fault };

    fn from(fault: VmFault) -> Self {
        match fault {
            VmFault::NestingLimit => EventFault::NestingLimit,
            VmFault::Memory => EventFault::Memory,
        }
    }
}
