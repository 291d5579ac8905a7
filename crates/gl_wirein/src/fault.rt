// Why JSON is the wire of no template.
ghost use Rattle.std.specs.Prelude.{◌≡◌};
ghost use Rattle.gl_wirein.specs.Answer.{fault_of};
ghost use Rattle.gl_wirein.specs.declared.fault.WireFault.TheVariants.{Memory};

use gl_parse::ParseFault;
use std::alloc::{AllocError, AllocFailed};
use thiserror::Error;

/// Why JSON is read as no wire: no template's wire has that JSON; or memory is wanting.
#[derive(Clone, Copy, Debug, PartialEq, Eq, Error)]
pub enum WireFault {
    #[error("not a wire")]
    BadWire,
    #[error("out of memory")]
    Memory,
}

impl From<AllocError> for WireFault {
    ghost from_gives = { λ _ e. e ≡ Memory };

    fn from(_: AllocError) -> Self {
        WireFault::Memory
    }
}

impl<T: Drop> From<AllocFailed<T>> for WireFault {
    ghost from_gives = { λ _ e. e ≡ Memory };

    fn from(_: AllocFailed<T>) -> Self {
        WireFault::Memory
    }
}

impl From<ParseFault> for WireFault {
    ghost from_gives = { λ f e. e ≡ fault_of f };

    fn from(fault: ParseFault) -> Self {
        match fault {
            ParseFault::NotInGrammar { .. } => WireFault::BadWire,
            ParseFault::Memory => WireFault::Memory,
        }
    }
}
