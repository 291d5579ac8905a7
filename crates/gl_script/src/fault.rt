// Why bytes are no script.
ghost use Rattle.std.specs.Prelude.{◌≡◌};
ghost use Rattle.gl_script.specs.Faults.{of_place};
ghost use Rattle.gl_script.specs.declared.fault.ScriptFault.TheVariants.{Memory};

use gl_shape::PlaceFault;
use gl_value::Text;
use std::alloc::{AllocError, AllocFailed};
use thiserror::Error;

/// Why bytes are no script for a root: they are no JSON; the JSON's first place that is not of the form has this
/// pointer; the event at this place of the outer array is the first that sets a name that no field of the root has; or
/// memory is wanting.
#[derive(Debug, Drop, Error)]
pub enum ScriptFault {
    #[error("not JSON")]
    BadJson,
    #[error("bad shape")]
    BadShape { pointer: Text },
    #[error("unknown field")]
    UnknownName { index: u64, name: Text },
    #[error("out of memory")]
    Memory,
}

impl From<AllocError> for ScriptFault {
    ghost from_gives = { λ _ e. e ≡ Memory };

    fn from(_: AllocError) -> Self {
        ScriptFault::Memory
    }
}

impl<T: Drop> From<AllocFailed<T>> for ScriptFault {
    ghost from_gives = { λ _ e. e ≡ Memory };

    fn from(_: AllocFailed<T>) -> Self {
        ScriptFault::Memory
    }
}

impl From<PlaceFault> for ScriptFault {
    ghost from_gives = { λ f e. e ≡ of_place f };

    fn from(fault: PlaceFault) -> Self {
        match fault {
            PlaceFault::At { pointer } => ScriptFault::BadShape { pointer },
            PlaceFault::Memory => ScriptFault::Memory,
        }
    }
}
