// Why JSON is not of a form.
ghost use Rattle.std.specs.Prelude.{◌≡◌};
ghost use Rattle.gl_shape.specs.declared.fault.PlaceFault.TheVariants.{Memory};
ghost use Rattle.gl_shape.specs.View.{IsHere};

use gl_value::Text;
use std::alloc::{AllocError, AllocFailed, Global};
use thiserror::Error;

/// Why JSON is not of a form: the place with this JSON pointer is not, counted from the value that was read; or memory is
/// wanting.
#[derive(Debug, Drop, Error)]
pub enum PlaceFault {
    #[error("not of the form")]
    At { pointer: Text },
    #[error("out of memory")]
    Memory,
}

impl PlaceFault {
    /// The value that is read is itself not of the form. It takes no memory.
    pub fn here(alloc: Global) -> PlaceFault
        ensures { IsHere result }
    {
        PlaceFault::At {
            pointer: Text::new(alloc),
        }
    }
}

impl From<AllocError> for PlaceFault {
    ghost from_gives = { λ _ e. e ≡ Memory };

    fn from(_: AllocError) -> Self {
        PlaceFault::Memory
    }
}

impl<T: Drop> From<AllocFailed<T>> for PlaceFault {
    ghost from_gives = { λ _ e. e ≡ Memory };

    fn from(_: AllocFailed<T>) -> Self {
        PlaceFault::Memory
    }
}
