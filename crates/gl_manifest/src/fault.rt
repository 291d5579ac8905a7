// Why bytes say no manifest.
ghost use Rattle.std.specs.Prelude.{◌≡◌};
ghost use Rattle.gl_manifest.specs.declared.fault.ManifestFault.TheVariants.{Memory};

use gl_value::Text;
use std::alloc::{AllocError, AllocFailed};
use thiserror::Error;

/// Why bytes say no manifest.
#[derive(Debug, Drop, Error)]
pub enum ManifestFault {
    /// They hold no JSON.
    #[error("not JSON")]
    BadJson,
    /// The JSON is not of the form of a manifest; this is the JSON pointer of the first place that is not.
    #[error("bad shape")]
    BadShape { pointer: Text },
    /// The JSON is of the form, and this is the JSON pointer of the first text that spells no expression, or no path of an
    /// argument where it is a `call`.
    #[error("bad expression")]
    NotInGrammar { pointer: Text },
    #[error("out of memory")]
    Memory,
}

impl From<AllocError> for ManifestFault {
    ghost from_gives = { λ _ e. e ≡ Memory };

    fn from(_: AllocError) -> Self {
        ManifestFault::Memory
    }
}

impl<T: Drop> From<AllocFailed<T>> for ManifestFault {
    ghost from_gives = { λ _ e. e ≡ Memory };

    fn from(_: AllocFailed<T>) -> Self {
        ManifestFault::Memory
    }
}
