// Why an application is not loaded.
ghost use Rattle.std.specs.Prelude.{◌≡◌};
ghost use Rattle.std.specs.Str.{chars};
ghost use Rattle.gl_load.specs.Loads.{IsFaultIn};
ghost use Rattle.gl_load.specs.declared.fault.LoadCause.TheVariants.{Memory};

use gl_meaning::Kind;
use gl_value::Text;
use std::alloc::{AllocError, Global};
use thiserror::Error;

/// What is the matter with a file.
#[derive(Debug, Drop, Error)]
pub enum LoadCause {
    /// There is no such file.
    #[error("absent")]
    Absent,
    /// It is longer than 16,777,216 bytes; so many were taken of it.
    #[error("longer than 16777216 bytes")]
    TooLong { taken: u64 },
    #[error("not JSON")]
    BadJson,
    /// The JSON pointer of the first place that is not of the format.
    #[error("bad shape")]
    BadShape { pointer: Text },
    /// The JSON pointer of the first text that spells no expression.
    #[error("bad expression")]
    BadExpression { pointer: Text },
    #[error("not in the grammar at byte {offset}")]
    NotInGrammar { offset: u64 },
    /// The first name that is not known, with what it was to be.
    #[error("unknown name")]
    UnknownName { kind: Kind, name: Text },
    /// The first getter that reaches itself, with its class.
    #[error("getter cycle")]
    GetterCycle { class: Text, getter: Text },
    /// The place of the first event that sets what is no field of the root, from 0, and the name.
    #[error("event {index}: unknown field")]
    UnknownField { index: u64, name: Text },
    #[error("read fault")]
    ReadFault,
    #[error("out of memory")]
    Memory,
}

impl From<AllocError> for LoadCause {
    ghost use Rattle.gl_load.specs.declared.fault.LoadCause.TheVariants.{Memory};

    ghost from_gives = { λ _ e. e ≡ Memory };

    fn from(_: AllocError) -> Self {
        LoadCause::Memory
    }
}

/// Why an application is not loaded: the first file that is refused or can't be read, and the cause. Where memory is
/// wanting the file's name may be empty.
#[derive(Debug, Drop, Error)]
#[error("{cause}")]
pub struct LoadFault {
    pub file: Text,
    pub cause: LoadCause,
}

/// Want of memory, without a file's name.
pub fn no_memory(alloc: Global) -> LoadFault
    ensures { result.cause ≡ Memory }
{
    LoadFault {
        file: Text::new(alloc),
        cause: LoadCause::Memory,
    }
}

/// The fault of a file; want of memory in its place, where there is none for the name.
pub fn fault_in(alloc: Global, name: &str, cause: LoadCause) -> LoadFault
    ensures { IsFaultIn (chars name.now) cause result }
{
    match Text::from_str(alloc, name) {
        Ok(file) => LoadFault { file, cause },
        Err(_) => no_memory(alloc),
    }
}
