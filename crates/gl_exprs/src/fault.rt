// Why tokens spell no tree.
ghost use Rattle.std.specs.Prelude.{◌≡◌};
ghost use Rattle.gl_exprs.specs.declared.fault.Misread.TheVariants as misread;
ghost use Rattle.gl_exprs.specs.declared.fault.ParseFault.TheVariants.{Memory};

use std::alloc::{AllocError, AllocFailed};
use thiserror::Error;

/// Why a text spells no tree: at the byte `offset`, counted from 0, it isn't in the grammar; or memory is wanting.
#[derive(Clone, Copy, Debug, PartialEq, Eq, Error)]
pub enum ParseFault {
    #[error("not in the grammar at byte {offset}")]
    NotInGrammar { offset: u64 },
    #[error("out of memory")]
    Memory,
}

impl From<AllocError> for ParseFault {
    ghost from_gives = { λ _ e. e ≡ Memory };

    fn from(_: AllocError) -> Self {
        ParseFault::Memory
    }
}

impl<T: Drop> From<AllocFailed<T>> for ParseFault {
    ghost from_gives = { λ _ e. e ≡ Memory };

    fn from(_: AllocFailed<T>) -> Self {
        ParseFault::Memory
    }
}

/// Why nothing is read of tokens: what is wanted isn't spelled there; or memory is wanting.
#[derive(Clone, Copy, Debug, PartialEq, Eq)]
pub enum Misread {
    NotSpelled,
    Memory,
}

impl From<AllocError> for Misread {
    ghost from_gives = { λ _ e. e ≡ misread.Memory };

    fn from(_: AllocError) -> Self {
        Misread::Memory
    }
}

impl<T: Drop> From<AllocFailed<T>> for Misread {
    ghost from_gives = { λ _ e. e ≡ misread.Memory };

    fn from(_: AllocFailed<T>) -> Self {
        Misread::Memory
    }
}
