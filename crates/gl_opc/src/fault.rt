// Why a wire is not linked.
ghost use Rattle.std.specs.Prelude.{◌≡◌};

use gl_meaning::Kind;
use gl_value::Text;
use std::alloc::AllocError;
use thiserror::Error;

/// Why a wire is not linked.
#[derive(Debug, Drop, Error)]
pub enum LinkFault {
    /// The first name that is not known, with the statement of the wire in which it stands: statements are counted from 0 in
    /// the order in which they are written, each before those in it. An expression by itself is in statement 0.
    #[error("unknown name")]
    UnknownName { kind: Kind, name: Text, place: u64 },
    #[error("out of memory")]
    Memory,
}

impl From<AllocError> for LinkFault {
    ghost use Rattle.gl_opc.specs.declared.fault.LinkFault.TheVariants.{Memory};

    ghost from_gives = { λ _ e. e ≡ Memory };

    fn from(_: AllocError) -> Self {
        LinkFault::Memory
    }
}
