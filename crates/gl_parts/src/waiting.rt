// The parts of a tag that wait for its end.

use gl_refs::{Ids, NamedIds, RefId};
use gl_value::Text;

/// A part of a tag that waits for the tag's end.
#[derive(Drop)]
pub enum Waiting {
    Fixed {
        name: Text,
        text: Text,
    },
    Live {
        name: Text,
        id: RefId,
    },
    Modifier {
        name: u32,
        args: Ids,
        named: NamedIds,
    },
}
