// The versions of the JSON of wires.

/// A version of the JSON of wires. In version 1 a component has at most one block, which no name is written of; in version 2 each block
/// has a row with its name.
#[derive(Clone, Copy, Debug, PartialEq, Eq)]
pub enum Version {
    First,
    Second,
}
