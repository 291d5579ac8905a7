// Kinds of names.

/// What a name was to be: a class, a helper, a modifier, a member of `this`, a block parameter, or a field that a
/// step sets.
#[derive(Clone, Copy, Debug, PartialEq, Eq)]
pub enum Kind {
    Component,
    Helper,
    Modifier,
    Member,
    Local,
    Field,
}
