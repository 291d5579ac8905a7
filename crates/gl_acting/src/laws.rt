//! What actions read of a machine by numbers that follows a session. Each function does nothing: its contract is the law.

ghost use Rattle.gl_acting.specs.Laws.{InstanceHas, ModsAre};

/// An instance of the tree is kept under its number, its cells hold the session's store, and its arguments are those of its scope.
pub fn instances()
    ensures { InstanceHas }
{}

/// The modifiers on an element by its number are those of the rendering at its path: whether each listens, and to what values.
pub fn modifiers()
    ensures { ModsAre }
{}
