//! The laws of a page that stands in a state of a session, for events. The function does nothing: its contract is the law.

ghost use Rattle.gl_fires.specs.Laws.{HasWorld, Hears, SetsAreOwn};

/// It has all that actions read, the nodes with a number have the modifiers of its paths, and what actions set are fields of its instances.
pub fn fires()
    ensures world { HasWorld }
    ensures hears { Hears }
    ensures own { SetsAreOwn }
{}
