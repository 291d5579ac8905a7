//! The laws of a machine by numbers that follows a session. Each function does nothing: its contract is the law.

ghost use Rattle.gl_follows.specs.Laws.{SetsBy, OwnerBy, NumberBy, PutsBy, FirstBy, NextBy, NextPaths, KeepsBy, FirstWords, NextWords, PutsWords, NextEnds};

/// After the sets of an event the machine still shows what it showed, its cells hold the store with the sets, and just these are touched. An
/// owner by its number is the instance that is kept there, so sets by the numbers of owners are those by paths.
pub fn sets()
    ensures laid { SetsBy }
    ensures owner { OwnerBy }
    ensures number { NumberBy }
    ensures puts { PutsBy }
{}

/// What is appended first follows a session's first turn, and where it follows a state it follows the next turn after an update.
pub fn turns()
    ensures first { FirstBy }
    ensures next { NextBy }
    ensures paths { NextPaths }
{}

/// Where it follows a state, it keeps just what its tree names.
pub fn keeps()
    ensures names { KeepsBy }
{}

/// So through the words of a loaded application, appended and updated within some number of steps; and an update ends.
pub fn words()
    ensures first { FirstWords }
    ensures next { NextWords }
    ensures puts { PutsWords }
    ensures ends { NextEnds }
{}
