//! The laws of the machine's turns. Each function does nothing: its contract is the law.

ghost use Rattle.gl_turns.specs.Laws.{AppendedNumbers, UpdatedNumbers, UpdatedMadeCount, TouchedIsTouched, EvaluatesNewOrStale, EvaluatedCount, SetsAreLaid, InstallsNew, UpdatesStale, CountedIsThere, DestroysGone, DestroysInOrder, ModifiersInOrder, MovedByList, SettledStands, FirstTurn, NextTurn, FirstLog, NextLog};

/// The ids of nodes are the numbers that the meaning gives to their paths, and as many are made as it counts.
pub fn numbers()
    ensures appended { AppendedNumbers }
    ensures updated { UpdatedNumbers }
    ensures made { UpdatedMadeCount }
{}

/// An update touches what the meaning names, and evaluates exactly the positions that are new or stale.
pub fn evaluated()
    ensures touched { TouchedIsTouched }
    ensures evaluates { EvaluatesNewOrStale }
    ensures count { EvaluatedCount }
{}

/// After the sets of an event the machine still shows what it showed, and its cells hold the store with the sets laid on.
pub fn sets()
    ensures { SetsAreLaid }
{}

/// A machine that stands for a store stands for the settled one. So in a session each turn of the machine shows what the session's turn
/// has, and does as much as its work says.
pub fn turns()
    ensures settled { SettledStands }
    ensures first { FirstTurn }
    ensures next { NextTurn }
    ensures first_log { FirstLog }
    ensures next_log { NextLog }
{}

/// An update installs the modifiers that are new and updates those that are stale, in the order in which they stand. What it destroys is what
/// is gone by path.
pub fn log()
    ensures installs { InstallsNew }
    ensures updates { UpdatesStale }
    ensures there { CountedIsThere }
    ensures destroys { DestroysGone }
    ensures ordered { DestroysInOrder }
    ensures modifiers { ModifiersInOrder }
{}

/// The items moved in a turn are those moved in each list.
pub fn moved()
    ensures { MovedByList }
{}
