//! How many items a turn moves. Each function does nothing: its contract is the law.

ghost use Rattle.gl_works.specs.Laws.{FirstMovesNone, NextMovesBy};

/// The first turn moves nothing, and a turn of an event as many items as are counted between the trees before and after its update.
pub fn moves()
    ensures first { FirstMovesNone }
    ensures next { NextMovesBy }
{}
