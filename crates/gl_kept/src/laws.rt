//! The laws of what the machine keeps. Each function does nothing: its contract is the law.

ghost use Rattle.gl_kept.specs.Laws.{AppendedKeeps, SetsKeep, UpdatedKeeps, FirstKeeps, NextKeeps, NamesAreThere, ReadsAreLive, FreedIsUnread, NobodyReadsInto, ItemsByList, ListsAreEntries, TreeListsAreThere, MovedByPlans, UpdatedMoves, NextMoves, UpdatedMovesBetween, NextMovesBetween, PlansMoveBetween, AskedAtMost, RegionsAreThere, FreshAsksOnce, NextAsks};

/// What is appended and updated is kept, and nothing else is.
pub fn keeps()
    ensures appended { AppendedKeeps }
    ensures sets { SetsKeep }
    ensures updated { UpdatedKeeps }
{}

/// So it is in each turn of a session.
pub fn turns()
    ensures first { FirstKeeps }
    ensures next { NextKeeps }
{}

/// Where that is so, an id names a thing exactly where the tree counts it, references read only what is there, and nobody reads what was freed.
pub fn reads()
    ensures names { NamesAreThere }
    ensures live { ReadsAreLive }
    ensures freed { FreedIsUnread }
    ensures into { NobodyReadsInto }
{}

/// The items of a rendering are those of its lists, which are entries, and the items moved in a turn are those that the plans of its lists move.
pub fn moves()
    ensures items { ItemsByList }
    ensures entries { ListsAreEntries }
    ensures trees { TreeListsAreThere }
    ensures plans { MovedByPlans }
    ensures updated { UpdatedMoves }
    ensures next { NextMoves }
{}

/// They are those that are counted in the trees before and after an update, list by list, and in a list those that its plan moves.
pub fn between()
    ensures updated { UpdatedMovesBetween }
    ensures next { NextMovesBetween }
    ensures plans { PlansMoveBetween }
{}

/// An update that keeps a guard for each region asks at most as much as the meaning says, and once where no position is stale.
pub fn asks()
    ensures most { AskedAtMost }
    ensures regions { RegionsAreThere }
    ensures once { FreshAsksOnce }
    ensures next { NextAsks }
{}
