//! What follows for values where one tag changes. Each function does nothing: its contract is the law. The
//! words of the contracts stand in `specs/Laws.antt`, each with its sentence.

ghost use Rattle.gl_tags.specs.Laws.{DirtyReaches, FreeKeeps, CombineIsGreatest};

/// Where a dirtyable tag is dirtied, it and each tag that leads to it have the clock as their value, and all
/// others keep theirs.
pub fn dirty_reaches()
    ensures { DirtyReaches }
{}

/// Where a tag is ended to which no live combined tag leads, every other tag leads to what it led to, with the
/// same value.
pub fn free_keeps()
    ensures { FreeKeeps }
{}

/// The value of a tag that is combined is the greatest of the values of its parts.
pub fn combine_is_greatest()
    ensures { CombineIsGreatest }
{}
