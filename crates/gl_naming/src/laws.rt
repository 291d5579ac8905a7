//! The laws of naming. Each function does nothing: its contract is the law.

ghost use Rattle.gl_naming.specs.Laws.{MeansRenamed, BoundRenamed, PartsRenamed, PlacedRenamed, GrownRenamed, UpdatedRenamed};
ghost use Rattle.gl_naming.specs.Moved.{StandsMoved};
ghost use Rattle.gl_naming.specs.Named.{GrownNamed, BegunNamed, LaidNamed, StoodNamed, TouchRenamed, SetGiven, SetNamed, NewInitial, SettledOwn, UpdatedNamed, TurnNamed};
ghost use Rattle.gl_naming.specs.Exist.{RulesDiffer, NamesExist, GrownStands, FirstStands};

/// What is read is the same but for names, where owners have theirs one-to-one.
pub fn reads()
    ensures { MeansRenamed }
{}

/// What is bound and placed by numbers is what is bound and placed by paths, but for names.
pub fn binds()
    ensures bound { BoundRenamed }
    ensures parts { PartsRenamed }
    ensures placed { PlacedRenamed }
{}

/// What is appended by numbers is what is appended by paths, but for names.
pub fn grows()
    ensures { GrownRenamed }
{}

/// What is updated by numbers is what is updated by paths, but for names.
pub fn renews()
    ensures { UpdatedRenamed }
{}

/// Right names exist for what is appended by numbers, where no class repeats the name of a field: so with them it stands for the rendering.
pub fn names()
    ensures differ { RulesDiffer }
    ensures exist { NamesExist }
    ensures stands { GrownStands }
    ensures first { FirstStands }
{}

/// A machine that stands with some names stands also with others, which come of them by renaming what isn't the tree's own.
pub fn moves()
    ensures { StandsMoved }
{}

/// From turn to turn: what is appended by numbers stands with names that are right for it, so it does at the beginning of a turn and after
/// sets, and after an update there are such names again, with which the update was the one by paths.
pub fn turns()
    ensures grown { GrownNamed }
    ensures begun { BegunNamed }
    ensures laid { LaidNamed }
    ensures stood { StoodNamed }
    ensures touched { TouchRenamed }
    ensures given { SetGiven }
    ensures set { SetNamed }
    ensures initial { NewInitial }
    ensures settled { SettledOwn }
    ensures updated { UpdatedNamed }
    ensures turn { TurnNamed }
{}
