//! The laws of an update. Each function does nothing: its contract is the law.

ghost use Rattle.gl_machine.specs.Marks.{AppendedInstalls, BlocksRise, UpdatedInstalls, UpdatedUpdates};
ghost use Rattle.gl_machine.specs.Placed.{RenewsRight};
ghost use Rattle.gl_machine.specs.Scopes.{PageNamesOwn, SightsNameOwn};
ghost use Rattle.gl_machine.specs.UpdateLaws.{FreedIsGone, FreedIsLogged, IdsByPath, IdsStandOnce, NestHasNodes, NestIsDrawn, NestIsOrdered, NestIsPlaced, PageFollows, PlacesStandOnce, RowsAreDrawn};

/// An update of the recorded program does what one of the tree does by the same naming, and leaves it recorded well.
pub fn recorded()
    ensures statements { RenewsRight }
    ensures page { PageFollows }
{}

/// The nodes that the tree has are nested as those of the rendering, in order.
pub fn nested()
    ensures ordered { NestIsOrdered }
    ensures placed { NestIsPlaced }
    ensures drawn { NestIsDrawn }
    ensures nodes { NestHasNodes }
{}

/// What stands at which path, that each stands once, and that what persists keeps its id.
pub fn by_path()
    ensures drawn { RowsAreDrawn }
    ensures ids { IdsStandOnce }
    ensures places { PlacesStandOnce }
    ensures kept { IdsByPath }
{}

/// What an update frees, children first over the old tree, and what the log of the turn tells of it.
pub fn destroyed()
    ensures gone { FreedIsGone }
    ensures logged { FreedIsLogged }
{}

/// What a turn hands out of modifiers: those that were installed and those that were updated, in the order of the log.
pub fn handed_out()
    ensures appended { AppendedInstalls }
    ensures installed { UpdatedInstalls }
    ensures updated { UpdatedUpdates }
{}

/// The scopes that are recorded name blocks and instances that the page has.
pub fn scopes()
    ensures parts { SightsNameOwn }
    ensures page { PageNamesOwn }
    ensures rise { BlocksRise }
{}
