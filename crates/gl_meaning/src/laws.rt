//! The laws of the definitions. Each function does nothing: its contract is the law. The words of the
//! contracts stand in `specs/Laws.antt`, each with its sentence.

ghost use Rattle.gl_meaning.specs.Laws.{SettledIsRendered, SettledIsSettled, GetterIsItsExpression, NodesStandOnce, PositionsStandOnce, RegionsStandOnce, InstancesStandOnce, ItemsStandOnce, ModifiersStandOnce, ModifierIsPosition, SourcesStandAbove, KindIsKept, UntouchedIsKept, OnlyStaleChanges, CallsEnd, NumberIsKept, OthersAreNumbered, NodesAloneAreNumbered, NumbersStayValid, TurnsAreReached, StateIsRendered, StateIsSettled, StateHoldsNoAction, StateReadsAbove, StateNumbersAreValid, NumbersNeverComeAgain, TurnChangesOnlyStale};
ghost use Rattle.gl_meaning.specs.PlaceLaws.{ReadIsKept, ValuesAreKept, ArgumentsAreKept, ComponentsNest, DeepIsOneMore, NumberedAreNodes, NumberPersists, StepRenders};

/// What is rendered from the settled store is the same rendering, and to settle that store again
/// changes nothing.
pub fn settled_store()
    ensures rendered { SettledIsRendered }
    ensures settled { SettledIsSettled }
{}

/// Where no getter reaches itself, a getter is the value of its expression, with the same `this` and
/// the same arguments, without block parameters.
pub fn getter_value()
    ensures { GetterIsItsExpression }
{}

/// In one rendering the path of a node stands once, and so does that of a position, of a region, of an
/// instance, of an item and of a modifier. A modifier's path is that of the position which has its
/// arguments.
pub fn paths_once()
    ensures nodes { NodesStandOnce }
    ensures positions { PositionsStandOnce }
    ensures regions { RegionsStandOnce }
    ensures instances { InstancesStandOnce }
    ensures items { ItemsStandOnce }
    ensures modifiers { ModifiersStandOnce }
    ensures arguments { ModifierIsPosition }
{}

/// What a position read, and each owner of an action in it, stands at or above the position; what was
/// read for an instance's argument, and each owner in it, stands above the instance. This is so over
/// cells that hold no action, as those of each state do.
pub fn sources_above()
    ensures { SourcesStandAbove }
{}

/// At a path that is in two renderings of an app stands the same kind of node, and an element of the
/// same tag.
pub fn node_kind()
    ensures { KindIsKept }
{}

/// A position that is in the renderings before and after some sets has as many Pairs in both, and each
/// of which no source is touched is the same in both. So a position that persists and isn't stale reads
/// what it read before.
pub fn frame()
    ensures untouched { UntouchedIsKept }
    ensures stale { OnlyStaleChanges }
{}

/// The calls of an action end: with as many levels of calls as the nesting of its owner, or more, it
/// sets the same.
pub fn calls_end()
    ensures { CallsEnd }
{}

/// A node that has a number keeps it, each other node gets one from the next number on, and nothing
/// else has one. Numbers stay different for different paths, and below the next one.
pub fn numbers()
    ensures kept { NumberIsKept }
    ensures given { OthersAreNumbered }
    ensures nodes { NodesAloneAreNumbered }
    ensures valid { NumbersStayValid }
{}

/// The state after each turn of a session is one that the laws on states speak of.
pub fn session_turns()
    ensures { TurnsAreReached }
{}

/// After each turn the rendering is that of the cells as they then stand, the store is the settled one
/// and holds no action, what was read stands above its reader, and the numbers are different for
/// different nodes.
pub fn session_states()
    ensures rendered { StateIsRendered }
    ensures settled { StateIsSettled }
    ensures plain { StateHoldsNoAction }
    ensures above { StateReadsAbove }
    ensures numbers { StateNumbersAreValid }
{}

/// In a session a number never comes again for another path.
pub fn session_numbers()
    ensures { NumbersNeverComeAgain }
{}

/// In each turn after the first, a position that persists and isn't stale reads what it read before.
pub fn session_frame()
    ensures { TurnChangesOnlyStale }
{}

/// At a place that is in the renderings before and after some sets, an expression gives the same where no source that it read
/// is touched. So do the values of a `let` and of a `yield`, and the arguments of an instance.
pub fn places_frame()
    ensures read { ReadIsKept }
    ensures values { ValuesAreKept }
    ensures arguments { ArgumentsAreKept }
{}

/// Each component that is rendered has a nesting of at most the limit, and each that is too deep would have just one more.
pub fn nesting()
    ensures components { ComponentsNest }
    ensures deep { DeepIsOneMore }
{}

/// After each turn the paths that have a number are those of the nodes, and in each turn a node keeps its number exactly where
/// its path persists.
pub fn session_nodes()
    ensures numbered { NumberedAreNodes }
    ensures kept { NumberPersists }
{}

/// A step is the turn of the rendering of the cells that its event leaves, and there is none where there is no rendering.
pub fn step_renders()
    ensures { StepRenders }
{}
