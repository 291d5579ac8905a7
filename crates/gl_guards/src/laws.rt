//! The laws of an update that passes over what is fresh. Each function does nothing: its contract is the law.

ghost use Rattle.gl_guards.specs.Laws.{NamingsApart, FreshStays, FreshStaysIn, FreshStaysItems, FreshStaysRoot, ListGoesAlong, GuardedIsRenew, GuardedIsRenewIn, GuardedIsRenewItems, GuardedIsRenewRoot, EnteredIsRenew, EnteredIsRenewRoot, TurnMayPass, TurnIsRenew, PutsAreRenew, PutsAreEntered, PutsGoAlong, KeysAreOnce, FreshAsksOne, TurnAsks, PutsAsk, AlongAsksLess, PutsAskAlong};

/// What is noted of what comes and goes leaves all things.
pub fn notes()
    ensures both { NamingsApart }
{}

/// Where no position in it is stale, the update of a part, a body, the items of a list or the page leaves all as it is.
pub fn fresh()
    ensures part { FreshStays }
    ensures body { FreshStaysIn }
    ensures items { FreshStaysItems }
    ensures page { FreshStaysRoot }
{}

/// A list that wasn't touched has its items updated in order, each in its place.
pub fn lists()
    ensures along { ListGoesAlong }
{}

/// An update that passes over what is fresh does what the update does.
pub fn guarded()
    ensures part { GuardedIsRenew }
    ensures body { GuardedIsRenewIn }
    ensures items { GuardedIsRenewItems }
    ensures page { GuardedIsRenewRoot }
{}

/// So does an update that enters more regions than those, by any question that passes over what is fresh alone.
pub fn entered()
    ensures part { EnteredIsRenew }
    ensures page { EnteredIsRenewRoot }
{}

/// So it is in each turn of a session, by numbers and through the words.
pub fn turns()
    ensures may { TurnMayPass }
    ensures same { TurnIsRenew }
    ensures puts { PutsAreRenew }
    ensures entered { PutsAreEntered }
    ensures along { PutsGoAlong }
{}

/// In the updating program of a page no key of a list stands twice.
pub fn lists_once()
    ensures { KeysAreOnce }
{}

/// Where no position of a page is stale, one question is asked; and in each turn of a session at most as many as the turn says.
pub fn questions()
    ensures one { FreshAsksOne }
    ensures most { TurnAsks }
    ensures puts { PutsAsk }
{}

/// An update that goes along, and counts one for a region in which nothing was evaluated, counts no more than one that enters just what is stale;
/// so in each turn of a session at most as many questions as the turn says.
pub fn along_questions()
    ensures less { AlongAsksLess }
    ensures puts { PutsAskAlong }
{}
