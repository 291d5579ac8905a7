//! The laws of keys and plans. Each function does nothing: its contract is the law. The words of the contracts stand in
//! `specs/Laws.antt`, each with its sentence.

ghost use Rattle.gl_each.specs.Laws.{CarriedIsWanted, WantedIsNew, MovesAreMoved, KeysAreDistinct};

/// A plan carried out on the list of old items gives exactly the new list: the removed items are taken out, the items
/// of the steps `Move` are moved, the new ones are put in.
pub fn carried_out<K>()
    ensures items { CarriedIsWanted K }
    ensures keys { WantedIsNew K }
{}

/// The number of the steps `Move` is the number of moved items that the meaning of a turn gives for the two lists.
pub fn moved()
    ensures { MovesAreMoved }
{}

/// The keys of one list, with their occurrences, are distinct.
pub fn distinct()
    ensures { KeysAreDistinct }
{}
