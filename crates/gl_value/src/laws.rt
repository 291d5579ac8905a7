//! The laws of the rules on values. Each function does nothing: its contract is the law. The words of the
//! contracts stand in `specs/Laws.antt`, each with its sentence.

ghost use Rattle.gl_value.specs.Laws.{SameDecides, RulesLeaveOwners, PlainLeavesOwners, PropertyKeepsOwners, SameLeavesOwners};

/// Two values are the same just where they are equal, for any type of owner and any test that decides
/// whether two owners are equal.
pub fn same_decides<O>()
    ensures { SameDecides O }
{}

/// The rules do not ask who owns an action: with other owners a value has the same truth, text, attribute,
/// depth, plain form and key, and its properties with these owners; and two values are the same just where
/// they were, if the owners that occur are given one-to-one.
pub fn owners_free<O, P, Q>()
    ensures rules { RulesLeaveOwners O P }
    ensures plain { PlainLeavesOwners O P Q }
    ensures property { PropertyKeepsOwners O P }
    ensures same { SameLeavesOwners O P }
{}
