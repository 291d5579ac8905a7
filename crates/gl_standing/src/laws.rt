//! The laws of a page that stands in a state of a session. The function does nothing: its contract is the laws.

ghost use Rattle.gl_standing.specs.Laws.{StandingShows, NothingElse};

/// A page that stands in a state of a session shows the state's rendering, and keeps nothing else.
pub fn standing()
    ensures shows { StandingShows }
    ensures keeps { NothingElse }
{}
