//! The laws of the machine over words. Each function does nothing: its contract is the law.
ghost use Rattle.gl_machine.specs.Laws.{WordsAppend, WordsStand, WordsEnd, PageAppends, PageStands, PageEnds, PageRenews, PageUpdates, PageRenewEnds, StandingNests};

/// What is run from a recorded address appends what the tree says, and what it records is well placed, however owners and sources are named.
/// In a scope of now, by paths, it stands for the body there. It ends within some number of steps.
pub fn words()
    ensures appends { WordsAppend }
    ensures stands { WordsStand }
    ensures ends { WordsEnd }
{}

/// The whole page is appended and updated as the machine over trees does by the same naming, so by paths it stands for the rendering. Both
/// end; an update where components nest no deeper than they may, as they do where the machine stands for a rendering.
pub fn pages()
    ensures appends { PageAppends }
    ensures stands { PageStands }
    ensures ends { PageEnds }
    ensures renews { PageRenews }
    ensures updates { PageUpdates }
    ensures renew_ends { PageRenewEnds }
    ensures nests { StandingNests }
{}
