//! The law of helpers on values with other owners. The function does nothing: its contract is the law.

ghost use Rattle.std.specs.Prelude.{ℕ, List};
ghost use Rattle.gl_meaning.specs.Path.{Path};
ghost use Rattle.gl_labels.specs.Laws.{HelpersKeepOwners};

/// A helper's value is the same but for owners, where these are given one-to-one: so owners may be numbers.
pub fn helpers_keep_owners()
    ensures { HelpersKeepOwners ℕ Path }
{}
