//! Laws that the definitions keep, each the contract of a function that does nothing.
ghost use Rattle.std.specs.Prelude.{◌≡◌};
ghost use Rattle.gl_names.specs.Helpers.{helper_rows};
ghost use Rattle.gl_value.specs.Helpers.{helper_table};
ghost use Rattle.gl_helpers.specs.Table.{numbered_from};

/// The table of the helpers' names has for each the number by which it is called.
#[tactic(auto, unfolding(gl_names::specs::Helpers::helper_rows))]
pub fn helper_numbers()
    ensures { helper_rows ≡ numbered_from 0 helper_table }
{}
