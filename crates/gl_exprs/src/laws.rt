//! Laws that the definitions keep, each the contract of a function that does nothing.
ghost use Rattle.std.specs.Prelude.{◌≡◌, map};
ghost use Rattle.gl_names.specs.References.{reference_rows};
ghost use Rattle.gl_names.specs.Void.{void_rows};
ghost use Rattle.gl_ast.specs.References.{references};
ghost use Rattle.gl_ast.specs.Void.{void_names};

/// The character references of the definitions are the rows of the table.
#[tactic(auto, unfolding(gl_ast::specs::References::references, gl_names::specs::References::reference_rows))]
pub fn reference_table()
    ensures { references ≡ reference_rows }
{}

/// The elements without an end tag of the definitions are the names of the table.
#[tactic(auto, unfolding(gl_ast::specs::Void::void_names, gl_names::specs::Void::void_rows))]
pub fn void_table()
    ensures { void_names ≡ map (λ r. r.0) void_rows }
{}
