// The spelling of a template.
ghost use Rattle.std.specs.Prelude.{◌≡◌, IfOk};
ghost use Rattle.gl_ast.specs.Canon.{canonical};
ghost use Rattle.gl_ast.specs.Template.{body_of};

use crate::stmt::write_body;
use gl_ast::{Body, Template};
use gl_value::Text;
use std::alloc::{AllocError, Global};

/// The canonical spelling of the statements: the same text for the same statements, and one that spells them where
/// some template does. Its length is at most some fixed multiple of the tree's. Want of memory alone fails.
#[tactic(auto, unfolding(gl_ast::specs::Canon::canonical))]
pub fn show_body(alloc: Global, body: &Body) -> Result<Text, AllocError>
    ensures { IfOk result (λ t. t ≡ canonical (body_of body.now)) }
{
    let mut out = Text::new(alloc);
    write_body(body, &mut out)?;
    Ok(out)
}

/// The canonical spelling of a template.
pub fn show(alloc: Global, template: &Template) -> Result<Text, AllocError>
    ensures { IfOk result (λ t. t ≡ canonical (body_of template.now.body)) }
{
    show_body(alloc, template.body())
}
