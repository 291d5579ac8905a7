// A template.
ghost use Rattle.std.specs.Prelude.{◌≡◌};
ghost use Rattle.gl_ast.specs.Grammar.{IsTemplate};
ghost use Rattle.gl_ast.specs.Template.{body_of};

use crate::Body;

/// The tree of a template. It keeps that some bytes spell it.
#[derive(Drop)]
pub struct Template {
    body: Body,
    pub ghost spelled: { IsTemplate (body_of body) },
}

impl Template {
    /// The template with these statements, which some bytes spell. It takes no memory.
    pub fn new(body: Body) -> Template
        requires { IsTemplate (body_of body) }
        ensures { result.body ≡ body }
    {
        Template { body }
    }

    pub fn body(&self) -> &Body
        ensures { result.now ≡ self.now.body }
    {
        &self.body
    }

    /// Gives the statements back. It takes no memory.
    pub fn into_body(self) -> Body
        ensures { result ≡ self.body }
    {
        self.body
    }
}
