// The texts of values, lent where a value is a text.
ghost use Rattle.std.specs.Prelude.{◌≡◌, IfOk};
ghost use Rattle.gl_value.specs.Value.{text_of};
ghost use Rattle.gl_value.specs.View.{view};
ghost use Rattle.gl_helpers.specs.View.{seen_wording};

use gl_value::{Text, Value};
use std::alloc::{AllocError, Global};

/// The text of a value: lent by a value that is a text, and else made.
#[derive(Drop)]
pub enum Wording<'a> {
    Lent(&'a Text),
    Made(Text),
}

/// The text of a value. It takes no memory where the value is a text.
pub fn text_in(alloc: Global, value: &Value) -> Result<Wording<'_>, AllocError>
    ensures { IfOk result (λ w. seen_wording w ≡ text_of (view value.now)) }
{
    match value {
        Value::Text(text) => Ok(Wording::Lent(text)),
        _ => Ok(Wording::Made(value.text_of(alloc)?)),
    }
}

impl Wording<'_> {
    /// The text.
    pub fn text(&self) -> &Text
        ensures { result.now ≡ seen_wording self.now }
    {
        match self {
            Wording::Lent(text) => *text,
            Wording::Made(text) => text,
        }
    }
}
