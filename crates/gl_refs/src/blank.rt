// An undefined value to lend: positions keep none.
ghost use Rattle.std.specs.Prelude.{◌≡◌};
ghost use Rattle.gl_value.specs.Value.{undefined};
ghost use Rattle.gl_value.specs.View.{view};

use gl_value::Value;
use std::marker::Model;

// Contracts see its value, which is always undefined.
#[derive(Drop)]
pub(crate) struct Blank {
    lent: Value,
}

impl Model for Blank {
    ghost use Rattle.std.specs.Prelude.{◌≡◌, ℕ};
    ghost use Rattle.gl_value.specs.Value as v;
    ghost use Rattle.gl_value.specs.Code.{value_code};
    ghost use Rattle.gl_value.specs.View.{view as value_view};

    ghost Value = { v.Value ℕ };

    ghost coded = { value_code };

    ghost view = { λ b. value_view b.lent };

    ghost invariant = { λ b. value_view b.lent ≡ v.undefined };
}

impl Blank {
    // It takes no memory.
    pub(crate) fn new() -> Blank
        ensures { result ≡ undefined }
    {
        Blank {
            lent: Value::Undefined,
        }
    }

    // The value, lent.
    pub(crate) fn undefined(&self) -> &Value
        ensures { view result.now ≡ undefined }
    {
        &self.lent
    }
}
