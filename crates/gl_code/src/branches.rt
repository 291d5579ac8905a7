// `if` and `unless`.
ghost use Rattle.std.specs.Prelude.{◌≡◌, suc, not, IfOk, if◌then◌else◌};
ghost use Rattle.gl_value.specs.View.{view};
ghost use Rattle.gl_value.specs.Value.{truthy};
ghost use Rattle.gl_meaning.specs.Path as p;
ghost use Rattle.gl_meaning.specs.View.{path_step_view};

use gl_meaning::PathStep;
use gl_value::Value;
use std::alloc::AllocError;

/// Whether the main body is shown for a value.
pub fn takes(unless: bool, value: &Value) -> bool
    ensures { result ≡ (if unless then not (truthy (view value.now)) else truthy (view value.now)) }
{
    if unless {
        !value.truthy()
    } else {
        value.truthy()
    }
}

/// The next address.
pub fn after(pc: u32) -> Result<u32, AllocError>
    ensures { IfOk result (λ next. next ≡ suc pc) }
{
    pc.checked_add(1).ok_or(AllocError)
}

/// The address of the main body or of the other one.
pub fn chosen(main: bool, first: u32, second: u32) -> u32
    ensures { result ≡ (if main then first else second) }
{
    if main { first } else { second }
}

/// The step to the main body or to the other one.
pub fn side(main: bool) -> PathStep
    ensures { path_step_view result ≡ (if main then p.main else p.otherwise) }
{
    if main { PathStep::Then } else { PathStep::Else }
}
