// Arguments, as they stood at the last rendering.
ghost use Rattle.std.specs.Prelude.{◌≡◌, IfOk, unwrap_or};
ghost use Rattle.gl_base.specs.Names.{last_named};
ghost use Rattle.gl_value.specs.View.{view};
ghost use Rattle.gl_meaning.specs.Scope.{absent};
ghost use Rattle.gl_actions.specs.World.{World, value_in, arguments_in};
ghost use Rattle.gl_actions.specs.Frames.{Fits, this_in};

use crate::frame::Frame;
use crate::reading::read;
use gl_value::{Text, Value};
use std::alloc::AllocError;

/// An argument, as it stood at the last rendering; undefined where none of the name was passed.
pub fn argument(frame: &Frame, name: &Text) -> Result<Value, AllocError>
    ensures { IfOk result (λ v. (w : World) → Fits w frame.now → value_in w (view v) ≡ (unwrap_or (last_named name.now (arguments_in w (this_in frame.now))) absent).value) }
{
    match frame.args.get(name.as_str()) {
        Some(id) => read(frame.vm, id),
        None => Ok(Value::Undefined),
    }
}
