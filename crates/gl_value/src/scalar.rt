// The values of JSON scalars.
ghost use Rattle.std.specs.Prelude.{◌≡◌, IfOk, IfSome, option_map, ℕ};
ghost use Rattle.serde_json.specs.View as seen;
ghost use Rattle.gl_value.specs.Scalar.{scalar_of, IsProper};
ghost use Rattle.gl_value.specs.View.{view};

use crate::{GREATEST, Text, Value};
use std::alloc::{AllocError, Global};

impl Value {
    /// The value that a JSON scalar stands for; `None` for a list, an object, and a number that is not
    /// an integer within the bounds.
    pub fn from_scalar(alloc: Global, json: &serde_json::Value) -> Result<Option<Value>, AllocError>
        ensures value { IfOk result (λ o. option_map view o ≡ scalar_of (seen.view json.now)) }
        ensures proper { IfOk result (λ o. IfSome o (λ v. IsProper (view v))) }
    {
        if json.is_null() {
            return Ok(Some(Value::Null));
        }
        if let Some(b) = json.as_bool() {
            return Ok(Some(Value::Bool(b)));
        }
        if let Some(text) = json.as_str() {
            return Ok(Some(Value::Text(Text::from_str(alloc, text)?)));
        }
        Ok(
            json.as_i64()
                .filter(|n| -GREATEST <= *n && *n <= GREATEST)
                .map(Value::Int),
        )
    }
}
