// Steps of an expression's value that need neither an instance nor parameters.
ghost use Rattle.std.specs.Prelude.{◌≡◌, ◌++◌, not, IfOk, OnOk};
ghost use Rattle.gl_value.specs.Value.{plain, properties, join_values, is_missing, text_of};
ghost use Rattle.gl_value.specs.View.{view, seen_items};
ghost use Rattle.gl_ast.specs.View.{lit_view};

use gl_ast::Lit;
use gl_value::{Text, Value};
use std::alloc::{AllocError, Global};

/// What a literal gives.
pub fn literal(lit: &Lit) -> Result<Value, AllocError>
    ensures { IfOk result (λ v. view v ≡ plain (lit_view lit.now)) }
{
    match lit {
        Lit::Undefined => Ok(Value::Undefined),
        Lit::Null => Ok(Value::Null),
        Lit::Bool(b) => Ok(Value::Bool(*b)),
        Lit::Int(number) => Ok(Value::Int(*number)),
        Lit::Str(text) => Ok(Value::Text(text.copy()?)),
    }
}

/// The property of a value along further names.
pub fn along(value: Value, names: &[Text]) -> Result<Value, AllocError>
    ensures { IfOk result (λ v. view v ≡ properties names.now (view value)) }
{
    let mut found = value;
    for name in names {
        found = found.property(name.as_str())?;
    }
    Ok(found)
}

/// The texts of the values that are neither undefined nor null, joined; null where there is none.
pub fn joined(alloc: Global, values: &[Value]) -> Result<Value, AllocError>
    ensures { IfOk result (λ v. view v ≡ join_values (seen_items values.now)) }
{
    let mut text = Text::new(alloc);
    let mut some = false;
    for value in values {
        if add_text(value, &mut text)? {
            some = true;
        }
    }
    if some {
        Ok(Value::Text(text))
    } else {
        Ok(Value::Null)
    }
}

// Adds the text of a value, and tells whether it is neither undefined nor null.
fn add_text(value: &Value, text: &mut Text) -> Result<bool, AllocError>
    ensures some { IfOk result (λ b. b ≡ not (is_missing (view value.now))) }
    ensures text { OnOk result (text.new ≡ text.old ++ text_of (view value.now)) }
{
    value.write(text)?;
    Ok(!matches!(value, Value::Undefined | Value::Null))
}
