// The values of an array of JSON, one after another.
ghost use Rattle.std.specs.Prelude.{◌≡◌, [], ◌∷◌, ◌++◌, IfOk, OnOk};
ghost use Rattle.serde_json.specs.Data.{string};
ghost use Rattle.serde_json.specs.View.{view};
ghost use Rattle.gl_wire.specs.Json.{array_of, text_json, texts_json, places_json};
ghost use Rattle.gl_wire.specs.Rows.{shown};

use crate::Symbols;
use gl_ast::push_tight;
use gl_value::{Text, Texts};
use serde_json::Value;
use std::alloc::{AllocError, Global};

/// The values of an array.
#[derive(Drop)]
pub struct Row {
    list: Vec<Value>,
}

impl Row {
    /// No values. It takes no memory.
    pub fn new(alloc: Global) -> Row
        ensures { shown result ≡ [] }
    {
        Row {
            list: Vec::new(alloc),
        }
    }

    /// A word as its first value.
    pub fn of(alloc: Global, word: &str) -> Result<Row, AllocError>
        ensures { IfOk result (λ r. shown r ≡ string word.now ∷ []) }
    {
        let mut row = Row::new(alloc);
        row.push(Value::try_from_str(alloc, word)?)?;
        Ok(row)
    }

    /// Adds a value at the end.
    pub fn push(&mut self, value: Value) -> Result<(), AllocError>
        ensures { OnOk result (shown self.new ≡ shown self.old ++ view value ∷ []) }
    {
        push_tight(&mut self.list, value)
    }

    /// Adds a text at the end.
    pub fn push_text(&mut self, alloc: Global, text: &Text) -> Result<(), AllocError>
        ensures { OnOk result (shown self.new ≡ shown self.old ++ text_json text.now ∷ []) }
    {
        self.push(Value::try_from_str(alloc, text.as_str())?)
    }

    /// The array of the values. It takes no memory.
    pub fn into_value(self) -> Value
        ensures { view result ≡ array_of (shown self) }
    {
        Value::Array(self.list)
    }
}

/// A word with a text.
pub fn named_row(alloc: Global, word: &str, name: &Text) -> Result<Row, AllocError>
    ensures { IfOk result (λ r. shown r ≡ string word.now ∷ text_json name.now ∷ []) }
{
    let mut row = Row::of(alloc, word)?;
    row.push_text(alloc, name)?;
    Ok(row)
}

/// The array of texts.
pub fn texts_value(alloc: Global, texts: &Texts) -> Result<Value, AllocError>
    ensures { IfOk result (λ v. view v ≡ texts_json texts.now) }
{
    let mut row = Row::new(alloc);
    for text in texts.as_slice() {
        row.push_text(alloc, text)?;
    }
    Ok(row.into_value())
}

/// The array of places among the symbols.
pub fn places_value(alloc: Global, places: &Symbols) -> Result<Value, AllocError>
    ensures { IfOk result (λ v. view v ≡ places_json places.now) }
{
    let mut row = Row::new(alloc);
    for place in places.as_slice() {
        row.push(Value::from(*place))?;
    }
    Ok(row.into_value())
}
