// The pieces of a wire's JSON.
ghost use Rattle.std.specs.Prelude.{◌≡◌, ℕ, List, map};
ghost use Rattle.serde_json.specs.Data.{Data};
ghost use Rattle.serde_json.specs.View.{view};
ghost use Rattle.gl_base.specs.Answers.{Gives};
ghost use Rattle.gl_base.specs.Reading as all;
ghost use Rattle.gl_wirein.specs.Fault.{Fails};
ghost use Rattle.gl_wirein.specs.Pieces.{text_in, list_in, texts_in, symbol_in, symbols_in, word_in, fields_in};

use crate::WireFault;
use gl_value::{Text, Texts};
use serde_json::Value;
use std::alloc::Global;

/// The values of an array. `BadWire` where the value is none.
#[tactic(auto, using(crate::proofs::Texts::array_laws))]
pub fn items(json: &Value) -> Result<&[Value], WireFault>
    ensures { Gives Fails (λ s. map view s.now) result (list_in (view json.now)) }
{
    match json.as_array() {
        Some(list) => Ok(list.as_slice()),
        None => Err(WireFault::BadWire),
    }
}

/// The word with which a row begins. `BadWire` where it begins with none.
pub fn word(row: &[Value]) -> Result<&str, WireFault>
    ensures { Gives Fails (λ s. s.now) result (word_in (map view row.now)) }
{
    match row {
        [Value::String(first), ..] => Ok(first.as_str()),
        _ => Err(WireFault::BadWire),
    }
}

/// What stands in a row after its word.
pub fn fields(row: &[Value]) -> &[Value]
    ensures { map view result.now ≡ fields_in (map view row.now) }
{
    match row {
        [_, fields @ ..] => fields,
        [] => row,
    }
}

/// The text of a string. `BadWire` where the value is none.
pub fn text(alloc: Global, json: &Value) -> Result<Text, WireFault>
    ensures { Gives Fails (λ t. t) result (text_in (view json.now)) }
{
    match json {
        Value::String(text) => Ok(Text::from_str(alloc, text.as_str())?),
        _ => Err(WireFault::BadWire),
    }
}

/// The symbol whose place the value is. `BadWire` where it is no place of a symbol.
pub fn symbol(alloc: Global, symbols: &Texts, json: &Value) -> Result<Text, WireFault>
    ensures { Gives Fails (λ t. t) result (symbol_in symbols.now (view json.now)) }
{
    match json.as_u64() {
        Some(place) => match symbols.get(place as usize) {
            Some(name) => Ok(name.copy()?),
            None => Err(WireFault::BadWire),
        },
        None => Err(WireFault::BadWire),
    }
}

/// How the values of an array are read.
pub trait Reader {
    type Item: Drop;

    /// What definitions see of what is read.
    ghost Seen: { Type 0 };

    ghost seen: { Self.Item → Self.Seen };

    /// What a value reads as.
    ghost reads: { Self → Data → Option Self.Seen };

    ghost use Rattle.std.specs.Prelude.{Option};

    fn read(&self, alloc: Global, value: &Value) -> Result<Self::Item, WireFault>
        ensures { Gives Fails seen result (reads self.now (view value.now)) };
}

/// Reads each value, in order.
pub fn read_all<R: Reader>(
    alloc: Global,
    reader: &R,
    values: &[Value],
) -> Result<Vec<R::Item>, WireFault>
    ensures { Gives Fails (λ v. map R.seen v.items) result (all.read_all (R.reads reader.now) (map view values.now)) }
{
    let mut list = Vec::new(alloc);
    for value in values {
        let item = reader.read(alloc, value)?;
        list.push(item)?;
    }
    Ok(list)
}

#[derive(Drop)]
struct TextReader;

impl Reader for TextReader {
    type Item = Text;

    ghost Seen = { List ℕ };

    ghost seen = { λ t. t };

    ghost reads = { λ s d. text_in d };

    fn read(&self, alloc: Global, value: &Value) -> Result<Text, WireFault> {
        text(alloc, value)
    }
}

#[derive(Drop)]
struct SymbolReader<'a> {
    symbols: &'a Texts,
}

impl<'a> Reader for SymbolReader<'a> {
    type Item = Text;

    ghost Seen = { List ℕ };

    ghost seen = { λ t. t };

    ghost reads = { λ s d. symbol_in s.symbols.now d };

    fn read(&self, alloc: Global, value: &Value) -> Result<Text, WireFault> {
        symbol(alloc, self.symbols, value)
    }
}

/// The texts of an array.
#[tactic(auto, using(crate::proofs::Texts::list_laws))]
pub fn texts(alloc: Global, json: &Value) -> Result<Texts, WireFault>
    ensures { Gives Fails (λ t. t) result (texts_in (view json.now)) }
{
    Ok(Texts::from_vec(read_all(alloc, &TextReader, items(json)?)?))
}

/// The symbols whose places an array has.
#[tactic(auto, using(crate::proofs::Texts::list_laws))]
pub fn symbols_at(alloc: Global, symbols: &Texts, json: &Value) -> Result<Texts, WireFault>
    ensures { Gives Fails (λ t. t) result (symbols_in symbols.now (view json.now)) }
{
    let reader = SymbolReader { symbols };
    Ok(Texts::from_vec(read_all(alloc, &reader, items(json)?)?))
}
