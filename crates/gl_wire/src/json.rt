// The JSON of a wire, and its text.
ghost use Rattle.std.specs.Prelude.{◌≡◌, IfOk};
ghost use Rattle.serde_json.specs.View.{view};
ghost use Rattle.gl_wire.specs.Json.{array_of, body_rows, number_of, json_in, json_of, wire_text};
ghost use Rattle.gl_wire.specs.Wire.{body_of};
ghost use Rattle.gl_wire.specs.View.{wire_view};

use crate::row::{Row, texts_value};
use crate::stmt_json::push_body;
use crate::writing::{write_body, write_value};
use crate::{Version, Wire, WireBody};
use gl_value::{Text, Texts};
use serde_json::{Map, Value, put};
use std::alloc::{AllocError, Global};

fn body_value(alloc: Global, version: Version, body: &WireBody) -> Result<Value, AllocError>
    ensures { IfOk result (λ v. view v ≡ array_of (body_rows version (body_of body.now))) }
{
    let mut rows = Row::new(alloc);
    push_body(alloc, version, body, &mut rows)?;
    Ok(rows.into_value())
}

// The number of a version.
fn number_of(version: Version) -> u32
    ensures { result ≡ number_of version }
{
    match version {
        Version::First => 1,
        Version::Second => 2,
    }
}

/// The JSON of a wire in a version: an object of its statements as a flat list, its symbols and the number of the version. In version 1
/// it is the wire's only where that `is_unnamed`.
#[tactic(auto, unfolding(crate::specs::Json::json_in))]
pub fn json_in(alloc: Global, version: Version, wire: &Wire) -> Result<Value, AllocError>
    ensures { IfOk result (λ v. view v ≡ json_in version (wire_view wire.now)) }
{
    let mut members = Map::new(alloc);
    let body = body_value(alloc, version, wire.body())?;
    put(&mut members, alloc, "body", body)?;
    put(
        &mut members,
        alloc,
        "symbols",
        texts_value(alloc, wire.symbols())?,
    )?;
    put(&mut members, alloc, "v", Value::from(number_of(version)))?;
    Ok(Value::Object(members))
}

/// The JSON of a wire, which is that of version 2.
pub fn to_json(alloc: Global, wire: &Wire) -> Result<Value, AllocError>
    ensures { IfOk result (λ v. view v ≡ json_of (wire_view wire.now)) }
{
    json_in(alloc, Version::Second, wire)
}

/// The JSON of a wire as text, without white space.
pub fn to_text(alloc: Global, wire: &Wire) -> Result<Text, AllocError>
    ensures { IfOk result (λ t. t ≡ wire_text (wire_view wire.now)) }
{
    let json = to_json(alloc, wire)?;
    Ok(Text::from_string(json.to_string(alloc)?)?)
}

// The text of the wire with these symbols and statements. It is written piece by piece.
fn text_of(alloc: Global, symbols: &Texts, body: WireBody) -> Result<Text, AllocError>
    ensures { IfOk result (λ t. t ≡ wire_text (record { symbols = symbols.now; body = body_of body })) }
{
    let mut text = String::from_str(alloc, r#"{"body":["#)?;
    write_body(alloc, &mut text, body)?;
    text.push_str(r#"],"symbols":"#)?;
    write_value(alloc, &mut text, &texts_value(alloc, symbols)?)?;
    text.push_str(r#","v":2}"#)?;
    Ok(Text::from_string(text)?)
}

/// The JSON of a wire as text, without white space. It is written piece by piece, so that the JSON of one string, of one part
/// of a tag or one expression in which no expression stands, or of one list of segments, of places or of the symbols stands in
/// memory at a time. Each top-level statement is let go when it is written.
pub fn into_text(alloc: Global, wire: Wire) -> Result<Text, AllocError>
    ensures { IfOk result (λ t. t ≡ wire_text (wire_view wire)) }
{
    let (symbols, body) = wire.into_parts();
    text_of(alloc, &symbols, body)
}
