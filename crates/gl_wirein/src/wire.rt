// The wire that JSON is of.
ghost use Rattle.std.specs.Prelude.{◌≡◌, IfOk};
ghost use Rattle.serde_json.specs.View.{view};
ghost use Rattle.gl_wire.specs.View.{wire_view};
ghost use Rattle.gl_base.specs.Answers.{Gives};
ghost use Rattle.gl_wirein.specs.Answer.{wire_in, Tells};
ghost use Rattle.gl_wirein.specs.Fault.{Fails};
ghost use Rattle.gl_wirein.specs.Versions.{version_in, is_json_in};

use crate::WireFault;
use crate::same::same;
use crate::tree::tree;
use gl_parse::template;
use gl_show::show_body;
use gl_wire::{Version, Wire, is_unnamed, json_in};
use gl_wirec::compile;
use serde_json::Value;
use std::alloc::{AllocError, Global};

// The version that JSON says it has: 1, or else 2.
#[tactic(auto, unfolding(crate::specs::Versions::version_in))]
fn version(json: &Value) -> Version
    ensures { result ≡ version_in (view json.now) }
{
    match json.get("v") {
        Some(value) => match value.as_u64() {
            Some(number) => {
                if number == 1 {
                    Version::First
                } else {
                    Version::Second
                }
            }
            None => Version::Second,
        },
        None => Version::Second,
    }
}

// Whether the JSON is that of the wire in a version.
fn is_json_in(
    alloc: Global,
    version: Version,
    wire: &Wire,
    json: &Value,
) -> Result<bool, AllocError>
    ensures { IfOk result (λ b. b ≡ is_json_in version (wire_view wire.now) (view json.now)) }
{
    match version {
        Version::First => {
            if !is_unnamed(wire) {
                return Ok(false);
            }
            Ok(same(&json_in(alloc, Version::First, wire)?, json))
        }
        Version::Second => Ok(same(&json_in(alloc, Version::Second, wire)?, json)),
    }
}

// The wire that is found for the JSON.
fn found(alloc: Global, json: &Value) -> Result<Wire, WireFault>
    ensures { Gives Fails wire_view result (wire_in (view json.now)) }
{
    let body = tree(alloc, json)?;
    let text = show_body(alloc, &body)?;
    let template = template(alloc, text.as_str().as_bytes())?;
    let wire = compile(alloc, &template)?;
    let fits = is_json_in(alloc, version(json), &wire, json)?;
    if !fits {
        return Err(WireFault::BadWire);
    }
    Ok(wire)
}

/// The wire whose JSON this is in version 1 or 2; there is at most one. `BadWire` exactly where no template's wire has that JSON in
/// either version. It takes time in proportion to the JSON.
pub fn from_json(alloc: Global, json: &Value) -> Result<Wire, WireFault>
    ensures told { Tells wire_view (view json.now) result }
    ensures found { Gives Fails wire_view result (wire_in (view json.now)) }
{
    found(alloc, json)
}
