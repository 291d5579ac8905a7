// Classes, and a manifest.
ghost use Rattle.std.specs.Prelude.{◌≡◌, ◌<◌, ◌^◌};
ghost use Rattle.serde_json.specs.View.{view};
ghost use Rattle.gl_meaning.specs.ManifestOf.{class_of, classes_in, flag_at, limit_in, manifest_of};
ghost use Rattle.gl_meaning.specs.View.{class_view, manifest_view};
ghost use Rattle.gl_parse.specs.ReadStmt.{expression_of};
ghost use Rattle.gl_shape.specs.View.{Tells};

use crate::members::{actions_in, fields_in, getters_in};
use crate::spelled::texts_at;
use gl_meaning::{Class, Classes, Manifest};
use gl_shape::{MemberReader, PlaceFault, read_members_at, text_at};
use gl_value::Text;
use std::alloc::Global;

const USUAL_NESTING: u64 = 16;

#[tactic(auto, unfolding(gl_meaning::specs::ManifestOf::flag_at))]
fn flag_at(json: &serde_json::Value, key: &str) -> bool
    ensures { result ≡ flag_at key.now (view json.now) }
{
    json.get(key)
        .and_then(serde_json::Value::as_bool)
        .unwrap_or(false)
}

// How deep components may nest.
#[tactic(auto, unfolding(gl_meaning::specs::ManifestOf::limit_in))]
fn limit_in(json: &serde_json::Value) -> u64
    ensures { result ≡ limit_in (view json.now) }
{
    json.get("limit")
        .and_then(serde_json::Value::as_u64)
        .unwrap_or(USUAL_NESTING)
}

// Classes, by their names.
struct ClassReader;

impl MemberReader for ClassReader {
    ghost use Rattle.gl_meaning.specs.Manifest as m;

    type Item = Class;

    ghost Seen = { m.ClassEntry };

    ghost seen = { class_view };

    ghost reads = { λ s k d. class_of expression_of k d };

    #[tactic(auto, unfolding(gl_meaning::specs::ManifestOf::class_of))]
    fn read(
        &self,
        alloc: Global,
        key: &str,
        value: &serde_json::Value,
    ) -> Result<Class, PlaceFault> {
        let actions = actions_in(alloc, value)?;
        let fields = fields_in(alloc, value)?;
        let getters = getters_in(alloc, value)?;
        Ok(Class {
            name: Text::from_str(alloc, key)?,
            file: Text::from_str(alloc, text_at(value, "template"))?,
            fields,
            getters,
            actions,
            teardown: flag_at(value, "teardown"),
        })
    }
}

// The classes of a manifest.
#[tactic(auto, unfolding(gl_meaning::specs::ManifestOf::classes_in))]
fn classes_in(alloc: Global, json: &serde_json::Value) -> Result<Classes, PlaceFault>
    ensures { Tells (λ c. c) result (classes_in expression_of (view json.now)) }
{
    Ok(Classes::from_vec(read_members_at(alloc, &ClassReader, json, "classes")?))
}

/// The manifest that JSON of its form holds.
#[tactic(auto, unfolding(gl_meaning::specs::ManifestOf::manifest_of))]
pub fn manifest_of(alloc: Global, json: &serde_json::Value) -> Result<Manifest, PlaceFault>
    requires { limit_in (view json.now) < 2 ^ 32 }
    ensures { Tells manifest_view result (manifest_of expression_of (view json.now)) }
{
    let classes = classes_in(alloc, json)?;
    let modifiers = texts_at(alloc, json, "modifiers")?;
    Ok(Manifest {
        root: Text::from_str(alloc, text_at(json, "root"))?,
        limit: limit_in(json) as u32,
        modifiers,
        classes,
    })
}
