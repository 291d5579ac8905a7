// Fields, as they were set last.
ghost use Rattle.std.specs.Prelude.{◌≡◌, ◌==◌, ◌&&◌, [], IfOk, option_map, slice_get};
ghost use Rattle.std.specs.Str.{bytes_eq};
ghost use Rattle.gl_base.specs.Names.{at_place, named};
ghost use Rattle.gl_value.specs.View.{view};
ghost use Rattle.gl_meaning.specs.Eval.{cell_value};
ghost use Rattle.gl_plain.specs.State.{named_as, cell_ref};
ghost use Rattle.gl_vm.specs.View.{stamps};
ghost use Rattle.gl_actions.specs.World.{World, app_in, value_in, read_in, store_in};
ghost use Rattle.gl_actions.specs.Frames.{Fits, IsField, inst_in, this_in};
ghost use Rattle.gl_actions.specs.LastSet.{last_set, field_names};

use crate::frame::{Frame, Here};
use crate::reading::read;
use crate::sets::Set;
use gl_refs::RefId;
use gl_value::{Text, Value};
use std::alloc::AllocError;

/// The field at a place.
pub fn field_at(fields: &[(Text, Value)], place: usize) -> Option<&(Text, Value)>
    ensures { option_map (λ f. f.now) result ≡ slice_get fields.now place }
{
    fields.get(place)
}

/// Whether a field of the instance with a number is set, which has fields of these names.
fn is_set(number: u64, fields: &[(Text, Value)], name: &Text, set: &Set) -> Result<bool, AllocError>
    ensures { IfOk result (λ b. b ≡ (number == set.now.owner.1) && bytes_eq name.now (at_place [] set.now.field (field_names fields.now))) }
{
    if number != set.owner.number() {
        return Ok(false);
    }
    match field_at(fields, set.field as usize) {
        Some(field) => Ok(name.same(&field.0)),
        None => Err(AllocError),
    }
}

/// What a field of the instance with a number was set to last.
fn last_value<'a>(
    number: u64,
    fields: &[(Text, Value)],
    name: &Text,
    sets: &'a [Set],
) -> Result<Option<&'a Value>, AllocError>
    ensures { IfOk result (λ o. option_map (λ v. view v.now) o ≡ last_set number (field_names fields.now) name.now sets.now) }
{
    let mut found = None;
    for set in sets {
        if is_set(number, fields, name, set)? {
            found = Some(&set.to);
        }
    }
    Ok(found)
}

/// The cell of the field of a name.
pub fn cell_of(fields: &[(Text, Value)], cells: &[RefId], name: &Text) -> Option<RefId>
    ensures { option_map (λ i. i.1) result ≡ named name.now (named_as (field_names fields.now) (stamps cells.now)) }
{
    let mut rest = cells;
    for field in fields {
        let Some((cell, others)) = rest.split_first() else {
            return None;
        };
        if name.same(&field.0) {
            return Some(*cell);
        }
        rest = others;
    }
    None
}

/// What a field's cell held at the last rendering.
fn held(frame: &Frame, name: &Text) -> Result<Value, AllocError>
    ensures { IfOk result (λ v. (w : World) → Fits w frame.now → value_in w (view v) ≡ read_in w frame.now.vm.now (cell_ref (inst_in w frame.now) name.now)) }
{
    match cell_of(
        frame.numbered.fields.as_slice(),
        frame.owner.cells.as_slice(),
        name,
    ) {
        Some(cell) => read(frame.vm, cell),
        None => Err(AllocError),
    }
}

/// What a field holds: what it was set to last, or else what its cell held at the last rendering.
pub fn field_value(here: &Here, name: &Text) -> Result<Value, AllocError>
    ensures { IfOk result (λ v. (w : World) → Fits w here.now.frame → IsField w here.now.frame name.now → value_in w (view v) ≡ cell_value (app_in w) (store_in w here.now.sets.now) (this_in here.now.frame) name.now) }
{
    let frame = &here.frame;
    let fields = frame.class.fields.as_slice();
    match last_value(frame.number, fields, name, here.sets.as_slice())? {
        Some(value) => value.copy(),
        None => held(frame, name),
    }
}
