// The cells that sets set.
ghost use Rattle.std.specs.Prelude.{◌≡◌, [], IfOk};
ghost use Rattle.gl_plain.specs.State.{cell_ref};
ghost use Rattle.gl_actions.specs.Cells.{CellFor};
ghost use Rattle.gl_actions.specs.Frames.{Fits, IsField, inst_in, this_in};
ghost use Rattle.gl_actions.specs.Reads.{Reads};
ghost use Rattle.gl_actions.specs.View.{seen_set};
ghost use Rattle.gl_actions.specs.World.{World, field_in};

use crate::fields::{cell_of, field_at};
use crate::frame::Frame;
use crate::sets::Set;
use crate::turn::{Turn, frame_of};
use gl_code::Page;
use gl_opc::App;
use gl_refs::RefId;
use gl_scope::Args;
use gl_value::Text;
use std::alloc::{AllocError, Global};

/// The name of the field at a place of the instance's class.
fn name_at<'a>(frame: &Frame<'a>, place: u16) -> Result<&'a Text, AllocError>
    ensures { IfOk result (λ x. (w : World) → Fits w frame.now → (field_in w (this_in frame.now) place ≡ x.now) × IsField w frame.now x.now) }
{
    match field_at(frame.class.fields.as_slice(), place as usize) {
        Some(field) => Ok(&field.0),
        None => Err(AllocError),
    }
}

/// The cell of the field of a name.
fn cell_named(frame: &Frame, name: &Text) -> Result<RefId, AllocError>
    ensures { IfOk result (λ r. (w : World) → Fits w frame.now → r.1 ≡ cell_ref (inst_in w frame.now) name.now) }
{
    match cell_of(
        frame.numbered.fields.as_slice(),
        frame.owner.cells.as_slice(),
        name,
    ) {
        Some(cell) => Ok(cell),
        None => Err(AllocError),
    }
}

/// The cell that a set sets: that of the instance's field at the set's place. What the page doesn't have, as an instance that is gone, is
/// told as want of memory.
pub fn cell_for(alloc: Global, page: &Page, app: &App, set: &Set) -> Result<RefId, AllocError>
    ensures { IfOk result (λ r. (w : World) → Reads app.now page.now w → CellFor w page.now (seen_set set.now) r) }
{
    let none = Args::new(alloc);
    let turn = Turn {
        alloc,
        page,
        app,
        none: &none,
    };
    let frame = frame_of(&turn, set.owner.number())?;
    let name = name_at(&frame, set.field)?;
    cell_named(&frame, name)
}
