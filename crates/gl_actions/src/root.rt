// What an event sets on the root.
ghost use Rattle.std.specs.Prelude.{◌≡◌, [], ◌∷◌, ◌++◌, IfOk};
ghost use Rattle.gl_value.specs.Value.{plain};
ghost use Rattle.gl_value.specs.View.{view};
ghost use Rattle.gl_actions.specs.World.{World, sets_in};
ghost use Rattle.gl_actions.specs.Reads.{Reads};
ghost use Rattle.gl_actions.specs.Own.{AddsOwn};

use crate::run::place_of;
use crate::sets::{Set, Sets};
use crate::turn::{Turn, frame_of};
use gl_code::{Code, Page};
use gl_opc::App;
use gl_scope::Args;
use gl_value::{Text, Value};
use std::alloc::{AllocError, Global};

/// The number of the root's instance.
fn root_number(page: &Page) -> Result<u64, AllocError> {
    match &page.code {
        Code::Root { owner, .. } => Ok(owner.id.number()),
        _ => Err(AllocError),
    }
}

/// The sets so far with one more: a field of the root is set to the plain form of a value. The page is only read, and what it doesn't have,
/// as a field of that name, is told as want of memory.
pub fn set_root(
    alloc: Global,
    page: &Page,
    app: &App,
    sofar: &Sets,
    field: &Text,
    value: &Value,
) -> Result<Sets, AllocError>
    ensures sets { IfOk result (λ r. (w : World) → Reads app.now page.now w → sets_in w r ≡ sets_in w sofar.now ++ record { instance = []; field = field.now; value = plain (view value.now) } ∷ []) }
    ensures own { IfOk result (λ r. AddsOwn app.now page.now sofar.now r) }
{
    let none = Args::new(alloc);
    let turn = Turn {
        alloc,
        page,
        app,
        none: &none,
    };
    let frame = frame_of(&turn, root_number(page)?)?;
    if !frame.owner.path.steps.is_empty() {
        return Err(AllocError);
    }
    let place = place_of(&frame, field)?;
    let to = value.data_of()?;
    let mut sets = sofar.copy()?;
    sets.push(Set {
        owner: frame.owner.id,
        field: place,
        to,
    })?;
    Ok(sets)
}
