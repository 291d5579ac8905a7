// Paths that are made from others.
ghost use Rattle.std.specs.Prelude.{◌≡◌, ◌∷◌, IfOk};
ghost use Rattle.gl_meaning.specs.View.{path_view, path_step_view};

use crate::sight::Slot;
use gl_meaning::{Path, PathStep, PathSteps};
use std::alloc::{AllocError, Global};

fn step_copy(step: &PathStep) -> Result<PathStep, AllocError>
    ensures { IfOk result (λ r. path_step_view r ≡ path_step_view step.now) }
{
    Ok(match step {
        PathStep::At(place) => PathStep::At(*place),
        PathStep::Then => PathStep::Then,
        PathStep::Else => PathStep::Else,
        PathStep::Items => PathStep::Items,
        PathStep::Item { key, occurrence } => PathStep::Item {
            key: key.copy()?,
            occurrence: *occurrence,
        },
        PathStep::Into(name) => PathStep::Into(name.copy()?),
        PathStep::Slot(name) => PathStep::Slot(name.copy()?),
        PathStep::Empty => PathStep::Empty,
        PathStep::Attr(name) => PathStep::Attr(name.copy()?),
        PathStep::Mod(place) => PathStep::Mod(*place),
    })
}

// The same path, with room for so many more steps.
fn roomy_copy(alloc: Global, path: &Path, more: usize) -> Result<Path, AllocError>
    ensures { IfOk result (λ p. path_view p ≡ path_view path.now) }
{
    let room = path.steps.len().saturating_add(more);
    let mut steps = PathSteps::from_vec(Vec::with_capacity(alloc, room)?);
    for step in path.steps.as_slice() {
        steps.push(step_copy(step)?)?;
    }
    Ok(Path { steps })
}

/// The same path.
pub fn path_copy(alloc: Global, path: &Path) -> Result<Path, AllocError>
    ensures { IfOk result (λ p. path_view p ≡ path_view path.now) }
{
    roomy_copy(alloc, path, 0)
}

/// The path of a step below a path, which becomes that.
pub fn onward(path: Path, step: PathStep) -> Result<Path, AllocError>
    ensures { IfOk result (λ p. path_view p ≡ path_step_view step ∷ path_view path) }
{
    let mut path = path;
    path.steps.push(step)?;
    Ok(path)
}

/// The path of a step below a path. It has room for two steps more.
pub fn below(alloc: Global, path: &Path, step: PathStep) -> Result<Path, AllocError>
    ensures { IfOk result (λ p. path_view p ≡ path_step_view step ∷ path_view path.now) }
{
    let path = roomy_copy(alloc, path, 3)?;
    onward(path, step)
}
