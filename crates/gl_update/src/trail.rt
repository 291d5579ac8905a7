// Where an update is.
ghost use Rattle.std.specs.Prelude.{◌≡◌, ◌∷◌, ◌++◌, [], IfOk, OnOk, ◌<◌, ◌^◌, length};
ghost use Rattle.gl_meaning.specs.Path as p;
ghost use Rattle.gl_meaning.specs.View.{path_view, path_step_view};
ghost use Rattle.gl_update.specs.View.{trail_view};

use gl_code::path_copy;
use gl_meaning::{Path, PathStep, PathSteps};
use std::alloc::{AllocError, Global};
use std::mem;

/// The path of where an update is: that of the instance, of the component or the root, that it is in, and the steps from there.
#[derive(Drop)]
pub(crate) struct Trail<'a> {
    pub(crate) base: &'a Path,
    pub(crate) path: Path,
}

// One path, and the steps of another one below it.
#[inline(never)]
fn joined(base: Path, more: Path) -> Result<Path, AllocError>
    ensures { IfOk result (λ p. path_view p ≡ path_view more ++ path_view base) }
{
    let mut steps = base.steps.into_vec();
    let mut rest = more.steps.into_vec();
    steps.append(&mut rest)?;
    Ok(Path {
        steps: PathSteps::from_vec(steps),
    })
}

impl<'a> Trail<'a> {
    /// The trail of a path. It takes no memory.
    #[inline(never)]
    pub(crate) fn of(alloc: Global, path: &'a Path) -> Trail<'a>
        ensures { trail_view result ≡ path_view path.now }
    {
        Trail {
            base: path,
            path: Path {
                steps: PathSteps::new(alloc),
            },
        }
    }

    /// Goes one step further in.
    #[inline(never)]
    pub(crate) fn push(&mut self, step: PathStep) -> Result<(), AllocError>
        ensures base { self.new.base ≡ self.old.base }
        ensures steps { OnOk result (self.new.path.steps ≡ self.old.path.steps ++ path_step_view step ∷ []) }
        ensures view { OnOk result (trail_view self.new ≡ path_step_view step ∷ trail_view self.old) }
        ensures room { OnOk result (length self.old.path.steps < 2 ^ 64) }
    {
        let _count = self.path.steps.as_slice().len();
        self.path.steps.push(step)
    }

    /// Goes to the items of a list, of which it gives the path.
    #[inline(never)]
    pub(crate) fn enter_items(&mut self, alloc: Global) -> Result<Path, AllocError>
        ensures base { self.new.base ≡ self.old.base }
        ensures steps { OnOk result (self.new.path.steps ≡ self.old.path.steps ++ p.items ∷ []) }
        ensures view { OnOk result (trail_view self.new ≡ p.items ∷ trail_view self.old) }
        ensures room { OnOk result (length self.old.path.steps < 2 ^ 64) }
        ensures path { IfOk result (λ q. path_view q ≡ trail_view self.new) }
    {
        self.push(PathStep::Items)?;
        self.path(alloc)
    }

    /// Goes one step back.
    #[inline(never)]
    pub(crate) fn pop(&mut self, alloc: Global)
        ensures { (before : _) (step : p.PathStep) → self.old.base ≡ before.base → self.old.path.steps ≡ before.path.steps ++ step ∷ [] → self.new ≡ before }
    {
        let steps = mem::replace(&mut self.path.steps, PathSteps::new(alloc));
        let mut list = steps.into_vec();
        drop(list.pop());
        self.path.steps = PathSteps::from_vec(list);
    }

    /// The path itself.
    #[inline(never)]
    pub(crate) fn path(&self, alloc: Global) -> Result<Path, AllocError>
        ensures { IfOk result (λ p. path_view p ≡ trail_view self.now) }
    {
        let base = path_copy(alloc, self.base)?;
        let more = path_copy(alloc, &self.path)?;
        joined(base, more)
    }

    /// The path of a step further in.
    #[inline(never)]
    pub(crate) fn below(&self, alloc: Global, step: PathStep) -> Result<Path, AllocError>
        ensures { IfOk result (λ p. path_view p ≡ path_step_view step ∷ trail_view self.now) }
    {
        let mut path = self.path(alloc)?;
        path.steps.push(step)?;
        Ok(path)
    }
}
