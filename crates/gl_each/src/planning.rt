// The plan by which a list of keys becomes another one.
ghost use Rattle.std.specs.Prelude.{◌≡◌, ◌<◌, [], length, map, IfOk};
ghost use Rattle.std.specs.List.{range_with_len};
ghost use Rattle.gl_meaning.specs.Laws.{NoRepeat};
ghost use Rattle.gl_each.specs.Sync.{AreSteps, IsSync, kept, has_place, unkept};
ghost use Rattle.gl_each.specs.Planned.{step_for, greater};
ghost use Rattle.gl_each.specs.View.{seen_keys, step_view, seen_steps};

use crate::finder::Finder;
use crate::step::Plan;
use crate::{Key, Keys, Places, PlanStep, PlanSteps};
use std::alloc::{AllocError, Global};

// The step of a new key that stands at a place of the old list or nowhere, where `greatest` is the greatest
// place that was kept so far.
fn step_for(place: Option<usize>, greatest: Option<usize>) -> PlanStep
    ensures { step_view result ≡ step_for place greatest }
{
    let Some(place) = place else {
        return PlanStep::Insert;
    };
    let old = place as u64;
    match greatest {
        Some(other) if place < other => PlanStep::Move { old },
        _ => PlanStep::Retain { old },
    }
}

fn greater(place: Option<usize>, greatest: Option<usize>) -> Option<usize>
    ensures { result ≡ greater place greatest }
{
    match (place, greatest) {
        (None, _) => greatest,
        (_, None) => place,
        (Some(one), Some(other)) => Some(one.max(other)),
    }
}

// One step for each new key.
fn steps_to(alloc: Global, old: &[Key], new: &[Key]) -> Result<PlanSteps, AllocError>
    requires { NoRepeat (seen_keys old.now) }
    ensures { IfOk result (λ ss. AreSteps (seen_keys old.now) [] (seen_keys new.now) ss) }
{
    let mut list = PlanSteps::from_vec(Vec::with_capacity(alloc, new.len())?);
    let mut finder = Finder::new(alloc, old);
    let mut greatest = None;
    for key in new {
        let place = finder.find(key)?;
        list.push(step_for(place, greatest))?;
        greatest = greater(place, greatest);
    }
    Ok(list)
}

// Marks the places that steps keep.
fn marks(alloc: Global, count: usize, steps: &[PlanStep]) -> Result<Vec<bool>, AllocError>
    ensures { IfOk result (λ ms. ms.items ≡ map (has_place (kept (seen_steps steps.now))) (range_with_len 0 count)) }
{
    let mut list = vec![in alloc; false; count]?;
    for step in steps {
        if let Some(old) = step.kept() {
            let place = old as usize;
            if place < list.len() {
                list[place] = true;
            }
        }
    }
    Ok(list)
}

// The places that steps do not keep.
fn removed(alloc: Global, count: usize, steps: &[PlanStep]) -> Result<Places, AllocError>
    ensures { IfOk result (λ ps. ps ≡ unkept count (seen_steps steps.now)) }
{
    let marks = marks(alloc, count, steps)?;
    let mut list = Vec::new(alloc);
    for (place, stays) in marks.iter().enumerate() {
        if !*stays {
            list.push(place as u64)?;
        }
    }
    Ok(Places::from_vec(list))
}

/// The plan by which the old list of keys becomes the new one, in time linear in both.
pub fn plan(old: &Keys, new: &Keys) -> Result<Plan, AllocError>
    requires { NoRepeat old.now }
    ensures { IfOk result (λ p. IsSync old.now new.now p.steps p.removed) }
{
    let alloc = old.allocator();
    let steps = steps_to(alloc, old.as_slice(), new.as_slice())?;
    let removed = removed(alloc, old.len(), steps.as_slice())?;
    Ok(Plan { steps, removed })
}
