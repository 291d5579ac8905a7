// What an event sets.
ghost use Rattle.std.specs.Prelude.{◌≡◌, IfOk, OnOk};
ghost use Rattle.gl_value.specs.Value.{plain};
ghost use Rattle.gl_value.specs.View.{view};
ghost use Rattle.gl_meaning.specs.App.{set_event, fire, events_of};
ghost use Rattle.gl_meaning.specs.Actions.{apply, apply_event, apply_events};
ghost use Rattle.gl_meaning.specs.Changes.{Numbers};
ghost use Rattle.gl_meaning.specs.View.{event_view};
ghost use Rattle.gl_actions.specs.World.{World, app_in, sets_in};
ghost use Rattle.gl_actions.specs.Reads.{Reads};
ghost use Rattle.gl_actions.specs.Own.{AreOwnSets, AddsOwn};
ghost use Rattle.gl_events.specs.Hears.{Hears};
ghost use Rattle.gl_events.specs.View.{applied_in};

use gl_actions::{Fired, Sets, fire, set_root};
use gl_code::Page;
use gl_meaning::{Event, Events};
use gl_opc::App;
use gl_value::{Text, Value};
use std::alloc::{AllocError, Global};

/// A page with its application.
#[derive(Clone, Copy)]
struct Stage<'a> {
    alloc: Global,
    page: &'a Page,
    app: &'a App,
}

/// What an event sets, in order, and the numbers for which there is no such node or no such listener.
#[derive(Drop)]
pub struct Applied {
    pub sets: Sets,
    pub missing: Vec<u64>,
}

/// Sets a field of the root.
fn set_on(stage: &Stage, field: &Text, to: &Value, applied: &mut Applied) -> Result<(), AllocError>
    ensures sets { OnOk result ((w : World) (numbers : Numbers) → Reads stage.now.app.now stage.now.page.now w → applied_in w applied.new ≡ apply_event (app_in w) w.store w.forest numbers (set_event field.now (plain (view to.now))) (applied_in w applied.old)) }
    ensures own { OnOk result (AddsOwn stage.now.app.now stage.now.page.now applied.old.sets applied.new.sets) }
{
    applied.sets = set_root(stage.alloc, stage.page, stage.app, &applied.sets, field, to)?;
    Ok(())
}

/// Calls what listens at the node with a number.
fn fire_on(
    stage: &Stage,
    number: u64,
    name: &Text,
    payload: &Value,
    applied: &mut Applied,
) -> Result<(), AllocError>
    ensures sets { OnOk result ((w : World) (numbers : Numbers) → Reads stage.now.app.now stage.now.page.now w → Hears w stage.now.page.now numbers → applied_in w applied.new ≡ apply_event (app_in w) w.store w.forest numbers (fire number name.now (plain (view payload.now))) (applied_in w applied.old)) }
    ensures own { OnOk result (AddsOwn stage.now.app.now stage.now.page.now applied.old.sets applied.new.sets) }
{
    let Stage { alloc, page, app } = *stage;
    let fired = fire(
        alloc,
        page,
        app,
        &applied.sets,
        number,
        name.as_str(),
        payload,
    )?;
    match fired {
        Fired::Ran(sets) => {
            applied.sets = sets;
            Ok(())
        }
        Fired::NoListener => {
            applied.missing.push(number)?;
            Ok(())
        }
    }
}

/// One event, with what is set so far.
#[cycle(applying)]
fn event_on(stage: &Stage, event: &Event, applied: &mut Applied) -> Result<(), AllocError>
    ensures sets { OnOk result ((w : World) (numbers : Numbers) → Reads stage.now.app.now stage.now.page.now w → Hears w stage.now.page.now numbers → applied_in w applied.new ≡ apply_event (app_in w) w.store w.forest numbers (event_view event.now) (applied_in w applied.old)) }
    ensures own { OnOk result (AddsOwn stage.now.app.now stage.now.page.now applied.old.sets applied.new.sets) }
{
    match event {
        Event::Set { field, to } => set_on(stage, field, to, applied),
        Event::Fire {
            node,
            name,
            payload,
        } => fire_on(stage, *node, name, payload, applied),
        Event::Batch(events) => events_on(stage, events, applied),
    }
}

/// Events, in order.
#[cycle(applying)]
fn events_on(stage: &Stage, events: &Events, applied: &mut Applied) -> Result<(), AllocError>
    ensures sets { OnOk result ((w : World) (numbers : Numbers) → Reads stage.now.app.now stage.now.page.now w → Hears w stage.now.page.now numbers → applied_in w applied.new ≡ apply_events (app_in w) w.store w.forest numbers (events_of events.now) (applied_in w applied.old)) }
    ensures own { OnOk result (AddsOwn stage.now.app.now stage.now.page.now applied.old.sets applied.new.sets) }
{
    for event in events.as_slice() {
        event_on(stage, event, applied)?;
    }
    Ok(())
}

/// What an event sets on a page, over its last rendering: also for all events of a batch, which are taken in their order. The page is only
/// read. What it doesn't have, as an instance that is gone, is told as want of memory.
pub fn apply(alloc: Global, page: &Page, app: &App, event: &Event) -> Result<Applied, AllocError>
    ensures sets { IfOk result (λ r. (w : World) (numbers : Numbers) → Reads app.now page.now w → Hears w page.now numbers → (sets_in w r.sets ≡ (apply (app_in w) w.store w.forest numbers (event_view event.now)).sets) × (r.missing.items ≡ (apply (app_in w) w.store w.forest numbers (event_view event.now)).missing)) }
    ensures own { IfOk result (λ r. AreOwnSets app.now page.now r.sets) }
{
    let stage = Stage { alloc, page, app };
    let mut applied = Applied {
        sets: Sets::new(alloc),
        missing: Vec::new(alloc),
    };
    event_on(&stage, event, &mut applied)?;
    Ok(applied)
}
