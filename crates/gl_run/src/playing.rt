// Plays a session: a text for each turn, written to a sink.
ghost use Rattle.std.specs.Prelude.{◌≡◌, ◌<◌, ◌≤◌, ◌+◌, IfOk, IfErr, OnOk, IsErrOf, None, Some, ℕ, List, Option};
ghost use Rattle.gl_meaning.specs.Manifest.{app_of};
ghost use Rattle.gl_meaning.specs.Session.{step, first_state};
ghost use Rattle.gl_meaning.specs.View.{manifest_view, script_view, event_view};
ghost use Rattle.gl_opc.specs.IsApp.{IsAppWith};
ghost use Rattle.gl_session.specs.Standing.{StandsAt, IsReady};
ghost use Rattle.gl_commands.specs.Output.{played_app};
ghost use Rattle.gl_run.specs.Told.{seen_text};
ghost use Rattle.gl_commands.specs.Plays.{Puts, Plays};
ghost use Rattle.gl_run.specs.Plays.{StartStops, TurnStops, IsStart, IsTurn, Opens, GoesOn};
ghost use Rattle.gl_run.specs.Holds.{EndsAt};
ghost use Rattle.gl_run.specs.Reached.{Reached};
ghost use Rattle.gl_ast.specs.Template.{Body};
ghost use Rattle.gl_opc.specs.declared.app.App.{App};

use crate::told::text_of;
use gl_code::VmFault;
use gl_commands::{PlayFault, Told, put_text};
use gl_meaning::{Event, Script};
use gl_opc::App;
use gl_outside::Sink;
use gl_session::{EventFault, Session, Turn};
use std::alloc::{AllocError, Global};

// Puts what is told of a turn, in one piece.
fn put_turn<K: Sink>(alloc: Global, told: Told, turn: Turn, out: &mut K) -> Result<(), PlayFault>
    ensures puts { Puts result (K.took out.old) (K.took out.new) (seen_text told turn) }
    ensures failed { IsErrOf result PlayFault.WriteFault → K.faults out.old < K.faults out.new }
    ensures later { K.faults out.old ≤ K.faults out.new }
{
    let text = text_of(alloc, told, turn)?;
    put_text(out, &text)
}

// Starts a session, which gives turn 0.
fn start(alloc: Global, app: App) -> Result<(Session, Turn), PlayFault>
    ensures starts { IfOk result (λ r. IsStart app r.0 r.1) }
    ensures ready { IfOk result (λ r. IsReady r.0) }
    ensures stops { IfErr result (λ f. StartStops app f) }
{
    let limit = app.manifest().limit;
    match Session::start(alloc, app) {
        Ok(started) => Ok(started),
        Err(VmFault::NestingLimit) => Err(PlayFault::NestingLimit { turn: 0, limit }),
        Err(VmFault::Memory) => Err(PlayFault::Memory),
    }
}

// The turn of an event, which has this number.
fn turn_of(session: &mut Session, turn: u64, limit: u32, event: &Event) -> Result<Turn, PlayFault>
    requires { IsReady session.old }
    ensures turns { IfOk result (λ t. IsTurn session.old (event_view event.now) session.new t) }
    ensures ready { IsReady session.new }
    ensures stops { IfErr result (λ f. TurnStops session.old (event_view event.now) turn limit f) }
{
    match session.event(event) {
        Ok(made) => Ok(made),
        Err(EventFault::NestingLimit) => Err(PlayFault::NestingLimit { turn, limit }),
        Err(EventFault::Memory) => Err(PlayFault::Memory),
        Err(EventFault::Stopped(_)) => Err(PlayFault::Memory),
    }
}

// Starts a session and tells turn 0.
fn open<K: Sink>(alloc: Global, told: Told, app: App, out: &mut K) -> Result<Session, PlayFault>
    ensures opens { Opens told app result (K.took out.old) (K.took out.new) }
    ensures ready { IfOk result (λ s. IsReady s) }
    ensures failed { IsErrOf result PlayFault.WriteFault → K.faults out.old < K.faults out.new }
    ensures later { K.faults out.old ≤ K.faults out.new }
{
    let (session, turn) = start(alloc, app)?;
    match put_turn(alloc, told, turn, out) {
        Ok(()) => Ok(session),
        Err(fault) => Err(fault),
    }
}

// Makes the turn of an event, which has this number, and tells it.
fn go_on<K: Sink>(
    alloc: Global,
    told: Told,
    session: &mut Session,
    turn: u64,
    limit: u32,
    event: &Event,
    out: &mut K,
) -> Result<(), PlayFault>
    requires { IsReady session.old }
    ensures goes { GoesOn told result session.old session.new (event_view event.now) turn limit (K.took out.old) (K.took out.new) }
    ensures ready { IsReady session.new }
    ensures failed { IsErrOf result PlayFault.WriteFault → K.faults out.old < K.faults out.new }
    ensures later { K.faults out.old ≤ K.faults out.new }
{
    match turn_of(session, turn, limit, event) {
        Ok(made) => put_turn(alloc, told, made, out),
        Err(fault) => Err(fault),
    }
}

// Plays a session, of which turn 0 is told, over the events of a script.
fn play_events<K: Sink>(
    alloc: Global,
    told: Told,
    session: &mut Session,
    limit: u32,
    script: &Script,
    out: &mut K,
) -> Result<(), PlayFault>
    requires { IsReady session.old }
    ensures plays { (app : App) (templates : List Body) (start : Option (List ℕ)) → limit ≡ app.manifest.limit
        → Reached told app templates (script_view script.now) (script_view script.now) 1 session.old start (K.took out.old)
        → Plays result start (K.took out.new) (played_app told (app_of (manifest_view app.manifest) templates) (script_view script.now)) }
    ensures ends { OnOk result ((app : App) (templates : List Body) (start : Option (List ℕ))
        → Reached told app templates (script_view script.now) (script_view script.now) 1 session.old start (K.took out.old)
        → EndsAt session.new app templates (script_view script.now)) }
    ensures failed { IsErrOf result PlayFault.WriteFault → K.faults out.old < K.faults out.new }
    ensures later { K.faults out.old ≤ K.faults out.new }
{
    let mut turn = 1;
    for event in script.events.as_slice() {
        match go_on(alloc, told, session, turn, limit, event, out) {
            Ok(()) => turn = after(turn)?,
            Err(fault) => return Err(fault),
        }
    }
    Ok(())
}

/// Plays the session of an application over the events of a script: it writes what is told of turn 0 and of the turn of each event, one
/// put for each, and gives the session.
pub fn play<K: Sink>(
    alloc: Global,
    told: Told,
    app: App,
    script: &Script,
    out: &mut K,
) -> Result<Session, PlayFault>
    ensures plays { (templates : _) → IsAppWith (manifest_view app.manifest) templates app.programs
        → Plays result (K.took out.old) (K.took out.new) (played_app told (app_of (manifest_view app.manifest) templates) (script_view script.now)) }
    ensures ends { IfOk result (λ s. (templates : _) → IsAppWith (manifest_view app.manifest) templates app.programs → EndsAt s app templates (script_view script.now)) }
    ensures failed { IsErrOf result PlayFault.WriteFault → K.faults out.old < K.faults out.new }
    ensures later { K.faults out.old ≤ K.faults out.new }
{
    let limit = app.manifest().limit;
    let mut session = open(alloc, told, app, out)?;
    match play_events(alloc, told, &mut session, limit, script, out) {
        Ok(()) => Ok(session),
        Err(fault) => Err(fault),
    }
}

// The number of the next turn.
fn after(turn: u64) -> Result<u64, AllocError>
    ensures { IfOk result (λ n. n ≡ turn + 1) }
{
    turn.checked_add(1).ok_or(AllocError)
}
