// A session: an application with its page, from turn to turn.
ghost use Rattle.std.specs.Prelude.{◌≡◌, List, Some, None, Err, IfOk, IfErr, OnErr, OnOk, length, min};
ghost use Rattle.gl_ast.specs.Template.{Body};
ghost use Rattle.gl_meaning.specs.Changes.{nodes, instances};
ghost use Rattle.gl_meaning.specs.Session as session;
ghost use Rattle.gl_meaning.specs.View.{event_view, manifest_view};
ghost use Rattle.gl_opc.specs.IsApp.{IsAppWith};
ghost use Rattle.gl_opc.specs.declared.app.App.{App};
ghost use Rattle.gl_live.specs.Most.{most};
ghost use Rattle.gl_session.specs.Turn.{work_view, added};
ghost use Rattle.gl_session.specs.Standing.{StandsAt, Starts, StartFails, Turns, Asked, EventFails, TurnFails, Stops, IsReady};

use crate::fault::EventFault;
use crate::turn::{Turn, Work, summed};
use crate::turning::{first_turn, next_turn};
use gl_code::{Page, VmFault};
use gl_live::{Live, count};
use gl_meaning::Event;
use gl_opc::App;
use std::alloc::Global;

/// A session: the application, what is rendered of it, the number of the next turn, the work and the questions of all its turns together,
/// and why it stopped, if it did.
#[derive(Drop)]
pub struct Session {
    alloc: Global,
    app: App,
    page: Page,
    turn: u128,
    counts: Work,
    asks: u128,
    stopped: Option<VmFault>,
}

impl Session {
    /// Renders an application, as turn 0. [`VmFault::NestingLimit`] comes only where a component would stand too deep.
    pub fn start(alloc: Global, app: App) -> Result<(Session, Turn), VmFault>
        ensures ok { IfOk result (λ r. (templates : List Body) → IsAppWith (manifest_view app.manifest) templates app.programs → Starts app templates r.0 r.1) }
        ensures fails { IfErr result (λ f. (templates : List Body) → IsAppWith (manifest_view app.manifest) templates app.programs → StartFails app templates f) }
        ensures counts { IfOk result (λ r. r.0.counts ≡ r.1.work) }
        ensures asks { IfOk result (λ r. r.0.asks ≡ 0) }
        ensures ready { IfOk result (λ r. IsReady r.0) }
    {
        let (page, made) = first_turn(alloc, &app)?;
        let session = Session {
            alloc,
            app,
            page,
            turn: 1,
            counts: made.work,
            asks: 0,
            stopped: None,
        };
        Ok((session, made))
    }

    /// The work of all turns together. It takes no memory.
    pub fn counts(&self) -> Work
        ensures { result ≡ self.now.counts }
    {
        self.counts
    }

    /// How many questions the updates of the session answered, whether something was touched: one for the whole page, and where something
    /// in it was, one for each of its members, which are the positions and the regions that stand in it (the body of a component, a branch,
    /// the items of a list, an item); so on for each region in which something was evaluated again. It takes no memory.
    pub fn asks(&self) -> u128
        ensures { result ≡ self.now.asks }
    {
        self.asks
    }

    /// How many nodes and instances there are between two turns: as many as the rendering has, since nothing else is kept. It takes no
    /// memory.
    pub fn live(&self) -> Live
        ensures nodes { (app : App) (templates : List Body) (s : session.State) → StandsAt self.now app templates s → result.nodes ≡ min (length (nodes s.rendering)) most }
        ensures instances { (app : App) (templates : List Body) (s : session.State) → StandsAt self.now app templates s → result.instances ≡ min (length (instances s.rendering)) most }
    {
        count(&self.page.code)
    }

    /// The turn of an event: what it sets is laid on the cells, and the page is updated. [`EventFault::NestingLimit`] comes only where a
    /// component would stand too deep. After any fault the session has stopped, and each later event is told so and changes nothing.
    /// What the session counts rises by the work of the turn, and what it asked by one question at least and at most by as many as the meaning's turn may ask; a sum
    /// without room is want of memory.
    pub fn event(&mut self, event: &Event) -> Result<Turn, EventFault>
        requires ready { IsReady self.old }
        ensures ok { IfOk result (λ t. (app : App) (templates : List Body) (s : session.State) → StandsAt self.old app templates s → Turns app templates s (event_view event.now) self.new t) }
        ensures fails { IfErr result (λ f. (app : App) (templates : List Body) (s : session.State) → StandsAt self.old app templates s → EventFails app templates s (event_view event.now) f) }
        ensures stops { IfErr result (λ f. Stops self.old self.new f) }
        ensures counts { IfOk result (λ t. work_view self.new.counts ≡ added (work_view self.old.counts) (work_view t.work)) }
        ensures asks { OnOk result ((app : App) (templates : List Body) (s : session.State) → StandsAt self.old app templates s → Asked app templates s (event_view event.now) self.old self.new) }
        ensures kept { OnErr result ((self.new.counts ≡ self.old.counts) × (self.new.asks ≡ self.old.asks)) }
        ensures ready { IsReady self.new }
    {
        match &self.stopped {
            Some(VmFault::NestingLimit) => Err(EventFault::Stopped(VmFault::NestingLimit)),
            Some(VmFault::Memory) => Err(EventFault::Stopped(VmFault::Memory)),
            None => self.go_on(event),
        }
    }

    // The turn of an event of a session that goes on.
    fn go_on(&mut self, event: &Event) -> Result<Turn, EventFault>
        requires ready { IsReady self.old }
        ensures ok { IfOk result (λ t. (app : App) (templates : List Body) (s : session.State) → StandsAt self.old app templates s → Turns app templates s (event_view event.now) self.new t) }
        ensures fails { IfErr result (λ f. (app : App) (templates : List Body) (s : session.State) → StandsAt self.old app templates s → EventFails app templates s (event_view event.now) f) }
        ensures stops { IfErr result (λ f. Stops self.old self.new f) }
        ensures counts { IfOk result (λ t. work_view self.new.counts ≡ added (work_view self.old.counts) (work_view t.work)) }
        ensures asks { OnOk result ((app : App) (templates : List Body) (s : session.State) → StandsAt self.old app templates s → Asked app templates s (event_view event.now) self.old self.new) }
        ensures kept { OnErr result ((self.new.counts ≡ self.old.counts) × (self.new.asks ≡ self.old.asks)) }
        ensures ready { IsReady self.new }
    {
        match self.turn_of(event) {
            Ok(made) => Ok(made),
            Err(VmFault::NestingLimit) => {
                self.stopped = Some(VmFault::NestingLimit);
                Err(EventFault::NestingLimit)
            }
            Err(VmFault::Memory) => {
                self.stopped = Some(VmFault::Memory);
                Err(EventFault::Memory)
            }
        }
    }

    // The turn of an event, which is counted.
    fn turn_of(&mut self, event: &Event) -> Result<Turn, VmFault>
        requires ready { IsReady self.old }
        ensures ok { IfOk result (λ t. (app : App) (templates : List Body) (s : session.State) → StandsAt self.old app templates s → Turns app templates s (event_view event.now) self.new t) }
        ensures fails { IfErr result (λ f. (app : App) (templates : List Body) (s : session.State) → StandsAt self.old app templates s → TurnFails app templates s (Some (event_view event.now)) f) }
        ensures counts { IfOk result (λ t. work_view self.new.counts ≡ added (work_view self.old.counts) (work_view t.work)) }
        ensures asks { OnOk result ((app : App) (templates : List Body) (s : session.State) → StandsAt self.old app templates s → Asked app templates s (event_view event.now) self.old self.new) }
        ensures kept { OnErr result ((self.new.counts ≡ self.old.counts) × (self.new.asks ≡ self.old.asks)) }
        ensures ready { IsReady self.new }
    {
        let next = match self.turn.checked_add(1) {
            Some(next) => next,
            None => return Err(VmFault::Memory),
        };
        let made = next_turn(self.alloc, &self.app, &mut self.page, self.turn, event)?;
        let counts = self.counts.with(made.turn.work)?;
        let asks = summed(self.asks, made.asked)?;
        self.turn = next;
        self.counts = counts;
        self.asks = asks;
        Ok(made.turn)
    }
}
