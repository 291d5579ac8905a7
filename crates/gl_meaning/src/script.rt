// Scripts: the events of a session.
use gl_value::{Text, Value};
use std::marker::Model;

/// An event: it sets a field of the root, calls the listeners of the node with a number for an event's name, or is
/// several events that count as one turn.
#[derive(Drop)]
#[cycle(event)]
pub enum Event {
    Set {
        field: Text,
        to: Value,
    },
    Fire {
        node: u64,
        name: Text,
        payload: Value,
    },
    Batch(Events),
}

/// A list of events. Contracts see the events as definitions see them.
#[derive(Drop)]
#[cycle(event)]
pub struct Events {
    pub(crate) list: Vec<Event>,
}

/// What happens in a session: an event for each turn after the first.
#[derive(Drop)]
pub struct Script {
    pub events: Events,
}

impl Model for Events {
    ghost use Rattle.std.specs.Prelude.{suc, List};
    ghost use Rattle.std.specs.Coded.{coded_list};
    ghost use Rattle.gl_meaning.specs.App as a;
    ghost use Rattle.gl_meaning.specs.EventCode.{event_code};

    ghost Value = { List a.Event };

    ghost coded = { coded_list event_code };

    ghost use Rattle.gl_meaning.specs.View.{seen_events};

    ghost view = { λ a. seen_events a.list.items };

    ghost size = { λ es. suc (a.events_depth (a.events_of es)) };

    ghost use Rattle.gl_meaning.specs.EventFalls.{events_falls};

    ghost size_decreases = { λ a h. events_falls a };
}
