// The fields that events set.
ghost use Rattle.std.specs.Prelude.{◌≡◌, map, option_map};
ghost use Rattle.gl_value.specs.Plain.{plain_pair};
ghost use Rattle.gl_meaning.specs.App.{events_of};
ghost use Rattle.gl_meaning.specs.ScriptOf as s;
ghost use Rattle.gl_meaning.specs.View.{event_view, seen_events};

use gl_meaning::{Event, Events, Fields};
use gl_value::Text;

// The name, unless a field has it.
fn unless_field<'a>(fields: &Fields, name: &'a Text) -> Option<&'a Text>
    ensures { option_map (λ n. n.now) result ≡ s.unless_field (map (λ f. plain_pair f) fields.now) name.now }
{
    match fields.get(name.as_str()) {
        Some(_) => None,
        None => Some(name),
    }
}

// The first name that the event sets and no field has.
#[cycle(names)]
fn unknown_in<'a>(fields: &Fields, event: &'a Event) -> Option<&'a Text>
    ensures { option_map (λ n. n.now) result ≡ s.unknown_in (map (λ f. plain_pair f) fields.now) (event_view event.now) }
{
    match event {
        Event::Set { field, to: _ } => unless_field(fields, field),
        Event::Fire { .. } => None,
        Event::Batch(events) => unknown_among(fields, events),
    }
}

#[cycle(names)]
fn unknown_among<'a>(fields: &Fields, events: &'a Events) -> Option<&'a Text>
    ensures { option_map (λ n. n.now) result ≡ s.unknown_among (map (λ f. plain_pair f) fields.now) (events_of events.now) }
{
    for event in events.as_slice() {
        let found = unknown_in(fields, event);
        if found.is_some() {
            return found;
        }
    }
    None
}

/// The first name that an event sets and no field has, with the place of the event.
pub fn first_unknown<'a>(fields: &Fields, events: &'a Events) -> Option<(usize, &'a Text)>
    ensures { option_map (λ x. (x.0, x.1.now)) result ≡ s.first_unknown (map (λ f. plain_pair f) fields.now) 0 events.now }
{
    for (place, event) in events.as_slice().iter().enumerate() {
        if let Some(name) = unknown_in(fields, event) {
            return Some((place, name));
        }
    }
    None
}
