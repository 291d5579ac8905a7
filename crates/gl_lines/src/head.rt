// What stands before the tree of a turn.
ghost use Rattle.std.specs.Prelude.{◌≡◌, ◌++◌, OnOk, codes, decimal, option_map};
ghost use Rattle.gl_meaning.specs.App.{events_of};
ghost use Rattle.gl_meaning.specs.Print.{line, events_count, event_text, head_line, missing_lines};
ghost use Rattle.gl_meaning.specs.View.{event_view};

use gl_meaning::{Event, Events};
use gl_value::{Text, push_quoted};
use std::alloc::AllocError;

// How many events there are.
fn push_count(out: &mut Text, events: &Events) -> Result<(), AllocError>
    ensures { OnOk result (out.new ≡ out.old ++ decimal (events_count (events_of events.now))) }
{
    out.push_number(events.len() as u128)
}

// What an event is told as.
fn push_event(out: &mut Text, event: &Event) -> Result<(), AllocError>
    ensures { OnOk result (out.new ≡ out.old ++ event_text (event_view event.now)) }
{
    match event {
        Event::Set { field, .. } => {
            out.push_ascii("set ")?;
            out.push_text(field)
        }
        Event::Fire { node, name, .. } => {
            out.push_ascii("fire #")?;
            out.push_number(*node as u128)?;
            out.push_ascii(" ")?;
            push_quoted(out, name.as_str())
        }
        Event::Batch(events) => {
            out.push_ascii("batch ")?;
            push_count(out, events)
        }
    }
}

/// The head of a turn: its number, and `start` or its event.
pub fn push_head(out: &mut Text, turn: u128, event: Option<&Event>) -> Result<(), AllocError>
    ensures { OnOk result (out.new ≡ out.old ++ head_line turn (option_map (λ e. event_view e.now) event.entry)) }
{
    out.push_ascii("= ")?;
    out.push_number(turn)?;
    out.push_ascii(" ")?;
    match event {
        None => out.push_ascii("start")?,
        Some(event) => push_event(out, event)?,
    }
    out.push_ascii("\n")
}

/// A line for each number that was fired at where there was no such node, or nothing listened on it.
pub fn push_missing(out: &mut Text, numbers: &[u64]) -> Result<(), AllocError>
    ensures { OnOk result (out.new ≡ out.old ++ missing_lines numbers.now) }
{
    for number in numbers {
        push_number_missing(out, *number)?;
    }
    Ok(())
}

fn push_number_missing(out: &mut Text, number: u64) -> Result<(), AllocError>
    ensures { OnOk result (out.new ≡ out.old ++ line (codes "no node " ++ decimal number)) }
{
    out.push_ascii("no node ")?;
    out.push_number(number as u128)?;
    out.push_ascii("\n")
}
