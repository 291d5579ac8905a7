// Pointers, which are written from their ends when a fault is told.
ghost use Rattle.std.specs.Prelude.{◌≡◌, ◌++◌, OnOk};
ghost use Rattle.gl_meaning.specs.Pointer.{escaped_char, key_step, item_step};
ghost use Rattle.gl_shape.specs.View.{IsUnder};

use crate::PlaceFault;
use gl_value::Text;
use std::alloc::{AllocError, Global};

fn push_escaped(out: &mut Text, character: char) -> Result<(), AllocError>
    ensures { OnOk result (out.new ≡ out.old ++ escaped_char character) }
{
    match character {
        '~' => out.push_ascii("~0"),
        '/' => out.push_ascii("~1"),
        c => out.push_char(c),
    }
}

#[tactic(auto, unfolding(gl_meaning::specs::Pointer::key_step))]
fn push_key(out: &mut Text, key: &str) -> Result<(), AllocError>
    ensures { OnOk result (out.new ≡ out.old ++ key_step key.now) }
{
    out.push_ascii("/")?;
    for character in key.chars() {
        push_escaped(out, character)?;
    }
    Ok(())
}

#[tactic(auto, unfolding(gl_meaning::specs::Pointer::item_step))]
fn push_place(out: &mut Text, place: usize) -> Result<(), AllocError>
    ensures { OnOk result (out.new ≡ out.old ++ item_step place) }
{
    out.push_ascii("/")?;
    out.push_number(place as u128)
}

/// The same of a value that stands at a member: a fault's pointer begins with the step to it.
pub fn at_key<T>(alloc: Global, key: &str, found: Result<T, PlaceFault>) -> Result<T, PlaceFault>
    ensures { IsUnder (key_step key.now) found result }
{
    match found {
        Err(PlaceFault::At { pointer }) => {
            let mut out = Text::new(alloc);
            push_key(&mut out, key)?;
            out.push_text(&pointer)?;
            Err(PlaceFault::At { pointer: out })
        }
        other => other,
    }
}

/// The same of a value that stands at a place in an array.
pub fn at_item<T>(
    alloc: Global,
    place: usize,
    found: Result<T, PlaceFault>,
) -> Result<T, PlaceFault>
    ensures { IsUnder (item_step place) found result }
{
    match found {
        Err(PlaceFault::At { pointer }) => {
            let mut out = Text::new(alloc);
            push_place(&mut out, place)?;
            out.push_text(&pointer)?;
            Err(PlaceFault::At { pointer: out })
        }
        other => other,
    }
}
