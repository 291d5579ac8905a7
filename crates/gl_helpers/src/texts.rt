// The helpers that write texts.
ghost use Rattle.std.specs.Prelude.{◌≡◌, nat_eq, IfOk, OnOk, ◌++◌, flat_map, map};
ghost use Rattle.gl_value.specs.Helpers.{joined_by, raw_value};
ghost use Rattle.gl_value.specs.Value.{text, text_of};
ghost use Rattle.gl_value.specs.View.{view, seen_items};
ghost use Rattle.gl_helpers.specs.View.{Names, seen_writing};

use crate::argument::Arguments;
use crate::helper::Writing;
use crate::lists::items_in;
use crate::wording::text_in;
use gl_value::{Text, Value};
use std::alloc::{AllocError, Global};

// The texts of the values, joined.
fn concat(alloc: Global, values: &[Value]) -> Result<Text, AllocError>
    ensures { IfOk result (λ t. t ≡ flat_map text_of (seen_items values.now)) }
{
    let mut text = Text::new(alloc);
    for value in values {
        value.write(&mut text)?;
    }
    Ok(text)
}

// Adds the texts of the items, each after a text.
fn write_after(text: &mut Text, items: &[Value], between: &Text) -> Result<(), AllocError>
    ensures { OnOk result (text.new ≡ text.old ++ flat_map (λ u. between.now ++ u) (map text_of (seen_items items.now))) }
{
    for item in items {
        text.push_text(between)?;
        item.write(text)?;
    }
    Ok(())
}

// The texts of the items, with a text between each two.
fn join(alloc: Global, items: &[Value], between: &Text) -> Result<Text, AllocError>
    ensures { IfOk result (λ t. t ≡ joined_by between.now (map text_of (seen_items items.now))) }
{
    let mut text = Text::new(alloc);
    if let Some((first, rest)) = items.split_first() {
        first.write(&mut text)?;
        write_after(&mut text, rest, between)?;
    }
    Ok(text)
}

/// What such a helper gives.
pub fn written(alloc: Global, helper: Writing, args: &Arguments) -> Result<Text, AllocError>
    ensures { IfOk result (λ t. (names : Names) → text t ≡ raw_value nat_eq args.now names (seen_writing helper)) }
{
    match helper {
        Writing::Concat => concat(alloc, args.all()),
        Writing::Join => join(
            alloc,
            items_in(args.at(0)),
            text_in(alloc, args.at(1))?.text(),
        ),
    }
}
