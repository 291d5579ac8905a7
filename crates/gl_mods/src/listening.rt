// What listens for an event.
ghost use Rattle.std.specs.Prelude.{◌≡◌, ◌&&◌, ◌==◌, ◌<◌, IfOk, IsSome, Some, filter_map};
ghost use Rattle.std.specs.Str.{bytes_eq, chars};
ghost use Rattle.gl_value.specs.Value.{text_of};
ghost use Rattle.gl_value.specs.View.{view};
ghost use Rattle.gl_arena.specs.Id.{Id as SeenId};
ghost use Rattle.gl_arena.specs.Arena.{named as named_in};
ghost use Rattle.gl_mods.specs.Mods.{on_number, argument, listeners, times};
ghost use Rattle.gl_mods.specs.View.{seen_installed, seen_table};

use crate::table::Table;
use crate::{Acts, Installed};
use gl_arena::ModId;
use gl_value::Value;
use std::alloc::{AllocError, Global};

// The number of `on`.
const ON: u32 = 0;

impl Installed {
    // Whether it listens for the event.
    fn listens(&self, alloc: Global, event: &str) -> Result<bool, AllocError>
        ensures { IfOk result (λ b. b ≡ ((seen_installed self.now).name == on_number) && bytes_eq (text_of (argument 0 (seen_installed self.now))) (chars event.now)) }
    {
        if self.name != ON {
            return Ok(false);
        }
        match self.args.get(0) {
            Some(first) => Ok(first.text_of(alloc)?.is(event)),
            None => Ok(Value::Undefined.text_of(alloc)?.is(event)),
        }
    }

    // What an event calls: the second argument.
    fn called(&self) -> Result<Value, AllocError>
        ensures { IfOk result (λ v. view v ≡ argument 1 (seen_installed self.now)) }
    {
        match self.args.get(1) {
            Some(second) => second.copy(),
            None => Ok(Value::Undefined),
        }
    }
}

// What listens for an event among some modifiers, in order.
pub(crate) fn called_by(
    table: &Table,
    alloc: Global,
    ids: &[ModId],
    event: &str,
) -> Result<Acts, AllocError>
    ensures { IfOk result (λ acts. acts ≡ listeners (chars event.now) (filter_map (named_in (seen_table table.now)) ids.now)) }
{
    let mut acts = Acts::new(alloc);
    for id in ids {
        if let Some(installed) = table.find(*id) {
            if installed.listens(alloc, event)? {
                acts.push(installed.called()?)?;
            }
        }
    }
    Ok(acts)
}
