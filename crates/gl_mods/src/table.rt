// The modifiers by id.
ghost use Rattle.std.specs.Prelude.{◌≡◌, ◌<◌, ◌≤◌, [], filter, is_some, Some, IfOk, OnErr, IsSome};
ghost use Rattle.gl_arena.specs.Id.{Id as SeenId};
ghost use Rattle.gl_arena.specs.Arena.{named as named_in, with_value, Gives};
ghost use Rattle.gl_mods.specs.Mods.{times};
ghost use Rattle.gl_mods.specs.Kept.{ended};

use crate::Installed;
use gl_arena::{Arena, ModId, ModMark};
use gl_value::{List, NamedValues};
use std::alloc::{AllocError, Global};
use std::mem;

pub(crate) type Table = Arena<Installed, ModMark>;

pub(crate) fn put(table: &mut Table, installed: Installed) -> Result<ModId, AllocError>
    ensures ok { IfOk result (λ id. Gives table.old table.new id installed) }
    ensures err { OnErr result (table.new ≡ table.old) }
{
    match table.insert(installed) {
        Ok(id) => Ok(id),
        Err((_, error)) => Err(error),
    }
}

// Gives a modifier other values.
pub(crate) fn put_values(table: &mut Table, id: ModId, args: List, named: NamedValues)
    requires { IsSome (named_in table.old id) }
    ensures { (m : _) → named_in table.old id ≡ Some m → table.new ≡ with_value table.old id (record m { args = args; named = named }) }
{
    renew(table.get_mut(id), args, named);
}

fn renew(installed: &mut Installed, args: List, named: NamedValues)
    ensures { installed.new ≡ record installed.old { args = args; named = named } }
{
    installed.args = args;
    installed.named = named;
}

// Ends these modifiers.
pub(crate) fn end_all(table: &mut Table, ids: &[ModId])
    requires live { (i : SeenId) → 0 < times i ids.now → IsSome (named_in table.old i) }
    requires once { (i : SeenId) → times i ids.now ≤ 1 }
    ensures ended { (i : SeenId) → named_in table.new i ≡ ended (λ k. times k ids.now) (named_in table.old) i }
    ensures made { table.new.made ≡ table.old.made }
{
    for id in ids {
        drop(table.remove(*id));
    }
}

// Those of some ids that live, in order. None are left.
pub(crate) fn take_living(table: &Table, alloc: Global, ids: &mut Vec<ModId>) -> Vec<ModId>
    ensures taken { result.items ≡ filter (λ i. is_some (named_in table.now i)) ids.old.items }
    ensures left { ids.new.items ≡ [] }
{
    ids.retain(|id| table.live(*id));
    mem::replace(ids, Vec::new(alloc))
}
