// Where keys stand in the old list of a plan.
ghost use Rattle.std.specs.Prelude.{◌≡◌, ◌↔◌, Some, IsTrue, IfOk, IfSome, position};
ghost use Rattle.gl_meaning.specs.Laws.{NoRepeat};
ghost use Rattle.gl_each.specs.Key.{same_key};
ghost use Rattle.gl_each.specs.View.{key_view, seen_keys};

use crate::Key;
use crate::finding::KeyRef;
use indexmap::IndexSet;
use std::alloc::{AllocError, Global};
use std::marker::Model;

// So many keys are searched for in the list before a table of it is made.
const FEW: u32 = 4;

// The old keys. A key mostly stands beside the one that was found last, so these two places are tried first; the
// first few keys that don't are searched for in the list, and all others in a table.
#[derive(Drop)]
pub(crate) struct Finder<'a> {
    alloc: Global,
    list: &'a [Key],
    // The place behind the one that was found last.
    next: usize,
    searches: u32,
    table: Option<IndexSet<KeyRef<'a>>>,
}

impl<'a> Model for Finder<'a> {
    ghost use Rattle.std.specs.Prelude.{◌≡◌, List, IfSome};
    ghost use Rattle.std.specs.Coded.{coded_list};
    ghost use Rattle.gl_meaning.specs.Laws.{NoRepeat};
    ghost use Rattle.gl_each.specs.Key as k;
    ghost use Rattle.gl_each.specs.View.{seen_keys};

    ghost Value = { List k.Key };

    ghost coded = { coded_list k.key_code };

    ghost view = { λ a. seen_keys a.list.now };

    ghost invariant = { λ a. NoRepeat (seen_keys a.list.now) × IfSome a.table (λ t. t.keys ≡ seen_keys a.list.now) };
}

// Whether two keys are the same.
fn is_key(one: &Key, other: &Key) -> bool
    ensures { result ≡ same_key (key_view one.now) (key_view other.now) }
{
    one.value.same(&other.value) && one.occurrence == other.occurrence
}

// Whether a key stands at a place.
fn stands_at(old: &[Key], place: usize, key: &Key) -> bool
    requires { NoRepeat (seen_keys old.now) }
    ensures { IsTrue result ↔ (position (same_key (key_view key.now)) (seen_keys old.now) ≡ Some place) }
{
    place < old.len() && is_key(key, &old[place])
}

// The place of a key, by a search of the whole list.
fn search(old: &[Key], key: &Key) -> Option<usize>
    requires { NoRepeat (seen_keys old.now) }
    ensures { result ≡ position (same_key (key_view key.now)) (seen_keys old.now) }
{
    for place in 0..old.len() {
        if stands_at(old, place, key) {
            return Some(place);
        }
    }
    None
}

// The old keys, each at its place.
fn table(alloc: Global, old: &[Key]) -> Result<IndexSet<KeyRef<'_>>, AllocError>
    requires { NoRepeat (seen_keys old.now) }
    ensures { IfOk result (λ t. t.keys ≡ seen_keys old.now) }
{
    let mut places = IndexSet::with_capacity(alloc, old.len())?;
    for key in old {
        places.insert(KeyRef {
            value: &key.value,
            occurrence: key.occurrence,
        })?;
    }
    Ok(places)
}

impl<'a> Finder<'a> {
    // The last place is tried first of all.
    pub(crate) fn new(alloc: Global, old: &'a [Key]) -> Finder<'a>
        requires { NoRepeat (seen_keys old.now) }
        ensures { result ≡ seen_keys old.now }
    {
        Finder {
            alloc,
            list: old,
            next: old.len().saturating_add(1),
            searches: 0,
            table: None,
        }
    }

    // The place of a key, where it stands beside the one that was found last.
    fn beside(&self, key: &Key) -> Option<usize>
        ensures { IfSome result (λ i. position (same_key (key_view key.now)) self.now ≡ Some i) }
    {
        let before = self.next.saturating_sub(2);
        if stands_at(self.list, self.next, key) {
            Some(self.next)
        } else if stands_at(self.list, before, key) {
            Some(before)
        } else {
            None
        }
    }

    // The place of a key in the table, which is made where there is none.
    fn look_up(&mut self, key: &'a Key) -> Result<Option<usize>, AllocError>
        ensures place { IfOk result (λ o. o ≡ position (same_key (key_view key.now)) self.old) }
        ensures same { self.new ≡ self.old }
    {
        let at = KeyRef {
            value: &key.value,
            occurrence: key.occurrence,
        };
        if let Some(table) = &self.table {
            return Ok(table.get_index_of(&at));
        }
        let table = table(self.alloc, self.list)?;
        let place = table.get_index_of(&at);
        self.table = Some(table);
        Ok(place)
    }

    // The place of a key, wherever it stands.
    fn anywhere(&mut self, key: &'a Key) -> Result<Option<usize>, AllocError>
        ensures place { IfOk result (λ o. o ≡ position (same_key (key_view key.now)) self.old) }
        ensures same { self.new ≡ self.old }
    {
        if self.searches < FEW {
            self.searches += 1;
            return Ok(search(self.list, key));
        }
        self.look_up(key)
    }

    // The place of a key.
    pub(crate) fn find(&mut self, key: &'a Key) -> Result<Option<usize>, AllocError>
        ensures place { IfOk result (λ o. o ≡ position (same_key (key_view key.now)) self.old) }
        ensures same { self.new ≡ self.old }
    {
        let place = match self.beside(key) {
            Some(place) => Some(place),
            None => self.anywhere(key)?,
        };
        if let Some(place) = place {
            self.next = place.saturating_add(1);
        }
        Ok(place)
    }
}
