// The calls of a record.
ghost use Rattle.std.specs.Prelude.{◌≡◌, ◌<◌, [], IfOk, length, option_map, not};
ghost use Rattle.std.specs.List.{find};
ghost use Rattle.std.specs.Str.{bytes_eq, chars};
ghost use Rattle.gl_base.specs.Names.{named};
ghost use Rattle.gl_value.specs.View.{view, seen_pairs};

use crate::{Pair, Record, Text, Value};
use std::alloc::{AllocError, Global};
use std::rc::Rc;

impl Record {
    /// The empty record.
    pub fn new(alloc: Global) -> Result<Record, AllocError>
        ensures { IfOk result (λ r. r ≡ []) }
    {
        Record::from_vec(Vec::new(alloc))
    }

    /// The record of the pairs of a vector, as they stand: their keys are to rise in byte order.
    pub fn from_vec(pairs: Vec<Pair>) -> Result<Record, AllocError>
        ensures { IfOk result (λ r. r ≡ seen_pairs pairs.items) }
    {
        let alloc = *pairs.allocator();
        Ok(Record {
            list: Rc::new(alloc, pairs)?,
        })
    }

    /// Gives the pairs as a vector: the record's own where no other shares them, and else copies.
    pub fn into_vec(self) -> Result<Vec<Pair>, AllocError>
        ensures { IfOk result (λ pairs. seen_pairs pairs.items ≡ self) }
    {
        match Rc::try_unwrap(self.list) {
            Ok(pairs) => Ok(pairs),
            Err(shared) => copied(shared.as_ref()),
        }
    }

    pub fn as_slice(&self) -> &[Pair]
        ensures { seen_pairs result.now ≡ self.now }
    {
        self.list.as_slice()
    }

    pub fn len(&self) -> usize
        ensures { result ≡ length self.now }
    {
        self.list.len()
    }

    /// The value at a key.
    pub fn get(&self, key: &str) -> Option<&Value>
        ensures { option_map (λ v. view v.now) result ≡ named (chars key.now) self.now }
    {
        value_at(self.list.as_slice(), key)
    }
}

// A vector with copies of the pairs.
fn copied(pairs: &Vec<Pair>) -> Result<Vec<Pair>, AllocError>
    ensures { IfOk result (λ copies. seen_pairs copies.items ≡ seen_pairs pairs.now.items) }
{
    let mut copies = Vec::with_capacity(*pairs.allocator(), pairs.len())?;
    for pair in pairs {
        let key = pair.key.copy()?;
        let value = pair.value.copy()?;
        copies.push(Pair { key, value })?;
    }
    Ok(copies)
}

// The value of the first pair of that key.
fn value_at<'a>(pairs: &'a [Pair], key: &str) -> Option<&'a Value>
    ensures { option_map (λ v. view v.now) result ≡ option_map (λ p. view p.value) (find (λ p. bytes_eq (chars key.now) p.key) pairs.now) }
{
    pairs
        .iter()
        .find(|pair| pair.key.is(key))
        .map(|pair| &pair.value)
}
