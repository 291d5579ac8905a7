// The plain forms of values.
ghost use Rattle.std.specs.Prelude.{◌≡◌, ◌<◌, IfOk, map};
ghost use Rattle.gl_value.specs.Value.{plain, values_of, pairs_of};
ghost use Rattle.gl_value.specs.View.{view};
ghost use Rattle.gl_value.specs.Plain.{plain_pair, is_plain, are_plain, have_plain};
ghost use Rattle.gl_value.specs.Proper.{IsProper};

use crate::{List, Pair, Record, Value};
use std::alloc::AllocError;

impl List {
    // Whether no action occurs in the values.
    #[cycle(actionless)]
    fn is_plain(&self) -> bool
        ensures { result ≡ are_plain (values_of self.now) }
    {
        for item in self.list.iter() {
            if !item.is_plain() {
                return false;
            }
        }
        true
    }

    #[cycle(plain)]
    fn plain(&self) -> Result<List, AllocError>
        ensures { IfOk result (λ l. l ≡ map plain self.now) }
    {
        if self.is_plain() {
            return self.copy();
        }
        let mut list = Vec::with_capacity(*self.list.allocator(), self.list.len())?;
        for item in self.list.iter() {
            list.push(item.plain()?)?;
        }
        List::from_vec(list)
    }
}

impl Record {
    // Whether no action occurs in the values.
    #[cycle(actionless)]
    fn is_plain(&self) -> bool
        ensures { result ≡ have_plain (pairs_of self.now) }
    {
        for pair in self.list.iter() {
            if !pair.value.is_plain() {
                return false;
            }
        }
        true
    }

    #[cycle(plain)]
    fn plain(&self) -> Result<Record, AllocError>
        ensures { IfOk result (λ r. r ≡ map plain_pair self.now) }
    {
        if self.is_plain() {
            return self.copy();
        }
        let mut list = Vec::with_capacity(*self.list.allocator(), self.list.len())?;
        for pair in self.list.iter() {
            let key = pair.key.copy()?;
            let value = pair.value.plain()?;
            list.push(Pair { key, value })?;
        }
        Record::from_vec(list)
    }
}

impl Value {
    // Whether no action occurs in the value.
    #[cycle(actionless)]
    fn is_plain(&self) -> bool
        ensures { result ≡ is_plain (view self.now) }
    {
        match self {
            Value::List(list) => list.is_plain(),
            Value::Record(record) => record.is_plain(),
            Value::Act(_) => false,
            _ => true,
        }
    }

    #[cycle(plain)]
    fn plain(&self) -> Result<Value, AllocError>
        ensures { IfOk result (λ v. view v ≡ plain (view self.now)) }
    {
        match self {
            Value::Undefined | Value::Act(_) => Ok(Value::Undefined),
            Value::Null => Ok(Value::Null),
            Value::Bool(b) => Ok(Value::Bool(*b)),
            Value::Int(number) => Ok(Value::Int(*number)),
            Value::Text(text) => Ok(Value::Text(text.copy()?)),
            Value::List(list) => Ok(Value::List(list.plain()?)),
            Value::Record(record) => Ok(Value::Record(record.plain()?)),
        }
    }

    /// The plain form of a value: the same value with undefined in place of each action, at any depth. What
    /// has no action is shared.
    pub fn data_of(&self) -> Result<Value, AllocError>
        ensures value { IfOk result (λ v. view v ≡ plain (view self.now)) }
        ensures proper { IfOk result (λ v. IsProper (view self.now) → IsProper (view v)) }
    {
        let value = self.plain()?;
        Ok(value)
    }
}
