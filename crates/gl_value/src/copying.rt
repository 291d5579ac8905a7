// Copies of values.
ghost use Rattle.std.specs.Prelude.{◌≡◌, ◌<◌, IfOk};

use crate::{Act, List, Record, Value};
use std::alloc::AllocError;
use std::rc::Rc;

impl List {
    /// Another list with the same values. The two share them: it takes no memory.
    pub fn copy(&self) -> Result<List, AllocError>
        ensures { IfOk result (λ l. l ≡ self.now) }
    {
        Ok(List {
            list: Rc::clone(&self.list)?,
        })
    }
}

impl Record {
    /// Another record with the same pairs. The two share them: it takes no memory.
    pub fn copy(&self) -> Result<Record, AllocError>
        ensures { IfOk result (λ r. r ≡ self.now) }
    {
        Ok(Record {
            list: Rc::clone(&self.list)?,
        })
    }
}

impl Act {
    /// Another action with the same owner, name and fixed arguments. The two share them: it takes no memory.
    pub fn copy(&self) -> Result<Act, AllocError>
        ensures { IfOk result (λ a. a ≡ self.now) }
    {
        let name = self.name.copy()?;
        let fixed = self.fixed.copy()?;
        Ok(Act {
            owner: self.owner,
            name,
            fixed,
        })
    }
}

impl Value {
    /// Another value with the same content. The values of a list and the pairs of a record are shared.
    pub fn copy(&self) -> Result<Value, AllocError>
        ensures { IfOk result (λ v. v ≡ self.now) }
    {
        match self {
            Value::Undefined => Ok(Value::Undefined),
            Value::Null => Ok(Value::Null),
            Value::Bool(b) => Ok(Value::Bool(*b)),
            Value::Int(number) => Ok(Value::Int(*number)),
            Value::Text(text) => Ok(Value::Text(text.copy()?)),
            Value::List(list) => Ok(Value::List(list.copy()?)),
            Value::Record(record) => Ok(Value::Record(record.copy()?)),
            Value::Act(action) => Ok(Value::Act(action.copy()?)),
        }
    }
}
