// Whether two values are the same.
ghost use Rattle.std.specs.Prelude.{◌≡◌, ◌<◌, nat_eq};
ghost use Rattle.gl_value.specs.Value.{same, same_values, same_members, values_of, pairs_of};
ghost use Rattle.gl_value.specs.View.{view};

use crate::{Act, List, Record, Value};

impl List {
    #[cycle(same)]
    fn same(&self, other: &List) -> bool
        ensures { result ≡ same_values nat_eq (values_of self.now) (values_of other.now) }
    {
        if self.len() != other.len() {
            return false;
        }
        for (item, with) in self.list.iter().zip(other.list.iter()) {
            if !item.same(with) {
                return false;
            }
        }
        true
    }
}

impl Record {
    #[cycle(same)]
    fn same(&self, other: &Record) -> bool
        ensures { result ≡ same_members nat_eq (pairs_of self.now) (pairs_of other.now) }
    {
        if self.len() != other.len() {
            return false;
        }
        for (pair, with) in self.list.iter().zip(other.list.iter()) {
            if !pair.key.same(&with.key) || !pair.value.same(&with.value) {
                return false;
            }
        }
        true
    }
}

impl Act {
    #[cycle(same)]
    fn same(&self, other: &Act) -> bool
        ensures { result ≡ same nat_eq (view (Value.Act self.now)) (view (Value.Act other.now)) }
    {
        self.owner == other.owner
            && self.name.as_text().same(other.name.as_text())
            && self.fixed.same(&other.fixed)
    }
}

impl Value {
    /// Whether the two values have equal contents: the integer 1 and the text `1` differ. It takes no
    /// memory.
    #[cycle(same)]
    pub fn same(&self, other: &Value) -> bool
        ensures { result ≡ same nat_eq (view self.now) (view other.now) }
    {
        match (self, other) {
            (Value::Undefined, Value::Undefined) | (Value::Null, Value::Null) => true,
            (Value::Bool(one), Value::Bool(with)) => *one == *with,
            (Value::Int(one), Value::Int(with)) => *one == *with,
            (Value::Text(one), Value::Text(with)) => one.same(with),
            (Value::List(one), Value::List(with)) => one.same(with),
            (Value::Record(one), Value::Record(with)) => one.same(with),
            (Value::Act(one), Value::Act(with)) => one.same(with),
            _ => false,
        }
    }
}
