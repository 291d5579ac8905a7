// Lists and records that are being made.
ghost use Rattle.std.specs.Prelude.{◌≡◌, [], ◌∷◌, ◌++◌, ◌↔◌, IsTrue, IfOk, OnOk, OnErr, length};
ghost use Rattle.gl_value.specs.View.{view, seen_items, seen_pairs};

use crate::{List, Pair, Record, Text, Value};
use std::alloc::{AllocError, Global};
use std::marker::Model;

/// The values of a list that is being made. Contracts see them as definitions see them.
#[derive(Drop)]
pub struct ListBuilder {
    list: Vec<Value>,
}

/// The pairs of a record that is being made. Contracts see them as definitions see them.
#[derive(Drop)]
pub struct RecordBuilder {
    list: Vec<Pair>,
}

impl Model for ListBuilder {
    ghost use Rattle.std.specs.Prelude.{ℕ, List};
    ghost use Rattle.std.specs.Coded.{coded_list};
    ghost use Rattle.gl_value.specs.Value as v;
    ghost use Rattle.gl_value.specs.Code.{value_code};
    ghost use Rattle.gl_value.specs.View.{seen_items};

    ghost Value = { List (v.Value ℕ) };

    ghost coded = { coded_list value_code };

    ghost view = { λ a. seen_items a.list.items };
}

impl Model for RecordBuilder {
    ghost use Rattle.std.specs.Prelude.{ℕ, List};
    ghost use Rattle.std.specs.Coded.{coded_list, coded×, coded_ℕ};
    ghost use Rattle.gl_value.specs.Value as v;
    ghost use Rattle.gl_value.specs.Code.{value_code};
    ghost use Rattle.gl_value.specs.View.{seen_pairs};

    ghost Value = { List (List ℕ × v.Value ℕ) };

    ghost coded = { coded_list (coded× (coded_list coded_ℕ) value_code) };

    ghost view = { λ a. seen_pairs a.list.items };
}

impl ListBuilder {
    /// No values. It takes no memory.
    pub fn new(alloc: Global) -> ListBuilder
        ensures { result ≡ [] }
    {
        ListBuilder {
            list: Vec::new(alloc),
        }
    }

    /// The values of a vector. It takes no memory.
    pub fn from_vec(list: Vec<Value>) -> ListBuilder
        ensures { result ≡ seen_items list.items }
    {
        ListBuilder { list }
    }

    /// Gives the vector back. It takes no memory.
    pub fn into_vec(self) -> Vec<Value>
        ensures { seen_items result.items ≡ self }
    {
        self.list
    }

    pub fn as_slice(&self) -> &[Value]
        ensures { seen_items result.now ≡ self.now }
    {
        self.list.as_slice()
    }

    pub fn len(&self) -> usize
        ensures { result ≡ length self.now }
    {
        self.list.len()
    }

    pub fn is_empty(&self) -> bool
        ensures { IsTrue result ↔ (self.now ≡ []) }
    {
        self.list.is_empty()
    }

    /// Adds a value at the end.
    pub fn push(&mut self, value: Value) -> Result<(), AllocError>
        ensures ok { OnOk result (self.new ≡ self.old ++ view value ∷ []) }
        ensures err { OnErr result (self.new ≡ self.old) }
    {
        self.list.push(value)?;
        Ok(())
    }

    /// The list of the values.
    pub fn build(self) -> Result<List, AllocError>
        ensures { IfOk result (λ l. l ≡ self) }
    {
        List::from_vec(self.list)
    }
}

impl RecordBuilder {
    /// No pairs. It takes no memory.
    pub fn new(alloc: Global) -> RecordBuilder
        ensures { result ≡ [] }
    {
        RecordBuilder {
            list: Vec::new(alloc),
        }
    }

    /// The pairs of a vector, as they stand: their keys are to rise in byte order. It takes no memory.
    pub fn from_vec(list: Vec<Pair>) -> RecordBuilder
        ensures { result ≡ seen_pairs list.items }
    {
        RecordBuilder { list }
    }

    /// Adds a pair at the end, as it stands: its key is to be greater, by bytes, than those there.
    pub fn push(&mut self, key: Text, value: Value) -> Result<(), AllocError>
        ensures ok { OnOk result (self.new ≡ self.old ++ (key, view value) ∷ []) }
        ensures err { OnErr result (self.new ≡ self.old) }
    {
        self.list.push(Pair { key, value })?;
        Ok(())
    }

    /// The record of the pairs.
    pub fn build(self) -> Result<Record, AllocError>
        ensures { IfOk result (λ r. r ≡ self) }
    {
        Record::from_vec(self.list)
    }
}
