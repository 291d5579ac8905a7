// Values that were worked out beside those that are kept, by the stamps of their references.
ghost use Rattle.std.specs.Prelude.{◌≡◌, ℕ, None, Some, OnOk, OnErr, option_map, cond, nat_eq};
ghost use Rattle.gl_value.specs.View.{view};
ghost use Rattle.gl_refs.specs.View.{found_at};

use gl_value::Value;
use std::alloc::{AllocError, Global};
use std::collections::HashMap;

#[derive(Drop)]
pub(crate) struct Table {
    map: HashMap<u128, Value>,
}

impl Table {
    pub(crate) fn new(alloc: Global) -> Table
        ensures { (s : ℕ) → found_at result s ≡ None }
    {
        Table {
            map: HashMap::new(alloc),
        }
    }

    pub(crate) fn get(&self, stamp: u128) -> Option<&Value>
        ensures { option_map (λ v. view v.now) result ≡ found_at self.now stamp }
    {
        self.map.get(&stamp)
    }

    pub(crate) fn put(&mut self, stamp: u128, value: Value) -> Result<(), AllocError>
        ensures ok { OnOk result ((s : ℕ) → found_at self.new s ≡ cond (nat_eq stamp s) (Some (view value)) (found_at self.old s)) }
        ensures err { OnErr result ((s : ℕ) → found_at self.new s ≡ found_at self.old s) }
    {
        match self.map.insert(stamp, value) {
            Ok(_) => Ok(()),
            Err(_) => Err(AllocError),
        }
    }
}
