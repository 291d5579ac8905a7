// The values of templates.
ghost use Rattle.std.specs.Prelude.{◌≡◌, ◌<◌, IfOk};
ghost use Rattle.gl_value.specs.Value.{truthy};
ghost use Rattle.gl_value.specs.View.{view};

use crate::{SharedText, Text};
use std::alloc::{AllocError, Global};
use std::marker::Model;
use std::rc::Rc;

/// A value: undefined, null, a Boolean, an integer within plus or minus [`GREATEST`], a text, a list, a
/// record or an action.
#[derive(Drop)]
#[cycle(value)]
pub enum Value {
    Undefined,
    Null,
    Bool(bool),
    Int(i64),
    Text(Text),
    List(List),
    Record(Record),
    Act(Act),
}

/// The greatest integer of a template.
pub const GREATEST: i64 = 9_007_199_254_740_991;

/// How deep a value may be nested: a list or a record is one deeper than the deepest of its members.
pub const DEEPEST: u32 = 100;

/// A list of values. Contracts see the values as definitions see them. Copies of a list share its values,
/// which never change.
#[derive(Drop)]
#[cycle(value)]
pub struct List {
    pub(crate) list: Rc<Vec<Value>>,
}

/// A key with its value.
#[derive(Drop)]
#[cycle(value)]
pub struct Pair {
    pub key: Text,
    pub value: Value,
}

/// Keys with their values, in the byte order of the keys. Contracts see the values as definitions see them.
/// Copies of a record share its pairs, which never change.
#[derive(Drop)]
#[cycle(value)]
pub struct Record {
    pub(crate) list: Rc<Vec<Pair>>,
}

/// An action: the number of the instance that owns it, its name and its fixed arguments. Copies of an action
/// share its name, so that a value takes no more room than a text.
#[derive(Drop)]
#[cycle(value)]
pub struct Act {
    pub owner: u64,
    pub name: SharedText,
    pub fixed: List,
}

impl Model for List {
    ghost use Rattle.std.specs.Prelude.{ℕ, suc, List};
    ghost use Rattle.std.specs.Coded.{coded_list};
    ghost use Rattle.gl_value.specs.Value as v;
    ghost use Rattle.gl_value.specs.Code.{value_code};

    ghost Value = { List (v.Value ℕ) };

    ghost coded = { coded_list value_code };

    ghost use Rattle.gl_value.specs.View.{seen_items};

    ghost view = { λ a. seen_items a.list.value.items };

    ghost size = { λ vs. suc (v.values_depth (v.values_of vs)) };

    ghost use Rattle.gl_value.specs.Falls.{list_falls};

    ghost size_decreases = { λ a h. list_falls a };
}

impl Model for Record {
    ghost use Rattle.std.specs.Prelude.{ℕ, suc, List};
    ghost use Rattle.std.specs.Coded.{coded_list, coded×, coded_ℕ};
    ghost use Rattle.gl_value.specs.Value as v;
    ghost use Rattle.gl_value.specs.Code.{value_code};

    ghost Value = { List (List ℕ × v.Value ℕ) };

    ghost coded = { coded_list (coded× (coded_list coded_ℕ) value_code) };

    ghost use Rattle.gl_value.specs.View.{seen_pairs};

    ghost view = { λ a. seen_pairs a.list.value.items };

    ghost size = { λ ps. suc (v.members_depth (v.pairs_of ps)) };

    ghost use Rattle.gl_value.specs.Falls.{record_falls};

    ghost size_decreases = { λ a h. record_falls a };
}

impl Act {
    /// An action of the instance with that number.
    pub fn new(alloc: Global, owner: u64, name: Text, fixed: List) -> Result<Act, AllocError>
        ensures owner { IfOk result (λ a. a.owner ≡ owner) }
        ensures name { IfOk result (λ a. a.name ≡ name) }
        ensures fixed { IfOk result (λ a. a.fixed ≡ fixed) }
    {
        let name = SharedText::new(alloc, name)?;
        Ok(Act { owner, name, fixed })
    }
}

impl Value {
    /// The truth of a value: false, undefined, null, 0, the empty text and the empty list are false, and all
    /// else is true. It takes no memory.
    pub fn truthy(&self) -> bool
        ensures { result ≡ truthy (view self.now) }
    {
        match self {
            Value::Undefined | Value::Null => false,
            Value::Bool(b) => *b,
            Value::Int(number) => *number != 0,
            Value::Text(text) => !text.is_empty(),
            Value::List(list) => !list.is_empty(),
            Value::Record(_) | Value::Act(_) => true,
        }
    }
}
