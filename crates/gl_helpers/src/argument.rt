// The arguments of a call.
ghost use Rattle.std.specs.Prelude.{◌≡◌, option_map, slice_get};
ghost use Rattle.gl_base.specs.Names.{at_place};
ghost use Rattle.gl_value.specs.Helpers.{rest_of};
ghost use Rattle.gl_value.specs.Value.{undefined};
ghost use Rattle.gl_value.specs.View.{view, seen_items};

use gl_value::Value;
use std::marker::Model;

/// The positional arguments of a call, with undefined for those that are missing.
#[derive(Drop)]
pub struct Arguments<'a> {
    given: &'a [Value],
    missing: &'a Value,
}

impl<'a> Model for Arguments<'a> {
    ghost use Rattle.std.specs.Prelude.{◌≡◌, ℕ, List};
    ghost use Rattle.std.specs.Coded.{coded_list};
    ghost use Rattle.gl_value.specs.Value as v;
    ghost use Rattle.gl_value.specs.Code.{value_code};

    ghost Value = { List (v.Value ℕ) };

    ghost coded = { coded_list value_code };

    ghost use Rattle.gl_value.specs.View.{view as value_view, seen_items};

    ghost view = { λ a. seen_items a.given.now };

    ghost invariant = { λ a. value_view a.missing.now ≡ v.undefined };
}

impl<'a> Arguments<'a> {
    /// The arguments that are given; `missing` is undefined. It takes no memory.
    pub fn new(given: &'a [Value], missing: &'a Value) -> Arguments<'a>
        requires { view missing.now ≡ undefined }
        ensures { result ≡ seen_items given.now }
    {
        Arguments { given, missing }
    }

    /// Those that are given. It takes no memory.
    pub fn all(&self) -> &'a [Value]
        ensures { seen_items result.now ≡ self.now }
    {
        self.given
    }

    /// The argument at a place, counted from 0. It takes no memory.
    pub fn at(&self, at: usize) -> &'a Value
        ensures { view result.now ≡ at_place undefined at self.now }
    {
        match given_at(self.given, at) {
            Some(value) => value,
            None => self.missing,
        }
    }

    /// The arguments after the first. It takes no memory.
    pub fn rest(&self) -> &'a [Value]
        ensures { seen_items result.now ≡ rest_of self.now }
    {
        match self.given {
            [] => &[],
            [_, rest @ ..] => rest,
        }
    }
}

fn given_at(given: &[Value], at: usize) -> Option<&Value>
    ensures { option_map (λ v. view v.now) result ≡ slice_get (seen_items given.now) at }
{
    given.get(at)
}
