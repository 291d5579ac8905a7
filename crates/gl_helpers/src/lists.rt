// The helpers on lists. Each gives a new list with copies of the items that it has.
ghost use Rattle.std.specs.Prelude.{◌≡◌, ◌<◌, ◌++◌, [], ◌∷◌, IfOk, OnOk, not, nat_eq, filter, reverse, map, true, false, if◌then◌else◌, length, pos, int_lt, ◌&&◌};
ghost use Rattle.std.specs.List.{list_any};
ghost use Rattle.std.specs.Ordering.{int_eq};
ghost use Rattle.std.specs.Str.{chars};
ghost use Rattle.gl_value.specs.Helpers.{items_in, at_places, is_before, raw_value};
ghost use Rattle.gl_value.specs.Value.{list, values_of, same, property};
ghost use Rattle.gl_value.specs.View.{view, seen_items};
ghost use Rattle.gl_helpers.specs.View.{Names, seen_listing};

use crate::argument::Arguments;
use crate::helper::Listing;
use crate::number::number_of;
use crate::wording::text_in;
use gl_value::{List, ListBuilder, Text, Value};
use std::alloc::{AllocError, Global};

/// The items of a list, none of any other value. It takes no memory.
pub fn items_in(value: &Value) -> &[Value]
    ensures { seen_items result.now ≡ items_in (view value.now) }
{
    match value {
        Value::List(list) => list.as_slice(),
        _ => &[],
    }
}

/// Whether some item is the same as a value. It takes no memory.
pub fn includes(items: &[Value], value: &Value) -> bool
    ensures { result ≡ list_any (λ v. same nat_eq v (view value.now)) (seen_items items.now) }
{
    for item in items {
        if item.same(value) {
            return true;
        }
    }
    false
}

// Copies of the values.
fn copies(alloc: Global, values: &[Value]) -> Result<ListBuilder, AllocError>
    ensures { IfOk result (λ l. l ≡ seen_items values.now) }
{
    let mut list = ListBuilder::from_vec(Vec::with_capacity(alloc, values.len())?);
    for value in values {
        list.push(value.copy()?)?;
    }
    Ok(list)
}

// The list of the values.
fn array(alloc: Global, values: &[Value]) -> Result<List, AllocError>
    ensures { IfOk result (λ l. l ≡ seen_items values.now) }
{
    copies(alloc, values)?.build()
}

// The items, then a value.
fn append(alloc: Global, items: &[Value], value: &Value) -> Result<List, AllocError>
    ensures { IfOk result (λ l. l ≡ seen_items items.now ++ view value.now ∷ []) }
{
    let mut list = copies(alloc, items)?;
    list.push(value.copy()?)?;
    list.build()
}

// The items from back to front.
fn reverse(alloc: Global, items: &[Value]) -> Result<List, AllocError>
    ensures { IfOk result (λ l. l ≡ reverse (seen_items items.now)) }
{
    let mut values = copies(alloc, items)?.into_vec();
    values.reverse();
    Ok(List::from_vec(values)?)
}

// Adds a copy of a value, where it is to be kept.
fn push_if(list: &mut ListBuilder, kept: bool, value: &Value) -> Result<(), AllocError>
    ensures { OnOk result (list.new ≡ list.old ++ (if kept then view value.now ∷ [] else [])) }
{
    if kept {
        list.push(value.copy()?)
    } else {
        Ok(())
    }
}

/// Whether the value's property of that name is the same as a value. It takes no memory.
pub fn has_property(item: &Value, name: &Text, value: &Value) -> bool
    ensures { result ≡ same nat_eq (property name.now (view item.now)) (view value.now) }
{
    item.find(name.as_str()).same(value)
}

// The items whose property of that name is the same as a value.
#[tactic(auto, using(crate::proofs::Items::kept_laws))]
fn with_property(
    alloc: Global,
    items: &[Value],
    name: &Text,
    value: &Value,
) -> Result<List, AllocError>
    ensures { IfOk result (λ l. l ≡ filter (λ v. same nat_eq (property name.now v) (view value.now)) (seen_items items.now)) }
{
    let mut list = ListBuilder::new(alloc);
    for item in items {
        push_if(&mut list, has_property(item, name, value), item)?;
    }
    list.build()
}

// The items whose property of that name isn't the same as a value.
#[tactic(auto, using(crate::proofs::Items::kept_laws))]
fn without_property(
    alloc: Global,
    items: &[Value],
    name: &Text,
    value: &Value,
) -> Result<List, AllocError>
    ensures { IfOk result (λ l. l ≡ filter (λ v. not (same nat_eq (property name.now v) (view value.now))) (seen_items items.now)) }
{
    let mut list = ListBuilder::new(alloc);
    for item in items {
        push_if(&mut list, !has_property(item, name, value), item)?;
    }
    list.build()
}

// The property of that name of each item.
fn pluck(alloc: Global, items: &[Value], name: &Text) -> Result<List, AllocError>
    ensures { IfOk result (λ l. l ≡ map (property name.now) (seen_items items.now)) }
{
    let mut list = ListBuilder::from_vec(Vec::with_capacity(alloc, items.len())?);
    for item in items {
        list.push(item.property(name.as_str())?)?;
    }
    list.build()
}

// Whether a place is that number.
fn is_at(place: usize, at: i64) -> bool
    ensures { result ≡ int_eq (pos place) at }
{
    place as i128 == i128::from(at)
}

// The items without the one at a place, counted from 0; all of them where there is none.
#[tactic(auto, using(crate::proofs::Items::kept_laws))]
fn without_place(alloc: Global, items: &[Value], at: i64) -> Result<List, AllocError>
    ensures { IfOk result (λ l. l ≡ at_places (λ p. not (int_eq p at)) 0 (seen_items items.now)) }
{
    let mut list = ListBuilder::new(alloc);
    for place in 0..items.len() {
        push_if(&mut list, !is_at(place, at), &items[place])?;
    }
    list.build()
}

// Whether a place is before the end that a value says; undefined says no end.
fn is_before(place: usize, end: &Value) -> bool
    ensures { result ≡ is_before (pos place) (view end.now) }
{
    match end {
        Value::Undefined => true,
        _ => (place as i128) < i128::from(number_of(end)),
    }
}

// Whether a place is the number `from` or after it.
fn is_from(place: usize, from: i64) -> bool
    ensures { result ≡ not (int_lt (pos place) from) }
{
    place as i128 >= i128::from(from)
}

// The items at places from `from` to before the number of `end`, counted from 0; to the end of them where `end`
// is undefined.
#[tactic(auto, using(crate::proofs::Items::kept_laws))]
fn slice(alloc: Global, items: &[Value], from: i64, end: &Value) -> Result<List, AllocError>
    ensures { IfOk result (λ l. l ≡ at_places (λ p. not (int_lt p from) && is_before p (view end.now)) 0 (seen_items items.now)) }
{
    let mut list = ListBuilder::new(alloc);
    for place in 0..items.len() {
        let kept = is_from(place, from) && is_before(place, end);
        push_if(&mut list, kept, &items[place])?;
    }
    list.build()
}

/// What such a helper gives.
pub fn listed(alloc: Global, helper: Listing, args: &Arguments) -> Result<List, AllocError>
    ensures { IfOk result (λ l. (names : Names) → list (values_of l) ≡ raw_value nat_eq args.now names (seen_listing helper)) }
{
    let items = items_in(args.at(0));
    let with = args.at(1);
    match helper {
        Listing::Array => array(alloc, args.all()),
        Listing::Append => append(alloc, items, with),
        Listing::RemoveAt => without_place(alloc, items, number_of(with)),
        Listing::Slice => slice(alloc, items, number_of(with), args.at(2)),
        Listing::Reverse => reverse(alloc, items),
        Listing::Where => with_property(alloc, items, text_in(alloc, with)?.text(), args.at(2)),
        Listing::RemoveWhere => {
            without_property(alloc, items, text_in(alloc, with)?.text(), args.at(2))
        }
        Listing::Pluck => pluck(alloc, items, text_in(alloc, with)?.text()),
    }
}
