// What a reference gives, by what is shown of the references that it reads.
ghost use Rattle.std.specs.Prelude.{◌≡◌, map, IfOk, OnOk, IfSome, is_some, ◌++◌, not, slice_get, true};
ghost use Rattle.gl_value.specs.Value.{join_values, property, is_missing, text_of};
ghost use Rattle.gl_value.specs.View.{view, seen_items};
ghost use Rattle.gl_refs.specs.Forms.{value_by, called, chosen, value_or};
ghost use Rattle.gl_refs.specs.State.{is_bound};
ghost use Rattle.gl_refs.specs.View.{rows_of, value_in, seen_rule, seen_kind};

use crate::row::{Found, Kind, Rows, Rule, chosen_at, shown};
use crate::{Ids, NamedIds, RefId};
use gl_value::{NamedValues, Text, Value};
use std::alloc::{AllocError, Global};

// A value with the content of what is shown.
fn copied(rows: &Rows, found: Found<'_>, id: RefId) -> Result<Value, AllocError>
    ensures { IfOk result (λ v. view v ≡ value_in found.entry (rows_of rows.now) id) }
{
    match shown(rows, found, id) {
        Some(value) => value.copy(),
        None => Ok(Value::Undefined),
    }
}

fn property(rows: &Rows, found: Found<'_>, id: RefId, name: &Text) -> Result<Value, AllocError>
    ensures { IfOk result (λ v. view v ≡ property name.now (value_in found.entry (rows_of rows.now) id)) }
{
    match shown(rows, found, id) {
        Some(value) => value.find(name.as_str()).copy(),
        None => Ok(Value::Undefined),
    }
}

fn choice(rows: &Rows, found: Found<'_>, way: bool, ids: &[RefId]) -> Result<Value, AllocError>
    ensures { IfOk result (λ v. view v ≡ value_or (value_in found.entry (rows_of rows.now)) (slice_get (chosen (value_in found.entry (rows_of rows.now)) way ids.now) 1)) }
{
    match chosen_at(rows, found, way, ids, 1) {
        Some(branch) => copied(rows, found, branch),
        None => Ok(Value::Undefined),
    }
}

fn values(
    alloc: Global,
    rows: &Rows,
    found: Found<'_>,
    ids: &[RefId],
) -> Result<Vec<Value>, AllocError>
    ensures { IfOk result (λ vs. seen_items vs.items ≡ map (value_in found.entry (rows_of rows.now)) ids.now) }
{
    let mut values = Vec::new(alloc);
    for id in ids {
        values.push(copied(rows, found, *id)?)?;
    }
    Ok(values)
}

fn named_values(
    alloc: Global,
    rows: &Rows,
    found: Found<'_>,
    named: &[(Text, RefId)],
) -> Result<NamedValues, AllocError>
    ensures { IfOk result (λ vs. vs ≡ map (λ n. (n.0, value_in found.entry (rows_of rows.now) n.1)) named.now) }
{
    let mut values = NamedValues::new(alloc);
    for entry in named {
        values.push(entry.0.copy()?, copied(rows, found, entry.1)?)?;
    }
    Ok(values)
}

// What the helper with a number gives; undefined where there is none.
fn called(
    alloc: Global,
    rows: &Rows,
    found: Found<'_>,
    helper: u16,
    ids: &Ids,
    named: &NamedIds,
) -> Result<Value, AllocError>
    ensures { IfOk result (λ v. view v ≡ called helper (map (value_in found.entry (rows_of rows.now)) ids.now) (map (λ n. (n.0, value_in found.entry (rows_of rows.now) n.1)) named.now)) }
{
    if helper < 33 {
        let args = values(alloc, rows, found, ids.as_slice())?;
        let named = named_values(alloc, rows, found, named.as_slice())?;
        gl_helpers::call(alloc, helper, args.as_slice(), &named)
    } else {
        Ok(Value::Undefined)
    }
}

// The texts of those that are neither undefined nor null, joined; null where there is none.
fn join(alloc: Global, rows: &Rows, found: Found<'_>, ids: &[RefId]) -> Result<Value, AllocError>
    ensures { IfOk result (λ v. view v ≡ join_values (map (value_in found.entry (rows_of rows.now)) ids.now)) }
{
    let mut text = Text::new(alloc);
    let mut some = false;
    for id in ids {
        if add_text(rows, found, *id, &mut text)? {
            some = true;
        }
    }
    if some {
        Ok(Value::Text(text))
    } else {
        Ok(Value::Null)
    }
}

// Adds the text of what is shown, and tells whether it is neither undefined nor null.
fn add_text(rows: &Rows, found: Found<'_>, id: RefId, text: &mut Text) -> Result<bool, AllocError>
    ensures some { IfOk result (λ b. b ≡ not (is_missing (value_in found.entry (rows_of rows.now) id))) }
    ensures text { OnOk result (text.new ≡ text.old ++ text_of (value_in found.entry (rows_of rows.now) id)) }
{
    match shown(rows, found, id) {
        Some(value) => {
            value.write(text)?;
            Ok(!matches!(value, Value::Undefined | Value::Null))
        }
        None => Ok(false),
    }
}

// What a rule gives.
fn rule_value(
    alloc: Global,
    rows: &Rows,
    found: Found<'_>,
    rule: &Rule,
) -> Result<Value, AllocError>
    ensures { IfOk result (λ v. view v ≡ value_by (value_in found.entry (rows_of rows.now)) (seen_rule rule.now)) }
{
    match rule {
        Rule::Prop(part, name) => property(rows, found, *part, name),
        Rule::Call(helper, ids, named) => {
            if *helper < 2 {
                choice(rows, found, *helper == 0, ids.as_slice())
            } else {
                called(alloc, rows, found, *helper, ids, named)
            }
        }
        Rule::Cat(ids) => join(alloc, rows, found, ids.as_slice()),
    }
}

// What a row of that kind gives, where it is computed.
pub(crate) fn kind_value(
    alloc: Global,
    rows: &Rows,
    found: Found<'_>,
    kind: &Kind,
) -> Result<Option<Value>, AllocError>
    ensures bound { IfOk result (λ o. is_some o ≡ true → is_bound (seen_kind kind.now) ≡ true) }
    ensures value { IfOk result (λ o. IfSome o (λ v. view v ≡ value_by (value_in found.entry (rows_of rows.now)) (seen_kind kind.now))) }
{
    match kind {
        Kind::Position { .. } => Ok(Some(Value::Undefined)),
        Kind::Bound(bound) => Ok(Some(rule_value(alloc, rows, found, &bound.rule)?)),
        _ => Ok(None),
    }
}
