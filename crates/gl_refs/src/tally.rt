// How often references are named by live forms: each row counts it.
ghost use Rattle.std.specs.Prelude.{◌≡◌, ◌+◌, ◌-◌, ◌<◌, ◌^◌, ◌∷◌, [], List, None, Some, IfOk, OnErr, IsSome, IsTrue, ◌↔◌, length, slice_get, true};
ghost use Rattle.gl_arena.specs.Id.{Id};
ghost use Rattle.gl_arena.specs.Arena.{named, Gives, Ends};
ghost use Rattle.gl_refs.specs.Forms.{Each, parts, AreLower, IsUnread};
ghost use Rattle.gl_refs.specs.State.{forms};
ghost use Rattle.gl_refs.specs.View.{rows_of, rows_in, seen_rule, seen_kind, kind_last};
ghost use Rattle.gl_refs.specs.Counting.{Counts, Fits};

use crate::RefId;
use crate::row::{Kind, Row, Rows, Rule, argument_at};
use std::alloc::AllocError;

// How many references a row of that kind names.
fn part_count(kind: &Kind) -> usize
    ensures { result ≡ length (parts (seen_kind kind.now)) }
{
    match kind {
        Kind::Position { ids, .. } => ids.len(),
        Kind::Bound(bound) => rule_count(&bound.rule),
        _ => 0,
    }
}

// How many references a rule names.
fn rule_count(rule: &Rule) -> usize
    ensures { result ≡ length (parts (seen_rule rule.now)) }
{
    match rule {
        Rule::Prop(_, _) => 1,
        Rule::Call(_, ids, named) => ids.as_slice().len() + named.as_slice().len(),
        Rule::Cat(ids) => ids.len(),
    }
}

// The one of them at a place.
fn name_at(kind: &Kind, at: usize) -> Option<RefId>
    ensures { result ≡ slice_get (parts (seen_kind kind.now)) at }
{
    match kind {
        Kind::Position { ids, .. } => ids.as_slice().get(at).copied(),
        Kind::Bound(bound) => rule_name(&bound.rule, at),
        _ => None,
    }
}

// The one of them at a place.
fn rule_name(rule: &Rule, at: usize) -> Option<RefId>
    ensures { result ≡ slice_get (parts (seen_rule rule.now)) at }
{
    match rule {
        Rule::Prop(part, _) => { if at == 0 { Some(*part) } else { None } }
        Rule::Call(_, ids, named) => argument_at(ids, named, at),
        Rule::Cat(ids) => ids.as_slice().get(at).copied(),
    }
}

// Whether that many more can be counted of a live reference.
fn fits_more(rows: &Rows, id: RefId, count: usize) -> bool
    ensures { result ≡ true → (row : Row) × (named rows.now id ≡ Some row) × (row.readers + count < 2 ^ 64) }
{
    match rows.find(id) {
        Some(row) => row.readers.checked_add(count).is_some(),
        None => false,
    }
}

// Whether all that a row of that kind names can be counted.
fn has_room(rows: &Rows, kind: &Kind) -> bool
    requires { Counts rows.now [] [] }
    ensures { result ≡ true → Each (Fits (rows_in rows.now) (parts (seen_kind kind.now))) (parts (seen_kind kind.now)) }
{
    let count = part_count(kind);
    for at in 0..count {
        let Some(part) = name_at(kind, at) else {
            return true;
        };
        if !fits_more(rows, part, count) {
            return false;
        }
    }
    true
}

fn raise_in(row: &mut Row)
    requires { row.old.readers + 1 < 2 ^ 64 }
    ensures { row.new ≡ record row.old { readers = row.old.readers + 1 } }
{
    row.readers += 1;
}

// Counts a live reference once more.
fn raise(rows: &mut Rows, id: RefId)
    requires live { IsSome (named rows.old id) }
    requires room { (row : Row) → named rows.old id ≡ Some row → row.readers + 1 < 2 ^ 64 }
    ensures seen { rows_in rows.new ≡ rows_in rows.old }
    ensures counts { (rest : List Id) (over : List Id) → Counts rows.old (id ∷ rest) over → Counts rows.new rest over }
{
    raise_in(rows.get_mut(id));
}

fn lower_in(row: &mut Row)
    requires { 0 < row.old.readers }
    ensures { row.new ≡ record row.old { readers = row.old.readers - 1 } }
{
    row.readers -= 1;
}

// Counts a reference once less.
fn lower(rows: &mut Rows, id: RefId)
    requires { (row : Row) → named rows.old id ≡ Some row → 0 < row.readers }
    ensures seen { rows_in rows.new ≡ rows_in rows.old }
    ensures counts { (rest : List Id) → Counts rows.old [] (id ∷ rest) → Counts rows.new [] rest }
{
    if rows.live(id) {
        lower_in(rows.get_mut(id));
    }
}

// Counts all that a row of that kind names, before it is put in.
fn raise_all(rows: &mut Rows, kind: &Kind)
    requires live { Each (λ q. IsSome (forms (rows_of rows.old) q)) (parts (seen_kind kind.now)) }
    requires counts { Counts rows.old [] [] }
    requires room { Each (Fits (rows_in rows.old) (parts (seen_kind kind.now))) (parts (seen_kind kind.now)) }
    ensures seen { rows_in rows.new ≡ rows_in rows.old }
    ensures counts { Counts rows.new [] (parts (seen_kind kind.now)) }
{
    for at in 0..part_count(kind) {
        let Some(part) = name_at(kind, at) else {
            return;
        };
        raise(rows, part);
    }
}

// Counts all that a row of that kind named once less, when it is there no more.
fn lower_all(rows: &mut Rows, kind: &Kind)
    requires { Counts rows.old [] (parts (seen_kind kind.now)) }
    ensures seen { rows_in rows.new ≡ rows_in rows.old }
    ensures counts { Counts rows.new [] [] }
{
    for at in 0..part_count(kind) {
        let Some(part) = name_at(kind, at) else {
            return;
        };
        lower(rows, part);
    }
}

// Puts a row in that was not evaluated yet, and counts what it names.
pub(crate) fn put_in(rows: &mut Rows, kind: Kind) -> Result<RefId, AllocError>
    requires lower { AreLower (forms (rows_of rows.old)) }
    requires parts { Each (λ q. IsSome (forms (rows_of rows.old) q)) (parts (seen_kind kind)) }
    requires last { kind_last kind ≡ None }
    requires counts { Counts rows.old [] [] }
    ensures ok { IfOk result (λ id. Gives (rows_in rows.old) (rows_in rows.new) id (record { form = seen_kind kind; last = None })) }
    ensures err { OnErr result (rows_in rows.new ≡ rows_in rows.old) }
    ensures counts { Counts rows.new [] [] }
{
    if !has_room(rows, &kind) {
        return Err(AllocError);
    }
    raise_all(rows, &kind);
    rows.stamps();
    match rows.insert(Row { kind, readers: 0 }) {
        Ok(id) => Ok(id),
        Err((row, error)) => {
            lower_all(rows, &row.kind);
            Err(error)
        }
    }
}

// Takes a row out, and counts what it named once less.
pub(crate) fn take_out(rows: &mut Rows, id: RefId)
    requires live { IsSome (named rows.old id) }
    requires counts { Counts rows.old [] [] }
    ensures ends { Ends (rows_in rows.old) (rows_in rows.new) id }
    ensures counts { Counts rows.new [] [] }
{
    rows.stamps();
    let row = rows.remove(id);
    lower_all(rows, &row.kind);
}

// Whether a reference is live, and no live one names it.
pub(crate) fn unread(rows: &Rows, id: RefId) -> bool
    requires { Counts rows.now [] [] }
    ensures { IsTrue result ↔ (IsSome (forms (rows_of rows.now) id) × IsUnread (forms (rows_of rows.now)) id) }
{
    rows.stamps();
    match rows.find(id) {
        Some(row) => row.readers == 0,
        None => false,
    }
}
