// The references by id, with what each keeps.
ghost use Rattle.std.specs.Prelude.{◌≡◌, ◌++◌, [], None, Some, IfOk, IsSome, option_map, unwrap_or, slice_get, true, false};
ghost use Rattle.gl_arena.specs.Arena.{named, with_value};
ghost use Rattle.gl_value.specs.Value.{truthy, undefined};
ghost use Rattle.gl_value.specs.View.{view};
ghost use Rattle.gl_refs.specs.Forms.{all_form, reads, chosen, ids_of};
ghost use Rattle.gl_refs.specs.State.{AreParts, forms, held, held_value, held_tag, own_tag, is_readable, is_cell, is_item, is_position, all_formed, IsSource, is_source, Puts};
ghost use Rattle.gl_refs.specs.View.{rows_of, found_in, value_in, seen_form, seen_rule, seen_kind, kind_last, TakesLast, seen_last, seen_row, row_with, kind_with};
ghost use Rattle.gl_refs.specs.Counting.{Counts};

use crate::table::Table;
use crate::{Form, Ids, NamedIds, RefId};
use gl_arena::{Arena, RefMark};
use gl_tags::{TagId, Tags};
use gl_value::{Text, Value};
use std::alloc::{AllocError, Global};
use std::mem;

// What a reference computes with its last evaluation, or holds by itself. Most references are positions, so a row has
// no more room than they want, and what the others keep that are computed stands behind a box.
#[derive(Drop)]
pub(crate) enum Kind {
    Constant(Value),
    Source {
        item: bool,
        tag: TagId,
        value: Value,
    },
    Position {
        ids: Ids,
        last: Option<Mark>,
    },
    Bound(Box<Bound>),
}

impl Kind {
    // Whether it is a position.
    pub(crate) fn is_position(&self) -> bool
        ensures { result ≡ all_formed (seen_kind self.now) }
    {
        matches!(self, Kind::Position { .. })
    }
}

// The last evaluation of a position, whose value is undefined: how many dirtyings there were then, and the tag that
// leads to its sources.
#[derive(Clone, Copy)]
pub(crate) struct Mark {
    pub(crate) order: u64,
    pub(crate) tag: TagId,
}

// What is kept of a reference that is computed and no position.
#[derive(Drop)]
pub(crate) struct Bound {
    pub(crate) rule: Rule,
    pub(crate) last: Option<Last>,
}

// What a reference computes that is no position, as in `Form`.
#[derive(Drop)]
pub(crate) enum Rule {
    Prop(RefId, Text),
    Call(u16, Ids, NamedIds),
    Cat(Ids),
}

// The last evaluation: its value, how many dirtyings there were then, and the tag that leads to its sources.
#[derive(Drop)]
pub(crate) struct Last {
    pub(crate) value: Value,
    pub(crate) order: u64,
    pub(crate) tag: TagId,
}

// A reference, with how often live ones name it.
#[derive(Drop)]
pub(crate) struct Row {
    pub(crate) kind: Kind,
    pub(crate) readers: usize,
}

pub(crate) type Rows = Arena<Row, RefMark>;

// What a reference of that form keeps before it is evaluated. Its lists keep no more room than they need.
pub(crate) fn kind_of(alloc: Global, form: Form) -> Result<Kind, AllocError>
    ensures form { IfOk result (λ k. seen_kind k ≡ seen_form form) }
    ensures last { IfOk result (λ k. kind_last k ≡ None) }
{
    match form {
        Form::Prop(part, name) => bound_kind(alloc, Rule::Prop(part, name)),
        Form::Call(helper, ids, named) => {
            bound_kind(alloc, Rule::Call(helper, ids.fitted(), named.fitted()))
        }
        Form::Cat(ids) => bound_kind(alloc, Rule::Cat(ids.fitted())),
        Form::All(ids) => Ok(Kind::Position {
            ids: ids.fitted(),
            last: None,
        }),
    }
}

// What is kept of a reference that computes that, before it is evaluated.
fn bound_kind(alloc: Global, rule: Rule) -> Result<Kind, AllocError>
    ensures form { IfOk result (λ k. seen_kind k ≡ seen_rule rule) }
    ensures last { IfOk result (λ k. kind_last k ≡ None) }
{
    let bound = Box::new(alloc, Bound { rule, last: None })?;
    Ok(Kind::Bound(bound))
}

// The value that a row has by itself, or that of its last evaluation. There is none where it is surely undefined.
fn held_in(row: &Row) -> Option<&Value>
    ensures { unwrap_or (option_map (λ v. view v.now) result) undefined ≡ unwrap_or (held (Some (seen_row row.now))) undefined }
{
    match &row.kind {
        Kind::Constant(value) => Some(value),
        Kind::Source { value, .. } => Some(value),
        Kind::Position { .. } => None,
        Kind::Bound(bound) => match &bound.last {
            Some(last) => Some(&last.value),
            None => None,
        },
    }
}

// What is held of a reference. There is none where it is surely undefined.
pub(crate) fn held(rows: &Rows, id: RefId) -> Option<&Value>
    ensures { unwrap_or (option_map (λ v. view v.now) result) undefined ≡ held_value (rows_of rows.now) id }
{
    match rows.find(id) {
        Some(row) => held_in(row),
        None => None,
    }
}

// The tag that a row owns.
pub(crate) fn tag_in(row: &Row) -> Option<TagId>
    ensures { result ≡ own_tag (Some (seen_row row.now)) }
{
    match &row.kind {
        Kind::Constant(_) => None,
        Kind::Source { tag, .. } => Some(*tag),
        Kind::Position { last, .. } => match last {
            Some(mark) => Some(mark.tag),
            None => None,
        },
        Kind::Bound(bound) => match &bound.last {
            Some(last) => Some(last.tag),
            None => None,
        },
    }
}

// The tag that a reference owns.
pub(crate) fn own_tag(rows: &Rows, id: RefId) -> Option<TagId>
    ensures { result ≡ own_tag (rows_of rows.now id) }
{
    match rows.find(id) {
        Some(row) => tag_in(row),
        None => None,
    }
}

// The tag of what is held of a reference.
pub(crate) fn held_tag(tags: &Tags, rows: &Rows, id: RefId) -> TagId
    ensures { result ≡ held_tag tags.now (rows_of rows.now) id }
{
    match own_tag(rows, id) {
        Some(tag) => tag,
        None => tags.constant(),
    }
}

// Whether a reference is live, and no position.
pub(crate) fn readable(rows: &Rows, id: RefId) -> bool
    ensures { result ≡ is_readable (forms (rows_of rows.now) id) }
{
    match rows.find(id) {
        Some(row) => !matches!(&row.kind, Kind::Position { .. }),
        None => false,
    }
}

// Whether a reference is an item, where that is asked, or else a cell.
pub(crate) fn is_source(rows: &Rows, id: RefId, of_items: bool) -> bool
    ensures cell { of_items ≡ false → result ≡ is_cell (forms (rows_of rows.now) id) }
    ensures item { of_items ≡ true → result ≡ is_item (forms (rows_of rows.now) id) }
{
    match rows.find(id) {
        Some(row) => match &row.kind {
            Kind::Source { item, .. } => *item == of_items,
            _ => false,
        },
        None => false,
    }
}

// Whether a reference is a position that was evaluated.
pub(crate) fn is_position(rows: &Rows, id: RefId) -> bool
    ensures { result ≡ is_position (rows_of rows.now id) }
{
    match rows.find(id) {
        Some(row) => matches!(&row.kind, Kind::Position { last: Some(_), .. }),
        None => false,
    }
}

// What a position reads.
pub(crate) fn parts_of(rows: &Rows, id: RefId) -> Option<&[RefId]>
    ensures { AreParts result (forms (rows_of rows.now) id) }
{
    match rows.find(id) {
        Some(row) => match &row.kind {
            Kind::Position { ids, .. } => Some(ids.as_slice()),
            _ => None,
        },
        None => None,
    }
}

// A table of what was worked out, in the place of what is kept.
pub(crate) type Found<'a> = Option<&'a Table>;

// What a table has of a reference, or what that has by itself.
pub(crate) fn found_value<'a>(rows: &'a Rows, table: &'a Table, id: RefId) -> Option<&'a Value>
    ensures { option_map (λ v. view v.now) result ≡ found_in table.now (rows_of rows.now) id }
{
    match rows.find(id) {
        Some(row) => match &row.kind {
            Kind::Constant(value) => Some(value),
            Kind::Source { value, .. } => Some(value),
            Kind::Position { .. } | Kind::Bound(_) => table.get(rows.stamp(id)),
        },
        None => None,
    }
}

// What stands for a reference. There is none where it is undefined.
pub(crate) fn shown<'a>(rows: &'a Rows, found: Found<'a>, id: RefId) -> Option<&'a Value>
    ensures { unwrap_or (option_map (λ v. view v.now) result) undefined ≡ value_in found.entry (rows_of rows.now) id }
{
    match found {
        Some(table) => found_value(rows, table, id),
        None => held(rows, id),
    }
}

// The condition at 0, and the branch that it takes at 1.
pub(crate) fn chosen_at(
    rows: &Rows,
    found: Found<'_>,
    way: bool,
    ids: &[RefId],
    at: usize,
) -> Option<RefId>
    ensures { result ≡ slice_get (chosen (value_in found.entry (rows_of rows.now)) way ids.now) at }
{
    match ids.first() {
        None => None,
        Some(test) => {
            if at == 0 {
                Some(*test)
            } else if at == 1 {
                if truth(rows, found, *test) == way {
                    ids.get(1).copied()
                } else {
                    ids.get(2).copied()
                }
            } else {
                None
            }
        }
    }
}

// The truth of what is shown of a reference.
fn truth(rows: &Rows, found: Found<'_>, id: RefId) -> bool
    ensures { result ≡ truthy (value_in found.entry (rows_of rows.now) id) }
{
    match shown(rows, found, id) {
        Some(value) => value.truthy(),
        None => false,
    }
}

// One of the arguments of a call: the positional ones come first.
pub(crate) fn argument_at(ids: &Ids, named: &NamedIds, at: usize) -> Option<RefId>
    ensures { result ≡ slice_get (ids.now ++ ids_of named.now) at }
{
    if at < ids.len() {
        ids.as_slice().get(at).copied()
    } else {
        match named.as_slice().get(at - ids.len()) {
            Some(entry) => Some(entry.1),
            None => None,
        }
    }
}

// The reference that is read at a place, by what is shown of those before it.
fn rule_part(rows: &Rows, found: Found<'_>, rule: &Rule, at: usize) -> Option<RefId>
    ensures { result ≡ slice_get (reads (value_in found.entry (rows_of rows.now)) (seen_rule rule.now)) at }
{
    match rule {
        Rule::Prop(part, _) => { if at == 0 { Some(*part) } else { None } }
        Rule::Call(helper, ids, named) => {
            if *helper < 2 {
                chosen_at(rows, found, *helper == 0, ids.as_slice(), at)
            } else {
                argument_at(ids, named, at)
            }
        }
        Rule::Cat(ids) => ids.as_slice().get(at).copied(),
    }
}

// The reference that a row of that kind reads at a place, by what is shown of those before it.
pub(crate) fn part_at(rows: &Rows, found: Found<'_>, kind: &Kind, at: usize) -> Option<RefId>
    ensures { result ≡ slice_get (reads (value_in found.entry (rows_of rows.now)) (seen_kind kind.now)) at }
{
    match kind {
        Kind::Position { ids, .. } => ids.as_slice().get(at).copied(),
        Kind::Bound(bound) => rule_part(rows, found, &bound.rule, at),
        _ => None,
    }
}

// Keeps a last evaluation of a reference that is computed.
pub(crate) fn put_last(rows: &mut Rows, id: RefId, last: Last)
    requires live { IsSome (named rows.old id) }
    requires takes { (row : Row) → named rows.old id ≡ Some row → TakesLast (seen_kind row.kind) (view last.value) }
    ensures puts { Puts (rows_of rows.old) (rows_of rows.new) id (seen_last last) }
    ensures made { rows.new.made ≡ rows.old.made }
    ensures counts { Counts rows.old [] [] → Counts rows.new [] [] }
{
    rows.stamps();
    last_in(&mut rows.get_mut(id).kind, last);
}

// Keeps a last evaluation. The value of a position is undefined, so it is not kept.
fn last_in(kind: &mut Kind, last: Last)
    ensures form { seen_kind kind.new ≡ seen_kind kind.old }
    ensures last { TakesLast (seen_kind kind.old) (view last.value) → kind_last kind.new ≡ Some (seen_last last) }
{
    match kind {
        Kind::Position { last: mark, .. } => {
            *mark = Some(Mark {
                order: last.order,
                tag: last.tag,
            });
        }
        Kind::Bound(bound) => bound.last = Some(last),
        _ => drop(last),
    }
}

pub(crate) fn source_tag(rows: &Rows, id: RefId) -> TagId
    requires { is_source (rows_of rows.now id) ≡ true }
    ensures { IsSource (rows_of rows.now) id result }
{
    match &rows.get(id).kind {
        Kind::Source { tag, .. } => *tag,
        _ => unreachable!(),
    }
}

pub(crate) fn put_value(rows: &mut Rows, id: RefId, value: Value)
    requires { IsSome (named rows.old id) }
    ensures value { (row : _) → named rows.old id ≡ Some row → rows.new ≡ with_value rows.old id (row_with row value) }
    ensures counts { Counts rows.old [] [] → Counts rows.new [] [] }
{
    rows.stamps();
    value_in(&mut rows.get_mut(id).kind, value);
}

fn value_in(kind: &mut Kind, new: Value)
    ensures { kind.new ≡ kind_with kind.old new }
{
    match kind {
        Kind::Source { value, .. } => drop(mem::replace(value, new)),
        _ => drop(new),
    }
}
