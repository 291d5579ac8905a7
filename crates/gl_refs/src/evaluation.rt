// The evaluation of one reference, from what is kept of those that it reads.
ghost use Rattle.std.specs.Prelude.{◌≡◌, ◌++◌, [], Some, IfOk, OnErr, IfSome, map, is_some, IsSome, IsTrue, ◌↔◌, true, not, ltb, option_map};
ghost use Rattle.gl_value.specs.View.{view};
ghost use Rattle.gl_tags.specs.Tags as t;
ghost use Rattle.gl_refs.specs.Forms.{Each, reads};
ghost use Rattle.gl_refs.specs.State.{forms, is_all, kept, held_tag, held_value, reads_of, IsKept, IsSound, Gathers, Swaps, Settles, IsValid, is_combined, is_position};
ghost use Rattle.gl_refs.specs.View.{rows_of, seen_kind};
ghost use Rattle.gl_refs.specs.Watch.{Watched};
ghost use Rattle.gl_refs.specs.Counting.{Counts};

use crate::RefId;
use crate::row::{Kind, Last, Rows, held_tag, part_at, put_last, tag_in};
use crate::values::kind_value;
use crate::watch::Watch;
use gl_tags::{TagId, Tags};
use gl_value::Value;
use smallvec::SmallVec;
use std::alloc::{AllocError, Global};

// Of most references few are read, so the list of their tags takes no memory.
type FewTags = SmallVec<TagId, 4>;

// Whether the tag has not been dirtied since there were so many dirtyings.
fn is_fresh(tags: &mut Tags, tag: TagId, order: u64) -> bool
    requires { IsSome (t.tag_at tags.old tag) }
    ensures value { result ≡ not (ltb order (t.order_of tags.old tag)) }
    ensures stays { tags.new ≡ tags.old }
{
    tags.order(tag) <= order
}

// Whether what is held of a reference is its value of now.
pub(crate) fn is_kept(tags: &mut Tags, rows: &Rows, id: RefId) -> bool
    requires { IsSound tags.old (rows_of rows.now) }
    ensures value { result ≡ is_some (kept tags.old (rows_of rows.now) id) }
    ensures stays { tags.new ≡ tags.old }
{
    match rows.find(id) {
        Some(row) => match &row.kind {
            Kind::Position { last, .. } => match last {
                Some(mark) => is_fresh(tags, mark.tag, mark.order),
                None => false,
            },
            Kind::Bound(bound) => match &bound.last {
                Some(last) => is_fresh(tags, last.tag, last.order),
                None => false,
            },
            _ => true,
        },
        None => false,
    }
}

// Whether nothing at all was dirtied since what is held of a reference was evaluated, so that it is its value of now. No tag
// is asked: where this says no, its tag may still say yes.
pub(crate) fn is_latest(tags: &Tags, rows: &Rows, id: RefId) -> bool
    requires { IsSound tags.now (rows_of rows.now) }
    ensures { IsTrue result → IsKept tags.now (rows_of rows.now) id }
{
    match rows.find(id) {
        Some(row) => match &row.kind {
            Kind::Position { last, .. } => match last {
                Some(mark) => mark.order == tags.count(),
                None => false,
            },
            Kind::Bound(bound) => match &bound.last {
                Some(last) => last.order == tags.count(),
                None => false,
            },
            _ => true,
        },
        None => false,
    }
}

// Whether there was an evaluation, and no source of the last one was touched at a greater revision.
pub(crate) fn is_valid(tags: &mut Tags, rows: &Rows, id: RefId, since: u128) -> bool
    requires { IsSound tags.old (rows_of rows.now) }
    ensures value { IsTrue result ↔ IsValid tags.old since (rows_of rows.now id) }
    ensures stays { tags.new ≡ tags.old }
{
    match rows.find(id) {
        Some(row) => match &row.kind {
            Kind::Constant(_) => true,
            Kind::Source { tag, .. } => tags.validate(*tag, since),
            Kind::Position { last, .. } => match last {
                Some(mark) => tags.validate(mark.tag, since),
                None => false,
            },
            Kind::Bound(bound) => match &bound.last {
                Some(last) => tags.validate(last.tag, since),
                None => false,
            },
        },
        None => false,
    }
}

// Whether a source of a position's last evaluation was touched at a greater revision; none where it is no position that
// was evaluated.
pub(crate) fn stale_since(tags: &mut Tags, rows: &Rows, id: RefId, since: u128) -> Option<bool>
    requires { IsSound tags.old (rows_of rows.now) }
    ensures answers { is_some result ≡ is_position (rows_of rows.now id) }
    ensures value { IfSome result (λ b. IsTrue (not b) ↔ IsValid tags.old since (rows_of rows.now id)) }
    ensures stays { tags.new ≡ tags.old }
{
    match rows.find(id) {
        Some(row) => match &row.kind {
            Kind::Position { last, .. } => match last {
                Some(mark) => Some(!tags.validate(mark.tag, since)),
                None => None,
            },
            _ => None,
        },
        None => None,
    }
}

// The tags of what is held of those that a row of that kind reads.
fn tags_of(alloc: Global, tags: &Tags, rows: &Rows, kind: &Kind) -> Result<FewTags, AllocError>
    ensures { IfOk result (λ ids. ids.items ≡ map (held_tag tags.now (rows_of rows.now)) (reads (held_value (rows_of rows.now)) (seen_kind kind.now))) }
{
    let mut ids = SmallVec::new(alloc);
    for at in 0..usize::MAX {
        let Some(part) = part_at(rows, None, kind, at) else {
            return Ok(ids);
        };
        ids.push(held_tag(tags, rows, part))?;
    }
    Err(AllocError)
}

// Makes a combined tag, and ends the old one.
fn swap_tag(tags: &mut Tags, parts: &[TagId], old: Option<TagId>) -> Result<TagId, AllocError>
    requires { (o : _) → old ≡ Some o → is_combined (t.tag_at tags.old o) ≡ true }
    ensures ok { IfOk result (λ u. Swaps tags.old tags.new old u parts.now) }
    ensures err { OnErr result (tags.new ≡ tags.old) }
{
    let _ = tags.constant();
    let tag = tags.combine(parts)?;
    if let Some(old) = old {
        tags.free(old);
    }
    let _ = tags.constant();
    Ok(tag)
}

// What was computed for a bound reference: its value, the tags of what it read, and the tag that it has.
#[derive(Drop)]
pub(crate) struct Found {
    value: Value,
    tags: FewTags,
    old: Option<TagId>,
    position: bool,
}

fn gather(alloc: Global, tags: &Tags, rows: &Rows, id: RefId) -> Result<Option<Found>, AllocError>
    ensures gathers { IfOk result (λ o. IfSome o (λ f. Gathers tags.now (rows_of rows.now) id (view f.value) f.tags.items f.old)) }
    ensures position { IfOk result (λ o. IfSome o (λ f. f.position ≡ is_all (forms (rows_of rows.now) id))) }
{
    let Some(row) = rows.find(id) else {
        return Ok(None);
    };
    match kind_value(alloc, rows, None, &row.kind)? {
        Some(value) => {
            let tags = tags_of(alloc, tags, rows, &row.kind)?;
            let old = tag_in(row);
            let position = row.kind.is_position();
            Ok(Some(Found {
                value,
                tags,
                old,
                position,
            }))
        }
        None => Ok(None),
    }
}

// Evaluates one reference, of whose parts all that is read may be used.
pub(crate) fn compute(
    alloc: Global,
    tags: &mut Tags,
    rows: &mut Rows,
    watch: &mut Watch,
    id: RefId,
) -> Result<(), AllocError>
    requires sound { IsSound tags.old (rows_of rows.old) }
    requires ready { Each (IsKept tags.old (rows_of rows.old)) (reads_of (rows_of rows.old) id) }
    ensures settles { Settles (λ k. k ≡ id) tags.old tags.new (rows_of rows.old) (rows_of rows.new) }
    ensures made { rows.new.made ≡ rows.old.made }
    ensures counts { Counts rows.old [] [] → Counts rows.new [] [] }
    ensures watched { Watched tags.old (rows_of rows.old) watch.old → Watched tags.new (rows_of rows.new) watch.new }
{
    match gather(alloc, tags, rows, id)? {
        None => Ok(()),
        Some(found) => {
            let tag = swap_tag(tags, found.tags.as_slice(), found.old)?;
            watch.note(found.position, tags.leads(tag), id.number());
            let last = Last {
                value: found.value,
                order: tags.count(),
                tag,
            };
            put_last(rows, id, last);
            watch.told()
        }
    }
}
