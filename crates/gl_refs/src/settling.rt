// The evaluation of all that a reference wants: a walk over a list of those that wait.
ghost use Rattle.std.specs.Prelude.{◌≡◌, ◌≤◌, ◌++◌, ◌∷◌, [], OnOk, IfOk, IsOk, IfSome, IfNone, Some, slice_get, take};
ghost use Rattle.gl_refs.specs.Forms.{Each, IsReadFor};
ghost use Rattle.gl_refs.specs.State.{forms, reads_of, IsKept, IsSound, AllReady, IsReady, Settles};
ghost use Rattle.gl_refs.specs.View.{rows_of, seen_waiting, seen_stack};
ghost use Rattle.gl_refs.specs.Watch.{Watched};
ghost use Rattle.gl_refs.specs.Counting.{Counts};

use crate::RefId;
use crate::evaluation::{compute, is_kept};
use crate::row::{Rows, part_at};
use crate::watch::Watch;
use gl_tags::Tags;
use smallvec::SmallVec;
use std::alloc::{AllocError, Global};

// A reference that waits, and the place up to which what it reads may be used.
#[derive(Clone, Copy, Default)]
pub(crate) struct Waiting {
    pub(crate) id: RefId,
    pub(crate) next: usize,
}

// Those that wait, the next one last. Where they are few the list takes no memory.
pub(crate) type Stack = SmallVec<Waiting, 2>;

// A part that may not be used yet, with its place.
#[derive(Clone, Copy)]
pub(crate) struct Stale {
    pub(crate) at: usize,
    pub(crate) part: RefId,
}

// The first part from a place on which may not be used, where those before it may.
fn next_stale(
    tags: &mut Tags,
    rows: &Rows,
    id: RefId,
    next: usize,
) -> Result<Option<Stale>, AllocError>
    requires sound { IsSound tags.old (rows_of rows.now) }
    requires front { Each (IsKept tags.old (rows_of rows.now)) (take next (reads_of (rows_of rows.now) id)) }
    ensures some { IfOk result (λ o. IfSome o (λ s. slice_get (reads_of (rows_of rows.now) id) s.at ≡ Some s.part)) }
    ensures front { IfOk result (λ o. IfSome o (λ s. Each (IsKept tags.old (rows_of rows.now)) (take s.at (reads_of (rows_of rows.now) id)))) }
    ensures none { IfOk result (λ o. IfNone o (Each (IsKept tags.old (rows_of rows.now)) (reads_of (rows_of rows.now) id))) }
    ensures stays { tags.new ≡ tags.old }
{
    let Some(row) = rows.find(id) else {
        return Ok(None);
    };
    for at in next..usize::MAX {
        let Some(part) = part_at(rows, None, &row.kind, at) else {
            return Ok(None);
        };
        if !is_kept(tags, rows, part) {
            return Ok(Some(Stale { at, part }));
        }
    }
    Err(AllocError)
}

// Evaluates a reference, or puts off until a part of it may be used.
fn visit(
    alloc: Global,
    tags: &mut Tags,
    rows: &mut Rows,
    watch: &mut Watch,
    waiting: Waiting,
    stack: &mut Stack,
) -> Result<(), AllocError>
    requires sound { IsSound tags.old (rows_of rows.old) }
    requires front { Each (IsKept tags.old (rows_of rows.old)) (take waiting.next (reads_of (rows_of rows.old) waiting.id)) }
    ensures settles { Settles (λ k. k ≡ waiting.id) tags.old tags.new (rows_of rows.old) (rows_of rows.new) }
    ensures ready { OnOk result ((root : _) → AllReady tags.old (rows_of rows.old) root (seen_stack stack.old.items) → IsReady tags.old (rows_of rows.old) root (seen_waiting waiting) → AllReady tags.new (rows_of rows.new) root (seen_stack stack.new.items)) }
    ensures made { rows.new.made ≡ rows.old.made }
    ensures counts { Counts rows.old [] [] → Counts rows.new [] [] }
    ensures watched { Watched tags.old (rows_of rows.old) watch.old → Watched tags.new (rows_of rows.new) watch.new }
{
    let id = waiting.id;
    match next_stale(tags, rows, id, waiting.next)? {
        Some(stale) => put_off(stack, id, stale),
        None => compute(alloc, tags, rows, watch, id),
    }
}

// Has a reference wait until a part of it is evaluated.
pub(crate) fn put_off(stack: &mut Stack, id: RefId, stale: Stale) -> Result<(), AllocError>
    ensures { OnOk result (stack.new.items ≡ (stack.old.items ++ record { id = id; next = stale.at } ∷ []) ++ record { id = stale.part; next = 0 } ∷ []) }
{
    stack.push(Waiting { id, next: stale.at })?;
    stack.push(Waiting {
        id: stale.part,
        next: 0,
    })?;
    Ok(())
}

// Evaluates what a reference wants, parts first.
fn settle(
    alloc: Global,
    tags: &mut Tags,
    rows: &mut Rows,
    watch: &mut Watch,
    id: RefId,
) -> Result<(), AllocError>
    requires { IsSound tags.old (rows_of rows.old) }
    ensures settles { Settles (IsReadFor (forms (rows_of rows.old)) id) tags.old tags.new (rows_of rows.old) (rows_of rows.new) }
    ensures made { rows.new.made ≡ rows.old.made }
    ensures counts { Counts rows.old [] [] → Counts rows.new [] [] }
    ensures watched { Watched tags.old (rows_of rows.old) watch.old → Watched tags.new (rows_of rows.new) watch.new }
{
    let mut stack = SmallVec::new(alloc);
    stack.push(Waiting { id, next: 0 })?;
    for _ in 0..u64::MAX {
        match stack.pop() {
            None => return Ok(()),
            Some(waiting) => visit(alloc, tags, rows, watch, waiting, &mut stack)?,
        }
    }
    Err(AllocError)
}

// Has what is kept of a reference be of now. What is so already takes no memory.
pub(crate) fn prepare(
    alloc: Global,
    tags: &mut Tags,
    rows: &mut Rows,
    watch: &mut Watch,
    id: RefId,
) -> Result<(), AllocError>
    requires { IsSound tags.old (rows_of rows.old) }
    ensures settles { Settles (IsReadFor (forms (rows_of rows.old)) id) tags.old tags.new (rows_of rows.old) (rows_of rows.new) }
    ensures made { rows.new.made ≡ rows.old.made }
    ensures counts { Counts rows.old [] [] → Counts rows.new [] [] }
    ensures watched { Watched tags.old (rows_of rows.old) watch.old → Watched tags.new (rows_of rows.new) watch.new }
    ensures kept { OnOk result (IsKept tags.new (rows_of rows.new) id) }
    ensures fresh { IsKept tags.old (rows_of rows.old) id → IsOk result }
    ensures still { IsKept tags.old (rows_of rows.old) id → (tags.new ≡ tags.old) × (rows.new ≡ rows.old) }
{
    if is_kept(tags, rows, id) {
        return Ok(());
    }
    settle(alloc, tags, rows, watch, id)?;
    if is_kept(tags, rows, id) {
        Ok(())
    } else {
        Err(AllocError)
    }
}
