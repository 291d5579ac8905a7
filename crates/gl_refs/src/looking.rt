// What a reference means, worked out with nothing kept.
ghost use Rattle.std.specs.Prelude.{◌≡◌, IfOk, IfNone, take};
ghost use Rattle.gl_value.specs.View.{view};
ghost use Rattle.gl_refs.specs.Forms.{Each, AreLower, meaning};
ghost use Rattle.gl_refs.specs.State.{forms, IsSound};
ghost use Rattle.gl_refs.specs.View.{rows_of, reads_in, IsFound, IsTable};

use crate::RefId;
use crate::evaluation::is_latest;
use crate::row::{Rows, found_value, held, part_at};
use crate::settling::{Stack, Stale, Waiting, put_off};
use crate::table::Table;
use crate::values::kind_value;
use gl_tags::Tags;
use gl_value::Value;
use smallvec::SmallVec;
use std::alloc::{AllocError, Global};

// The first part from a place on that was not worked out yet.
fn next_missing(
    rows: &Rows,
    table: &Table,
    id: RefId,
    next: usize,
) -> Result<Option<Stale>, AllocError>
    ensures { Each (IsFound table.now (rows_of rows.now)) (take next (reads_in table.now (rows_of rows.now) id)) → IfOk result (λ o. IfNone o (Each (IsFound table.now (rows_of rows.now)) (reads_in table.now (rows_of rows.now) id))) }
{
    let Some(row) = rows.find(id) else {
        return Ok(None);
    };
    for at in next..usize::MAX {
        let Some(part) = part_at(rows, Some(table), &row.kind, at) else {
            return Ok(None);
        };
        if found_value(rows, table, part).is_none() {
            return Ok(Some(Stale { at, part }));
        }
    }
    Err(AllocError)
}

// Works one reference out, of whose parts all that is read was.
fn work_out(alloc: Global, rows: &Rows, table: &mut Table, id: RefId) -> Result<(), AllocError>
    requires lower { AreLower (forms (rows_of rows.now)) }
    requires right { IsTable table.old (rows_of rows.now) }
    ensures { IsTable table.new (rows_of rows.now) }
{
    rows.stamps();
    let Some(row) = rows.find(id) else {
        return Ok(());
    };
    if next_missing(rows, table, id, 0)?.is_some() {
        return Err(AllocError);
    }
    match kind_value(alloc, rows, Some(table), &row.kind)? {
        Some(value) => table.put(rows.stamp(id), value),
        None => Ok(()),
    }
}

// Works a reference out, or puts off until a part of it is.
fn visit(
    alloc: Global,
    rows: &Rows,
    table: &mut Table,
    waiting: Waiting,
    stack: &mut Stack,
) -> Result<(), AllocError>
    requires lower { AreLower (forms (rows_of rows.now)) }
    requires right { IsTable table.old (rows_of rows.now) }
    ensures { IsTable table.new (rows_of rows.now) }
{
    let id = waiting.id;
    match next_missing(rows, table, id, waiting.next)? {
        Some(stale) => put_off(stack, id, stale),
        None => work_out(alloc, rows, table, id),
    }
}

// Works out all that a reference wants, parts first.
fn work_all_out(alloc: Global, rows: &Rows, table: &mut Table, id: RefId) -> Result<(), AllocError>
    requires lower { AreLower (forms (rows_of rows.now)) }
    requires right { IsTable table.old (rows_of rows.now) }
    ensures { IsTable table.new (rows_of rows.now) }
{
    let mut stack = SmallVec::new(alloc);
    stack.push(Waiting { id, next: 0 })?;
    for _ in 0..u64::MAX {
        match stack.pop() {
            None => return Ok(()),
            Some(waiting) => visit(alloc, rows, table, waiting, &mut stack)?,
        }
    }
    Err(AllocError)
}

// The value of a reference. What is held of it is copied where it is surely of now.
pub(crate) fn look(alloc: Global, tags: &Tags, rows: &Rows, id: RefId) -> Result<Value, AllocError>
    requires { IsSound tags.now (rows_of rows.now) }
    ensures { IfOk result (λ v. view v ≡ (meaning (forms (rows_of rows.now)) id).value) }
{
    if is_latest(tags, rows, id) {
        match held(rows, id) {
            Some(value) => value.copy(),
            None => Ok(Value::Undefined),
        }
    } else {
        worked_out(alloc, rows, id)
    }
}

// The value of a reference, worked out with all that it reads.
fn worked_out(alloc: Global, rows: &Rows, id: RefId) -> Result<Value, AllocError>
    requires { AreLower (forms (rows_of rows.now)) }
    ensures { IfOk result (λ v. view v ≡ (meaning (forms (rows_of rows.now)) id).value) }
{
    let mut table = Table::new(alloc);
    work_all_out(alloc, rows, &mut table, id)?;
    match found_value(rows, &table, id) {
        Some(value) => value.copy(),
        None => Err(AllocError),
    }
}
