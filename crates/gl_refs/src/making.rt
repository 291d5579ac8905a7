// New references.
ghost use Rattle.std.specs.Prelude.{◌≡◌, ◌≢◌, [], IfOk, OnErr, None, Some, IsSome, true};
ghost use Rattle.gl_value.specs.View.{view};
ghost use Rattle.gl_arena.specs.Arena.{Gives};
ghost use Rattle.gl_tags.specs.Tags as t;
ghost use Rattle.gl_refs.specs.Forms.{Each, parts, source_form, is_known};
ghost use Rattle.gl_refs.specs.State.{forms, own_by, own_tag, RowFits, IsSound};
ghost use Rattle.gl_refs.specs.Refs.{GivesSource};
ghost use Rattle.gl_refs.specs.View.{rows_of, rows_in, seen_kind, kind_last};
ghost use Rattle.gl_refs.specs.Counting.{Counts};
ghost use Rattle.gl_refs.specs.Watch.{Watched};

use crate::RefId;
use crate::row::{Kind, Rows};
use crate::tally::put_in;
use gl_tags::Tags;
use gl_value::Value;
use std::alloc::AllocError;

// Puts a row in that was not evaluated yet.
pub(crate) fn make(tags: &Tags, rows: &mut Rows, kind: Kind) -> Result<RefId, AllocError>
    requires sound { IsSound tags.now (rows_of rows.old) }
    requires parts { Each (λ q. IsSome (forms (rows_of rows.old) q)) (parts (seen_kind kind)) }
    requires known { is_known (seen_kind kind) ≡ true }
    requires last { kind_last kind ≡ None }
    requires fits { RowFits tags.now (seen_kind kind) None }
    requires fresh { (i : _) (u : _) → own_by (seen_kind kind) None ≡ Some u → own_tag (rows_of rows.old i) ≢ Some u }
    requires unled { (u : _) → own_by (seen_kind kind) None ≡ Some u → t.IsUnled tags.now u }
    requires counts { Counts rows.old [] [] }
    ensures ok { IfOk result (λ id. Gives (rows_in rows.old) (rows_in rows.new) id (record { form = seen_kind kind; last = None })) }
    ensures err { OnErr result (rows_in rows.new ≡ rows_in rows.old) }
    ensures sound { IsSound tags.now (rows_of rows.new) }
    ensures counts { Counts rows.new [] [] }
    ensures watched { (w : _) → Watched tags.now (rows_of rows.old) w → Watched tags.now (rows_of rows.new) w }
{
    let _ = tags.constant();
    rows.stamps();
    put_in(rows, kind)
}

// Puts a source in, with a tag of its own.
pub(crate) fn make_source(
    tags: &mut Tags,
    rows: &mut Rows,
    item: bool,
    value: Value,
) -> Result<RefId, AllocError>
    requires sound { IsSound tags.old (rows_of rows.old) }
    requires counts { Counts rows.old [] [] }
    ensures ok { IfOk result (λ id. GivesSource tags.old tags.new (rows_in rows.old) (rows_in rows.new) id item (view value)) }
    ensures rows { OnErr result (rows_in rows.new ≡ rows_in rows.old) }
    ensures tags { OnErr result ((u : _) → t.tag_at tags.new u ≡ t.tag_at tags.old u) }
    ensures rest { t.Rest tags.old tags.new }
    ensures sound { IsSound tags.new (rows_of rows.new) }
    ensures counts { Counts rows.new [] [] }
    ensures watched { (w : _) → Watched tags.old (rows_of rows.old) w → Watched tags.new (rows_of rows.new) w }
{
    let tag = tags.dirtyable()?;
    let _ = tags.constant();
    match make(tags, rows, Kind::Source { item, tag, value }) {
        Ok(id) => Ok(id),
        Err(error) => {
            tags.free(tag);
            let _ = tags.constant();
            Err(error)
        }
    }
}
