// What is done to one row: a source is given a value, and a reference is ended.
ghost use Rattle.std.specs.Prelude.{◌≡◌, ◌≢◌, ◌+◌, ◌<◌, ◌^◌, [], Some, IsTrue, IsSome, ◌↔◌, true};
ghost use Rattle.gl_value.specs.View.{view};
ghost use Rattle.gl_arena.specs.Arena.{with_value, Ends};
ghost use Rattle.gl_tags.specs.Tags as t;
ghost use Rattle.gl_refs.specs.Forms.{source_form, IsUnread};
ghost use Rattle.gl_refs.specs.State.{forms, held, own_tag, is_source, IsSound, EndsTag};
ghost use Rattle.gl_refs.specs.View.{rows_of, rows_in};
ghost use Rattle.gl_refs.specs.Watch.{Watched};
ghost use Rattle.gl_refs.specs.Counting.{Counts};

use crate::RefId;
use crate::row::{Kind, Rows, own_tag, put_value, source_tag};
use crate::tally::take_out;
use crate::watch::Watch;
use gl_tags::{TagId, Tags};
use gl_value::Value;

// Whether a source has that value.
pub(crate) fn holds(rows: &Rows, id: RefId, value: &Value) -> bool
    requires { is_source (rows_of rows.now id) ≡ true }
    ensures { IsTrue result ↔ held (rows_of rows.now id) ≡ Some (view value.now) }
{
    match &rows.get(id).kind {
        Kind::Source { value: held, .. } => held.same(value),
        _ => unreachable!(),
    }
}

// Gives a source a value, and touches it.
pub(crate) fn put(tags: &mut Tags, rows: &mut Rows, watch: &mut Watch, id: RefId, value: Value)
    requires sound { IsSound tags.old (rows_of rows.old) }
    requires room { tags.old.count + 1 < 2 ^ 64 }
    requires source { is_source (rows_of rows.old id) ≡ true }
    ensures sound { IsSound tags.new (rows_of rows.new) }
    ensures tags { (kind : _) (tag : _) (was : _) (last : _) → rows_of rows.old id ≡ Some (record { form = source_form kind tag was; last = last }) → tags.new ≡ t.dirtied tags.old tag }
    ensures rows { (kind : _) (tag : _) (was : _) (last : _) → rows_of rows.old id ≡ Some (record { form = source_form kind tag was; last = last }) → rows_in rows.new ≡ with_value (rows_in rows.old) id (record { form = source_form kind tag (view value); last = last }) }
    ensures counts { Counts rows.old [] [] → Counts rows.new [] [] }
    ensures watched { Watched tags.old (rows_of rows.old) watch.old → Watched tags.new (rows_of rows.new) watch.new }
{
    let tag = source_tag(rows, id);
    put_value(rows, id, value);
    tags.dirty(tag);
    watch.touch(tag);
    let _ = tags.constant();
}

// Ends a tag to which no combined one leads.
fn free_tag(tags: &mut Tags, tag: Option<TagId>)
    requires live { (u : _) → tag ≡ Some u → IsSome (t.tag_at tags.old u) }
    requires not_constant { (u : _) → tag ≡ Some u → u ≢ tags.old.still }
    requires unled { (u : _) → tag ≡ Some u → t.is_dirtyable (t.tag_at tags.old u) ≡ true → t.IsUnled tags.old u }
    ensures ends { EndsTag tags.old tags.new tag }
    ensures sound { t.IsSound tags.new }
{
    if let Some(tag) = tag {
        tags.free(tag);
    }
    let _ = tags.constant();
}

// Ends a reference that no live one reads, with its tag.
pub(crate) fn end(tags: &mut Tags, rows: &mut Rows, id: RefId)
    requires sound { IsSound tags.old (rows_of rows.old) }
    requires live { IsSome (forms (rows_of rows.old) id) }
    requires unread { IsUnread (forms (rows_of rows.old)) id }
    requires counts { Counts rows.old [] [] }
    ensures sound { IsSound tags.new (rows_of rows.new) }
    ensures ends { Ends (rows_in rows.old) (rows_in rows.new) id }
    ensures counts { Counts rows.new [] [] }
    ensures tags { EndsTag tags.old tags.new (own_tag (rows_of rows.old id)) }
    ensures watched { (w : _) → Watched tags.old (rows_of rows.old) w → Watched tags.new (rows_of rows.new) w }
{
    let tag = own_tag(rows, id);
    take_out(rows, id);
    free_tag(tags, tag);
}
