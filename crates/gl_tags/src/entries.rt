// The tags by id, as the arena holds them.
ghost use Rattle.std.specs.Prelude.{◌≡◌, ◌++◌, IfOk, IfSome, OnOk, OnErr, Some, IsSome, flat_map};
ghost use Rattle.gl_arena.specs.Arena.{named, with_value, Gives};
ghost use Rattle.gl_tags.specs.Tags.{revision, order, greatest_of, leads_of, SameLeads};
ghost use Rattle.gl_tags.specs.View.{tags_in, touch_of, kept_as, IsKept};

use crate::tag::{Leads, Tag, TagId, Touch};
use gl_arena::{Arena, TagMark};
use std::alloc::AllocError;

pub(crate) type Entries = Arena<Tag, TagMark>;

// When a dirtyable tag was touched last, never for all others.
fn touched(tags: &Entries, id: TagId) -> Touch
    ensures revision { result.revision ≡ revision (named (tags_in tags.now) id) }
    ensures order { result.order ≡ order (named (tags_in tags.now) id) }
{
    match tags.find(id) {
        Some(Tag::Dirtyable(touch)) => *touch,
        _ => Touch::NEVER,
    }
}

// The greatest revision and the greatest order of these tags.
pub(crate) fn greatest(tags: &Entries, leads: &[TagId]) -> Touch
    ensures revision { result.revision ≡ greatest_of revision (tags_in tags.now) leads.now }
    ensures order { result.order ≡ greatest_of order (tags_in tags.now) leads.now }
{
    let mut revision = 0;
    let mut order = 0;
    for tag in leads {
        let touch = touched(tags, *tag);
        revision = revision.max(touch.revision);
        order = order.max(touch.order);
    }
    Touch { revision, order }
}

// The touch of a tag, with no look at what is kept.
pub(crate) fn look(tags: &Entries, id: TagId) -> Touch
    requires { IsSome (named tags.now id) }
    ensures { result ≡ touch_of (tags_in tags.now) (named (tags_in tags.now) id) }
{
    match tags.get(id) {
        Tag::Combined { leads, .. } => greatest(tags, leads.as_slice()),
        _ => touched(tags, id),
    }
}

// The kept touch, where it is marked with the present count.
pub(crate) fn kept(tags: &Entries, id: TagId, count: u64) -> Option<Touch>
    requires live { IsSome (named tags.now id) }
    requires kept { IsKept (tags_in tags.now) count (named tags.now id) }
    ensures { IfSome result (λ t. t ≡ touch_of (tags_in tags.now) (named (tags_in tags.now) id)) }
{
    match tags.get(id) {
        Tag::Combined { kept, mark, .. } if *mark == count => Some(*kept),
        _ => None,
    }
}

// Keeps a combined tag's touch, marked with the count.
pub(crate) fn keep(tags: &mut Entries, id: TagId, touch: Touch, count: u64)
    requires { IsSome (named tags.old id) }
    ensures { (tag : _) → named tags.old id ≡ Some tag → tags.new ≡ with_value tags.old id (kept_as tag touch count) }
{
    keep_in(tags.get_mut(id), touch, count);
}

fn keep_in(tag: &mut Tag, touch: Touch, count: u64)
    ensures { tag.new ≡ kept_as tag.old touch count }
{
    match tag {
        Tag::Combined { kept, mark, .. } => {
            *kept = touch;
            *mark = count;
        }
        _ => {}
    }
}

pub(crate) fn insert_tag(tags: &mut Entries, tag: Tag) -> Result<TagId, AllocError>
    ensures ok { IfOk result (λ id. Gives tags.old tags.new id tag) }
    ensures err { OnErr result (tags.new ≡ tags.old) }
{
    match tags.insert(tag) {
        Ok(id) => Ok(id),
        Err((_, error)) => Err(error),
    }
}

// Adds the dirtyable tags that one leads to.
fn add_leads(tags: &Entries, id: TagId, into: &mut Leads) -> Result<(), AllocError>
    ensures { OnOk result (into.new.items ≡ into.old.items ++ leads_of (tags_in tags.now) id) }
{
    if tags.live(id) {
        match tags.get(id) {
            Tag::Constant => Ok(()),
            Tag::Dirtyable(_) => into.extend_from_slice(&[id]),
            Tag::Combined { leads, .. } => into.extend_from_slice(leads.as_slice()),
        }
    } else {
        Ok(())
    }
}

// Adds the dirtyable tags that the parts lead to, in order.
pub(crate) fn all_leads(tags: &Entries, parts: &[TagId], into: &mut Leads) -> Result<(), AllocError>
    ensures { OnOk result (into.new.items ≡ into.old.items ++ flat_map (leads_of (tags_in tags.now)) parts.now) }
{
    for part in parts {
        add_leads(tags, *part, into)?;
    }
    Ok(())
}

// Sorts them, and drops all but one of those that are equal.
pub(crate) fn settle(leads: &mut Leads)
    ensures { SameLeads leads.new.items leads.old.items }
{
    leads.as_mut_slice().sort_unstable();
    leads.dedup();
}
