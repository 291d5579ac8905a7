// All tags, and the clock.
ghost use Rattle.std.specs.Prelude.{◌≡◌, ◌≢◌, ◌+◌, ◌<◌, ◌≤◌, ◌^◌, IfOk, OnErr, None, IsTrue, IsSome, Some, ◌↔◌, true};
ghost use Rattle.gl_arena.specs.Arena.{Gives, Ends};
ghost use Rattle.gl_tags.specs.Tags.{tag_at, value_of, order_of, dirtyable, combined, is_dirtyable, dirtied, Rest, Combines, IsUnled, IsSound, HasRoom};
ghost use Rattle.gl_tags.specs.View.{touch_of};

use crate::entries::{Entries, all_leads, greatest, insert_tag, keep, kept, look, settle};
use crate::tag::{Tag, TagId, Touch};
use gl_arena::Arena;
use smallvec::SmallVec;
use std::alloc::{AllocError, Global};
use std::marker::Model;

/// Tags. Contracts see each tag by its id, the constant one, the clock, and how many dirtyings there were.
#[derive(Drop)]
pub struct Tags {
    alloc: Global,
    tags: Entries,
    still: TagId,
    clock: u64,
    count: u64,
}

impl Model for Tags {
    ghost use Rattle.gl_tags.specs.Tags.{Tags as Value_, tags_code};
    ghost use Rattle.gl_tags.specs.View.{tags_in, AreKept};

    ghost Value = { Value_ };

    ghost coded = { tags_code };

    ghost view = { λ t. record { tags = tags_in t.tags; still = t.still; clock = t.clock; count = t.count } };

    ghost invariant = { λ t. AreKept t.tags t.still t.clock t.count };
}

impl Tags {
    /// The constant tag alone, with the clock at 0.
    pub fn new(alloc: Global) -> Result<Tags, AllocError>
        ensures alone { IfOk result (λ t. (i : _) → i ≢ t.still → tag_at t i ≡ None) }
        ensures clock { IfOk result (λ t. t.clock ≡ 0) }
        ensures count { IfOk result (λ t. t.count ≡ 0) }
        ensures made { IfOk result (λ t. t.tags.made ≡ 1) }
    {
        let mut tags = Arena::new(alloc)?;
        let still = insert_tag(&mut tags, Tag::Constant)?;
        Ok(Tags {
            alloc,
            tags,
            still,
            clock: 0,
            count: 0,
        })
    }

    /// The tag that never changes.
    pub fn constant(&self) -> TagId
        ensures value { result ≡ self.now.still }

        // Whoever holds the tags learns by this call what they always keep.
        ensures sound { IsSound self.now }
    {
        self.still
    }

    /// The revision clock.
    pub fn now(&self) -> u128
        ensures { result ≡ self.now.clock }
    {
        u128::from(self.clock)
    }

    /// How many dirtyings there were.
    pub fn count(&self) -> u64
        ensures { result ≡ self.now.count }
    {
        self.count
    }

    /// Whether each of the counters is below its last value: the clock, the count of dirtyings, and how many
    /// tags were made.
    pub fn room(&self) -> bool
        ensures { IsTrue result ↔ HasRoom self.now }
    {
        self.clock < u64::MAX && self.count < u64::MAX && self.tags.made() < u128::from(u64::MAX)
    }

    /// The clock rises by 1, and no tag's value changes.
    pub fn advance(&mut self)
        requires { self.old.clock + 1 < 2 ^ 64 }
        ensures { self.new ≡ record self.old { clock = self.old.clock + 1 } }
    {
        self.clock += 1;
    }

    /// Makes a tag that can be dirtied, and counts as touched now, at the revision of the clock.
    pub fn dirtyable(&mut self) -> Result<TagId, AllocError>
        ensures given { IfOk result (λ id. Gives self.old.tags self.new.tags id (dirtyable self.old.clock self.old.count)) }
        ensures rest { Rest self.old self.new }
        ensures err { OnErr result (self.new ≡ self.old) }
    {
        let touch = Touch {
            revision: self.clock,
            order: self.count,
        };
        insert_tag(&mut self.tags, Tag::Dirtyable(touch))
    }

    /// Makes a tag that leads to the dirtyable tags among the parts, and to those that combined parts lead
    /// to. It goes on leading to these where such a part is freed. An id that isn't live leads to none.
    pub fn combine(&mut self, parts: &[TagId]) -> Result<TagId, AllocError>
        ensures ok { IfOk result (λ id. Combines self.old self.new id parts.now) }
        ensures err { OnErr result (self.new ≡ self.old) }
    {
        let mut leads = SmallVec::new(self.alloc);
        all_leads(&self.tags, parts, &mut leads)?;
        settle(&mut leads);
        let kept = greatest(&self.tags, leads.as_slice());
        let mark = self.count;
        insert_tag(&mut self.tags, Tag::Combined { leads, kept, mark })
    }

    /// The dirtyable tags to which a combined one leads, sorted, each once. It takes no memory.
    pub fn leads(&self, tag: TagId) -> &[TagId]
        ensures { (leads : _) → tag_at self.now tag ≡ Some (combined leads) → result.now ≡ leads }
    {
        match self.tags.find(tag) {
            Some(Tag::Combined { leads, .. }) => leads.as_slice(),
            _ => &[],
        }
    }

    /// Sets the revision of a dirtyable tag to the clock. So that is the value of each tag that leads to it,
    /// and no other tag's value changes.
    pub fn dirty(&mut self, tag: TagId)
        requires room { self.old.count + 1 < 2 ^ 64 }
        requires dirtyable { is_dirtyable (tag_at self.old tag) ≡ true }
        ensures { self.new ≡ dirtied self.old tag }
    {
        let touch = Touch {
            revision: self.clock,
            order: self.count + 1,
        };
        *self.tags.get_mut(tag) = Tag::Dirtyable(touch);
        self.count += 1;
    }

    // When a tag was touched last, kept for the next look.
    fn touch(&mut self, tag: TagId) -> Touch
        requires { IsSome (tag_at self.old tag) }
        ensures value { result ≡ touch_of self.old.tags (tag_at self.old tag) }
        ensures stays { self.new ≡ self.old }
    {
        match kept(&self.tags, tag, self.count) {
            Some(touch) => touch,
            None => {
                let touch = look(&self.tags, tag);
                keep(&mut self.tags, tag, touch, self.count);
                touch
            }
        }
    }

    /// The tag's value: 0 for the constant tag, the revision of the last dirtying (or of the making) of a
    /// dirtyable one, and the greatest of those that a combined one leads to, 0 where it leads to none.
    pub fn value(&mut self, tag: TagId) -> u128
        requires { IsSome (tag_at self.old tag) }
        ensures value { result ≡ value_of self.old tag }
        ensures stays { self.new ≡ self.old }
    {
        u128::from(self.touch(tag).revision)
    }

    /// How many dirtyings there were when the last one of the tag was over, or when it was made; the greatest
    /// of these for a combined tag. It tells apart what one revision has before and after an evaluation.
    pub fn order(&mut self, tag: TagId) -> u64
        requires { IsSome (tag_at self.old tag) }
        ensures value { result ≡ order_of self.old tag }
        ensures stays { self.new ≡ self.old }
    {
        self.touch(tag).order
    }

    /// Whether the tag's value isn't greater than the snapshot.
    pub fn validate(&mut self, tag: TagId, snapshot: u128) -> bool
        requires { IsSome (tag_at self.old tag) }
        ensures value { IsTrue result ↔ value_of self.old tag ≤ snapshot }
        ensures stays { self.new ≡ self.old }
    {
        self.value(tag) <= snapshot
    }

    /// Ends the tag, and no other. It isn't the constant tag, and no live combined tag leads to it where it
    /// is dirtyable; what a combined tag leads to doesn't depend on the parts that it was made of.
    pub fn free(&mut self, tag: TagId)
        requires live { IsSome (tag_at self.old tag) }
        requires not_constant { tag ≢ self.old.still }
        requires unled { is_dirtyable (tag_at self.old tag) ≡ true → IsUnled self.old tag }
        ensures ends { Ends self.old.tags self.new.tags tag }
        ensures rest { Rest self.old self.new }
    {
        drop(self.tags.remove(tag));
    }
}
