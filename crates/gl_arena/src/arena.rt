// The arena.
ghost use Rattle.std.specs.Prelude.{◌≡◌, ℕ, ◌+◌, ◌<◌, ◌↔◌, [], Some, None, IfOk, OnOk, OnErr, IfErr, IsTrue, IsSome, is_some, option_map};
ghost use Rattle.std.specs.Borrow.{sem};
ghost use Rattle.gl_arena.specs.Id.{IsNever};
ghost use Rattle.gl_arena.specs.Arena.{named, Gives, Ends, live_count, by_stamp, IsStamped, IsOwn, Sets};

use crate::Id;
use slab::Slab;
use std::alloc::{AllocError, Global};
use std::marker::{Model, PhantomData};

/// Values under ids of the mark `M`. Contracts see which value each id names, and how many were inserted.
#[derive(Drop)]
pub struct Arena<T, M> {
    slab: Slab<(u64, T)>,
    made: u64,
    mark: PhantomData<M>,
}

impl<T, M> Model for Arena<T, M> {
    ghost use Rattle.std.specs.Prelude.{ℕ};
    ghost use Rattle.gl_arena.specs.Arena.{Arena as Seen, arena_code, IsStamped};

    ghost Value = { Seen T };

    ghost coded = { arena_code T.code };

    ghost view = { λ a. record { slots = a.slab.slots; made = a.made } };

    ghost invariant = { λ a. IsStamped (record { slots = a.slab.slots; made = a.made }) };
}

impl<T, M> Arena<T, M> {
    ghost use Rattle.gl_arena.specs.Lends.{lends_value};

    /// The empty arena. No stamp has a value.
    pub fn new(alloc: Global) -> Result<Self, AllocError>
        ensures empty { IfOk result (λ a. a.slots ≡ []) }
        ensures made { IfOk result (λ a. a.made ≡ 0) }
        ensures stamps { IfOk result (λ a. (s : _) → by_stamp a s ≡ None) }
    {
        Ok(Arena {
            slab: Slab::new(alloc),
            made: 0,
            mark: PhantomData,
        })
    }

    /// Puts a value in, under an id that was never given before, or hands it back. The new id's stamp is the count
    /// before, and no other stamp's value changes.
    pub fn insert(&mut self, value: T) -> Result<Id<M>, (T, AllocError)>
        ensures ok { IfOk result (λ id. Gives self.old self.new id value) }
        ensures stamps { IfOk result (λ id. Sets self.old self.new self.old.made (Some value) × IsOwn self.new id) }
        ensures back { IfErr result (λ e. e.0 ≡ value) }
        ensures err { OnErr result (self.new ≡ self.old) }
    {
        self.stamps();
        self.put_in(value)
    }

    // The insert, without what it does by stamps.
    fn put_in(&mut self, value: T) -> Result<Id<M>, (T, AllocError)>
        ensures ok { IfOk result (λ id. Gives self.old self.new id value) }
        ensures back { IfErr result (λ e. e.0 ≡ value) }
        ensures err { OnErr result (self.new ≡ self.old) }
    {
        let stamp = self.made;
        match stamp.checked_add(1) {
            None => Err((value, AllocError)),
            Some(next) => match self.slab.insert((stamp, value)) {
                Ok(slot) => {
                    self.made = next;
                    Ok(Id {
                        slot,
                        stamp,
                        mark: PhantomData,
                    })
                }
                Err(failed) => Err((failed.value.1, AllocError)),
            },
        }
    }

    /// The value of an id, where it is live. For an id that this arena gave it is the value with the id's stamp.
    pub fn find(&self, id: Id<M>) -> Option<&T>
        ensures id { option_map (λ v. v.now) result ≡ named self.now id }
        ensures stamp { IsOwn self.now id → option_map (λ v. v.now) result ≡ by_stamp self.now id.1 }
    {
        match self.slab.get(id.slot) {
            Some(entry) => {
                if entry.0 == id.stamp {
                    Some(&entry.1)
                } else {
                    None
                }
            }
            None => None,
        }
    }

    /// The law that each live id was given before, and that no two live ids have one stamp.
    pub fn stamps(&self)
        ensures { IsStamped self.now }
    {
        let _ = &self.made;
    }

    /// How many values were inserted. What is live was inserted before, and no id that was given is the default.
    pub fn made(&self) -> u128
        ensures value { result ≡ self.now.made }
        ensures stamped { IsStamped self.now }
        ensures never { (i : _) → IsNever i → IsOwn self.now i → ⊥ }
    {
        u128::from(self.made)
    }

    /// Whether the id names a value.
    pub fn live(&self, id: Id<M>) -> bool
        ensures { result ≡ is_some (named self.now id) }
    {
        match self.slab.get(id.slot) {
            Some(entry) => entry.0 == id.stamp,
            None => false,
        }
    }

    /// The value of an id.
    pub fn get(&self, id: Id<M>) -> &T
        requires { IsSome (named self.now id) }
        ensures { named self.now id ≡ Some result.now }
    {
        match self.slab.get(id.slot) {
            Some(entry) => &entry.1,
            None => unreachable!(),
        }
    }

    /// The value of an id, for writing.
    pub fn get_mut(&mut self, id: Id<M>) -> &mut T
        requires { IsSome (named self.old id) }
        ensures* writes_back { sem 𝓛 (lends_value T.row M.row self.entry id result) }
        ensures value { named self.old id ≡ Some result.now }
    {
        match self.slab.get_mut(id.slot) {
            Some(entry) => &mut entry.1,
            None => unreachable!(),
        }
    }

    /// Takes the value of an id out, and ends the id. No other stamp's value changes.
    pub fn remove(&mut self, id: Id<M>) -> T
        requires { IsSome (named self.old id) }
        ensures value { named self.old id ≡ Some result }
        ensures ends { Ends self.old self.new id }
        ensures stamps { Sets self.old self.new id.1 None }
    {
        self.stamps();
        self.take_out(id)
    }

    // The end of an id, without what it does by stamps.
    fn take_out(&mut self, id: Id<M>) -> T
        requires { IsSome (named self.old id) }
        ensures value { named self.old id ≡ Some result }
        ensures ends { Ends self.old self.new id }
    {
        match self.slab.try_remove(id.slot) {
            Some(entry) => entry.1,
            None => unreachable!(),
        }
    }

    /// How many values were inserted before that of an id.
    pub fn stamp(&self, id: Id<M>) -> u128
        requires { IsSome (named self.now id) }
        ensures value { result ≡ id.1 }
        ensures below { result < self.now.made }
    {
        let _ = &self.made;
        u128::from(id.stamp)
    }
}
