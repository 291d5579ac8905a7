// All references.
ghost use Rattle.std.specs.Prelude.{◌≡◌, ◌≢◌, ℕ, ◌+◌, ◌<◌, ◌^◌, ◌++◌, [], ◌∷◌, IfOk, OnOk, OnErr, IsOk, IsTrue, IsSome, IfSome, ◌↔◌, ◌⊎◌, ◌-◌, not, Some, None, true, false};
ghost use Rattle.std.specs.Borrow.{sem};
ghost use Rattle.gl_value.specs.View.{view};
ghost use Rattle.gl_arena.specs.Arena.{IsStamped, Ends};
ghost use Rattle.gl_tags.specs.Tags as t;
ghost use Rattle.gl_refs.specs.Forms.{Each, all_form, constant_form, parts, is_known, IsUnread};
ghost use Rattle.gl_refs.specs.State.{IsKept, IsSound, IsValid, held_tag, has_tag, own_tag, is_cell, is_item, is_readable, is_position, AreParts, EndsTag};
ghost use Rattle.gl_refs.specs.Refs.{rows_of, forms_of, meaning_of, HasRoom, Makes, MakesSource, Keeps, SetsValue, Holds, SameCounts, HasRead, HasEvaluated, CanAsk, asks_after};
ghost use Rattle.gl_refs.specs.View.{seen_form};
ghost use Rattle.gl_refs.specs.Lends.{Rests};

use crate::blank::Blank;
use crate::evaluation::{is_kept, is_valid, stale_since};
use crate::looking::look;
use crate::making::{make, make_source};
use crate::row::{Kind, Rows, held, held_tag, is_position, is_source, kind_of, parts_of, readable};
use crate::settling::prepare;
use crate::tally::unread;
use crate::watch::Watch;
use crate::writing::{end, holds, put};
use crate::{Form, RefId};
use gl_arena::Arena;
use gl_tags::{TagId, Tags};
use gl_value::Value;
use std::alloc::{AllocError, Global};
use std::marker::Model;

/// References. Contracts see each by its id with its form and its last evaluation, the tags, how many were evaluated
/// by [`Refs::evaluate`], how often [`Refs::valid`] was asked, and which ids were evaluated since the last
/// [`Refs::begin`].
#[derive(Drop)]
pub struct Refs {
    alloc: Global,
    blank: Blank,
    rows: Rows,
    tags: Tags,
    evals: u128,
    asks: u128,
    evaluated: Vec<RefId>,
    watch: Watch,
}

impl Model for Refs {
    ghost use Rattle.gl_refs.specs.Refs.{Refs as Seen, refs_code};
    ghost use Rattle.gl_refs.specs.State.{IsSound};
    ghost use Rattle.gl_refs.specs.View.{rows_in, rows_of};
    ghost use Rattle.gl_refs.specs.Counting.{Counts};
    ghost use Rattle.gl_refs.specs.Watch.{Watched};
    ghost use Rattle.std.specs.Prelude.{[]};

    ghost Value = { Seen };

    ghost coded = { refs_code };

    ghost view = { λ r. record { rows = rows_in r.rows; tags = r.tags; evals = r.evals; asks = r.asks; evaluated = r.evaluated.items } };

    ghost invariant = { λ r. IsSound r.tags (rows_of r.rows) × (Counts r.rows [] [] × Watched r.tags (rows_of r.rows) r.watch) };
}

impl Refs {
    /// No references, with the clock and all counts at 0.
    pub fn new(alloc: Global) -> Result<Refs, AllocError>
        ensures rows { IfOk result (λ r. (r.rows.slots ≡ []) × (r.rows.made ≡ 0)) }
        ensures tags { IfOk result (λ r. (i : _) → i ≢ r.tags.still → t.tag_at r.tags i ≡ None) }
        ensures clock { IfOk result (λ r. (r.tags.clock ≡ 0) × (r.tags.count ≡ 0)) }
        ensures made { IfOk result (λ r. r.tags.tags.made ≡ 1) }
        ensures counts { IfOk result (λ r. (r.evals ≡ 0) × (r.asks ≡ 0) × (r.evaluated ≡ [])) }
    {
        let tags = Tags::new(alloc)?;
        let _ = tags.constant();
        Ok(Refs {
            alloc,
            blank: Blank::new(),
            rows: Arena::new(alloc)?,
            tags,
            evals: 0,
            asks: 0,
            evaluated: Vec::new(alloc),
            watch: Watch::new(alloc),
        })
    }

    /// Makes a constant.
    pub fn constant(&mut self, value: Value) -> Result<RefId, AllocError>
        ensures ok { IfOk result (λ id. Makes self.old self.new id (constant_form (view value))) }
        ensures err { OnErr result (self.new ≡ self.old) }
    {
        make(&self.tags, &mut self.rows, Kind::Constant(value))
    }

    /// Makes a cell. It counts as touched now.
    pub fn cell(&mut self, value: Value) -> Result<RefId, AllocError>
        ensures ok { IfOk result (λ id. MakesSource self.old self.new id false (view value)) }
        ensures err { OnErr result (Keeps self.old self.new) }
    {
        make_source(&mut self.tags, &mut self.rows, false, value)
    }

    /// Makes an item. It counts as touched now.
    pub fn item(&mut self, value: Value) -> Result<RefId, AllocError>
        ensures ok { IfOk result (λ id. MakesSource self.old self.new id true (view value)) }
        ensures err { OnErr result (Keeps self.old self.new) }
    {
        make_source(&mut self.tags, &mut self.rows, true, value)
    }

    /// Makes a reference of that form over live references. The number of a call is that of a helper.
    pub fn bind(&mut self, form: Form) -> Result<RefId, AllocError>
        requires parts { Each (λ q. IsSome (forms_of self.old q)) (parts (seen_form form)) }
        requires known { is_known (seen_form form) ≡ true }
        ensures ok { IfOk result (λ id. Makes self.old self.new id (seen_form form)) }
        ensures err { OnErr result (self.new ≡ self.old) }
    {
        let kind = kind_of(self.alloc, form)?;
        make(&self.tags, &mut self.rows, kind)
    }

    /// Gives a cell a value, and touches it, whatever the value was.
    pub fn set(&mut self, cell: RefId, value: Value)
        requires room { HasRoom self.old }
        requires cell { is_cell (forms_of self.old cell) ≡ true }
        ensures { SetsValue self.old self.new cell false (view value) }
    {
        put(&mut self.tags, &mut self.rows, &mut self.watch, cell, value);
    }

    /// Gives an item a value, and touches it where that isn't the same.
    pub fn give(&mut self, item: RefId, value: Value)
        requires room { HasRoom self.old }
        requires item { is_item (forms_of self.old item) ≡ true }
        ensures { (Holds self.old item true (view value) × (self.new ≡ self.old)) ⊎ ((Holds self.old item true (view value) → ⊥) × SetsValue self.old self.new item true (view value)) }
    {
        if !holds(&self.rows, item, &value) {
            put(&mut self.tags, &mut self.rows, &mut self.watch, item, value);
        }
    }

    /// The value of a reference over the present cells and items, lent. What is kept and of now is used; else the
    /// reference, and what is read for it, is evaluated.
    pub fn read(&mut self, id: RefId) -> Result<&Value, AllocError>
        requires { IsSome (forms_of self.old id) }
        ensures* reads { sem 𝓛 (Rests self.entry (λ new. HasRead self.old new id result)) }
        ensures value { IfOk result (λ v. view v.now ≡ (meaning_of self.old id).value) }
        ensures kept { IsKept self.old.tags (rows_of self.old) id → IsOk result }
    {
        self.refresh(id)?;
        Ok(self.held(id))
    }

    /// The same as [`Refs::read`], where the value is not needed at once: [`Refs::held`] lends it then.
    pub fn refresh(&mut self, id: RefId) -> Result<(), AllocError>
        requires { IsSome (forms_of self.old id) }
        ensures reads { HasRead self.old self.new id result }
        ensures kept { IsKept self.old.tags (rows_of self.old) id → IsOk result }
    {
        prepare(
            self.alloc,
            &mut self.tags,
            &mut self.rows,
            &mut self.watch,
            id,
        )
    }

    /// The value of a reference that is kept and of now, as it is after [`Refs::read`].
    pub fn held(&self, id: RefId) -> &Value
        requires { IsKept self.now.tags (rows_of self.now) id }
        ensures { view result.now ≡ (meaning_of self.now id).value }
    {
        match held(&self.rows, id) {
            Some(value) => value,
            None => self.blank.undefined(),
        }
    }

    /// The same as [`Refs::read`], and it is counted and put on the list.
    pub fn evaluate(&mut self, id: RefId) -> Result<&Value, AllocError>
        requires { IsSome (forms_of self.old id) }
        ensures* evaluates { sem 𝓛 (Rests self.entry (λ new. HasEvaluated self.old new id result)) }
        ensures value { IfOk result (λ v. view v.now ≡ (meaning_of self.old id).value) }
    {
        self.renew(id)?;
        Ok(self.held(id))
    }

    /// The same as [`Refs::evaluate`], where the value is not needed at once: [`Refs::held`] lends it then.
    pub fn renew(&mut self, id: RefId) -> Result<(), AllocError>
        requires { IsSome (forms_of self.old id) }
        ensures { HasEvaluated self.old self.new id result }
    {
        if self.evals == u128::MAX {
            return Err(AllocError);
        }
        prepare(
            self.alloc,
            &mut self.tags,
            &mut self.rows,
            &mut self.watch,
            id,
        )?;
        self.evaluated.push(id)?;
        self.evals += 1;
        Ok(())
    }

    /// How many evaluations [`Refs::evaluate`] has done.
    pub fn evals(&self) -> u128
        ensures { result ≡ self.now.evals }
    {
        self.evals
    }

    /// How often [`Refs::valid`] was asked.
    pub fn asks(&self) -> u128
        ensures { result ≡ self.now.asks }
    {
        self.asks
    }

    /// The ids that [`Refs::evaluate`] has evaluated since the last [`Refs::begin`], in order.
    pub fn evaluated(&self) -> &[RefId]
        ensures { result.now ≡ self.now.evaluated }
    {
        self.evaluated.as_slice()
    }

    /// Begins a turn: the clock rises by 1, and the list of what was evaluated is empty.
    pub fn begin(&mut self)
        requires { HasRoom self.old }
        ensures { self.new ≡ record self.old { tags = record self.old.tags { clock = self.old.tags.clock + 1 }; evaluated = [] } }
    {
        self.tags.advance();
        let _ = self.tags.constant();
        self.evaluated.clear();
        self.watch.begin();
    }

    /// The revision clock, which is that of the tags.
    pub fn now(&self) -> u128
        ensures { result ≡ self.now.tags.clock }
    {
        self.tags.now()
    }

    /// Whether the reference was evaluated, and no source of its last evaluation was made, set or given another value
    /// at a greater revision. Constants, cells and items need no evaluation, and a cell or an item is its own source.
    pub fn valid(&mut self, id: RefId, since: u128) -> bool
        requires { HasRoom self.old }
        ensures value { IsTrue result ↔ IsValid self.old.tags since (rows_of self.old id) }
        ensures asks { self.new ≡ record self.old { asks = self.old.asks + 1 } }
    {
        self.asks += 1;
        is_valid(&mut self.tags, &self.rows, id, since)
    }

    /// Whether a source of the last evaluation of a position was made, set or given another value since the last
    /// [`Refs::begin`]. It counts as one question, and takes no memory. It is not answered, and not counted, of what is
    /// no live position that was evaluated, before the first `begin`, and where no more questions can be counted.
    pub fn stale(&mut self, id: RefId) -> Option<bool>
        ensures answers { IsSome result ↔ CanAsk self.old id }
        ensures value { IfSome result (λ b. IsTrue (not b) ↔ IsValid self.old.tags (self.old.tags.clock - 1) (rows_of self.old id)) }
        ensures asks { self.new ≡ record self.old { asks = self.new.asks } }
        ensures counted { self.new.asks ≡ asks_after result self.old.asks }
    {
        let asks = self.asks.checked_add(1)?;
        let since = self.tags.now().checked_sub(1)?;
        let stale = stale_since(&mut self.tags, &self.rows, id, since)?;
        self.asks = asks;
        Some(stale)
    }

    /// Whether it is sure, by the number of its id alone, that [`Refs::stale`] would answer no of a position: nothing that it
    /// read at its last evaluation was touched since the last [`Refs::begin`]. It takes no memory, looks at no reference, and is
    /// not counted. Where it says no, that may be so too.
    pub fn quiet(&self, id: RefId) -> bool
        ensures { IsTrue result → (i : _) → i.1 ≡ id.1 → is_position (rows_of self.now i) ≡ true → (0 < self.now.tags.clock) × IsValid self.now.tags (self.now.tags.clock - 1) (rows_of self.now i) }
    {
        self.watch.quiet(id.number())
    }

    /// The value that [`Refs::read`] would give. Nothing is kept.
    pub fn look(&self, id: RefId) -> Result<Value, AllocError>
        requires { IsSome (forms_of self.now id) }
        ensures { IfOk result (λ v. view v ≡ (meaning_of self.now id).value) }
    {
        look(self.alloc, &self.tags, &self.rows, id)
    }

    /// Ends a reference that no live one reads, with its tag, and no other.
    pub fn free(&mut self, id: RefId)
        requires live { IsSome (forms_of self.old id) }
        requires unread { IsUnread (forms_of self.old) id }
        ensures ends { Ends self.old.rows self.new.rows id }
        ensures tags { EndsTag self.old.tags self.new.tags (own_tag (rows_of self.old id)) }
        ensures counts { SameCounts self.old self.new }
    {
        end(&mut self.tags, &mut self.rows, id);
    }

    /// Whether other references may read it: it is live, and no position. It takes no memory.
    pub fn readable(&self, id: RefId) -> bool
        ensures { result ≡ is_readable (forms_of self.now id) }
    {
        readable(&self.rows, id)
    }

    /// Whether it is a live cell. It takes no memory.
    pub fn is_cell(&self, id: RefId) -> bool
        ensures { result ≡ is_cell (forms_of self.now id) }
    {
        is_source(&self.rows, id, false)
    }

    /// Whether it is a live item. It takes no memory.
    pub fn is_item(&self, id: RefId) -> bool
        ensures { result ≡ is_item (forms_of self.now id) }
    {
        is_source(&self.rows, id, true)
    }

    /// Whether it is a live position that was evaluated. It takes no memory.
    pub fn position(&self, id: RefId) -> bool
        ensures { result ≡ is_position (rows_of self.now id) }
    {
        is_position(&self.rows, id)
    }

    /// What a live position reads; none where it is no live position. It takes no memory.
    pub fn parts(&self, id: RefId) -> Option<&[RefId]>
        ensures { AreParts result (forms_of self.now id) }
    {
        parts_of(&self.rows, id)
    }

    /// Whether it is live, and no live reference reads it. It takes no memory, and no search.
    pub fn unread(&self, id: RefId) -> bool
        ensures { IsTrue result ↔ (IsSome (forms_of self.now id) × IsUnread (forms_of self.now) id) }
    {
        unread(&self.rows, id)
    }

    /// Whether each of the counters is below its last value.
    pub fn room(&self) -> bool
        ensures { IsTrue result ↔ HasRoom self.now }
    {
        self.tags.room()
            && self.rows.made() < u128::from(u64::MAX)
            && self.evals < u128::MAX
            && self.asks < u128::MAX
    }

    /// The tags, lent.
    pub fn tags(&self) -> &Tags
        ensures { result.now ≡ self.now.tags }
    {
        &self.tags
    }

    /// The tag of a constant, of a cell or an item, or of a reference that was evaluated: the constant tag, its own
    /// one that is touched with it, or one that leads to the tags of the sources of its last evaluation.
    pub fn tag_of(&self, id: RefId) -> TagId
        requires { has_tag (rows_of self.now id) ≡ true }
        ensures { result ≡ held_tag self.now.tags (rows_of self.now) id }
    {
        held_tag(&self.tags, &self.rows, id)
    }

    /// The law that what is kept and of now is what the reference means, that each reads live ones alone that were made
    /// before it, that each call is of a helper, that each has a tag of its own, and that no two ids have one stamp.
    pub fn sound(&self)
        ensures sound { IsSound self.now.tags (rows_of self.now) }
        ensures stamped { IsStamped self.now.rows }
    {
        self.rows.stamps();
    }
}
