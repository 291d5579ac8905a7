// The old items of a list by their keys, and the plan by which they are taken.
ghost use Rattle.std.specs.Prelude.{◌≡◌, ◌∷◌, IsTrue, IfOk, Some, map, filter_map, reverse};
ghost use Rattle.gl_value.specs.View.{view};
ghost use Rattle.gl_meaning.specs.Laws.{NoRepeat};
ghost use Rattle.gl_each.specs.Key.{same_key, entry_keys};
ghost use Rattle.gl_each.specs.Moved.{moves as count_moves};
ghost use Rattle.gl_each.specs.Sync.{Step};
ghost use Rattle.gl_each.specs.View.{key_view, seen_keys, seen_steps, step_view};
ghost use Rattle.gl_kept.specs.Between.{moves_between};
ghost use Rattle.gl_code.specs.Entries.{seen_left};
ghost use Rattle.gl_update.specs.ListItems.{there};
ghost use Rattle.gl_update.specs.OldItems.{raw_key, plain_key, code_key, Plans, TakenAt, TakenBy, IsReady, is_move, unboxed, Rising};
ghost use Rattle.gl_update.specs.NextItem.{Follows};

use gl_code::{Entry, ItemCode};
use gl_each::{Key, Keys, PlanStep, apart, keys, plan};
use std::alloc::{AllocError, Global};

/// What is left to do of a list that is read again: the keys of all old items by their places, the entries that wait, the
/// next one last, with the steps of the plan for them likewise, and the old items that were not taken.
#[derive(Drop)]
pub(crate) struct Work {
    pub(crate) keys: Keys,
    pub(crate) waiting: Vec<Entry>,
    pub(crate) steps: Vec<PlanStep>,
    pub(crate) olds: Vec<Option<ItemCode>>,
}

/// An entry with its old item, where there is one, and whether that moves.
#[derive(Drop)]
pub(crate) struct Next {
    pub(crate) entry: Box<Entry>,
    pub(crate) old: Option<Box<ItemCode>>,
    pub(crate) moves: bool,
}

#[inline(never)]
fn is_key_of(key: &Key, item: &ItemCode) -> bool
    ensures { result ≡ same_key (key_view key.now) (raw_key item.now) }
{
    key.value.same(&item.spot.key) && key.occurrence == item.spot.occurrence
}

/// Whether the items have these keys, in order.
#[inline(never)]
pub(crate) fn are_keys_of(keys: &[Key], items: &[ItemCode]) -> bool
    ensures { IsTrue result → seen_keys keys.now ≡ map raw_key items.now }
{
    if keys.len() != items.len() {
        return false;
    }
    for place in 0..keys.len() {
        if !is_key_of(&keys[place], &items[place]) {
            return false;
        }
    }
    true
}

// The plain forms of the items' keys.
#[inline(never)]
fn plain_keys(alloc: Global, items: &[ItemCode]) -> Result<Vec<Key>, AllocError>
    ensures { IfOk result (λ ks. seen_keys ks.items ≡ map plain_key items.now) }
{
    let mut list = Vec::with_capacity(alloc, items.len())?;
    for item in items {
        let value = item.spot.key.data_of()?;
        list.push(Key {
            value,
            occurrence: item.spot.occurrence,
        })?;
    }
    Ok(list)
}

// The keys of the items, counted again. Where one stands twice, as in no list, it answers as for want of memory.
#[inline(never)]
fn counted_keys(alloc: Global, items: &[ItemCode]) -> Result<Keys, AllocError>
    ensures once { IfOk result (λ ks. NoRepeat ks) }
    ensures keys { IfOk result (λ ks. ks ≡ map code_key items.now) }
{
    let mut values = Vec::new(alloc);
    for item in items {
        values.push(item.spot.key.copy()?)?;
    }
    let found = keys(alloc, values.as_slice(), "@identity")?;
    if are_keys_of(found.as_slice(), items) {
        Ok(found)
    } else {
        Err(AllocError)
    }
}

/// The keys of the items. Where one stands twice, as in no list, it answers as for want of memory.
#[inline(never)]
pub(crate) fn keys_of_items(alloc: Global, items: &[ItemCode]) -> Result<Keys, AllocError>
    ensures once { IfOk result (λ ks. NoRepeat ks) }
    ensures keys { IfOk result (λ ks. ks ≡ map code_key items.now) }
{
    match apart(alloc, plain_keys(alloc, items)?)? {
        Some(found) => Ok(found),
        None => counted_keys(alloc, items),
    }
}

#[inline(never)]
fn all_there(alloc: Global, items: Vec<ItemCode>) -> Result<Vec<Option<ItemCode>>, AllocError>
    ensures { IfOk result (λ os. os.items ≡ map Some items.items) }
{
    items.into_iter().map(|item| Some(item)).collect(alloc)
}

// The steps for these keys, the first one last.
#[inline(never)]
fn steps_for(old: &Keys, new: &Keys) -> Result<Vec<PlanStep>, AllocError>
    requires { NoRepeat old.now }
    ensures plans { IfOk result (λ ss. Plans old.now new.now (reverse (seen_steps ss.items))) }
    ensures moves { IfOk result (λ ss. count_moves (reverse (seen_steps ss.items)) ≡ moves_between old.now new.now) }
    ensures rising { IfOk result (λ ss. Rising 0 (reverse (seen_steps ss.items))) }
{
    let plan = plan(old, new)?;
    let mut steps = plan.steps.into_vec();
    steps.reverse();
    Ok(steps)
}

// Takes the old item at a place.
#[inline(never)]
fn take_at(olds: &mut Vec<Option<ItemCode>>, place: u64) -> Result<Option<ItemCode>, AllocError>
    ensures { IfOk result (λ o. TakenAt place olds.old.items olds.new.items o) }
{
    let place = place as usize;
    if place >= olds.len() {
        return Err(AllocError);
    }
    match olds[place].take() {
        Some(item) => Ok(Some(item)),
        None => Err(AllocError),
    }
}

impl Work {
    /// What is to be done where these items become those of these entries, the first one last, with these keys.
    #[inline(never)]
    pub(crate) fn new(
        alloc: Global,
        items: Vec<ItemCode>,
        waiting: Vec<Entry>,
        new: &Keys,
    ) -> Result<Work, AllocError>
        requires keys { new.now ≡ entry_keys (seen_left waiting.items) }
        ensures ready { IfOk result (λ w. IsReady w) }
        ensures rising { IfOk result (λ w. Rising 0 (reverse (seen_steps w.steps.items))) }
        ensures waiting { IfOk result (λ w. w.waiting ≡ waiting) }
        ensures keys { IfOk result (λ w. w.keys ≡ map code_key items.items) }
        ensures moves { IfOk result (λ w. count_moves (reverse (seen_steps w.steps.items)) ≡ moves_between w.keys new.now) }
        ensures olds { IfOk result (λ w. there w.olds.items ≡ items.items) }
    {
        let keys = keys_of_items(alloc, items.as_slice())?;
        let steps = steps_for(&keys, new)?;
        let olds = all_there(alloc, items)?;
        Ok(Work {
            keys,
            waiting,
            steps,
            olds,
        })
    }

    /// Whether the old item of the entry that was the next one moves.
    #[inline(never)]
    pub(crate) fn moves(&self) -> bool
        ensures { (s : Step) (ss : _) → reverse (seen_steps self.now.steps.items) ≡ s ∷ ss → result ≡ is_move s }
    {
        match self.steps.last() {
            Some(step) => moves_by(step),
            None => false,
        }
    }

    /// Takes the old item of the entry that was the next one, where there is one.
    #[inline(never)]
    pub(crate) fn take(&mut self) -> Result<Option<ItemCode>, AllocError>
        ensures taken { IfOk result (λ o. (s : Step) (ss : _) → reverse (seen_steps self.old.steps.items) ≡ s ∷ ss → (reverse (seen_steps self.new.steps.items) ≡ ss) × TakenBy s self.old.olds.items self.new.olds.items o) }
        ensures keys { self.new.keys ≡ self.old.keys }
        ensures waiting { self.new.waiting ≡ self.old.waiting }
    {
        match self.steps.pop() {
            Some(step) => old_of(&mut self.olds, step),
            None => Err(AllocError),
        }
    }

    /// The next entry with its old item, where there is one, and whether that moves.
    #[inline(never)]
    pub(crate) fn next(&mut self, alloc: Global) -> Result<Option<Next>, AllocError>
        ensures { IfOk result (λ o. Follows self.old self.new o) }
    {
        match self.waiting.pop() {
            Some(entry) => Ok(Some(self.next_for(alloc, entry)?)),
            None => Ok(None),
        }
    }

    // What is the next one, with this entry.
    #[inline(never)]
    fn next_for(&mut self, alloc: Global, entry: Entry) -> Result<Next, AllocError>
        ensures entry { IfOk result (λ x. x.entry.value ≡ entry) }
        ensures taken { IfOk result (λ x. (s : Step) (ss : _) → reverse (seen_steps self.old.steps.items) ≡ s ∷ ss → (reverse (seen_steps self.new.steps.items) ≡ ss) × TakenBy s self.old.olds.items self.new.olds.items (unboxed x.old)) }
        ensures moves { IfOk result (λ x. (s : Step) (ss : _) → reverse (seen_steps self.old.steps.items) ≡ s ∷ ss → x.moves ≡ is_move s) }
        ensures keys { self.new.keys ≡ self.old.keys }
        ensures waiting { self.new.waiting ≡ self.old.waiting }
    {
        let moves = self.moves();
        let old = boxed_old(alloc, self.take()?)?;
        let entry = Box::new(alloc, entry)?;
        Ok(Next { entry, old, moves })
    }

    /// The old items that were not taken.
    #[inline(never)]
    pub(crate) fn left(
        alloc: Global,
        olds: Vec<Option<ItemCode>>,
    ) -> Result<Vec<ItemCode>, AllocError>
        ensures { IfOk result (λ xs. xs.items ≡ filter_map (λ o. o) olds.items) }
    {
        olds.into_iter().filter_map(|old| old).collect(alloc)
    }
}

#[inline(never)]
// An old item, out of the way.
#[inline(never)]
fn boxed_old(alloc: Global, old: Option<ItemCode>) -> Result<Option<Box<ItemCode>>, AllocError>
    ensures { IfOk result (λ o. unboxed o ≡ old) }
{
    match old {
        Some(item) => Ok(Some(Box::new(alloc, item)?)),
        None => Ok(None),
    }
}

fn moves_by(step: &PlanStep) -> bool
    ensures { result ≡ is_move (step_view step.now) }
{
    matches!(step, PlanStep::Move { .. })
}

// Takes the old item that a step keeps.
#[inline(never)]
fn old_of(olds: &mut Vec<Option<ItemCode>>, step: PlanStep) -> Result<Option<ItemCode>, AllocError>
    ensures { IfOk result (λ o. TakenBy (step_view step) olds.old.items olds.new.items o) }
{
    match step {
        PlanStep::Retain { old } => take_at(olds, old),
        PlanStep::Move { old } => take_at(olds, old),
        PlanStep::Insert => Ok(None),
    }
}
