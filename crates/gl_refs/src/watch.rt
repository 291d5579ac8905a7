// Which positions may have read something that was touched since the turn began, told by the numbers of their ids alone.
//
// For each dirtyable tag it is kept between which numbers the positions stand that were evaluated over it. Where the tag is
// touched, all numbers between are those of positions that may be stale; so a question about any other one is answered without
// a look at the position or its tags. It is never told of too few, and may be told of too many.
ghost use Rattle.std.specs.Prelude.{◌≡◌, ◌<◌, length, true, not, IsTrue, OnErr};
ghost use Rattle.gl_refs.specs.Forms.{Each};
ghost use Rattle.gl_refs.specs.Watch.{within, span_at, hot_in, is_hot, covers};

use gl_tags::TagId;
use std::alloc::{AllocError, Global};

// The numbers from one to another; none where the first is above the second.
#[derive(Clone, Copy)]
pub(crate) struct Span {
    pub(crate) low: u64,
    pub(crate) high: u64,
}

impl Span {
    // No number.
    const NONE: Span = Span {
        low: u64::MAX,
        high: 0,
    };

    // This number alone.
    fn of(number: u64) -> Span
        ensures { within result number ≡ true }
    {
        Span {
            low: number,
            high: number,
        }
    }

    fn has(&self, number: u64) -> bool
        ensures { result ≡ within self.now number }
    {
        self.low <= number && number <= self.high
    }

    // The least span that has all numbers of both.
    fn joined(&self, with: Span) -> Span
        ensures one { (n : _) → within self.now n ≡ true → within result n ≡ true }
        ensures with { (n : _) → within with n ≡ true → within result n ≡ true }
    {
        Span {
            low: self.low.min(with.low),
            high: self.high.max(with.high),
        }
    }

    // Whether it has no numbers, or some that are near to these.
    fn takes(&self, span: &Span) -> bool {
        self.low > self.high
            || span.low <= self.high.saturating_add(64) && self.low <= span.high.saturating_add(64)
    }
}

// A few spans that may be far from each other.
#[derive(Clone, Copy)]
pub(crate) struct Hot {
    pub(crate) first: Span,
    pub(crate) second: Span,
    pub(crate) third: Span,
    pub(crate) rest: Span,
}

impl Hot {
    // No number.
    const NONE: Hot = Hot {
        first: Span::NONE,
        second: Span::NONE,
        third: Span::NONE,
        rest: Span::NONE,
    };

    fn has(&self, number: u64) -> bool
        ensures { result ≡ hot_in self.now number }
    {
        self.first.has(number)
            || self.second.has(number)
            || self.third.has(number)
            || self.rest.has(number)
    }

    // All numbers of a span are put in.
    fn add(&mut self, span: Span)
        ensures old { (n : _) → hot_in self.old n ≡ true → hot_in self.new n ≡ true }
        ensures new { (n : _) → within span n ≡ true → hot_in self.new n ≡ true }
    {
        if self.first.takes(&span) {
            self.first = self.first.joined(span);
        } else if self.second.takes(&span) {
            self.second = self.second.joined(span);
        } else if self.third.takes(&span) {
            self.third = self.third.joined(span);
        } else {
            self.rest = self.rest.joined(span);
        }
    }
}

// Has a list have a place. Where it can't, for want of memory, it says no.
fn reach(spans: &mut Vec<Span>, place: usize) -> bool
    ensures reached { IsTrue result → place < length spans.new.items }
    ensures stay { (p : _) → span_at spans.new.items p ≡ span_at spans.old.items p }
{
    for _ in 0..usize::MAX {
        if place < spans.len() {
            return true;
        }
        if spans.push(Span::NONE).is_err() {
            return false;
        }
    }
    false
}

// Has the span at a place have a number. Where it can't, for want of memory, it says no.
fn widen(spans: &mut Vec<Span>, place: usize, number: u64) -> bool
    ensures widened { IsTrue result → within (span_at spans.new.items place) number ≡ true }
    ensures wider { (p : _) (n : _) → within (span_at spans.old.items p) n ≡ true → within (span_at spans.new.items p) n ≡ true }
{
    if !reach(spans, place) {
        return false;
    }
    let span = spans[place].joined(Span::of(number));
    spans[place] = span;
    true
}

// The same at the place of each of these tags.
fn widen_all(spans: &mut Vec<Span>, tags: &[TagId], number: u64) -> bool
    ensures widened { IsTrue result → Each (λ t. within (span_at spans.new.items t.0) number ≡ true) tags.now }
    ensures wider { (p : _) (n : _) → within (span_at spans.old.items p) n ≡ true → within (span_at spans.new.items p) n ≡ true }
{
    for tag in tags {
        if !widen(spans, tag.place(), number) {
            return false;
        }
    }
    true
}

#[derive(Drop)]
pub(crate) struct Watch {
    pub(crate) spans: Vec<Span>,
    pub(crate) hot: Hot,
    // Nothing is known any more, since memory was wanting. Each evaluation says so then.
    pub(crate) lost: bool,
}

impl Watch {
    pub(crate) fn new(alloc: Global) -> Watch {
        Watch {
            spans: Vec::new(alloc),
            hot: Hot::NONE,
            lost: false,
        }
    }

    // The reference with a number was evaluated, and these are the tags over which. It is noted of a position alone.
    pub(crate) fn note(&mut self, position: bool, tags: &[TagId], number: u64)
        ensures covers { position ≡ true → Each (λ t. covers self.new t.0 number ≡ true) tags.now }
        ensures hot { position ≡ true → is_hot self.new number ≡ true }
        ensures wider { (p : _) (n : _) → covers self.old p n ≡ true → covers self.new p n ≡ true }
        ensures hotter { (n : _) → is_hot self.old n ≡ true → is_hot self.new n ≡ true }
    {
        if position {
            self.note_position(tags, number);
        }
    }

    fn note_position(&mut self, tags: &[TagId], number: u64)
        ensures covers { Each (λ t. covers self.new t.0 number ≡ true) tags.now }
        ensures hot { is_hot self.new number ≡ true }
        ensures wider { (p : _) (n : _) → covers self.old p n ≡ true → covers self.new p n ≡ true }
        ensures hotter { (n : _) → is_hot self.old n ≡ true → is_hot self.new n ≡ true }
    {
        if widen_all(&mut self.spans, tags, number) {
            self.hot.add(Span::of(number));
        } else {
            self.lost = true;
        }
    }

    // Where memory was wanting once, it is told to whoever evaluates.
    pub(crate) fn told(&self) -> Result<(), AllocError>
        ensures { OnErr result (self.now.lost ≡ true) }
    {
        if self.lost { Err(AllocError) } else { Ok(()) }
    }

    // A tag is touched.
    pub(crate) fn touch(&mut self, tag: TagId)
        ensures touched { (n : _) → covers self.old tag.0 n ≡ true → is_hot self.new n ≡ true }
        ensures wider { (p : _) (n : _) → covers self.old p n ≡ true → covers self.new p n ≡ true }
        ensures hotter { (n : _) → is_hot self.old n ≡ true → is_hot self.new n ≡ true }
    {
        if tag.place() < self.spans.len() {
            let span = self.spans[tag.place()];
            self.hot.add(span);
        }
    }

    // A turn begins, in which nothing was touched yet.
    pub(crate) fn begin(&mut self)
        ensures { (p : _) (n : _) → covers self.old p n ≡ true → covers self.new p n ≡ true }
    {
        self.hot = Hot::NONE;
    }

    // Whether nothing that the position with a number read was touched since the turn began. Where it says no, that may be
    // so too.
    pub(crate) fn quiet(&self, number: u64) -> bool
        ensures { result ≡ not (is_hot self.now number) }
    {
        !self.lost && !self.hot.has(number)
    }
}
