// A shelf and a sink in memory that fail at listed calls.
ghost use Rattle.std.specs.Prelude.{◌≡◌, ◌≢◌, ◌<◌, ◌≤◌, ◌+◌, ◌++◌, ℕ, [], take, IsTrue, OnOk, OnErr, IsErrOf, IsSomeAnd, IsOkUnless, is_some, if◌then◌else◌, Some};
ghost use Rattle.gl_base.specs.Taking.{Takes, TakesFront};
ghost use Rattle.gl_outside.specs.Shelf.{Reads, IsAbsent, Begins};
ghost use Rattle.gl_outside.specs.Sink.{last_count, Wanted};

use crate::shelf::append_front;
use crate::{Calls, Cuts, Files, Shelf, ShelfFault, Sink, SinkFault};
use std::alloc::Global;

/// Files in memory, with fetches that fail.
#[derive(Drop)]
pub struct MemShelf {
    files: Files,
    failing: Calls,
    calls: u64,
    misses: u64,
    faults: u64,
}

impl MemShelf {
    ghost use Rattle.gl_outside.specs.MemShelf.{calls_of, failing_of};

    /// A shelf of these files. Its fetches with the listed numbers, from 0, fail.
    pub fn new(files: Files, failing: Calls) -> MemShelf
        ensures holds { ⟦<MemShelf as Shelf>⟧.holds result ≡ Some files }
        ensures failing { failing_of result ≡ failing }
        ensures calls { calls_of result ≡ 0 }
        ensures misses { ⟦<MemShelf as Shelf>⟧.misses result ≡ 0 }
        ensures faults { ⟦<MemShelf as Shelf>⟧.faults result ≡ 0 }
    {
        MemShelf {
            files,
            failing,
            calls: 0,
            misses: 0,
            faults: 0,
        }
    }

    /// How many of its fetches asked for a name that it doesn't hold.
    pub fn misses(&self) -> u64
        ensures { result ≡ ⟦<MemShelf as Shelf>⟧.misses self.now }
    {
        self.misses
    }

    /// How many of its fetches failed.
    pub fn faults(&self) -> u64
        ensures { result ≡ ⟦<MemShelf as Shelf>⟧.faults self.now }
    {
        self.faults
    }
}

impl Shelf for MemShelf {
    ghost use Rattle.gl_outside.specs.MemShelf.{files_of, failing_of, calls_of, misses_of, faults_of, IsFull, is_failing, is_missed};

    ghost holds = { λ s. Some s.files };

    ghost misses = { λ s. s.misses };

    ghost faults = { λ s. s.faults };

    /// Where one of the counts, of its calls too, stands at its last value, it gives `Memory`.
    fn fetch(&mut self, name: &str, most: usize, into: &mut Vec<u8>) -> Result<(), ShelfFault>
        ensures keeps { Some (files_of self.new) ≡ Some (files_of self.old) }
        ensures read { OnOk result (Reads (Some (files_of self.old)) name.now most into.old.items into.new.items) }
        ensures begins { Begins into.old.items into.new.items }
        ensures absent { IsErrOf result ShelfFault.Absent → IsAbsent (Some (files_of self.old)) name.now }
        ensures missed { IsErrOf result ShelfFault.Absent → misses_of self.old < misses_of self.new }
        ensures failed { IsErrOf result ShelfFault.Failed → faults_of self.old < faults_of self.new }
        ensures misses_stay { misses_of self.old ≤ misses_of self.new }
        ensures faults_stay { faults_of self.old ≤ faults_of self.new }

        // Beyond the trait: it fails exactly at the listed calls, and misses exactly at the others
        // for a name that isn't held.
        ensures fails { ¬ IsFull self.old → IsTrue (is_failing self.old) → result ≡ Err ShelfFault.Failed }
        ensures missing { ¬ IsFull self.old → IsTrue (is_missed self.old name.now) → result ≡ Err ShelfFault.Absent }
        ensures faults { ¬ IsFull self.old → faults_of self.new ≡ faults_of self.old + (if is_failing self.old then 1 else 0) }
        ensures misses { ¬ IsFull self.old → misses_of self.new ≡ misses_of self.old + (if is_missed self.old name.now then 1 else 0) }
        ensures calls { ¬ IsFull self.old → calls_of self.new ≡ calls_of self.old + 1 }
        ensures failing { failing_of self.new ≡ failing_of self.old }
        ensures same { OnErr result (into.new.items ≡ into.old.items) }
        ensures full { IsFull self.old → result ≡ Err ShelfFault.Memory }
        ensures full_same { IsFull self.old → self.new ≡ self.old }
    {
        if self.calls == u64::MAX || self.misses == u64::MAX || self.faults == u64::MAX {
            return Err(ShelfFault::Memory);
        }
        let fails = self.failing.contains(self.calls);
        self.calls += 1;
        if fails {
            self.faults += 1;
            return Err(ShelfFault::Failed);
        }
        match self.files.find(name) {
            Some(bytes) => {
                append_front(bytes, most, into)?;
                Ok(())
            }
            None => {
                self.misses += 1;
                Err(ShelfFault::Absent)
            }
        }
    }
}

/// A sink in memory, with puts that fail.
#[derive(Drop)]
pub struct MemSink {
    taken: Vec<u8>,
    failing: Cuts,
    calls: u64,
    faults: u64,
    wants: u64,
}

impl MemSink {
    ghost use Rattle.gl_outside.specs.MemSink.{taken_of, failing_of, calls_of, faults_of, wants_of};

    /// A sink that took nothing so far. Its puts with the listed numbers, from 0, fail, and take the
    /// listed numbers of bytes, or all of a shorter piece. It takes no memory.
    pub fn new(alloc: Global, failing: Cuts) -> MemSink
        ensures took { ⟦<MemSink as Sink>⟧.took result ≡ Some [] }
        ensures failing { failing_of result ≡ failing }
        ensures calls { calls_of result ≡ 0 }
        ensures faults { ⟦<MemSink as Sink>⟧.faults result ≡ 0 }
        ensures wants { ⟦<MemSink as Sink>⟧.wants result ≡ 0 }
    {
        MemSink {
            taken: Vec::new(alloc),
            failing,
            calls: 0,
            faults: 0,
            wants: 0,
        }
    }

    /// The bytes that it took.
    pub fn taken(&self) -> &[u8]
        ensures { ⟦<MemSink as Sink>⟧.took self.now ≡ Some result.now }
    {
        self.taken.as_slice()
    }

    /// How many of its puts failed.
    pub fn faults(&self) -> u64
        ensures { result ≡ ⟦<MemSink as Sink>⟧.faults self.now }
    {
        self.faults
    }

    /// How many of its puts wanted memory.
    pub fn wants(&self) -> u64
        ensures { result ≡ ⟦<MemSink as Sink>⟧.wants self.now }
    {
        self.wants
    }

    // Takes these bytes, or counts a want of memory.
    fn append(&mut self, bytes: &[u8]) -> Result<(), SinkFault>
        requires { wants_of self.old < last_count }
        ensures ok { OnOk result (taken_of self.new ≡ taken_of self.old ++ bytes.now) }
        ensures ok_wants { OnOk result (wants_of self.new ≡ wants_of self.old) }
        ensures err { OnErr result (taken_of self.new ≡ taken_of self.old) }
        ensures err_wants { OnErr result (wants_of self.new ≡ wants_of self.old + 1) }
        ensures memory { IsOkUnless result SinkFault.Memory }
        ensures faults { faults_of self.new ≡ faults_of self.old }
        ensures calls { calls_of self.new ≡ calls_of self.old }
        ensures failing { failing_of self.new ≡ failing_of self.old }
    {
        if self.taken.extend_from_slice(bytes).is_err() {
            self.wants += 1;
            return Err(SinkFault::Memory);
        }
        Ok(())
    }
}

impl Sink for MemSink {
    ghost use Rattle.gl_outside.specs.MemSink.{taken_of, failing_of, calls_of, faults_of, wants_of, IsFull, next_cut};

    ghost took = { λ s. Some s.taken.items };

    ghost faults = { λ s. s.faults };

    ghost wants = { λ s. s.wants };

    /// Where one of the counts, of its calls too, stands at its last value, it gives `Memory`. A listed
    /// call that finds no memory gives `Memory` too, and is counted as a fault as well.
    fn put(&mut self, piece: &[u8]) -> Result<(), SinkFault>
        ensures whole { OnOk result (Takes (Some (taken_of self.old)) (Some (taken_of self.new)) piece.now) }
        ensures failed { IsErrOf result SinkFault.Failed → faults_of self.old < faults_of self.new }
        ensures front { IsErrOf result SinkFault.Failed → TakesFront (Some (taken_of self.old)) (Some (taken_of self.new)) piece.now }
        ensures memory { IsErrOf result SinkFault.Memory → Wanted (faults_of self.old) (wants_of self.old) (wants_of self.new) }
        ensures nothing { IsErrOf result SinkFault.Memory → Some (taken_of self.new) ≡ Some (taken_of self.old) }
        ensures faults_stay { faults_of self.old ≤ faults_of self.new }
        ensures wants_stay { wants_of self.old ≤ wants_of self.new }

        // Beyond the trait: a listed call is a fault and takes the listed number of bytes, and wants
        // rise only with `Memory`.
        ensures unlisted { OnOk result (next_cut self.old ≡ None) }
        ensures cut { IsErrOf result SinkFault.Failed → IsSomeAnd (next_cut self.old)
            (λ count. taken_of self.new ≡ taken_of self.old ++ take count piece.now) }
        ensures faults { ¬ IsFull self.old → faults_of self.new ≡ faults_of self.old + (if is_some (next_cut self.old) then 1 else 0) }
        ensures wanted { result ≢ Err SinkFault.Memory → wants_of self.new ≡ wants_of self.old }
        ensures calls { ¬ IsFull self.old → calls_of self.new ≡ calls_of self.old + 1 }
        ensures failing { failing_of self.new ≡ failing_of self.old }
        ensures full { IsFull self.old → result ≡ Err SinkFault.Memory }
        ensures full_calls { IsFull self.old → calls_of self.new ≡ calls_of self.old }
        ensures full_faults { IsFull self.old → faults_of self.new ≡ faults_of self.old }
    {
        if self.faults == u64::MAX || self.wants == u64::MAX {
            return Err(SinkFault::Memory);
        }
        if self.calls == u64::MAX {
            self.wants += 1;
            return Err(SinkFault::Memory);
        }
        let cut = self.failing.find(self.calls);
        self.calls += 1;
        match cut {
            Some(takes) => {
                self.faults += 1;
                self.append(&piece[..takes.min(piece.len())])?;
                Err(SinkFault::Failed)
            }
            None => self.append(piece),
        }
    }
}
