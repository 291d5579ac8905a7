// A shelf and a sink in memory that never fail.
ghost use Rattle.std.specs.Prelude.{◌≡◌, ◌<◌, ◌≤◌, ◌+◌, ℕ, [], IsTrue, OnOk, OnErr, IsErrOf, if◌then◌else◌, Some};
ghost use Rattle.gl_base.specs.Taking.{Takes, TakesFront};
ghost use Rattle.gl_outside.specs.Shelf.{Reads, IsAbsent, Begins};
ghost use Rattle.gl_outside.specs.Sink.{last_count, Wanted};

use crate::shelf::append_front;
use crate::{Files, Shelf, ShelfFault, Sink, SinkFault};
use std::alloc::Global;

/// Files in memory.
#[derive(Drop)]
pub struct CalmShelf {
    files: Files,
    misses: u64,
}

impl CalmShelf {
    /// A shelf of these files.
    pub fn new(files: Files) -> CalmShelf
        ensures holds { ⟦<CalmShelf as Shelf>⟧.holds result ≡ Some files }
        ensures misses { ⟦<CalmShelf as Shelf>⟧.misses result ≡ 0 }
        ensures faults { ⟦<CalmShelf as Shelf>⟧.faults result ≡ 0 }
    {
        CalmShelf { files, misses: 0 }
    }
}

impl Shelf for CalmShelf {
    ghost use Rattle.gl_outside.specs.CalmShelf.{files_of, misses_of, faults_of, is_missed};

    ghost holds = { λ s. Some s.files };

    ghost misses = { λ s. s.misses };

    ghost faults = { λ _. 0 };

    /// Where the misses stand at their last value, a name that isn't held gives `Memory`.
    fn fetch(&mut self, name: &str, most: usize, into: &mut Vec<u8>) -> Result<(), ShelfFault>
        ensures keeps { Some (files_of self.new) ≡ Some (files_of self.old) }
        ensures read { OnOk result (Reads (Some (files_of self.old)) name.now most into.old.items into.new.items) }
        ensures begins { Begins into.old.items into.new.items }
        ensures absent { IsErrOf result ShelfFault.Absent → IsAbsent (Some (files_of self.old)) name.now }
        ensures missed { IsErrOf result ShelfFault.Absent → misses_of self.old < misses_of self.new }
        ensures failed { IsErrOf result ShelfFault.Failed → faults_of self.old < faults_of self.new }
        ensures misses_stay { misses_of self.old ≤ misses_of self.new }
        ensures faults_stay { faults_of self.old ≤ faults_of self.new }

        // Beyond the trait: when it misses, and what an error leaves.
        ensures missing { IsTrue (is_missed self.old name.now) → result ≡ Err ShelfFault.Absent }
        ensures misses { misses_of self.new ≡ misses_of self.old + (if is_missed self.old name.now then 1 else 0) }
        ensures same { OnErr result (into.new.items ≡ into.old.items) }
    {
        match self.files.find(name) {
            Some(bytes) => {
                append_front(bytes, most, into)?;
                Ok(())
            }
            None if self.misses == u64::MAX => Err(ShelfFault::Memory),
            None => {
                self.misses += 1;
                Err(ShelfFault::Absent)
            }
        }
    }
}

/// A sink in memory.
#[derive(Drop)]
pub struct CalmSink {
    taken: Vec<u8>,
    wants: u64,
}

impl CalmSink {
    /// A sink that took nothing so far. It takes no memory.
    pub fn new(alloc: Global) -> CalmSink
        ensures took { ⟦<CalmSink as Sink>⟧.took result ≡ Some [] }
        ensures faults { ⟦<CalmSink as Sink>⟧.faults result ≡ 0 }
        ensures wants { ⟦<CalmSink as Sink>⟧.wants result ≡ 0 }
    {
        CalmSink {
            taken: Vec::new(alloc),
            wants: 0,
        }
    }

    /// The bytes that it took.
    pub fn taken(&self) -> &[u8]
        ensures { ⟦<CalmSink as Sink>⟧.took self.now ≡ Some result.now }
    {
        self.taken.as_slice()
    }
}

impl Sink for CalmSink {
    ghost use Rattle.gl_outside.specs.CalmSink.{taken_of, faults_of, wants_of};

    ghost took = { λ s. Some s.taken.items };

    ghost faults = { λ _. 0 };

    ghost wants = { λ s. s.wants };

    /// Where the wants stand at their last value, it gives `Memory`.
    fn put(&mut self, piece: &[u8]) -> Result<(), SinkFault>
        ensures whole { OnOk result (Takes (Some (taken_of self.old)) (Some (taken_of self.new)) piece.now) }
        ensures failed { IsErrOf result SinkFault.Failed → faults_of self.old < faults_of self.new }
        ensures front { IsErrOf result SinkFault.Failed → TakesFront (Some (taken_of self.old)) (Some (taken_of self.new)) piece.now }
        ensures memory { IsErrOf result SinkFault.Memory → Wanted (faults_of self.old) (wants_of self.old) (wants_of self.new) }
        ensures nothing { IsErrOf result SinkFault.Memory → Some (taken_of self.new) ≡ Some (taken_of self.old) }
        ensures faults_stay { faults_of self.old ≤ faults_of self.new }
        ensures wants_stay { wants_of self.old ≤ wants_of self.new }

        // Beyond the trait: when the wants rise.
        ensures wanted { OnOk result (wants_of self.new ≡ wants_of self.old) }
        ensures full { wants_of self.old ≡ last_count → result ≡ Err SinkFault.Memory }
    {
        if self.wants == u64::MAX {
            return Err(SinkFault::Memory);
        }
        if self.taken.extend_from_slice(piece).is_err() {
            self.wants += 1;
            return Err(SinkFault::Memory);
        }
        Ok(())
    }
}
