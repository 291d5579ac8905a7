// Before the system: files of the working folder, and an open stream. They tell nothing of content.
ghost use Rattle.std.specs.Prelude.{◌≡◌, ◌≢◌, ◌<◌, ◌≤◌, ℕ, [], None, IsTrue, OnOk, IsErrOf};
ghost use Rattle.std.specs.Io.KnownBytes.{Appends};
ghost use Rattle.gl_base.specs.Taking.{Takes, TakesFront};
ghost use Rattle.gl_outside.specs.Shelf.{Gains};
ghost use Rattle.gl_outside.specs.Sink.{Wanted};

use crate::{Shelf, ShelfFault, Sink, SinkFault};
use std::fs;
use std::io::{ErrorKind, Read, Write};
use std::rt::Files;

/// Files by their paths from the working folder.
#[derive(Drop)]
pub struct DirShelf<R> {
    rt: R,
    misses: u64,
    faults: u64,
}

impl<R: Files> DirShelf<R> {
    /// The files that the runtime reaches.
    pub fn new(rt: R) -> DirShelf<R>
        ensures holds { ⟦<DirShelf<R> as Shelf>⟧.holds result ≡ None }
        ensures misses { ⟦<DirShelf<R> as Shelf>⟧.misses result ≡ 0 }
        ensures faults { ⟦<DirShelf<R> as Shelf>⟧.faults result ≡ 0 }
    {
        DirShelf {
            rt,
            misses: 0,
            faults: 0,
        }
    }
}

// How many bytes are read at once.
const PIECE: usize = 65536;

// Reads up to `most` bytes.
fn read_up_to<F: Read>(file: &mut F, most: usize, into: &mut Vec<u8>) -> Result<(), ShelfFault>
    ensures gains { Gains most into.old.items into.new.items }
    ensures present { result ≢ Err ShelfFault.Absent }
{
    let mut left = most;
    let mut buffer = Vec::new(*into.allocator());
    buffer.resize(left.min(PIECE), 0u8)?;
    while left > 0 {
        let room = left.min(buffer.len());
        let count = match file.read(&mut buffer[..room]) {
            Ok(count) => count,
            Err(_) => return Err(ShelfFault::Failed),
        };
        if count == 0 {
            return Ok(());
        }
        into.extend_from_slice(&buffer[..count])?;
        left -= count;
    }
    Ok(())
}

// `Absent` comes only where the system says that there is no such file.
fn open_and_read<R: Files>(
    rt: &R,
    name: &str,
    most: usize,
    into: &mut Vec<u8>,
) -> Result<(), ShelfFault>
    ensures gains { Gains most into.old.items into.new.items }
{
    match fs::open(rt, name) {
        Ok(mut file) => read_up_to(&mut file, most, into),
        Err(e) if e.kind() == ErrorKind::NotFound => Err(ShelfFault::Absent),
        Err(_) => Err(ShelfFault::Failed),
    }
}

impl<R: Files> Shelf for DirShelf<R> {
    ghost holds = { λ _. None };

    ghost misses = { λ s. s.misses };

    ghost faults = { λ s. s.faults };

    fn fetch(&mut self, name: &str, most: usize, into: &mut Vec<u8>) -> Result<(), ShelfFault> {
        if self.misses == u64::MAX || self.faults == u64::MAX {
            return Err(ShelfFault::Memory);
        }
        match open_and_read(&self.rt, name, most, into) {
            Err(ShelfFault::Absent) => {
                self.misses += 1;
                Err(ShelfFault::Absent)
            }
            Err(ShelfFault::Failed) => {
                self.faults += 1;
                Err(ShelfFault::Failed)
            }
            other => other,
        }
    }
}

/// An open stream, as standard output.
#[derive(Drop)]
pub struct StdSink<W> {
    stream: W,
    faults: u64,
}

impl<W: Write> StdSink<W> {
    /// A sink that writes to the stream.
    pub fn new(stream: W) -> StdSink<W>
        ensures took { ⟦<StdSink<W> as Sink>⟧.took result ≡ None }
        ensures faults { ⟦<StdSink<W> as Sink>⟧.faults result ≡ 0 }
        ensures wants { ⟦<StdSink<W> as Sink>⟧.wants result ≡ 0 }
    {
        StdSink { stream, faults: 0 }
    }
}

// Writes the whole piece, and says whether the stream took it.
fn write_whole<W: Write>(stream: &mut W, piece: &[u8]) -> bool
    ensures { IsTrue result → Appends (W.contents stream.old) (W.contents stream.new) piece.now }
{
    let mut rest = piece;
    while !rest.is_empty() {
        match stream.write(rest) {
            Ok(0) | Err(_) => return false,
            Ok(count) => rest = &rest[count..],
        }
    }
    stream.flush().is_ok()
}

impl<W: Write> Sink for StdSink<W> {
    ghost use Rattle.gl_outside.specs.StdSink.{stream_of, faults_of};

    ghost took = { λ _. None };

    ghost faults = { λ s. s.faults };

    ghost wants = { λ _. 0 };

    /// It takes no memory: `Memory` comes only where the faults stand at their last value.
    fn put(&mut self, piece: &[u8]) -> Result<(), SinkFault>
        ensures whole { OnOk result (Takes None None piece.now) }
        ensures failed { IsErrOf result SinkFault.Failed → faults_of self.old < faults_of self.new }
        ensures front { IsErrOf result SinkFault.Failed → TakesFront None None piece.now }
        ensures memory { IsErrOf result SinkFault.Memory → Wanted (faults_of self.old) 0 0 }
        ensures nothing { IsErrOf result SinkFault.Memory → Takes None None [] }
        ensures faults_stay { faults_of self.old ≤ faults_of self.new }
        ensures wants_stay { 0 ≤ 0 }

        // Beyond the trait: where the stream tells what it holds, it took the piece.
        ensures written { OnOk result (Appends (W.contents (stream_of self.old)) (W.contents (stream_of self.new)) piece.now) }
    {
        if self.faults == u64::MAX {
            return Err(SinkFault::Memory);
        }
        if write_whole(&mut self.stream, piece) {
            Ok(())
        } else {
            self.faults += 1;
            Err(SinkFault::Failed)
        }
    }
}
