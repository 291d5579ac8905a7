// The program: it makes the real shelf and sinks, and passes the words on.
#![tactic(auto)]

ghost use Rattle.std.specs.Prelude.{◌≡◌};
ghost use Rattle.gl_commands.specs.Lines.{Says};
ghost use Rattle.gl_commands.specs.Run.{memory_line};

use gl_outside::{DirShelf, Sink, SinkFault, StdSink};
use gl_run::{Last, Status, run};
use std::alloc::{AllocError, Global};
use std::io::ErrorKind;
use std::process::ExitCode;
use std::rt::Env;
use std::{env, mem};

// The words after the program's name, or none where they are not texts.
fn words_of<R: Env + AllocGlobal>(rt: &R) -> Result<Vec<String>, AllocError> {
    let mut words = Vec::new(rt.alloc());
    match env::args(rt) {
        Ok(args) => {
            for word in args.skip(1) {
                words.push(word)?;
            }
            Ok(words)
        }
        Err(e) if e.kind() == ErrorKind::OutOfMemory => Err(AllocError),
        Err(_) => Ok(words),
    }
}

fn texts_of(alloc: Global, words: &[String]) -> Result<Vec<&str>, AllocError> {
    let mut texts = Vec::with_capacity(alloc, words.len())?;
    for word in words {
        texts.push(word.as_str())?;
    }
    Ok(texts)
}

fn run_words(rt: &HostRuntime, words: &[&str]) -> Status {
    let mut shelf = DirShelf::new(rt);
    let mut out = StdSink::new(rt.stdout());
    let mut err = StdSink::new(rt.stderr());
    let mut last = Last::new();
    let status = run(rt.alloc(), words, &mut shelf, &mut out, &mut err, &mut last);
    // The process ends here, and the system takes back what was kept.
    mem::forget(last);
    status
}

// Says that memory is wanting. It takes none itself, and what the sink does not take changes nothing else.
fn say_memory<E: Sink>(err: &mut E)
    ensures { Says (E.took err.old) (E.took err.new) (E.faults err.old) (E.faults err.new) (E.wants err.old) (E.wants err.new) memory_line }
{
    match err.put("out of memory\n".as_bytes()) {
        Ok(()) => {}
        Err(SinkFault::Failed) => {}
        Err(SinkFault::Memory) => {}
    }
}

fn attempt(rt: &HostRuntime) -> Result<Status, AllocError> {
    let words = words_of(rt)?;
    let texts = texts_of(rt.alloc(), &words)?;
    Ok(run_words(rt, &texts))
}

fn status_of(rt: &HostRuntime) -> Status {
    match attempt(rt) {
        Ok(status) => status,
        Err(AllocError) => {
            say_memory(&mut StdSink::new(rt.stderr()));
            Status::NoMemory
        }
    }
}

fn main(rt: HostRuntime) -> ExitCode {
    ExitCode::from(status_of(&rt).code())
}
