// What callers meet when the types run: answers, bytes and counts.
use gl_outside::{
    Calls, CalmShelf, CalmSink, Cut, Cuts, DirShelf, File, Files, MemShelf, MemSink, Shelf,
    ShelfFault, Sink, SinkFault, StdSink,
};
use std::alloc::{AllocError, Global};
use std::process::Abort;
use std::test::Fail;

// A file's name, how many bytes at most, the answer, and what `into` has then.
type Fetch = (&'static str, usize, Result<(), ShelfFault>, &'static str);

static FILES: [(&str, &str); 3] = [("a.txt", "abcdef"), ("b.txt", ""), ("a.txt", "second")];

// Calls 1 and 4 fail.
static MEM_FETCHES: [Fetch; 8] = [
    ("a.txt", 4, Ok(()), ">abcd"),
    ("a.txt", 4, Err(ShelfFault::Failed), ">"),
    ("c.txt", 4, Err(ShelfFault::Absent), ">"),
    ("a.txt", 6, Ok(()), ">abcdef"),
    ("c.txt", 4, Err(ShelfFault::Failed), ">"),
    ("a.txt", 100, Ok(()), ">abcdef"),
    ("b.txt", 9, Ok(()), ">"),
    ("a.txt", 0, Ok(()), ">"),
];

static CALM_FETCHES: [Fetch; 4] = [
    ("a.txt", 5, Ok(()), ">abcde"),
    ("c.txt", 5, Err(ShelfFault::Absent), ">"),
    ("a.txt", 7, Ok(()), ">abcdef"),
    ("", 7, Err(ShelfFault::Absent), ">"),
];

static SYSTEM_FETCHES: [Fetch; 3] = [
    ("/dev/null", 9, Ok(()), ">"),
    (".", 9, Err(ShelfFault::Failed), ">"),
    ("no/such/file", 9, Err(ShelfFault::Absent), ">"),
];

// A piece and the answer.
type Put = (&'static str, Result<(), SinkFault>);

// Call 1 takes 2 bytes, call 3 all of a short piece, call 4 nothing.
static MEM_PUTS: [Put; 6] = [
    ("abc", Ok(())),
    ("defg", Err(SinkFault::Failed)),
    ("", Ok(())),
    ("hij", Err(SinkFault::Failed)),
    ("kl", Err(SinkFault::Failed)),
    ("mn", Ok(())),
];

static WHOLE_PUTS: [Put; 3] = [("ab", Ok(())), ("", Ok(())), ("cd", Ok(()))];

// There is room for 4 bytes.
static SHORT_PUTS: [Put; 3] = [
    ("abc", Ok(())),
    ("def", Err(SinkFault::Failed)),
    ("", Ok(())),
];

fn files(alloc: Global) -> Result<Files, AllocError> {
    let mut files = Files::new(alloc);
    for (name, text) in FILES {
        let mut bytes = Vec::new(alloc);
        bytes.extend_from_slice(text.as_bytes())?;
        files.push(File::new(String::from_str(alloc, name)?, bytes))?;
    }
    Ok(files)
}

fn calls(alloc: Global) -> Result<Calls, AllocError> {
    let mut calls = Calls::new(alloc);
    calls.push(1)?;
    calls.push(4)?;
    Ok(calls)
}

fn cuts(alloc: Global) -> Result<Cuts, AllocError> {
    let mut cuts = Cuts::new(alloc);
    cuts.push(Cut::new(1, 2))?;
    cuts.push(Cut::new(3, 100))?;
    cuts.push(Cut::new(4, 0))?;
    Ok(cuts)
}

fn fetches<S: Shelf>(
    rt: &impl Abort,
    alloc: Global,
    shelf: &mut S,
    rows: &[Fetch],
) -> Result<(), AllocError> {
    for (name, most, want, bytes) in rows {
        let mut into = Vec::new(alloc);
        into.push(b'>')?;
        let answer = shelf.fetch(name, *most, &mut into);
        assert_eq!(rt; answer, *want, "{name} up to {most}");
        assert_eq!(rt; into.as_slice(), bytes.as_bytes(), "{name} up to {most}");
    }
    Ok(())
}

fn puts<K: Sink>(rt: &impl Abort, sink: &mut K, rows: &[Put]) {
    for (piece, want) in rows {
        let answer = sink.put(piece.as_bytes());
        assert_eq!(rt; answer, *want, "{piece}");
    }
}

fn check_files(rt: &impl Abort, alloc: Global) -> Result<(), AllocError> {
    let files = files(alloc)?;
    assert_eq!(rt; files.len(), 3);
    assert_eq!(rt; files.get(2).map(File::name), Some("a.txt"));
    assert!(rt; files.get(3).is_none());
    assert!(rt; !Files::from_vec(files.into_vec()).is_empty());
    Ok(())
}

fn check_calls(rt: &impl Abort, alloc: Global) -> Result<(), AllocError> {
    let calls = calls(alloc)?;
    assert_eq!(rt; calls.get(1), Some(4));
    assert_eq!(rt; calls.len(), 2);
    assert!(rt; calls.contains(4));
    assert_eq!(rt;
        Calls::from_vec(calls.into_vec()).as_slice(),
        [1, 4].as_slice()
    );
    Ok(())
}

fn check_cuts(rt: &impl Abort, alloc: Global) -> Result<(), AllocError> {
    let cuts = cuts(alloc)?;
    assert_eq!(rt; cuts.find(3), Some(100));
    assert_eq!(rt; cuts.find(2), None);
    assert_eq!(rt; cuts.len(), 3);
    assert_eq!(rt; cuts.get(0).map(Cut::takes), Some(2));
    assert_eq!(rt; Cuts::from_vec(cuts.into_vec()).as_slice().len(), 3);
    Ok(())
}

fn shelves(rt: &impl Abort, alloc: Global) -> Result<(), AllocError> {
    let mut shelf = MemShelf::new(files(alloc)?, calls(alloc)?);
    fetches(rt, alloc, &mut shelf, &MEM_FETCHES)?;
    assert_eq!(rt; (shelf.misses(), shelf.faults()), (1, 2));
    fetches(rt, alloc, &mut CalmShelf::new(files(alloc)?), &CALM_FETCHES)
}

fn sinks(rt: &impl Abort, alloc: Global) -> Result<(), AllocError> {
    let mut sink = MemSink::new(alloc, cuts(alloc)?);
    puts(rt, &mut sink, &MEM_PUTS);
    assert_eq!(rt; sink.taken(), b"abcdehijmn".as_slice());
    assert_eq!(rt; (sink.faults(), sink.wants()), (3, 0));
    let mut calm = CalmSink::new(alloc);
    puts(rt, &mut calm, &WHOLE_PUTS);
    assert_eq!(rt; calm.taken(), b"abcd".as_slice());
    Ok(())
}

fn streams(rt: &impl Abort, alloc: Global) {
    let mut long = Vec::new(alloc);
    puts(rt, &mut StdSink::new(&mut long), &WHOLE_PUTS);
    assert_eq!(rt; long.as_slice(), b"abcd".as_slice());
    let mut short = [0u8; 4];
    puts(rt, &mut StdSink::new(short.as_mut_slice()), &SHORT_PUTS);
    assert_eq!(rt; short.as_slice(), b"abcd".as_slice());
}

#[test]
fn lists(rt: HostRuntime) -> Result<(), Fail> {
    check_files(&rt, rt.alloc())?;
    check_calls(&rt, rt.alloc())?;
    check_cuts(&rt, rt.alloc())?;
    Ok(())
}

#[test]
fn answers_as_the_tables_say(rt: HostRuntime) -> Result<(), Fail> {
    let alloc = rt.alloc();
    shelves(&rt, alloc)?;
    sinks(&rt, alloc)?;
    streams(&rt, alloc);
    Ok(())
}

#[test]
fn files_of_the_system(rt: HostRuntime) -> Result<(), Fail> {
    let mut system = DirShelf::new(&rt);
    fetches(&rt, rt.alloc(), &mut system, &SYSTEM_FETCHES)?;
    Ok(())
}

#[test]
fn more_than_one_read(rt: HostRuntime) -> Result<(), Fail> {
    let mut system = DirShelf::new(&rt);
    let mut zeros = Vec::new(rt.alloc());
    let answer = system.fetch("/dev/zero", 100000, &mut zeros);
    assert_eq!(rt; answer, Ok(()));
    assert_eq!(rt; zeros.len(), 100000);
    Ok(())
}
