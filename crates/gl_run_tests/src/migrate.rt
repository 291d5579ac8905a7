// Wires of files that are migrated, over shelves and sinks in memory.
use gl_outside::{
    Calls, CalmShelf, CalmSink, Cut, Cuts, File, Files, MemShelf, MemSink, Shelf, Sink,
};
use gl_run::{Last, Status, run};
use std::alloc::{AllocError, Global};
use std::process::Abort;
use std::test::Fail;

const MIGRATE: &[&str] = &["migrate", "w.json"];

// What it shows, the file, the status, `out` and `err`.
type Row = (
    &'static str,
    &'static str,
    Status,
    &'static str,
    &'static str,
);

static ROWS: [Row; 9] = [
    (
        "a yield of version 1",
        "{\"body\":[[\"yield\",[]]],\"symbols\":[],\"v\":1}",
        Status::Done,
        "{\"body\":[[\"yield\",[],\"default\"]],\"symbols\":[],\"v\":2}\n",
        "",
    ),
    (
        "a component of version 1, written with white space and other members first",
        "{ \"v\": 1, \"symbols\": [\"p\"],\n \"body\": [[\"comp\",\"C\",[],[],[0]],[\"put\",[\"sym\",0]],[\"end\"]] }\n",
        Status::Done,
        "{\"body\":[[\"comp\",\"C\",[],[]],[\"slot\",\"default\",[0]],[\"put\",[\"sym\",0]],[\"end\"],[\"end\"]],\"symbols\":[\"p\"],\"v\":2}\n",
        "",
    ),
    (
        "version 2 stays",
        "{\"body\":[[\"comp\",\"C\",[],[]],[\"slot\",\"a\",[]],[\"end\"],[\"end\"]],\"symbols\":[],\"v\":2}",
        Status::Done,
        "{\"body\":[[\"comp\",\"C\",[],[]],[\"slot\",\"a\",[]],[\"end\"],[\"end\"]],\"symbols\":[],\"v\":2}\n",
        "",
    ),
    (
        "another shape",
        "[]",
        Status::Refused,
        "",
        "\"w.json\": bad wire\n",
    ),
    (
        "another version",
        "{\"body\":[],\"symbols\":[],\"v\":3}",
        Status::Refused,
        "",
        "\"w.json\": bad wire\n",
    ),
    (
        "a block twice",
        "{\"body\":[[\"comp\",\"C\",[],[]],[\"slot\",\"a\",[]],[\"end\"],[\"slot\",\"a\",[]],[\"end\"],[\"end\"]],\"symbols\":[],\"v\":2}",
        Status::Refused,
        "",
        "\"w.json\": bad wire\n",
    ),
    (
        "no JSON",
        "{\"body\":[],\"symbols\":[],\"v\":1",
        Status::Refused,
        "",
        "\"w.json\": not JSON\n",
    ),
    (
        "an empty file",
        " ",
        Status::Refused,
        "",
        "\"w.json\": not JSON\n",
    ),
    ("no file", "", Status::Refused, "", "\"w.json\": absent\n"),
];

fn file(alloc: Global, name: &str, bytes: &str) -> Result<File, AllocError> {
    Ok(File::new(
        String::from_str(alloc, name)?,
        bytes.as_bytes().to_vec(alloc)?,
    ))
}

// The file, where its text isn't empty.
fn files_of(alloc: Global, text: &str) -> Result<Files, AllocError> {
    let mut files = Files::new(alloc);
    if !text.is_empty() {
        files.push(file(alloc, "w.json", text)?)?;
    }
    Ok(files)
}

fn status_of<S: Shelf, K: Sink, E: Sink>(
    alloc: Global,
    words: &[&str],
    shelf: &mut S,
    out: &mut K,
    err: &mut E,
) -> Status {
    let mut last = Last::new();
    run(alloc, words, shelf, out, err, &mut last)
}

fn check_row(rt: &impl Abort, alloc: Global, row: &Row) -> Result<(), Fail> {
    let mut shelf = CalmShelf::new(files_of(alloc, row.1)?);
    let mut out = CalmSink::new(alloc);
    let mut err = CalmSink::new(alloc);
    let status = status_of(alloc, MIGRATE, &mut shelf, &mut out, &mut err);
    assert_eq!(rt; status, row.2);
    assert_eq!(rt; out.taken(), row.3.as_bytes());
    assert_eq!(rt; err.taken(), row.4.as_bytes());
    Ok(())
}

#[test]
fn migrated(rt: HostRuntime) -> Result<(), Fail> {
    for row in &ROWS {
        check_row(&rt, rt.alloc(), row)?;
    }
    Ok(())
}

// A file of one byte more than the most.
#[test]
fn too_long(rt: HostRuntime) -> Result<(), Fail> {
    let alloc = rt.alloc();
    let mut files = Files::new(alloc);
    files.push(File::new(
        String::from_str(alloc, "w.json")?,
        vec![in alloc; b' '; 16_777_217]?,
    ))?;
    let mut shelf = CalmShelf::new(files);
    let mut out = CalmSink::new(alloc);
    let mut err = CalmSink::new(alloc);
    let status = status_of(alloc, MIGRATE, &mut shelf, &mut out, &mut err);
    assert_eq!(rt; status, Status::Refused);
    assert_eq!(rt; out.taken(), "".as_bytes());
    assert_eq!(rt;
        err.taken(),
        "\"w.json\": longer than 16777216 bytes\n".as_bytes()
    );
    Ok(())
}

// A device that fails: the fetch, the put on `out`; then the status, `out` and `err`. A number of 99 stands for none.
static FAILING: [(u64, u64, Status, &str, &str); 2] = [
    (0, 99, Status::ReadFault, "", "\"w.json\": read fault\n"),
    (99, 0, Status::WriteFault, "{\"bo", "write fault\n"),
];

#[test]
fn failing(rt: HostRuntime) -> Result<(), Fail> {
    let alloc = rt.alloc();
    for (fetch, put, wanted, written, line) in &FAILING {
        let mut calls = Calls::new(alloc);
        calls.push(*fetch)?;
        let mut cuts = Cuts::new(alloc);
        cuts.push(Cut::new(*put, 4))?;
        let files = files_of(alloc, "{\"body\":[],\"symbols\":[],\"v\":1}")?;
        let mut shelf = MemShelf::new(files, calls);
        let mut out = MemSink::new(alloc, cuts);
        let mut err = CalmSink::new(alloc);
        let status = status_of(alloc, MIGRATE, &mut shelf, &mut out, &mut err);
        assert_eq!(rt; status, *wanted);
        assert_eq!(rt; out.taken(), written.as_bytes());
        assert_eq!(rt; err.taken(), line.as_bytes());
    }
    Ok(())
}
