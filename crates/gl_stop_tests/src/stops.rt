// Stops at every point of a to-do application: fetches and puts that fail or want memory, and files that are cut off.
ghost use Rattle.std.specs.Prelude.{Some};

use gl_outside::{
    Calls, CalmShelf, CalmSink, Cut, Cuts, File, Files, MemShelf, MemSink, Shelf, Sink, SinkFault,
};
use gl_run::{Last, Status, run};
use std::alloc::{AllocError, Global};
use std::process::Abort;
use std::test::Fail;

// The application's files, in the order in which they are fetched.
static FILES: [(&str, &str); 5] = [
    (
        "m.json",
        "{\"classes\":{\"App\":{\"actions\":{\"add\":{\"do\":[{\"set\":\"todos\",\"to\":\"(append this.todos (hash done=false id=this.next text=t))\",\"when\":\"t\"},{\"set\":\"next\",\"to\":\"(add this.next 1)\",\"when\":\"t\"}],\"params\":[\"t\"]},\"drop\":{\"do\":[{\"set\":\"todos\",\"to\":\"(removeWhere this.todos 'id' id)\"}],\"params\":[\"id\"]},\"toggle\":{\"do\":[{\"set\":\"todos\",\"to\":\"(updateWhere this.todos 'id' id 'done' on)\"}],\"params\":[\"id\",\"on\"]}},\"fields\":{\"next\":1,\"todos\":[]},\"getters\":{\"left\":\"(length (where this.todos 'done' false))\"},\"template\":\"app.hbs\"},\"Entry\":{\"actions\":{\"save\":{\"do\":[{\"call\":\"@add\",\"with\":[\"this.text\"]},{\"set\":\"text\",\"to\":\"''\"}]},\"typed\":{\"do\":[{\"set\":\"text\",\"to\":\"v\"}],\"params\":[\"v\"]}},\"fields\":{\"text\":\"\"},\"template\":\"entry.hbs\"},\"Item\":{\"teardown\":true,\"template\":\"item.hbs\"}},\"root\":\"App\"}",
    ),
    (
        "app.hbs",
        "<h1>{{this.left}} left</h1>\n<Entry @add={{this.add}} />\n<ul>\n  {{#each this.todos key=\"id\" as |t|}}\n    <Item @todo={{t}} @toggle={{fn this.toggle t.id}} @drop={{fn this.drop t.id}} />\n  {{else}}\n    <li>None</li>\n  {{/each}}\n</ul>",
    ),
    (
        "entry.hbs",
        "<input value={{this.text}} {{on \"input\" this.typed}} {{on \"change\" this.save}}>",
    ),
    (
        "item.hbs",
        "<li class={{if @todo.done \"done\"}}><input type=\"checkbox\" checked={{@todo.done}} {{on \"change\" @toggle}}><b {{on \"click\" @drop}}>{{@todo.text}}</b></li>",
    ),
    (
        "s.json",
        "[{\"fire\":5,\"event\":\"input\",\"data\":\"milk\"},{\"fire\":5,\"event\":\"change\"},{\"fire\":5,\"event\":\"input\",\"data\":\"bread\"},{\"fire\":5,\"event\":\"change\"},{\"fire\":15,\"event\":\"change\",\"data\":true},{\"fire\":5,\"event\":\"input\",\"data\":\"tea\"},{\"fire\":5,\"event\":\"change\"},{\"fire\":22,\"event\":\"click\"},{\"fire\":27,\"event\":\"change\",\"data\":true},{\"fire\":15,\"event\":\"change\",\"data\":false},{\"set\":\"todos\",\"to\":[]},{\"fire\":5,\"event\":\"input\",\"data\":\"x\"}]",
    ),
];

// The texts of its turns.
static TURNS: [&str; 13] = [
    "= 0 start\n#1 <h1>\n  #2 \"0\"\n  #3 \" left\"\n#4 \"\\n\"\n#5 <input value=\"\">\n#6 \"\\n\"\n#7 <ul>\n  #8 \"\\n\"\n  #9 \"    \"\n  #10 <li>\n    #11 \"None\"\n  #12 \"\\n\"\ninstall #5 on \"input\" \"[action typed]\"\ninstall #5 on \"change\" \"[action save]\"\n",
    "= 1 fire #5 \"input\"\n#1 <h1>\n  #2 \"0\"\n  #3 \" left\"\n#4 \"\\n\"\n#5 <input value=\"milk\">\n#6 \"\\n\"\n#7 <ul>\n  #8 \"\\n\"\n  #9 \"    \"\n  #10 <li>\n    #11 \"None\"\n  #12 \"\\n\"\n",
    "= 2 fire #5 \"change\"\n#1 <h1>\n  #2 \"1\"\n  #3 \" left\"\n#4 \"\\n\"\n#5 <input value=\"\">\n#6 \"\\n\"\n#7 <ul>\n  #8 \"\\n\"\n  #13 \"    \"\n  #14 <li>\n    #15 <input type=\"checkbox\">\n    #16 <b>\n      #17 \"milk\"\n  #18 \"\\n\"\ninstall #15 on \"change\" \"[action toggle]\"\ninstall #16 on \"click\" \"[action drop]\"\n",
    "= 3 fire #5 \"input\"\n#1 <h1>\n  #2 \"1\"\n  #3 \" left\"\n#4 \"\\n\"\n#5 <input value=\"bread\">\n#6 \"\\n\"\n#7 <ul>\n  #8 \"\\n\"\n  #13 \"    \"\n  #14 <li>\n    #15 <input type=\"checkbox\">\n    #16 <b>\n      #17 \"milk\"\n  #18 \"\\n\"\n",
    "= 4 fire #5 \"change\"\n#1 <h1>\n  #2 \"2\"\n  #3 \" left\"\n#4 \"\\n\"\n#5 <input value=\"\">\n#6 \"\\n\"\n#7 <ul>\n  #8 \"\\n\"\n  #13 \"    \"\n  #14 <li>\n    #15 <input type=\"checkbox\">\n    #16 <b>\n      #17 \"milk\"\n  #18 \"\\n\"\n  #19 \"    \"\n  #20 <li>\n    #21 <input type=\"checkbox\">\n    #22 <b>\n      #23 \"bread\"\n  #24 \"\\n\"\ninstall #21 on \"change\" \"[action toggle]\"\ninstall #22 on \"click\" \"[action drop]\"\n",
    "= 5 fire #15 \"change\"\n#1 <h1>\n  #2 \"1\"\n  #3 \" left\"\n#4 \"\\n\"\n#5 <input value=\"\">\n#6 \"\\n\"\n#7 <ul>\n  #8 \"\\n\"\n  #13 \"    \"\n  #14 <li class=\"done\">\n    #15 <input type=\"checkbox\" checked=\"\">\n    #16 <b>\n      #17 \"milk\"\n  #18 \"\\n\"\n  #19 \"    \"\n  #20 <li>\n    #21 <input type=\"checkbox\">\n    #22 <b>\n      #23 \"bread\"\n  #24 \"\\n\"\nupdate #15 on \"change\" \"[action toggle]\"\nupdate #16 on \"click\" \"[action drop]\"\n",
    "= 6 fire #5 \"input\"\n#1 <h1>\n  #2 \"1\"\n  #3 \" left\"\n#4 \"\\n\"\n#5 <input value=\"tea\">\n#6 \"\\n\"\n#7 <ul>\n  #8 \"\\n\"\n  #13 \"    \"\n  #14 <li class=\"done\">\n    #15 <input type=\"checkbox\" checked=\"\">\n    #16 <b>\n      #17 \"milk\"\n  #18 \"\\n\"\n  #19 \"    \"\n  #20 <li>\n    #21 <input type=\"checkbox\">\n    #22 <b>\n      #23 \"bread\"\n  #24 \"\\n\"\n",
    "= 7 fire #5 \"change\"\n#1 <h1>\n  #2 \"2\"\n  #3 \" left\"\n#4 \"\\n\"\n#5 <input value=\"\">\n#6 \"\\n\"\n#7 <ul>\n  #8 \"\\n\"\n  #13 \"    \"\n  #14 <li class=\"done\">\n    #15 <input type=\"checkbox\" checked=\"\">\n    #16 <b>\n      #17 \"milk\"\n  #18 \"\\n\"\n  #19 \"    \"\n  #20 <li>\n    #21 <input type=\"checkbox\">\n    #22 <b>\n      #23 \"bread\"\n  #24 \"\\n\"\n  #25 \"    \"\n  #26 <li>\n    #27 <input type=\"checkbox\">\n    #28 <b>\n      #29 \"tea\"\n  #30 \"\\n\"\ninstall #27 on \"change\" \"[action toggle]\"\ninstall #28 on \"click\" \"[action drop]\"\n",
    "= 8 fire #22 \"click\"\n#1 <h1>\n  #2 \"1\"\n  #3 \" left\"\n#4 \"\\n\"\n#5 <input value=\"\">\n#6 \"\\n\"\n#7 <ul>\n  #8 \"\\n\"\n  #13 \"    \"\n  #14 <li class=\"done\">\n    #15 <input type=\"checkbox\" checked=\"\">\n    #16 <b>\n      #17 \"milk\"\n  #18 \"\\n\"\n  #25 \"    \"\n  #26 <li>\n    #27 <input type=\"checkbox\">\n    #28 <b>\n      #29 \"tea\"\n  #30 \"\\n\"\ndestroy #21 on\ndestroy #22 on\ndestroy Item\n",
    "= 9 fire #27 \"change\"\n#1 <h1>\n  #2 \"0\"\n  #3 \" left\"\n#4 \"\\n\"\n#5 <input value=\"\">\n#6 \"\\n\"\n#7 <ul>\n  #8 \"\\n\"\n  #13 \"    \"\n  #14 <li class=\"done\">\n    #15 <input type=\"checkbox\" checked=\"\">\n    #16 <b>\n      #17 \"milk\"\n  #18 \"\\n\"\n  #25 \"    \"\n  #26 <li class=\"done\">\n    #27 <input type=\"checkbox\" checked=\"\">\n    #28 <b>\n      #29 \"tea\"\n  #30 \"\\n\"\nupdate #27 on \"change\" \"[action toggle]\"\nupdate #28 on \"click\" \"[action drop]\"\n",
    "= 10 fire #15 \"change\"\n#1 <h1>\n  #2 \"1\"\n  #3 \" left\"\n#4 \"\\n\"\n#5 <input value=\"\">\n#6 \"\\n\"\n#7 <ul>\n  #8 \"\\n\"\n  #13 \"    \"\n  #14 <li>\n    #15 <input type=\"checkbox\">\n    #16 <b>\n      #17 \"milk\"\n  #18 \"\\n\"\n  #25 \"    \"\n  #26 <li class=\"done\">\n    #27 <input type=\"checkbox\" checked=\"\">\n    #28 <b>\n      #29 \"tea\"\n  #30 \"\\n\"\nupdate #15 on \"change\" \"[action toggle]\"\nupdate #16 on \"click\" \"[action drop]\"\n",
    "= 11 set todos\n#1 <h1>\n  #2 \"0\"\n  #3 \" left\"\n#4 \"\\n\"\n#5 <input value=\"\">\n#6 \"\\n\"\n#7 <ul>\n  #8 \"\\n\"\n  #31 \"    \"\n  #32 <li>\n    #33 \"None\"\n  #34 \"\\n\"\ndestroy #15 on\ndestroy #16 on\ndestroy Item\ndestroy #27 on\ndestroy #28 on\ndestroy Item\n",
    "= 12 fire #5 \"input\"\n#1 <h1>\n  #2 \"0\"\n  #3 \" left\"\n#4 \"\\n\"\n#5 <input value=\"x\">\n#6 \"\\n\"\n#7 <ul>\n  #8 \"\\n\"\n  #31 \"    \"\n  #32 <li>\n    #33 \"None\"\n  #34 \"\\n\"\n",
];

// The line of each file that can't be read.
static FAULTS: [&str; 5] = [
    "\"m.json\": read fault\n",
    "\"app.hbs\": read fault\n",
    "\"entry.hbs\": read fault\n",
    "\"item.hbs\": read fault\n",
    "\"s.json\": read fault\n",
];

// An application of which components nest too deep in its second turn, the text of its first turn, and its line.
static NESTING: [(&str, &str); 4] = [
    (
        "m.json",
        "{\"classes\":{\"App\":{\"fields\":{\"d\":1},\"template\":\"app.hbs\"},\"N\":{\"template\":\"n.hbs\"}},\"limit\":3,\"root\":\"App\"}",
    ),
    ("app.hbs", "<N @d={{this.d}} />"),
    ("n.hbs", "<u>{{#if @d}}<N @d={{sub @d 1}} />{{/if}}</u>"),
    ("s.json", "[{\"set\":\"d\",\"to\":2}]"),
];

static NESTED: &str = "= 0 start\n#1 <u>\n  #2 <u>\n    #3 !\"\"\n";

static LIMIT: &str = "turn 1: nesting limit 3\n";

// A sink in memory that wants memory at each put but the first ones.
#[derive(Drop)]
struct WantingSink {
    taken: Vec<u8>,
    left: usize,
    wants: u64,
}

impl Sink for WantingSink {
    ghost took = { λ s. Some s.taken.items };

    ghost faults = { λ _. 0 };

    ghost wants = { λ s. s.wants };

    fn put(&mut self, piece: &[u8]) -> Result<(), SinkFault> {
        if self.wants == u64::MAX {
            return Err(SinkFault::Memory);
        }
        if self.left == 0 || self.taken.extend_from_slice(piece).is_err() {
            self.wants += 1;
            return Err(SinkFault::Memory);
        }
        self.left -= 1;
        Ok(())
    }
}

fn wanting_after(alloc: Global, puts: usize) -> WantingSink {
    WantingSink {
        taken: Vec::new(alloc),
        left: puts,
        wants: 0,
    }
}

// The first bytes, at most so many.
fn front_of(bytes: &[u8], most: usize) -> &[u8] {
    &bytes[..most.min(bytes.len())]
}

fn file(alloc: Global, name: &str, bytes: &[u8]) -> Result<File, AllocError> {
    Ok(File::new(String::from_str(alloc, name)?, bytes.to_vec(alloc)?))
}

// The files, of which the one of that name is cut off after so many bytes.
fn files_of(
    alloc: Global,
    rows: &[(&str, &str)],
    cut: &str,
    bytes: usize,
) -> Result<Files, AllocError> {
    let mut files = Files::new(alloc);
    for (name, text) in rows {
        let most = if *name == cut { bytes } else { text.len() };
        files.push(file(alloc, name, front_of(text.as_bytes(), most))?)?;
    }
    Ok(files)
}

// The texts of the first turns, each whole, and so many bytes of the next.
fn text_of(alloc: Global, turns: usize, bytes: usize) -> Result<Vec<u8>, AllocError> {
    let mut text = Vec::new(alloc);
    for (turn, whole) in TURNS.iter().enumerate() {
        if turn < turns {
            text.extend_from_slice(whole.as_bytes())?;
        }
        if turn == turns {
            text.extend_from_slice(front_of(whole.as_bytes(), bytes))?;
        }
    }
    Ok(text)
}

// The status of the run. What is left behind is dropped.
fn status_of<S: Shelf, K: Sink, E: Sink>(
    alloc: Global,
    shelf: &mut S,
    out: &mut K,
    err: &mut E,
) -> Status {
    let mut last = Last::new();
    let words = ["run", "m.json", "s.json"];
    run(alloc, &words, shelf, out, err, &mut last)
}

fn check_status(rt: &impl Abort, status: Status, wanted: Status, at: usize) {
    assert_eq!(rt; status, wanted, "at {at}");
}

fn check_bytes(rt: &impl Abort, bytes: &[u8], wanted: &[u8], at: usize) {
    assert_eq!(rt; bytes, wanted, "at {at}");
}

// A fetch fails: nothing is written, and the line names its file.
fn check_fetch(rt: &impl Abort, alloc: Global, call: usize, line: &str) -> Result<(), Fail> {
    let mut calls = Calls::new(alloc);
    calls.push(call as u64)?;
    let mut shelf = MemShelf::new(files_of(alloc, &FILES, "", 0)?, calls);
    let mut out = CalmSink::new(alloc);
    let mut err = CalmSink::new(alloc);
    let status = status_of(alloc, &mut shelf, &mut out, &mut err);
    check_status(rt, status, Status::ReadFault, call);
    check_bytes(rt, out.taken(), b"".as_slice(), call);
    check_bytes(rt, err.taken(), line.as_bytes(), call);
    Ok(())
}

#[test]
fn each_fetch_fails(rt: HostRuntime) -> Result<(), Fail> {
    for (call, line) in FAULTS.iter().enumerate() {
        check_fetch(&rt, rt.alloc(), call, line)?;
    }
    Ok(())
}

// A put on `out` fails after so many of its bytes: whole turns are written before it, and nothing after it.
fn check_put(rt: &impl Abort, alloc: Global, put: usize, takes: usize) -> Result<(), Fail> {
    let mut cuts = Cuts::new(alloc);
    cuts.push(Cut::new(put as u64, takes))?;
    let mut shelf = CalmShelf::new(files_of(alloc, &FILES, "", 0)?);
    let mut out = MemSink::new(alloc, cuts);
    let mut err = CalmSink::new(alloc);
    let status = status_of(alloc, &mut shelf, &mut out, &mut err);
    let text = text_of(alloc, put, takes)?;
    check_status(rt, status, Status::WriteFault, put);
    check_bytes(rt, out.taken(), text.as_slice(), put);
    check_bytes(rt, err.taken(), b"write fault\n".as_slice(), put);
    Ok(())
}

#[test]
fn each_put_fails(rt: HostRuntime) -> Result<(), Fail> {
    for put in 0..13 {
        for takes in [0, 1, usize::MAX] {
            check_put(&rt, rt.alloc(), put, takes)?;
        }
    }
    Ok(())
}

// A put on `out` wants memory: whole turns are written before it.
fn check_want(rt: &impl Abort, alloc: Global, put: usize) -> Result<(), Fail> {
    let mut shelf = CalmShelf::new(files_of(alloc, &FILES, "", 0)?);
    let mut out = wanting_after(alloc, put);
    let mut err = CalmSink::new(alloc);
    let status = status_of(alloc, &mut shelf, &mut out, &mut err);
    let text = text_of(alloc, put, 0)?;
    check_status(rt, status, Status::NoMemory, put);
    check_bytes(rt, out.taken.as_slice(), text.as_slice(), put);
    check_bytes(rt, err.taken(), b"out of memory\n".as_slice(), put);
    Ok(())
}

#[test]
fn each_put_wants_memory(rt: HostRuntime) -> Result<(), Fail> {
    for put in 0..13 {
        check_want(&rt, rt.alloc(), put)?;
    }
    Ok(())
}

// What is left of a run of which a put on `err` failed: the same status and the same text, and a front of the line.
fn check_said(rt: &impl Abort, status: Status, out: &[u8], err: &[u8], put: usize) {
    check_status(rt, status, Status::NestingLimit, put);
    check_bytes(rt, out, NESTED.as_bytes(), put);
    check_bytes(rt, err, front_of(LIMIT.as_bytes(), err.len()), put);
}

fn check_saying(rt: &impl Abort, alloc: Global, put: usize, takes: usize) -> Result<(), Fail> {
    let mut cuts = Cuts::new(alloc);
    cuts.push(Cut::new(put as u64, takes))?;
    let mut shelf = CalmShelf::new(files_of(alloc, &NESTING, "", 0)?);
    let mut out = CalmSink::new(alloc);
    let mut err = MemSink::new(alloc, cuts);
    let status = status_of(alloc, &mut shelf, &mut out, &mut err);
    check_said(rt, status, out.taken(), err.taken(), put);
    Ok(())
}

fn check_saying_wants(rt: &impl Abort, alloc: Global, put: usize) -> Result<(), Fail> {
    let mut shelf = CalmShelf::new(files_of(alloc, &NESTING, "", 0)?);
    let mut out = CalmSink::new(alloc);
    let mut err = wanting_after(alloc, put);
    let status = status_of(alloc, &mut shelf, &mut out, &mut err);
    check_said(rt, status, out.taken(), err.taken.as_slice(), put);
    Ok(())
}

#[test]
fn each_put_of_the_line_fails(rt: HostRuntime) -> Result<(), Fail> {
    for put in 0..LIMIT.len() {
        for takes in [0, 1, usize::MAX] {
            check_saying(&rt, rt.alloc(), put, takes)?;
        }
        check_saying_wants(&rt, rt.alloc(), put)?;
    }
    Ok(())
}

// A file is cut off after so many bytes: nothing is written, and the line is of that file.
fn check_cut(
    rt: &impl Abort,
    alloc: Global,
    name: &str,
    bytes: usize,
    line: &str,
) -> Result<(), Fail> {
    let mut shelf = CalmShelf::new(files_of(alloc, &FILES, name, bytes)?);
    let mut out = CalmSink::new(alloc);
    let mut err = CalmSink::new(alloc);
    let status = status_of(alloc, &mut shelf, &mut out, &mut err);
    check_status(rt, status, Status::Refused, bytes);
    check_bytes(rt, out.taken(), b"".as_slice(), bytes);
    check_bytes(rt, err.taken(), line.as_bytes(), bytes);
    Ok(())
}

// No front of an object is JSON.
#[test]
fn the_manifest_is_cut_off(rt: HostRuntime) -> Result<(), Fail> {
    for bytes in 0..FILES[0].1.len() {
        check_cut(&rt, rt.alloc(), "m.json", bytes, "\"m.json\": not JSON\n")?;
    }
    Ok(())
}

// The byte at which a front of the template can't go on: its end, but where that is a dot, which stands before a name alone.
fn place_of(front: &[u8]) -> usize {
    match front {
        [before @ .., b'.'] => before.len(),
        _ => front.len(),
    }
}

fn check_template_cut(rt: &impl Abort, alloc: Global, bytes: usize) -> Result<(), Fail> {
    let place = place_of(front_of(FILES[3].1.as_bytes(), bytes));
    let line = format!(in alloc; "\"item.hbs\": not in the grammar at byte {place}\n")?;
    check_cut(rt, alloc, "item.hbs", bytes, line.as_str())
}

// A front of an element is no template.
#[test]
fn a_template_is_cut_off(rt: HostRuntime) -> Result<(), Fail> {
    for bytes in 1..FILES[3].1.len() {
        check_template_cut(&rt, rt.alloc(), bytes)?;
    }
    Ok(())
}

fn check_whole(rt: &impl Abort, alloc: Global, bytes: usize) -> Result<(), Fail> {
    let mut shelf = CalmShelf::new(files_of(alloc, &FILES, "item.hbs", bytes)?);
    let mut out = CalmSink::new(alloc);
    let mut err = CalmSink::new(alloc);
    let status = status_of(alloc, &mut shelf, &mut out, &mut err);
    check_status(rt, status, Status::Done, bytes);
    check_bytes(rt, err.taken(), b"".as_slice(), bytes);
    Ok(())
}

// The empty template and the whole one are templates.
#[test]
fn a_template_is_empty_or_whole(rt: HostRuntime) -> Result<(), Fail> {
    check_whole(&rt, rt.alloc(), 0)?;
    check_whole(&rt, rt.alloc(), usize::MAX)?;
    Ok(())
}
