// Updates of one page, each made and left out: examples/requests counts how many requests for memory are the update's.
ghost use Rattle.gl_vm.specs.View.{Calm};

use gl_append::{Opcodes, append};
use gl_code::{Cells, Code, Page};
use gl_load::load;
use gl_opc::App;
use gl_outside::{CalmShelf, File, Files};
use gl_update::update;
use gl_value::Value;
use std::alloc::{AllocError, Global};
use std::process::Abort;
use std::test::Fail;

const TEMPLATE: &str = "{{this.a}}{{#each this.l as |x|}}{{x}}{{/each}}";

// The fields of the root by their places, in the order of names.
const SHOWN: usize = 0;

const HIDDEN: usize = 2;

// The manifest of an application whose list has a thousand integers.
fn manifest(alloc: Global) -> Result<String, AllocError> {
    let mut text = String::from_str(alloc, "{\"classes\":{\"App\":{\"fields\":{\"a\":1,\"l\":[0")?;
    for number in 1..1000 {
        write!(text, ",{number}")?;
    }
    text.push_str("],\"z\":1},\"template\":\"app.hbs\"}},\"root\":\"App\"}")?;
    Ok(text)
}

fn push_file(alloc: Global, files: &mut Files, name: &str, bytes: &str) -> Result<(), AllocError> {
    files.push(File::new(
        String::from_str(alloc, name)?,
        bytes.as_bytes().to_vec(alloc)?,
    ))
}

fn shelf_of(alloc: Global) -> Result<CalmShelf, AllocError> {
    let mut files = Files::new(alloc);
    push_file(alloc, &mut files, "m.json", manifest(alloc)?.as_str())?;
    push_file(alloc, &mut files, "app.hbs", TEMPLATE)?;
    push_file(alloc, &mut files, "s.json", "[]")?;
    Ok(CalmShelf::new(files))
}

// Begins a turn in which the field of the root at this place is set to 2, and tells whether there is one.
fn set(page: &mut Page, field: usize) -> bool
    ensures calm { Calm page.old.vm → Calm page.new.vm }
{
    let cell = match &page.code {
        Code::Root { owner, .. } => match owner.cells.as_slice().get(field) {
            Some(cell) => *cell,
            None => return false,
        },
        _ => return false,
    };
    if !page.vm.refs.room() {
        return false;
    }
    page.vm.begin();
    if !page.vm.refs.room() || !page.vm.refs.is_cell(cell) {
        return false;
    }
    page.vm.set(cell, Value::Int(2));
    true
}

// Whether a turn could be begun in which the field is set, and the page updated where that isn't left out.
fn is_done(alloc: Global, app: &App, page: &mut Page, field: usize, updates: bool) -> bool
    requires calm { Calm page.old.vm }
{
    set(page, field)
        && (!updates || update::<Opcodes>(alloc, app, &Cells::new(alloc), page).is_ok())
}

// The page is appended, and then that is done.
fn plays(alloc: Global, app: &App, field: usize, updates: bool) -> bool {
    match append(alloc, app, &Cells::new(alloc)) {
        Ok(page) => {
            let mut page = page;
            is_done(alloc, app, &mut page, field, updates)
        }
        Err(_) => false,
    }
}

fn check(rt: &impl Abort, alloc: Global, field: usize, updates: bool) -> Result<(), Fail> {
    let mut shelf = shelf_of(alloc)?;
    let done = match load(alloc, &mut shelf, "m.json", "s.json") {
        Ok(loaded) => plays(alloc, &loaded.app, field, updates),
        Err(_) => false,
    };
    assert!(rt; done);
    Ok(())
}

#[test]
fn hidden_updated(rt: HostRuntime) -> Result<(), Fail> {
    check(&rt, rt.alloc(), HIDDEN, true)
}

#[test]
fn hidden_left(rt: HostRuntime) -> Result<(), Fail> {
    check(&rt, rt.alloc(), HIDDEN, false)
}

#[test]
fn shown_updated(rt: HostRuntime) -> Result<(), Fail> {
    check(&rt, rt.alloc(), SHOWN, true)
}

#[test]
fn shown_left(rt: HostRuntime) -> Result<(), Fail> {
    check(&rt, rt.alloc(), SHOWN, false)
}
