// What the machine keeps, step by step.
ghost use Rattle.std.specs.Prelude.{◌≡◌, IfOk, OnOk, IsSome, true};
ghost use Rattle.gl_refs.specs.State.{is_cell};
ghost use Rattle.gl_refs.specs.Refs.{forms_of};
ghost use Rattle.gl_vm.specs.View.{Calm, is_all};

use gl_arena::{Id, InstMark};
use gl_meaning::Path;
use gl_refs::{Form, Ids, NamedIds, RefId};
use gl_scope::{Args, Block, Locals, Passed, Scope};
use gl_value::{List, NamedValues, Value};
use gl_vm::Vm;
use std::alloc::{AllocError, Global};
use std::test::Fail;

const ADD: u16 = 7;

// Twice what a reference gives.
fn twice(alloc: Global, vm: &mut Vm, part: RefId) -> Result<RefId, AllocError>
    ensures olds { (i : _) → IsSome (forms_of vm.old.refs i) → forms_of vm.new.refs i ≡ forms_of vm.old.refs i }
    ensures calm { Calm vm.old → Calm vm.new }
{
    let mut ids = Ids::new(alloc);
    ids.push(part)?;
    ids.push(part)?;
    if !vm.refs.readable(part) {
        return Err(AllocError);
    }
    vm.bind(Form::Call(ADD, ids, NamedIds::new(alloc)))
}

// A position over one reference.
fn place(alloc: Global, vm: &mut Vm, part: RefId) -> Result<RefId, AllocError>
    requires { Calm vm.old }
    ensures olds { (i : _) → IsSome (forms_of vm.old.refs i) → forms_of vm.new.refs i ≡ forms_of vm.old.refs i }
    ensures calm { Calm vm.new }
    ensures position { IfOk result (λ id. is_all (forms_of vm.new.refs id) ≡ true) }
{
    let mut ids = Ids::new(alloc);
    ids.push(part)?;
    if !vm.refs.readable(part) {
        return Err(AllocError);
    }
    vm.place(ids)
}

#[derive(Drop)]
struct Made {
    vm: Vm,
    cell: RefId,
    sum: RefId,
    spot: RefId,
}

// A cell, twice its value, and a position over that.
fn make(alloc: Global) -> Result<Made, AllocError>
    ensures calm { IfOk result (λ m. Calm m.vm) }
    ensures cell { IfOk result (λ m. is_cell (forms_of m.vm.refs m.cell) ≡ true) }
    ensures spot { IfOk result (λ m. is_all (forms_of m.vm.refs m.spot) ≡ true) }
{
    let mut vm = Vm::new(alloc)?;
    let cell = vm.cell(Value::Int(1))?;
    let sum = twice(alloc, &mut vm, cell)?;
    let spot = place(alloc, &mut vm, sum)?;
    Ok(Made {
        vm,
        cell,
        sum,
        spot,
    })
}

// The integer that a reference gives.
fn number(vm: &Vm, id: RefId) -> Result<i64, Fail> {
    if !vm.refs.readable(id) {
        return Err("a reference that may be read".into());
    }
    match vm.value(id)? {
        Value::Int(number) => Ok(number),
        _ => Err("an integer".into()),
    }
}

// Whether the position is told to be stale.
fn is_stale(vm: &mut Vm, spot: RefId) -> bool
    ensures forms { forms_of vm.new.refs ≡ forms_of vm.old.refs }
    ensures calm { Calm vm.old → Calm vm.new }
{
    vm.stale(spot) == Some(true)
}

fn begin(vm: &mut Vm)
    ensures forms { forms_of vm.new.refs ≡ forms_of vm.old.refs }
    ensures calm { Calm vm.old → Calm vm.new }
{
    if vm.refs.room() {
        vm.begin();
    }
}

// What stands before and after the cell has another value.
#[test]
fn follows(rt: HostRuntime) -> Result<(), Fail> {
    let mut m = make(rt.alloc())?;
    assert_eq!(rt; number(&m.vm, m.sum)?, 2);
    begin(&mut m.vm);
    assert!(rt; !is_stale(&mut m.vm, m.spot));
    if m.vm.refs.room() {
        m.vm.set(m.cell, Value::Int(4));
    }
    assert!(rt; is_stale(&mut m.vm, m.spot));
    assert_eq!(rt; number(&m.vm, m.sum)?, 8);
    Ok(())
}

// A position of which nothing is told before the first turn, and nothing once more is stale.
#[test]
fn renews(rt: HostRuntime) -> Result<(), Fail> {
    let mut m = make(rt.alloc())?;
    assert!(rt; !is_stale(&mut m.vm, m.spot));
    m.vm.evaluate(m.spot)?;
    assert_eq!(rt; m.vm.refs.evaluated().len(), 2);
    begin(&mut m.vm);
    assert_eq!(rt; m.vm.refs.evaluated().len(), 0);
    Ok(())
}
