// References step by step.
ghost use Rattle.std.specs.Prelude.{◌≡◌, [], ◌∷◌, IfOk, OnOk, IsSome, is_some, true};
ghost use Rattle.gl_value.specs.Helpers.{helper_numbered};
ghost use Rattle.gl_refs.specs.Forms.{parts, is_known};
ghost use Rattle.gl_refs.specs.State.{is_cell, is_item};
ghost use Rattle.gl_refs.specs.Refs.{forms_of};
ghost use Rattle.gl_refs.specs.View.{seen_form};

use gl_refs::{Form, Ids, NamedIds, RefId, Refs};
use gl_value::{Text, Value};
use std::alloc::{AllocError, Global};
use std::process::Abort;
use std::test::Fail;

// A call of a helper over two references.
fn call(
    alloc: Global,
    refs: &mut Refs,
    helper: u16,
    a: RefId,
    b: RefId,
) -> Result<RefId, AllocError>
    requires a { IsSome (forms_of refs.old a) }
    requires b { IsSome (forms_of refs.old b) }
    requires helper { is_some (helper_numbered helper) ≡ true }
    ensures live { IfOk result (λ id. IsSome (forms_of refs.new id)) }
    ensures stays { OnOk result ((i : _) → IsSome (forms_of refs.old i) → forms_of refs.new i ≡ forms_of refs.old i) }
{
    let mut ids = Ids::new(alloc);
    ids.push(a)?;
    ids.push(b)?;
    refs.bind(Form::Call(helper, ids, NamedIds::new(alloc)))
}

fn cell(refs: &mut Refs, number: i64) -> Result<RefId, AllocError>
    ensures cell { IfOk result (λ id. is_cell (forms_of refs.new id) ≡ true) }
    ensures stays { OnOk result ((i : _) → IsSome (forms_of refs.old i) → forms_of refs.new i ≡ forms_of refs.old i) }
{
    refs.cell(Value::Int(number))
}

fn item(refs: &mut Refs, number: i64) -> Result<RefId, AllocError>
    ensures item { IfOk result (λ id. is_item (forms_of refs.new id) ≡ true) }
    ensures stays { OnOk result ((i : _) → IsSome (forms_of refs.old i) → forms_of refs.new i ≡ forms_of refs.old i) }
{
    refs.item(Value::Int(number))
}

// Reads an integer.
fn number(refs: &mut Refs, id: RefId) -> Result<i64, Fail>
    requires { IsSome (forms_of refs.old id) }
    ensures { forms_of refs.new ≡ forms_of refs.old }
{
    match refs.read(id)? {
        Value::Int(number) => Ok(*number),
        _ => Err("an integer".into()),
    }
}

fn set_number(refs: &mut Refs, cell: RefId, number: i64)
    requires { is_cell (forms_of refs.old cell) ≡ true }
    ensures cell { is_cell (forms_of refs.new cell) ≡ true }
    ensures live { (i : _) → IsSome (forms_of refs.old i) → IsSome (forms_of refs.new i) }
{
    if refs.room() {
        refs.set(cell, Value::Int(number));
    }
}

// Whether the reference is valid since then.
fn is_valid(refs: &mut Refs, id: RefId, since: u128) -> bool
    ensures { forms_of refs.new ≡ forms_of refs.old }
{
    refs.room() && refs.valid(id, since)
}

fn begin(refs: &mut Refs)
    ensures { forms_of refs.new ≡ forms_of refs.old }
{
    if refs.room() {
        refs.begin();
    }
}

const ADD: u16 = 7;

const MUL: u16 = 9;

const MIN: u16 = 10;

const OR: u16 = 16;

#[test]
fn follows(rt: HostRuntime) -> Result<(), Fail> {
    let mut refs = Refs::new(rt.alloc())?;
    let a = refs.cell(Value::Int(1))?;
    let b = call(rt.alloc(), &mut refs, ADD, a, a)?;
    let c = call(rt.alloc(), &mut refs, MUL, b, b)?;
    assert_eq!(rt; number(&mut refs, c)?, 4);
    let before = refs.now();
    begin(&mut refs);
    set_number(&mut refs, a, 3);
    assert!(rt; !is_valid(&mut refs, c, before));
    assert_eq!(rt; number(&mut refs, c)?, 36);
    let now = refs.now();
    assert!(rt; is_valid(&mut refs, c, now));
    assert_eq!(rt; refs.asks(), 2);
    Ok(())
}

// A chain of references, each of which reads the one before.
fn chain(alloc: Global, refs: &mut Refs, first: RefId) -> Result<RefId, AllocError>
    requires { IsSome (forms_of refs.old first) }
    ensures live { IfOk result (λ id. IsSome (forms_of refs.new id)) }
    ensures stays { OnOk result (forms_of refs.new first ≡ forms_of refs.old first) }
{
    let mut last = first;
    for _ in 0..20_000 {
        last = call(alloc, refs, MIN, last, last)?;
    }
    Ok(last)
}

#[test]
fn reaches_far(rt: HostRuntime) -> Result<(), Fail> {
    let mut refs = Refs::new(rt.alloc())?;
    let first = refs.cell(Value::Int(1))?;
    let last = chain(rt.alloc(), &mut refs, first)?;
    assert_eq!(rt; number(&mut refs, last)?, 1);
    set_number(&mut refs, first, 2);
    assert_eq!(rt; number(&mut refs, last)?, 2);
    Ok(())
}

fn give_number(refs: &mut Refs, item: RefId, number: i64)
    requires { is_item (forms_of refs.old item) ≡ true }
    ensures item { is_item (forms_of refs.new item) ≡ true }
    ensures live { (i : _) → IsSome (forms_of refs.old i) → IsSome (forms_of refs.new i) }
{
    if refs.room() {
        refs.give(item, Value::Int(number));
    }
}

#[test]
fn gives(rt: HostRuntime) -> Result<(), Fail> {
    let mut refs = Refs::new(rt.alloc())?;
    let item = refs.item(Value::Int(7))?;
    let before = refs.now();
    begin(&mut refs);
    give_number(&mut refs, item, 7);
    assert!(rt; is_valid(&mut refs, item, before));
    give_number(&mut refs, item, 8);
    assert!(rt; !is_valid(&mut refs, item, before));
    evaluated(&rt, &mut refs, item)
}

// One evaluation is counted, and put on the list.
fn evaluated(rt: &impl Abort, refs: &mut Refs, item: RefId) -> Result<(), Fail>
    requires { is_item (forms_of refs.old item) ≡ true }
{
    let value = refs.evaluate(item)?;
    assert!(rt; matches!(value, Value::Int(8)));
    assert_eq!(rt; refs.evals(), 1);
    assert_eq!(rt; refs.evaluated().len(), 1);
    Ok(())
}

#[test]
fn ends(rt: HostRuntime) -> Result<(), Fail> {
    let mut refs = Refs::new(rt.alloc())?;
    let constant = refs.constant(Value::Int(5))?;
    assert!(rt; refs.tag_of(constant) == refs.tags().constant());
    assert!(rt; matches!(refs.look(constant)?, Value::Int(5)));
    refs.free(constant);
    Ok(())
}

// The values of a property, of a choice, of a join, and of a form that only reads.
#[test]
fn computes(rt: HostRuntime) -> Result<(), Fail> {
    let mut refs = Refs::new(rt.alloc())?;
    let text = refs.cell(Value::Text(Text::from_str(rt.alloc(), "abc")?))?;
    let length = refs.bind(Form::Prop(text, Text::from_str(rt.alloc(), "length")?))?;
    assert!(rt; matches!(refs.look(length)?, Value::Int(3)));
    assert_eq!(rt; number(&mut refs, length)?, 3);
    Ok(())
}

// What is computed of two cells and an item.
enum Shape {
    If,
    Unless,
    Add,
    Mul,
    Or,
    Join,
    All,
}

// What a turn does.
enum Change {
    Nothing,
    First(i64),
    Second(i64),
    Item(i64),
}

// What is computed of the values of the two cells and the item, as a text; what the turn does; the text then; and whether
// it counts as valid still, asked before it is read again.
struct Case(Shape, [i64; 3], &'static str, Change, &'static str, bool);

// A set touches whatever the value was, and a give only where it is another. A call reads all its arguments, also those
// without a part in its value, but for `if` and `unless`: what these did not read is of no account.
static CASES: [Case; 22] = [
    Case(Shape::Add, [1, 2, 3], "3", Change::Nothing, "3", true),
    Case(Shape::Add, [1, 2, 3], "3", Change::First(3), "5", false),
    Case(Shape::Add, [1, 2, 3], "3", Change::First(1), "3", false),
    Case(Shape::Add, [1, 2, 3], "3", Change::Second(-2), "-1", false),
    Case(Shape::Add, [1, 2, 3], "3", Change::Item(3), "3", true),
    Case(Shape::Add, [1, 2, 3], "3", Change::Item(0), "3", false),
    Case(Shape::Mul, [2, 3, 7], "6", Change::Second(-1), "-2", false),
    Case(Shape::Mul, [0, 3, 7], "0", Change::Second(8), "0", false),
    Case(Shape::If, [1, 5, 7], "5", Change::First(0), "7", false),
    Case(Shape::If, [1, 5, 7], "5", Change::First(2), "5", false),
    Case(Shape::If, [1, 5, 7], "5", Change::Second(6), "6", false),
    Case(Shape::If, [1, 5, 7], "5", Change::Item(8), "5", true),
    Case(Shape::If, [0, 5, 7], "7", Change::Second(6), "7", true),
    Case(Shape::If, [0, 5, 7], "7", Change::Item(8), "8", false),
    Case(Shape::Unless, [0, 5, 7], "5", Change::Item(8), "5", true),
    Case(Shape::Unless, [1, 5, 7], "7", Change::Second(6), "7", true),
    Case(Shape::Unless, [1, 5, 7], "7", Change::First(0), "5", false),
    Case(Shape::Or, [4, 5, 7], "4", Change::Item(8), "4", false),
    Case(
        Shape::Join,
        [4, 5, 7],
        "457",
        Change::Second(12),
        "4127",
        false,
    ),
    Case(Shape::Join, [4, 5, 7], "457", Change::Item(7), "457", true),
    Case(Shape::All, [4, 5, 7], "", Change::Second(6), "", false),
    Case(Shape::All, [4, 5, 7], "", Change::Nothing, "", true),
];

fn form(alloc: Global, shape: &Shape, a: RefId, b: RefId, c: RefId) -> Result<Form, AllocError>
    ensures known { IfOk result (λ f. is_known (seen_form f) ≡ true) }
    ensures parts { IfOk result (λ f. parts (seen_form f) ≡ a ∷ b ∷ c ∷ []) }
{
    let mut ids = Ids::new(alloc);
    ids.push(a)?;
    ids.push(b)?;
    ids.push(c)?;
    let named = NamedIds::new(alloc);
    Ok(match shape {
        Shape::If => Form::Call(0, ids, named),
        Shape::Unless => Form::Call(1, ids, named),
        Shape::Add => Form::Call(ADD, ids, named),
        Shape::Mul => Form::Call(MUL, ids, named),
        Shape::Or => Form::Call(OR, ids, named),
        Shape::Join => Form::Cat(ids),
        Shape::All => Form::All(ids),
    })
}

// Reads a value as a text.
fn check_text(
    rt: &impl Abort,
    alloc: Global,
    refs: &mut Refs,
    id: RefId,
    text: &str,
) -> Result<(), Fail>
    requires { IsSome (forms_of refs.old id) }
    ensures { forms_of refs.new ≡ forms_of refs.old }
{
    let mut found = Text::new(alloc);
    refs.read(id)?.write(&mut found)?;
    assert!(rt; found.is(text));
    Ok(())
}

fn make_change(refs: &mut Refs, change: &Change, a: RefId, b: RefId, c: RefId)
    requires a { is_cell (forms_of refs.old a) ≡ true }
    requires b { is_cell (forms_of refs.old b) ≡ true }
    requires c { is_item (forms_of refs.old c) ≡ true }
    ensures live { (i : _) → IsSome (forms_of refs.old i) → IsSome (forms_of refs.new i) }
{
    match change {
        Change::Nothing => {}
        Change::First(number) => set_number(refs, a, *number),
        Change::Second(number) => set_number(refs, b, *number),
        Change::Item(number) => give_number(refs, c, *number),
    }
}

// What is computed of the three.
fn compute(
    alloc: Global,
    refs: &mut Refs,
    shape: &Shape,
    a: RefId,
    b: RefId,
    c: RefId,
) -> Result<RefId, AllocError>
    requires a { IsSome (forms_of refs.old a) }
    requires b { IsSome (forms_of refs.old b) }
    requires c { IsSome (forms_of refs.old c) }
    ensures live { IfOk result (λ id. IsSome (forms_of refs.new id)) }
    ensures stays { OnOk result ((i : _) → IsSome (forms_of refs.old i) → forms_of refs.new i ≡ forms_of refs.old i) }
{
    refs.bind(form(alloc, shape, a, b, c)?)
}

// The text of a reference, which reads it.
fn joined(alloc: Global, refs: &mut Refs, part: RefId) -> Result<RefId, AllocError>
    requires { IsSome (forms_of refs.old part) }
    ensures live { IfOk result (λ id. IsSome (forms_of refs.new id)) }
    ensures stays { OnOk result ((i : _) → IsSome (forms_of refs.old i) → forms_of refs.new i ≡ forms_of refs.old i) }
{
    let mut ids = Ids::new(alloc);
    ids.push(part)?;
    refs.bind(Form::Cat(ids))
}

// The references of a case.
#[derive(Drop)]
struct Made {
    refs: Refs,
    a: RefId,
    b: RefId,
    c: RefId,
    top: RefId,
}

fn make(alloc: Global, shape: &Shape, values: &[i64; 3]) -> Result<Made, AllocError>
    ensures a { IfOk result (λ m. is_cell (forms_of m.refs m.a) ≡ true) }
    ensures b { IfOk result (λ m. is_cell (forms_of m.refs m.b) ≡ true) }
    ensures c { IfOk result (λ m. is_item (forms_of m.refs m.c) ≡ true) }
    ensures top { IfOk result (λ m. IsSome (forms_of m.refs m.top)) }
{
    let mut refs = Refs::new(alloc)?;
    let a = cell(&mut refs, values[0])?;
    let b = cell(&mut refs, values[1])?;
    let c = item(&mut refs, values[2])?;
    let part = compute(alloc, &mut refs, shape, a, b, c)?;
    let top = joined(alloc, &mut refs, part)?;
    Ok(Made { refs, a, b, c, top })
}

fn check_case(rt: &impl Abort, alloc: Global, case: &Case) -> Result<(), Fail> {
    let mut m = make(alloc, &case.0, &case.1)?;
    check_text(rt, alloc, &mut m.refs, m.top, case.2)?;
    let before = m.refs.now();
    begin(&mut m.refs);
    make_change(&mut m.refs, &case.3, m.a, m.b, m.c);
    let valid = is_valid(&mut m.refs, m.top, before);
    assert!(rt; valid == case.5);
    check_text(rt, alloc, &mut m.refs, m.top, case.4)?;
    let now = m.refs.now();
    assert!(rt; is_valid(&mut m.refs, m.top, now));
    Ok(())
}

#[test]
fn cases(rt: HostRuntime) -> Result<(), Fail> {
    for case in &CASES {
        check_case(&rt, rt.alloc(), case)?;
    }
    Ok(())
}
