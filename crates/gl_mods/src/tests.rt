// Modifiers on nodes, step by step.
use super::*;
use gl_arena::{Arena, Id, ModId, NodeMark};
use gl_value::{List, ListBuilder, NamedValues, Text, Value};
use std::alloc::{AllocError, Global};
use std::process::Abort;
use std::test::Fail;

// What is done. Nodes and modifiers are counted from 0, and arguments are texts.
enum Step {
    // A modifier of a node, its place, the number of its name, and its arguments.
    Install(usize, u64, u32, &'static [&'static str]),
    // Other arguments of a modifier.
    Refresh(usize, &'static [&'static str]),
    // What is called at an event of a node; an empty text stands for undefined.
    Hears(usize, &'static str, &'static [&'static str]),
    Drop(usize),
    // What a commit hands out.
    Commit(&'static [usize], &'static [usize]),
}

static STEPS: [Step; 27] = [
    Step::Commit(&[], &[]),
    Step::Install(0, 0, 0, &["click", "first"]),
    Step::Install(1, 0, 0, &["click", "other"]),
    Step::Install(0, 1, 2, &["click", "tip"]),
    Step::Install(0, 2, 0, &["input", "text"]),
    Step::Install(0, 3, 0, &["click", "second", "more"]),
    Step::Install(0, 4, 0, &["click"]),
    Step::Install(0, 5, 0, &[]),
    Step::Hears(0, "click", &["first", "second", ""]),
    Step::Hears(0, "input", &["text"]),
    Step::Hears(0, "", &[""]),
    Step::Hears(0, "tip", &[]),
    Step::Hears(1, "click", &["other"]),
    Step::Hears(2, "click", &[]),
    Step::Commit(&[0, 1, 2, 3, 4, 5, 6], &[]),
    Step::Commit(&[], &[]),
    Step::Refresh(4, &["input", "changed"]),
    Step::Refresh(1, &["click", "now"]),
    Step::Refresh(0, &["click", "one"]),
    Step::Hears(0, "click", &["one", ""]),
    Step::Hears(0, "input", &["text", "changed"]),
    Step::Install(2, 0, 0, &["click", "last"]),
    Step::Drop(0),
    Step::Hears(0, "click", &[]),
    Step::Hears(2, "click", &["last"]),
    Step::Commit(&[7], &[1]),
    Step::Commit(&[], &[]),
];

fn list_of(alloc: Global, texts: &[&str]) -> Result<List, AllocError> {
    let mut list = ListBuilder::new(alloc);
    for text in texts {
        list.push(Value::Text(Text::from_str(alloc, text)?))?;
    }
    list.build()
}

fn check_acts(rt: &impl Abort, acts: &Acts, alloc: Global, texts: &[&str]) -> Result<(), Fail> {
    assert_eq!(rt; acts.len(), texts.len());
    for (act, text) in acts.as_slice().iter().zip(texts) {
        let expected = if text.is_empty() {
            Value::Undefined
        } else {
            Value::Text(Text::from_str(alloc, text)?)
        };
        assert!(rt; act.same(&expected));
    }
    Ok(())
}

fn check_ids(
    rt: &impl Abort,
    found: &ModIds,
    given: &[ModId],
    turns: &[usize],
) -> Result<(), Fail> {
    assert_eq!(rt; found.len(), turns.len());
    for (id, turn) in found.as_slice().iter().zip(turns) {
        assert!(rt; *id == *given.get(*turn).ok_or("a turn")?);
    }
    Ok(())
}

fn check_step(
    rt: &impl Abort,
    alloc: Global,
    mods: &mut Mods,
    nodes: &[Id<NodeMark>],
    given: &mut Vec<ModId>,
    step: &Step,
) -> Result<(), Fail> {
    match step {
        Step::Install(node, place, name, texts) => {
            let node = *nodes.get(*node).ok_or("a node")?;
            let args = list_of(alloc, texts)?;
            let id = mods.install(node, *place, *name, args, NamedValues::new(alloc))?;
            assert_eq!(rt; mods.get(id).place, *place);
            given.push(id)?;
        }
        Step::Refresh(turn, texts) => {
            let id = *given.get(*turn).ok_or("a turn")?;
            let args = list_of(alloc, texts)?;
            assert!(rt; mods.live(id));
            mods.refresh(id, args, NamedValues::new(alloc))?;
        }
        Step::Hears(node, event, texts) => {
            let node = *nodes.get(*node).ok_or("a node")?;
            check_acts(rt, &mods.listeners(node, event)?, alloc, texts)?;
        }
        Step::Drop(node) => mods.drop_node(*nodes.get(*node).ok_or("a node")?),
        Step::Commit(installs, updates) => {
            let commit = mods.commit();
            check_ids(rt, &commit.installs, given.as_slice(), installs)?;
            check_ids(rt, &commit.updates, given.as_slice(), updates)?;
        }
    }
    Ok(())
}

#[test]
fn steps(rt: HostRuntime) -> Result<(), Fail> {
    let mut places: Arena<u8, NodeMark> = Arena::new(rt.alloc())?;
    let mut nodes = Vec::new(rt.alloc());
    for _ in 0..3 {
        nodes.push(places.insert(0).map_err(|e| e.1)?)?;
    }
    let mut mods = Mods::new(rt.alloc())?;
    let mut given = Vec::new(rt.alloc());
    for step in &STEPS {
        check_step(
            &rt,
            rt.alloc(),
            &mut mods,
            nodes.as_slice(),
            &mut given,
            step,
        )?;
    }
    Ok(())
}
