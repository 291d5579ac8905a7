// A forest that comes and goes, with the log of what was destroyed.
use super::*;
use gl_arena::{Arena, DestroyId, Id, NodeMark};
use std::alloc::Global;
use std::process::Abort;
use std::test::Fail;

// What is done. What was added is counted from 0.
enum Step {
    // A modifier's place, below one.
    Modifier(usize, u64),
    // An instance's class, and whether it has teardown.
    Instance(usize, u16, bool),
    Group(usize),
    // A tree.
    Root,
    // What is destroyed, and the lines that the log has then.
    Destroy(usize, &'static [Line]),
    Gone(usize),
}

// A line of the log: the place of a modifier, or the class of an instance.
#[derive(Clone, Copy)]
enum Line {
    Modifier(u64),
    Instance(u16),
}

// A branch with an instance that has teardown and a modifier; then a list with two items, of which the first has an
// instance with two modifiers; then siblings that are destroyed one by one.
static STEPS: [Step; 30] = [
    Step::Root,
    Step::Group(0),
    Step::Instance(1, 7, true),
    Step::Modifier(2, 0),
    Step::Destroy(1, &[Line::Modifier(0), Line::Instance(7)]),
    Step::Gone(1),
    Step::Gone(2),
    Step::Gone(3),
    Step::Group(0),
    Step::Instance(4, 8, true),
    Step::Modifier(5, 21),
    Step::Modifier(5, 22),
    Step::Instance(4, 9, false),
    Step::Group(0),
    Step::Modifier(9, 27),
    Step::Modifier(9, 28),
    Step::Destroy(
        4,
        &[Line::Modifier(21), Line::Modifier(22), Line::Instance(8)],
    ),
    Step::Gone(8),
    Step::Modifier(0, 1),
    Step::Modifier(0, 2),
    Step::Destroy(12, &[Line::Modifier(1)]),
    Step::Modifier(0, 3),
    Step::Destroy(14, &[Line::Modifier(3)]),
    Step::Modifier(0, 4),
    Step::Modifier(0, 5),
    Step::Modifier(0, 6),
    Step::Root,
    Step::Modifier(18, 9),
    Step::Destroy(
        0,
        &[
            Line::Modifier(27),
            Line::Modifier(28),
            Line::Modifier(2),
            Line::Modifier(4),
            Line::Modifier(5),
            Line::Modifier(6),
        ],
    ),
    Step::Destroy(18, &[Line::Modifier(9)]),
];

fn same_line(what: &What, line: &Line) -> bool {
    match (what, line) {
        (What::Modifier { place, .. }, Line::Modifier(other)) => *place == *other,
        (What::Instance { class, .. }, Line::Instance(other)) => *class == *other,
        _ => false,
    }
}

fn check_log(rt: &impl Abort, log: &Log, lines: &[Line]) {
    assert_eq!(rt; log.as_slice().len(), lines.len());
    for (what, line) in log.as_slice().iter().zip(lines) {
        assert!(rt; same_line(what, line));
    }
}

// Adds one below another one.
fn add_below(
    rt: &impl Abort,
    forest: &mut Destroyables,
    given: &mut Vec<DestroyId>,
    parent: usize,
    what: What,
) -> Result<(), Fail> {
    let parent = *given.get(parent).ok_or("a parent")?;
    assert!(rt; forest.live(parent));
    given.push(forest.add(Some(parent), what)?)?;
    Ok(())
}

fn check_step(
    rt: &impl Abort,
    alloc: Global,
    forest: &mut Destroyables,
    given: &mut Vec<DestroyId>,
    node: Id<NodeMark>,
    step: &Step,
) -> Result<(), Fail> {
    match step {
        Step::Modifier(parent, place) => {
            let what = What::Modifier {
                node,
                place: *place,
                name: 3,
            };
            add_below(rt, forest, given, *parent, what)
        }
        Step::Instance(parent, class, teardown) => {
            let what = What::Instance {
                class: *class,
                teardown: *teardown,
            };
            add_below(rt, forest, given, *parent, what)
        }
        Step::Group(parent) => add_below(rt, forest, given, *parent, What::Group),
        Step::Root => {
            given.push(forest.add(None, What::Group)?)?;
            Ok(())
        }
        Step::Destroy(turn, lines) => {
            let id = *given.get(*turn).ok_or("one")?;
            assert!(rt; forest.live(id));
            let mut log = Log::new(alloc)?;
            forest.destroy(id, &mut log)?;
            check_log(rt, &log, lines);
            Ok(())
        }
        Step::Gone(turn) => {
            assert!(rt; !forest.live(*given.get(*turn).ok_or("one")?));
            Ok(())
        }
    }
}

#[test]
fn steps(rt: HostRuntime) -> Result<(), Fail> {
    let mut places: Arena<u8, NodeMark> = Arena::new(rt.alloc())?;
    let node = places.insert(0).map_err(|e| e.1)?;
    let mut forest = Destroyables::new(rt.alloc())?;
    let mut given = Vec::new(rt.alloc());
    for step in &STEPS {
        check_step(&rt, rt.alloc(), &mut forest, &mut given, node, step)?;
    }
    Ok(())
}
