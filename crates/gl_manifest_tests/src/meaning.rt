// A manifest, a script and a path with each kind of step and event.
use gl_ast::{Expr, Lit};
use gl_meaning::{
    Action, Actions, Class, Classes, Event, Events, ExprList, Fields, Getters, Kind, Manifest,
    Path, PathStep, PathSteps, Script, Step, StepKind, Steps,
};
use gl_value::{Text, Texts, Value};
use std::alloc::Global;
use std::process::Abort;
use std::test::Fail;

fn text(alloc: Global, characters: &str) -> Result<Text, Fail> {
    Ok(Text::from_str(alloc, characters)?)
}

fn texts(alloc: Global, first: &str) -> Result<Texts, Fail> {
    let mut texts = Texts::new(alloc);
    texts.push(text(alloc, first)?)?;
    Ok(texts)
}

fn set_step(alloc: Global, field: &str) -> Result<Step, Fail> {
    let field = text(alloc, field)?;
    Ok(Step {
        when: Some(Expr::Lit(Lit::Bool(true))),
        kind: StepKind::Set {
            field,
            to: Expr::Lit(Lit::Int(1)),
        },
    })
}

fn call_step(alloc: Global, name: &str) -> Result<Step, Fail> {
    Ok(Step {
        when: None,
        kind: StepKind::Call {
            name: text(alloc, name)?,
            rest: Texts::new(alloc),
            args: ExprList::new(alloc),
        },
    })
}

fn steps(alloc: Global) -> Result<Steps, Fail> {
    let mut steps = Steps::new(alloc);
    steps.push(set_step(alloc, "n")?)?;
    steps.push(call_step(alloc, "done")?)?;
    Ok(steps)
}

fn actions(alloc: Global) -> Result<Actions, Fail> {
    let mut actions = Actions::new(alloc);
    actions.push(Action {
        name: text(alloc, "inc")?,
        params: texts(alloc, "by")?,
        steps: steps(alloc)?,
    })?;
    Ok(actions)
}

fn fields(alloc: Global) -> Result<Fields, Fail> {
    let mut fields = Fields::new(alloc);
    fields.push(text(alloc, "n")?, Value::Int(0))?;
    Ok(fields)
}

fn class_of(alloc: Global, fields: Fields, actions: Actions) -> Result<Class, Fail> {
    Ok(Class {
        name: text(alloc, "App")?,
        file: text(alloc, "app.hbs")?,
        fields,
        getters: Getters::new(alloc),
        actions,
        teardown: true,
    })
}

fn class(alloc: Global) -> Result<Class, Fail> {
    let fields = fields(alloc)?;
    class_of(alloc, fields, actions(alloc)?)
}

fn classes(alloc: Global) -> Result<Classes, Fail> {
    let mut classes = Classes::new(alloc);
    classes.push(class(alloc)?)?;
    Ok(classes)
}

fn manifest(alloc: Global) -> Result<Manifest, Fail> {
    Ok(Manifest {
        root: text(alloc, "App")?,
        limit: 16,
        modifiers: Texts::new(alloc),
        classes: classes(alloc)?,
    })
}

fn fire(alloc: Global, node: u64) -> Result<Event, Fail> {
    Ok(Event::Fire {
        node,
        name: text(alloc, "click")?,
        payload: Value::Undefined,
    })
}

fn batch(alloc: Global) -> Result<Event, Fail> {
    let mut events = Events::new(alloc);
    events.push(fire(alloc, 1)?)?;
    events.push(fire(alloc, 2)?)?;
    Ok(Event::Batch(events))
}

fn script(alloc: Global) -> Result<Script, Fail> {
    let mut events = Events::new(alloc);
    events.push(Event::Set {
        field: text(alloc, "n")?,
        to: Value::Int(1),
    })?;
    events.push(fire(alloc, 1)?)?;
    events.push(batch(alloc)?)?;
    Ok(Script { events })
}

fn push_path(alloc: Global, steps: &mut PathSteps) -> Result<(), Fail> {
    steps.push(PathStep::At(0))?;
    steps.push(PathStep::Then)?;
    steps.push(PathStep::Else)?;
    steps.push(PathStep::Items)?;
    steps.push(PathStep::Item {
        key: Value::Int(7),
        occurrence: 0,
    })?;
    steps.push(PathStep::Into(text(alloc, "Kid")?))?;
    steps.push(PathStep::Slot(text(alloc, "default")?))?;
    steps.push(PathStep::Empty)?;
    steps.push(PathStep::Attr(text(alloc, "id")?))?;
    steps.push(PathStep::Mod(0))?;
    Ok(())
}

fn path(alloc: Global) -> Result<Path, Fail> {
    let mut steps = PathSteps::new(alloc);
    push_path(alloc, &mut steps)?;
    Ok(Path { steps })
}

fn path_step_kind(step: &PathStep) -> usize {
    match step {
        PathStep::At(_) => 0,
        PathStep::Then => 1,
        PathStep::Else => 2,
        PathStep::Items => 3,
        PathStep::Item { .. } => 4,
        PathStep::Into(_) => 5,
        PathStep::Slot(_) => 6,
        PathStep::Empty => 7,
        PathStep::Attr(_) => 8,
        PathStep::Mod(_) => 9,
    }
}

fn event_kind(event: &Event) -> usize {
    match event {
        Event::Set { .. } => 0,
        Event::Fire { .. } => 1,
        Event::Batch(_) => 2,
    }
}

// A list's count, and that of its items, where it isn't empty.
fn check_counts(
    rt: &impl Abort,
    list: &str,
    is_empty: bool,
    counts: (usize, usize),
    wanted: usize,
) {
    assert!(rt; !is_empty, "{list}");
    assert_eq!(rt; counts.0, wanted, "{list}");
    assert_eq!(rt; counts.1, wanted, "{list}");
}

fn check_kind(rt: &impl Abort, found: usize, wanted: usize) {
    assert_eq!(rt; found, wanted);
}

fn check_steps(rt: &impl Abort, alloc: Global) -> Result<(), Fail> {
    let steps = Steps::from_vec(steps(alloc)?.into_vec());
    let counts = (steps.len(), steps.as_slice().len());
    check_counts(rt, "steps", steps.is_empty(), counts, 2);
    assert!(rt; steps.get(0).is_some_and(|step| step.when.is_some()));
    assert!(rt;
        steps
            .get(1)
            .is_some_and(|step| matches!(step.kind, StepKind::Call { .. }))
    );
    Ok(())
}

fn check_actions(rt: &impl Abort, alloc: Global) -> Result<(), Fail> {
    let actions = Actions::from_vec(actions(alloc)?.into_vec());
    let counts = (actions.len(), actions.as_slice().len());
    check_counts(rt, "actions", actions.is_empty(), counts, 1);
    assert!(rt; actions.get(0).is_some_and(|action| action.name.is("inc")));
    Ok(())
}

fn check_classes(rt: &impl Abort, alloc: Global) -> Result<(), Fail> {
    let classes = Classes::from_vec(manifest(alloc)?.classes.into_vec());
    let counts = (classes.len(), classes.as_slice().len());
    check_counts(rt, "classes", classes.is_empty(), counts, 1);
    assert!(rt; classes.get(0).is_some_and(|class| class.teardown));
    Ok(())
}

fn check_events(rt: &impl Abort, alloc: Global) -> Result<(), Fail> {
    let events = Events::from_vec(script(alloc)?.events.into_vec());
    let counts = (events.len(), events.as_slice().len());
    check_counts(rt, "events", events.is_empty(), counts, 3);
    assert!(rt; events.get(3).is_none());
    for (at, event) in events.as_slice().iter().enumerate() {
        check_kind(rt, event_kind(event), at);
    }
    Ok(())
}

fn check_path(rt: &impl Abort, alloc: Global) -> Result<(), Fail> {
    let steps = PathSteps::from_vec(path(alloc)?.steps.into_vec());
    let counts = (steps.len(), steps.as_slice().len());
    check_counts(rt, "path", steps.is_empty(), counts, 10);
    assert!(rt; matches!(steps.get(9), Some(PathStep::Mod(0))));
    for (at, step) in steps.as_slice().iter().enumerate() {
        check_kind(rt, path_step_kind(step), at);
    }
    Ok(())
}

#[test]
fn one_of_each(rt: HostRuntime) -> Result<(), Fail> {
    let alloc = rt.alloc();
    assert_eq!(rt; Kind::Member, Kind::Member);
    assert_ne!(rt; Kind::Local, Kind::Field);
    check_steps(&rt, alloc)?;
    check_actions(&rt, alloc)?;
    check_classes(&rt, alloc)?;
    check_events(&rt, alloc)?;
    check_path(&rt, alloc)
}
