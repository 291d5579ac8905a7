// Manifests, each with what is read of it or its first fault.
use gl_ast::Expr;
use gl_manifest::{ManifestFault, laws, read};
use gl_meaning::{Class, Manifest, StepKind};
use std::alloc::Global;
use std::process::Abort;
use std::test::Fail;

// What bytes are refused for.
enum Refusal {
    Json,
    Shape(&'static str),
    Expression(&'static str),
}

static FORMS: [(&str, Refusal); 6] = [
    (
        r#"{"classes":{"App":{"actions":{"add":{"do":["#,
        Refusal::Json,
    ),
    (r#"{"root":"App"}"#, Refusal::Shape("")),
    (
        r#"{"classes":{"App":{"template":"a","x":1}},"root":"App"}"#,
        Refusal::Shape("/classes/App/x"),
    ),
    (
        r#"{"root":"App","zz":1,"classes":{},"aa":2}"#,
        Refusal::Shape("/aa"),
    ),
    (
        r#"{"classes":{"App":{"fields":{"a/b":1},"template":"a"}},"root":"App"}"#,
        Refusal::Shape("/classes/App/fields/a~1b"),
    ),
    (
        r#"{"classes":{},"modifiers":["a","on"],"root":"App"}"#,
        Refusal::Shape("/modifiers/1"),
    ),
];

static EXPRESSIONS: [(&str, Refusal); 4] = [
    (
        r#"{"classes":{"App":{"getters":{"g":"(add 1"},"template":"a"}},"root":"App"}"#,
        Refusal::Expression("/classes/App/getters/g"),
    ),
    (
        r#"{"classes":{"App":{"getters":{"g":"(add 1"},"template":""}},"root":"App"}"#,
        Refusal::Shape("/classes/App/template"),
    ),
    (
        r#"{"classes":{"App":{"actions":{"f":{"do":[{"call":"a"}]}},"template":"a"}},"root":"App"}"#,
        Refusal::Expression("/classes/App/actions/f/do/0/call"),
    ),
    (
        r#"{"classes":{"App":{"actions":{"f":{"do":[{"to":"a b","set":"a","when":"("}]}},"template":"a"}},"root":"App"}"#,
        Refusal::Expression("/classes/App/actions/f/do/0/to"),
    ),
];

const FULL: &str =
    r#"{"limit":64,"root":"A","modifiers":["m"],"classes":{"B::C":{"teardown":true,"template":"b/c","fields":{"n":1,"l":[]},"getters":{"g":" (add 1 this.n) "},"actions":{"f":{"params":["p","o"],"do":[{"to":"p","set":"n","when":"@w"},{"with":["1"],"call":"@add.to"}]}}},"App":{"template":"a"}}}"#;

fn is_refused(found: &Result<Manifest, ManifestFault>, wanted: &Refusal) -> bool {
    match (found, wanted) {
        (Err(ManifestFault::BadJson), Refusal::Json) => true,
        (Err(ManifestFault::BadShape { pointer }), Refusal::Shape(wanted)) => pointer.is(wanted),
        (Err(ManifestFault::NotInGrammar { pointer }), Refusal::Expression(wanted)) => {
            pointer.is(wanted)
        }
        _ => false,
    }
}

fn check_row(rt: &impl Abort, alloc: Global, row: &(&str, Refusal)) {
    let found = read(alloc, row.0.as_bytes());
    assert!(rt; is_refused(&found, &row.1), "{}", row.0);
}

#[test]
fn forms(rt: HostRuntime) {
    for row in &FORMS {
        check_row(&rt, rt.alloc(), row);
    }
}

#[test]
fn expressions(rt: HostRuntime) {
    for row in &EXPRESSIONS {
        check_row(&rt, rt.alloc(), row);
    }
}

// Whether the class is the second of the full manifest.
fn is_full(class: &Class) -> bool {
    class.name.is("B::C")
        && class.file.is("b/c")
        && class.fields.len() == 2
        && class.getters.len() == 1
        && class.actions.len() == 1
        && class.teardown
}

// Whether the first action has two parameters and two steps, of which the first sets the field.
fn has_steps(class: &Class) -> bool {
    let Some(action) = class.actions.get(0) else {
        return false;
    };
    let Some(step) = action.steps.get(0) else {
        return false;
    };
    let sets = match &step.kind {
        StepKind::Set { field, .. } => field.is("n"),
        StepKind::Call { .. } => false,
    };
    sets && step.when.is_some() && action.params.len() == 2 && action.steps.len() == 2
}

// Whether the fields stand in the order of their names, which is not the file's.
fn has_order(class: &Class) -> bool {
    match class.fields.as_slice() {
        [first, second] => first.0.is("l") && second.0.is("n"),
        _ => false,
    }
}

// Whether the getter is a call.
fn has_getter(class: &Class) -> bool {
    match class.getters.get(0) {
        Some(getter) => matches!(&getter.value, Expr::Call { .. }),
        None => false,
    }
}

fn check_head(rt: &impl Abort, manifest: &Manifest) {
    assert!(rt; manifest.root.is("A"));
    assert_eq!(rt; manifest.limit, 64);
    assert_eq!(rt; manifest.modifiers.len(), 1);
    assert_eq!(rt; manifest.classes.len(), 2);
}

fn check_class(rt: &impl Abort, class: &Class) {
    assert!(rt; is_full(class));
    assert!(rt; has_order(class));
    assert!(rt; has_steps(class));
    assert!(rt; has_getter(class));
}

#[test]
fn reads(rt: HostRuntime) -> Result<(), Fail> {
    let manifest = read(rt.alloc(), FULL.as_bytes())?;
    check_head(&rt, &manifest);
    match manifest.classes.get(1) {
        Some(class) => check_class(&rt, class),
        None => assert!(rt; false),
    }
    Ok(())
}

#[test]
fn laws_are_called(_: HostRuntime) -> Result<(), Fail> {
    laws::says_what_it_holds();
    laws::names_rise();
    Ok(())
}
