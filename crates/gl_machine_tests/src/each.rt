// Plans and keys, as callers meet them.
use gl_each::{Key, Plan, PlanStep, apart, keys, plan};
use gl_value::{List, Text, Value};
use std::alloc::Global;
use std::process::Abort;
use std::test::Fail;

// The items of two lists, the steps of the plan (an old place that is kept, a place that is moved, or `+`), and the
// old places that are removed. Each item is a character, and is its own key.
type Planned = (&'static str, &'static str, &'static str, &'static str);

static PLANS: [Planned; 11] = [
    ("abcd", "dxba", "3 + >1 >0 ", "2 "),
    ("", "", "", ""),
    ("abc", "cab", "2 >0 >1 ", ""),
    ("abc", "abc", "0 1 2 ", ""),
    ("", "ab", "+ + ", ""),
    ("ab", "", "", "0 1 "),
    ("abc", "acb", "0 2 >1 ", ""),
    ("aab", "ab", "0 2 ", "1 "),
    ("aba", "baa", "1 >0 2 ", ""),
    ("abcdef", "fedcba", "5 >4 >3 >2 >1 >0 ", ""),
    (
        "abcdefghijkl",
        "cahxkebljdgf",
        "2 >0 7 + 10 >4 >1 11 >9 >3 >6 >5 ",
        "8 ",
    ),
];

fn letters(alloc: Global, text: &str) -> Result<Vec<Value>, Fail> {
    let mut list = Vec::new(alloc);
    for letter in text.chars() {
        let mut item = Text::new(alloc);
        item.push_char(letter)?;
        list.push(Value::Text(item))?;
    }
    Ok(list)
}

fn say_steps(out: &mut Text, steps: &[PlanStep]) -> Result<(), Fail> {
    for step in steps {
        match step {
            PlanStep::Retain { old } => out.push_number(u128::from(*old))?,
            PlanStep::Move { old } => {
                out.push_str(">")?;
                out.push_number(u128::from(*old))?;
            }
            PlanStep::Insert => out.push_str("+")?,
        }
        out.push_str(" ")?;
    }
    Ok(())
}

fn say_places(out: &mut Text, places: &[u64]) -> Result<(), Fail> {
    for place in places {
        out.push_number(u128::from(*place))?;
        out.push_str(" ")?;
    }
    Ok(())
}

fn planned(alloc: Global, old: &str, new: &str) -> Result<Plan, Fail> {
    let before = letters(alloc, old)?;
    let before = keys(alloc, before.as_slice(), "@identity")?;
    let after = letters(alloc, new)?;
    let after = keys(alloc, after.as_slice(), "@identity")?;
    Ok(plan(&before, &after)?)
}

fn check_plan(rt: &impl Abort, alloc: Global, row: &Planned) -> Result<(), Fail> {
    let plan = planned(alloc, row.0, row.1)?;
    let mut said = Text::new(alloc);
    say_steps(&mut said, plan.steps.as_slice())?;
    let mut places = Text::new(alloc);
    say_places(&mut places, plan.removed.as_slice())?;
    assert!(rt;
        said.is(row.2) && places.is(row.3),
        "{} to {}",
        row.0,
        row.1
    );
    Ok(())
}

#[test]
fn plans(rt: HostRuntime) -> Result<(), Fail> {
    for row in &PLANS {
        check_plan(&rt, rt.alloc(), row)?;
    }
    Ok(())
}

// The JSON of a list, a key text, and the texts of the keys with their occurrences.
static KEYS: [(&str, &str, &str); 4] = [
    (
        r#"[{"k":"a","t":"1"},{"k":"a","t":"2"},{"k":"b","t":"3"}]"#,
        "k",
        "a.0 a.1 b.0 ",
    ),
    (r#"["x","x","y"]"#, "@index", "0.0 1.0 2.0 "),
    (r#"[1,"1",1,[1],[1]]"#, "@identity", "1.0 1.0 1.1 1.0 1.1 "),
    (
        r#"[{"a":{"b":7}},{"a":{"b":8}},{"a":{"b":7}}]"#,
        "a.b",
        "7.0 8.0 7.1 ",
    ),
];

fn items(alloc: Global, json: &str) -> Result<List, Fail> {
    let json = serde_json::Value::from_str(alloc, json)?;
    match Value::from_json(alloc, &json)? {
        Value::List(items) => Ok(items),
        _ => Err("a list")?,
    }
}

fn say_key(alloc: Global, out: &mut Text, found: &Key) -> Result<(), Fail> {
    let text = found.value.text_of(alloc)?;
    out.push_text(&text)?;
    out.push_str(".")?;
    out.push_number(u128::from(found.occurrence))?;
    out.push_str(" ")?;
    Ok(())
}

fn check_keys(rt: &impl Abort, alloc: Global, row: &(&str, &str, &str)) -> Result<(), Fail> {
    let items = items(alloc, row.0)?;
    let found = keys(alloc, items.as_slice(), row.1)?;
    let mut said = Text::new(alloc);
    for key in found.as_slice() {
        say_key(alloc, &mut said, key)?;
    }
    assert!(rt; said.is(row.2), "{} of {}", row.1, row.0);
    Ok(())
}

#[test]
fn keyed(rt: HostRuntime) -> Result<(), Fail> {
    for row in &KEYS {
        check_keys(&rt, rt.alloc(), row)?;
    }
    Ok(())
}

// The JSON of a list, and whether hashes tell the keys of its items apart.
static APART: [(&str, bool); 2] = [(r#"[1,"x",2]"#, true), (r#"[1,2,1]"#, false)];

#[test]
fn told_apart(rt: HostRuntime) -> Result<(), Fail> {
    let alloc = rt.alloc();
    for row in &APART {
        let items = items(alloc, row.0)?;
        let found = keys(alloc, items.as_slice(), "@identity")?;
        let shown = apart(alloc, found.into_vec())?;
        assert!(rt; shown.is_some() == row.1, "{}", row.0);
    }
    Ok(())
}
