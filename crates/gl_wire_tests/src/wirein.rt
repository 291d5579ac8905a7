// JSON that is the wire of a template, and JSON that is none.
use gl_wire::to_json;
use gl_wirein::{WireFault, from_json};
use serde_json::Value;
use std::alloc::Global;
use std::process::Abort;
use std::test::Fail;

static SHAPES: [&str; 12] = [
    r#"null"#,
    r#"[]"#,
    r#"{}"#,
    r#"1.5"#,
    r#""a""#,
    r#"{"body":[],"symbols":[]}"#,
    r#"{"body":[],"symbols":[],"v":3}"#,
    r#"{"body":[],"symbols":[],"v":0}"#,
    r#"{"body":[],"symbols":[],"v":2.0}"#,
    r#"{"body":[],"symbols":[],"v":"2"}"#,
    r#"{"body":[],"symbols":[],"v":2,"w":1}"#,
    r#"{"body":[],"symbols":[],"v":1,"w":1}"#,
];

static ENDS: [&str; 8] = [
    r#"{"body":[["end"]],"symbols":[],"v":1}"#,
    r#"{"body":[["el","p",[]]],"symbols":[],"v":1}"#,
    r#"{"body":[["el","p",[]],["end"],["end"]],"symbols":[],"v":1}"#,
    r#"{"body":[["if",["this","a"]],["else"],["end"]],"symbols":[],"v":1}"#,
    r#"{"body":[["if",["this","a"]],["text","b"],["else"],["text","c"],["else"],["text","d"],["end"]],"symbols":[],"v":1}"#,
    r#"{"body":[["el","p",[]],["else"],["text","c"],["end"]],"symbols":[],"v":1}"#,
    r#"{"body":[["else"]],"symbols":[],"v":1}"#,
    r#"{"body":[["if",["this","a"]],["text","b"],["else"],["text","c"]],"symbols":[],"v":1}"#,
];

static SYMBOLS: [&str; 8] = [
    r#"{"body":[["put",["sym",0]]],"symbols":[],"v":1}"#,
    r#"{"body":[["put",["sym",1]]],"symbols":["@a"],"v":1}"#,
    r#"{"body":[],"symbols":["@a"],"v":1}"#,
    r#"{"body":[["put",["sym",0]],["put",["sym",1]]],"symbols":["@a","@a"],"v":1}"#,
    r#"{"body":[["put",["sym",1]],["put",["sym",0]]],"symbols":["@a","@b"],"v":1}"#,
    r#"{"body":[["put",["sym",0]]],"symbols":["a"],"v":1}"#,
    r#"{"body":[["put",["sym",0.0]]],"symbols":["@a"],"v":1}"#,
    r#"{"body":[["put",["sym",-1]]],"symbols":["@a"],"v":1}"#,
];

static EXPRESSIONS: [&str; 8] = [
    r#"{"body":[["put",["free","a"]]],"symbols":[],"v":1}"#,
    r#"{"body":[["put",["call","f",[["cat",[["lit","a"]]]],[]]]],"symbols":[],"v":1}"#,
    r#"{"body":[["put",["cat",[["lit","a"]]]]],"symbols":[],"v":1}"#,
    r#"{"body":[["put",["lit",1.5]]],"symbols":[],"v":1}"#,
    r#"{"body":[["put",["lit",9007199254740992]]],"symbols":[],"v":1}"#,
    r#"{"body":[["put",["get",["this","a"],[]]]],"symbols":[],"v":1}"#,
    r#"{"body":[["put",["lit",[]]]],"symbols":[],"v":1}"#,
    r#"{"body":[["put",["call","f",[]]]],"symbols":[],"v":1}"#,
];

static TEXTS: [&str; 8] = [
    r#"{"body":[["text",""]],"symbols":[],"v":1}"#,
    r#"{"body":[["text","a"],["text",""]],"symbols":[],"v":1}"#,
    r#"{"body":[["comment","-->"]],"symbols":[],"v":1}"#,
    r#"{"body":[["text",1]],"symbols":[],"v":1}"#,
    r#"{"body":[["text"]],"symbols":[],"v":1}"#,
    r#"{"body":[["put",["this","true-"],1]],"symbols":[],"v":1}"#,
    r#"{"body":[["el","P",[]],["end"]],"symbols":[],"v":1}"#,
    r#"{"body":[["el","br",[]],["text","a"],["end"]],"symbols":[],"v":1}"#,
];

static BLOCKS: [&str; 8] = [
    r#"{"body":[["let",[],[]],["end"]],"symbols":[],"v":1}"#,
    r#"{"body":[["comp","C",[],[],[0]],["end"]],"symbols":["@a"],"v":1}"#,
    r#"{"body":[["leaf","c",[],[]]],"symbols":[],"v":1}"#,
    r#"{"body":[["leaf","C",[],[["1",["lit","b"]]]]],"symbols":[],"v":1}"#,
    r#"{"body":[["each",["this","a"],"k",[0,1,2]],["end"]],"symbols":["a","b","c"],"v":1}"#,
    r#"{"body":[["yield",[],"default"]],"symbols":[],"v":1}"#,
    r#"{"body":[["el","p",[["dyn","a",["lit","b"]],["spread","x"]]],["end"]],"symbols":[],"v":1}"#,
    r#"{"body":[["slot","default",[]],["end"]],"symbols":[],"v":1}"#,
];

// Of blocks in version 2: a slot twice, names that no block has, ends that do not fit.
static SLOTS: [&str; 14] = [
    r#"{"body":[["comp","C",[],[]],["slot","a",[]],["end"],["slot","a",[]],["end"],["end"]],"symbols":[],"v":2}"#,
    r#"{"body":[["comp","C",[],[]],["slot","yield",[]],["end"],["end"]],"symbols":[],"v":2}"#,
    r#"{"body":[["comp","C",[],[]],["slot","inverse",[]],["end"],["end"]],"symbols":[],"v":2}"#,
    r#"{"body":[["comp","C",[],[]],["slot","",[]],["end"],["end"]],"symbols":[],"v":2}"#,
    r#"{"body":[["comp","C",[],[]],["slot",1,[]],["end"],["end"]],"symbols":[],"v":2}"#,
    r#"{"body":[["comp","C",[],[]],["end"]],"symbols":[],"v":2}"#,
    r#"{"body":[["comp","C",[],[]],["slot","a",[]],["end"]],"symbols":[],"v":2}"#,
    r#"{"body":[["comp","C",[],[]],["slot","a",[]],["end"],["text","x"],["end"]],"symbols":[],"v":2}"#,
    r#"{"body":[["comp","C",[],[]],["slot","a",[]],["text","x"],["else"],["text","y"],["end"],["end"]],"symbols":[],"v":2}"#,
    r#"{"body":[["slot","a",[]],["end"]],"symbols":[],"v":2}"#,
    r#"{"body":[["el","p",[]],["slot","a",[]],["end"],["end"]],"symbols":[],"v":2}"#,
    r#"{"body":[["comp","C",[],[]],["slot","a"],["end"],["end"]],"symbols":[],"v":2}"#,
    r#"{"body":[["comp","C",[],[]],["slot","a",[0]],["end"],["end"]],"symbols":["@a"],"v":2}"#,
    r#"{"body":[["comp","C",[],[]],["slot","a",[],[]],["end"],["end"]],"symbols":[],"v":2}"#,
];

// What one version has in the other, and names that no yield has.
static VERSIONS: [&str; 9] = [
    r#"{"body":[["comp","C",[],[],[]],["end"]],"symbols":[],"v":2}"#,
    r#"{"body":[["comp","C",[],[]],["slot","default",[]],["end"],["end"]],"symbols":[],"v":1}"#,
    r#"{"body":[["comp","C",[],[]],["slot","a",[]],["end"],["end"]],"symbols":[],"v":1}"#,
    r#"{"body":[["yield",[]]],"symbols":[],"v":2}"#,
    r#"{"body":[["yield",[],"a"]],"symbols":[],"v":1}"#,
    r#"{"body":[["yield",[],"this"]],"symbols":[],"v":2}"#,
    r#"{"body":[["yield",[],"inverse"]],"symbols":[],"v":2}"#,
    r#"{"body":[["yield",[],null]],"symbols":[],"v":2}"#,
    r#"{"body":[["yield",[],"a","b"]],"symbols":[],"v":2}"#,
];

// Wires in version 1 and in version 2.
static WIRES: [(&str, &str); 7] = [
    (
        r#"{"body":[],"symbols":[],"v":1}"#,
        r#"{"body":[],"symbols":[],"v":2}"#,
    ),
    (
        r#"{"body":[["el","p",[["dyn","title",["sym",0]]]],["text","a"],["end"]],"symbols":["@t"],"v":1}"#,
        r#"{"body":[["el","p",[["dyn","title",["sym",0]]]],["text","a"],["end"]],"symbols":["@t"],"v":2}"#,
    ),
    (
        r#"{"body":[["put",["call","f",[],[]]]],"symbols":[],"v":1}"#,
        r#"{"body":[["put",["call","f",[],[]]]],"symbols":[],"v":2}"#,
    ),
    (
        r#"{"body":[["if",["this","a"]],["text","b"],["else"],["text","c"],["end"]],"symbols":[],"v":1}"#,
        r#"{"body":[["if",["this","a"]],["text","b"],["else"],["text","c"],["end"]],"symbols":[],"v":2}"#,
    ),
    (
        r#"{"body":[["leaf","C",[],[["a",["lit","b"]],["c",["cat",[["lit","d"],["sym",0]]]]]]],"symbols":["@e"],"v":1}"#,
        r#"{"body":[["leaf","C",[],[["a",["lit","b"]],["c",["cat",[["lit","d"],["sym",0]]]]]]],"symbols":["@e"],"v":2}"#,
    ),
    (
        r#"{"body":[["comp","C",[],[],[0]],["put",["sym",0]],["put",["undef"]],["end"]],"symbols":["a"],"v":1}"#,
        r#"{"body":[["comp","C",[],[]],["slot","default",[0]],["put",["sym",0]],["put",["undef"]],["end"],["end"]],"symbols":["a"],"v":2}"#,
    ),
    (
        r#"{"body":[["yield",[]]],"symbols":[],"v":1}"#,
        r#"{"body":[["yield",[],"default"]],"symbols":[],"v":2}"#,
    ),
];

// Wires that only version 2 has.
static NAMED: [&str; 4] = [
    r#"{"body":[["comp","C",[],[]],["slot","a",[]],["text","x"],["end"],["end"],["yield",[],"a"]],"symbols":[],"v":2}"#,
    r#"{"body":[["comp","C",[],[]],["slot","a",[0]],["put",["sym",0]],["end"],["slot","default",[1]],["end"],["slot","b",[]],["end"],["end"]],"symbols":["x","y"],"v":2}"#,
    r#"{"body":[["comp","C",[],[]],["slot","a",[]],["comp","D",[],[]],["slot","a",[]],["text","x"],["end"],["end"],["text","y"],["end"],["end"],["text","z"]],"symbols":[],"v":2}"#,
    r#"{"body":[["comp","C",[],[]],["slot","to",[]],["yield",[["this","a"]],"to"],["end"],["end"]],"symbols":[],"v":2}"#,
];

// Whether the text is of no wire, or of one that has this JSON in version 2.
fn check_wire(
    rt: &impl Abort,
    alloc: Global,
    text: &str,
    expected: Option<&str>,
) -> Result<(), Fail> {
    let json = Value::from_str(alloc, text)?;
    match from_json(alloc, &json) {
        Ok(wire) => {
            let again = to_json(alloc, &wire)?.to_string(alloc)?;
            assert!(rt; expected.is_some_and(|text| text == again.as_str()));
        }
        Err(fault) => assert!(rt; expected.is_none() && fault == WireFault::BadWire),
    }
    Ok(())
}

// The text is of no wire.
fn check_row(rt: &impl Abort, alloc: Global, text: &'static str) -> Result<(), Fail> {
    check_wire(rt, alloc, text, None)
}

// Both texts are of the wire that the second is written of.
fn check_versions(
    rt: &impl Abort,
    alloc: Global,
    row: &(&'static str, &'static str),
) -> Result<(), Fail> {
    check_wire(rt, alloc, row.0, Some(row.1))?;
    check_wire(rt, alloc, row.1, Some(row.1))
}

// A text so many times, and another as often after it, as the body of a wire.
fn tower(alloc: Global, opening: &str, closing: &str, levels: u32) -> Result<String, Fail> {
    let mut text = String::from_str(alloc, r#"{"body":["#)?;
    for _ in 0..levels {
        text.push_str(opening)?;
    }
    text.push_str(r#"["text","x"]"#)?;
    for _ in 0..levels {
        text.push_str(closing)?;
    }
    text.push_str(r#"],"symbols":[],"v":2}"#)?;
    Ok(text)
}

// A component in a block of another, so many times.
fn check_tower(
    rt: &impl Abort,
    alloc: Global,
    opening: &str,
    levels: u32,
    is_wire: bool,
) -> Result<(), Fail> {
    let text = tower(alloc, opening, r#",["end"],["end"]"#, levels)?;
    if is_wire {
        check_wire(rt, alloc, text.as_str(), Some(text.as_str()))
    } else {
        check_wire(rt, alloc, text.as_str(), None)
    }
}

#[test]
fn other_shapes_are_bad(rt: HostRuntime) -> Result<(), Fail> {
    for text in &SHAPES {
        check_row(&rt, rt.alloc(), text)?;
    }
    Ok(())
}

#[test]
fn ends_and_elses_that_do_not_fit_are_bad(rt: HostRuntime) -> Result<(), Fail> {
    for text in &ENDS {
        check_row(&rt, rt.alloc(), text)?;
    }
    Ok(())
}

#[test]
fn symbols_that_are_not_mentioned_in_order_are_bad(rt: HostRuntime) -> Result<(), Fail> {
    for text in &SYMBOLS {
        check_row(&rt, rt.alloc(), text)?;
    }
    Ok(())
}

#[test]
fn other_expressions_are_bad(rt: HostRuntime) -> Result<(), Fail> {
    for text in &EXPRESSIONS {
        check_row(&rt, rt.alloc(), text)?;
    }
    Ok(())
}

#[test]
fn what_no_bytes_spell_is_bad(rt: HostRuntime) -> Result<(), Fail> {
    for text in &TEXTS {
        check_row(&rt, rt.alloc(), text)?;
    }
    Ok(())
}

#[test]
fn other_blocks_are_bad(rt: HostRuntime) -> Result<(), Fail> {
    for text in &BLOCKS {
        check_row(&rt, rt.alloc(), text)?;
    }
    Ok(())
}

#[test]
fn other_slots_are_bad(rt: HostRuntime) -> Result<(), Fail> {
    for text in &SLOTS {
        check_row(&rt, rt.alloc(), text)?;
    }
    Ok(())
}

#[test]
fn no_version_has_what_another_has(rt: HostRuntime) -> Result<(), Fail> {
    for text in &VERSIONS {
        check_row(&rt, rt.alloc(), text)?;
    }
    Ok(())
}

#[test]
fn wires_are_read_in_both_versions(rt: HostRuntime) -> Result<(), Fail> {
    for row in &WIRES {
        check_versions(&rt, rt.alloc(), row)?;
    }
    Ok(())
}

#[test]
fn named_blocks_are_read(rt: HostRuntime) -> Result<(), Fail> {
    for text in &NAMED {
        check_wire(&rt, rt.alloc(), text, Some(text))?;
    }
    Ok(())
}

// A component with its block `default` nests as one, a block that is named nests in its component.
#[test]
fn blocks_nest_as_deep_as_they_are_spelled(rt: HostRuntime) -> Result<(), Fail> {
    let own = r#"["comp","C",[],[]],["slot","default",[]],"#;
    let named = r#"["comp","C",[],[]],["slot","a",[]],"#;
    check_tower(&rt, rt.alloc(), own, 100, true)?;
    check_tower(&rt, rt.alloc(), own, 101, false)?;
    check_tower(&rt, rt.alloc(), named, 50, true)?;
    check_tower(&rt, rt.alloc(), named, 51, false)
}
