// Calls of helpers. Values are written in JSON, where the text `?` stands for undefined, and a record with
// the key `@go` for the action `go` of the instance 7 with the fixed arguments that stand there.
use crate::value::{list_of, value_of};
use gl_helpers::call;
use gl_value::{Act, List, ListBuilder, NamedValues, Pair, Record, RecordBuilder, Text, Value};
use std::alloc::{AllocError, Global};
use std::process::Abort;
use std::test::Fail;

// A helper's number, the positional arguments, and what it gives.
type Row = (u16, &'static str, &'static str);

static PARTS: [Row; 27] = [
    // if c a b, unless c a b
    (0, r#"[true,1,2]"#, "1"),
    (0, r#"[0,1,2]"#, "2"),
    (0, r#"["",1]"#, r#""?""#),
    (0, r#"[[],1,2,9]"#, "2"),
    (0, r#"[{},1,2]"#, "1"),
    (0, r#"[{"@go":[]},1,2]"#, "1"),
    (0, "[]", r#""?""#),
    (1, "[true,1,2]", "2"),
    (1, "[null,1,2]", "1"),
    (1, r#"["?",1]"#, "1"),
    (1, "[true,1]", r#""?""#),
    // concat x..
    (
        2,
        r#"["a",1,true,null,"?",[1,"x"],{"k":1},{"@go":[1]}]"#,
        r#""a1true1,x[object Object][action go]""#,
    ),
    (2, "[]", r#""""#),
    // array x..
    (3, r#"[1,"a","?"]"#, r#"[1,"a","?"]"#),
    (3, "[]", "[]"),
    // hash k=x..
    (4, "[7]", "{}"),
    // get v p
    (5, r#"[{"a":{"b":5}},"a.b"]"#, "5"),
    (5, r#"[{"a":1},"b"]"#, r#""?""#),
    (5, r#"[[7,8],"1"]"#, "8"),
    (5, r#"[[7,8],"01"]"#, r#""?""#),
    (5, r#"[[7,8],"length"]"#, "2"),
    (5, r#"["\u00e9t\u00e9","length"]"#, "3"),
    (5, r#"[{"1":2},1]"#, "2"),
    (5, r#"[{"":{"":4}},"."]"#, "4"),
    // fn f x..
    (6, r#"[{"@go":[1]},2,3]"#, r#"{"@go":[1,2,3]}"#),
    (6, r#"[{"@go":[]}]"#, r#"{"@go":[]}"#),
    (6, "[5,1]", r#""?""#),
];

static NUMBERS: [Row; 50] = [
    // add a b, sub a b, mul a b
    (7, "[9007199254740991,true]", "9007199254740991"),
    (7, "[2,3]", "5"),
    (7, r#"["2",3]"#, "3"),
    (7, "[4]", "4"),
    (7, "[-9007199254740991,-1]", "-9007199254740991"),
    (8, "[2,5]", "-3"),
    (8, "[false,5]", "-5"),
    (8, "[9007199254740991,-1]", "9007199254740991"),
    (8, "[-9007199254740991,1]", "-9007199254740991"),
    (9, "[3,-4]", "-12"),
    (9, "[5]", "0"),
    (9, "[9007199254740991,9007199254740991]", "9007199254740991"),
    (9, "[9007199254740991,-2]", "-9007199254740991"),
    // min a b, max a b
    (10, "[2,true]", "1"),
    (10, r#"["a",-1]"#, "-1"),
    (10, "[]", "0"),
    (11, "[2,true]", "2"),
    (11, r#"["a",-1]"#, "0"),
    // eq a b, ne a b, not a
    (12, "[1,1]", "true"),
    (12, r#"[1,"1"]"#, "false"),
    (12, r#"[[1,{"a":2}],[1,{"a":2}]]"#, "true"),
    (12, "[null]", "false"),
    (12, "[]", "true"),
    (13, r#"[1,"1"]"#, "true"),
    (13, "[1,1]", "false"),
    (14, "[0]", "true"),
    (14, "[{}]", "false"),
    (14, "[]", "true"),
    // and x.., or x..
    (15, "[1,0,2]", "0"),
    (15, "[1,2]", "2"),
    (15, r#"[1,"?",0]"#, r#""?""#),
    (15, "[]", r#""?""#),
    (16, "[0,5,2]", "5"),
    (16, r#"[0,""]"#, r#""""#),
    (16, "[]", r#""?""#),
    // lt a b, lte a b, gt a b, gte a b
    (17, r#"["10","9"]"#, "true"),
    (17, "[10,9]", "false"),
    (17, r#"["10",9]"#, "true"),
    (17, r#"["a","a"]"#, "false"),
    (17, r#"["\u00e9","z"]"#, "false"),
    (17, r#"["\uffff","\ud800\udc00"]"#, "true"),
    (18, r#"["a","a"]"#, "true"),
    (18, "[true,1]", "true"),
    (18, "[2,1]", "false"),
    (19, r#"["9","10"]"#, "true"),
    (19, "[2,true]", "true"),
    (19, "[1,2]", "false"),
    (20, r#"["a","a"]"#, "true"),
    (20, "[1,2]", "false"),
    (20, "[]", "true"),
];

static LISTS: [Row; 46] = [
    // length v
    (21, "[[1,2]]", "2"),
    (21, r#"["\u00e9\ud83d\ude00"]"#, "2"),
    (21, r#"[{"length":5}]"#, "0"),
    (21, "[12]", "0"),
    // append l x
    (22, "[[1],2]", "[1,2]"),
    (22, "[5,2]", "[2]"),
    (22, "[[1]]", r#"[1,"?"]"#),
    // removeAt l i
    (23, "[[1,2,3],1]", "[1,3]"),
    (23, "[[1,2,3],3]", "[1,2,3]"),
    (23, "[[1,2,3],-1]", "[1,2,3]"),
    (23, "[[1,2,3],true]", "[1,3]"),
    (23, "[[1,2,3]]", "[2,3]"),
    (23, r#"["abc",0]"#, "[]"),
    // put r k x
    (24, r#"[{"a":1,"c":3},"b",2]"#, r#"{"a":1,"b":2,"c":3}"#),
    (24, r#"[{"a":1,"c":3},"c",4,9]"#, r#"{"a":1,"c":4}"#),
    (24, r#"[{"z":1},"\u00e9",2]"#, r#"{"z":1,"\u00e9":2}"#),
    (24, r#"[7,"k",1]"#, r#"{"k":1}"#),
    (24, r#"[{"a":1},1]"#, r#"{"1":"?","a":1}"#),
    // slice l i j
    (25, "[[1,2,3],1]", "[2,3]"),
    (25, "[[1,2,3],1,2]", "[2]"),
    (25, "[[1,2,3],-1,2]", "[1,2]"),
    (25, "[[1,2,3],2,1]", "[]"),
    (25, "[[1,2,3],0,9]", "[1,2,3]"),
    (25, "[[1,2,3],0,null]", "[]"),
    (25, "[[1,2,3]]", "[1,2,3]"),
    // reverse l
    (26, "[[1,2,3]]", "[3,2,1]"),
    (26, r#"["abc"]"#, "[]"),
    // includes l x
    (27, r#"[[1,"2"],"2"]"#, "true"),
    (27, r#"[[1,"2"],2]"#, "false"),
    (27, r#"[[1,"?"]]"#, "true"),
    (27, "[5,5]", "false"),
    // where l k x, removeWhere l k x
    (
        28,
        r#"[[{"a":1},{"a":2},{"a":1,"b":3},7],"a",1]"#,
        r#"[{"a":1},{"a":1,"b":3}]"#,
    ),
    (28, r#"[[{"a":1},7],"a"]"#, "[7]"),
    (28, r#"[["ab","c"],"length",1]"#, r#"["c"]"#),
    (
        29,
        r#"[[{"a":1},{"a":2},{"a":1,"b":3},7],"a",1]"#,
        r#"[{"a":2},7]"#,
    ),
    (29, r#"[[{"a":1},7],"a"]"#, r#"[{"a":1}]"#),
    // updateWhere l k x f y
    (
        30,
        r#"[[{"a":1},{"a":2},{"a":1,"b":3},7],"a",1,"b",9]"#,
        r#"[{"a":1,"b":9},{"a":2},{"a":1,"b":9},7]"#,
    ),
    (30, r#"[["ab"],"length",2,"b",9]"#, r#"["ab"]"#),
    (30, r#"[[{"a":1}],"a",1,"a",5]"#, r#"[{"a":5}]"#),
    // pluck l k
    (31, r#"[[{"a":1},{"b":2},7],"a"]"#, r#"[1,"?","?"]"#),
    (31, r#"[["abc"],"length"]"#, "[3]"),
    // join l s
    (32, r#"[[1,"?",null,"a"],"-"]"#, r#""1---a""#),
    (32, r#"[[[1,2],3],0]"#, r#""1,203""#),
    (32, r#"[[],"-"]"#, r#""""#),
    (32, "[[1,2]]", r#""12""#),
    (32, r#"["abc","-"]"#, r#""""#),
];

// The value of a JSON text, with what stands for undefined and for an action at the top or one below.
fn read(alloc: Global, text: &str) -> Result<Value, Fail> {
    let value = value_of(alloc, text)?;
    Ok(marked(alloc, &value)?)
}

fn marked(alloc: Global, value: &Value) -> Result<Value, AllocError> {
    match value {
        Value::List(list) => marked_list(alloc, list),
        Value::Record(record) if record.get("@go").is_none() => marked_record(alloc, record),
        _ => member(alloc, value),
    }
}

fn marked_list(alloc: Global, list: &List) -> Result<Value, AllocError> {
    let mut items = ListBuilder::new(alloc);
    for item in list.as_slice() {
        items.push(member(alloc, item)?)?;
    }
    Ok(Value::List(items.build()?))
}

fn marked_record(alloc: Global, record: &Record) -> Result<Value, AllocError> {
    let mut pairs = RecordBuilder::new(alloc);
    for pair in record.as_slice() {
        push_marked(alloc, pair, &mut pairs)?;
    }
    Ok(Value::Record(pairs.build()?))
}

fn push_marked(alloc: Global, pair: &Pair, pairs: &mut RecordBuilder) -> Result<(), AllocError> {
    let value = member(alloc, &pair.value)?;
    pairs.push(pair.key.copy()?, value)
}

fn member(alloc: Global, value: &Value) -> Result<Value, AllocError> {
    match value {
        Value::Text(text) if text.is("?") => Ok(Value::Undefined),
        Value::Record(record) => match record.get("@go") {
            Some(Value::List(fixed)) => action(alloc, fixed),
            _ => value.copy(),
        },
        _ => value.copy(),
    }
}

fn action(alloc: Global, fixed: &List) -> Result<Value, AllocError> {
    let name = Text::from_str(alloc, "go")?;
    Ok(Value::Act(Act::new(alloc, 7, name, fixed.copy()?)?))
}

// The values of a JSON list.
fn arguments(alloc: Global, text: &str) -> Result<Vec<Value>, Fail> {
    match value_of(alloc, text)? {
        Value::List(items) => marked_items(alloc, &items),
        _ => Ok(Vec::new(alloc)),
    }
}

fn marked_items(alloc: Global, items: &List) -> Result<Vec<Value>, Fail> {
    let mut given = Vec::new(alloc);
    for item in items.as_slice() {
        given.push(marked(alloc, item)?)?;
    }
    Ok(given)
}

// What the helper with a number gives.
fn called(
    rt: &impl Abort,
    alloc: Global,
    helper: u16,
    given: &[Value],
    named: &NamedValues,
) -> Result<Value, Fail> {
    assert!(rt; helper < 33);
    Ok(call(alloc, helper, given, named)?)
}

// Whether a value is that of a JSON text.
fn is_read(alloc: Global, got: Value, wanted: &str) -> Result<bool, Fail> {
    let wanted = read(alloc, wanted)?;
    Ok(got.same(&wanted))
}

fn called_row(rt: &impl Abort, alloc: Global, row: &Row) -> Result<Value, Fail> {
    let given = arguments(alloc, row.1)?;
    called(rt, alloc, row.0, given.as_slice(), &NamedValues::new(alloc))
}

fn check_row(rt: &impl Abort, alloc: Global, row: &Row) -> Result<(), Fail> {
    let (helper, args, wanted) = *row;
    let got = called_row(rt, alloc, row)?;
    let is_right = is_read(alloc, got, wanted)?;
    assert!(rt; is_right, "{helper} of {args}");
    Ok(())
}

fn check_rows(rt: &impl Abort, alloc: Global, rows: &[Row]) -> Result<(), Fail> {
    for row in rows {
        check_row(rt, alloc, row)?;
    }
    Ok(())
}

#[test]
fn rows(rt: HostRuntime) -> Result<(), Fail> {
    let alloc = rt.alloc();
    check_rows(&rt, alloc, &PARTS)?;
    check_rows(&rt, alloc, &NUMBERS)?;
    check_rows(&rt, alloc, &LISTS)
}

// The names of a `hash` with the values 0, 1, 2, .., and what it gives.
type Hash = (&'static [&'static str], &'static str);

static HASHES: [Hash; 5] = [
    (&[], "{}"),
    (&["b", "a"], r#"{"a":1,"b":0}"#),
    (&["a", "b", "a"], r#"{"a":2,"b":1}"#),
    (&["\u{e9}", "z", ""], r#"{"":2,"z":1,"\u00e9":0}"#),
    (&["a", "a", "a", "a"], r#"{"a":3}"#),
];

fn push_named(
    alloc: Global,
    named: &mut NamedValues,
    name: &str,
    value: Value,
) -> Result<(), AllocError> {
    named.push(Text::from_str(alloc, name)?, value)
}

// The names with the values 0, 1, 2, ..
fn numbered(alloc: Global, names: &[&str]) -> Result<NamedValues, AllocError> {
    let mut named = NamedValues::new(alloc);
    for (value, name) in (0i64..).zip(names.iter()) {
        push_named(alloc, &mut named, name, Value::Int(value))?;
    }
    Ok(named)
}

fn hash(alloc: Global, names: &[&str]) -> Result<Value, AllocError> {
    let named = numbered(alloc, names)?;
    call(alloc, 4, &[], &named)
}

fn check_hash(rt: &impl Abort, alloc: Global, row: &Hash) -> Result<(), Fail> {
    let (names, wanted) = *row;
    let got = hash(alloc, names)?;
    let is_right = is_read(alloc, got, wanted)?;
    assert!(rt; is_right, "{wanted}");
    Ok(())
}

#[test]
fn hashes(rt: HostRuntime) -> Result<(), Fail> {
    let alloc = rt.alloc();
    for row in &HASHES {
        check_hash(&rt, alloc, row)?;
    }
    Ok(())
}

// A helper's number, its first arguments, how deep its last argument is nested, which is given under the name
// `k` as well, and what it gives: the empty text where that is only to be defined.
type Deep = (u16, &'static str, u32, &'static str);

static DEEP: [Deep; 15] = [
    (3, "[]", 99, ""),
    (3, "[]", 100, r#""?""#),
    (4, "[]", 99, ""),
    (4, "[]", 100, r#""?""#),
    (6, r#"[{"@go":[]}]"#, 99, ""),
    (6, r#"[{"@go":[]}]"#, 100, r#""?""#),
    (22, "[[]]", 99, ""),
    (22, "[[]]", 100, r#""?""#),
    (24, r#"[{},"k"]"#, 99, ""),
    (24, r#"[{},"k"]"#, 100, r#""?""#),
    (0, "[true]", 100, ""),
    (0, "[true]", 101, r#""?""#),
    (30, r#"[[{"a":1},{"a":2}],"a",1,"b"]"#, 98, ""),
    (30, r#"[[{"a":1},{"a":2}],"a",1,"b"]"#, 99, r#""?""#),
    (
        30,
        r#"[[{"a":1},{"a":2}],"a",1,"b"]"#,
        100,
        r#"["?",{"a":2}]"#,
    ),
];

// 0 in so many lists.
fn nested(alloc: Global, depth: u32) -> Result<Value, AllocError> {
    let mut value = Value::Int(0);
    for _ in 0..depth {
        value = Value::List(list_of(alloc, value)?);
    }
    Ok(value)
}

fn deep_arguments(alloc: Global, row: &Deep) -> Result<Vec<Value>, Fail> {
    let mut given = arguments(alloc, row.1)?;
    given.push(nested(alloc, row.2)?)?;
    Ok(given)
}

fn deep_named(alloc: Global, row: &Deep) -> Result<NamedValues, Fail> {
    let mut named = NamedValues::new(alloc);
    push_named(alloc, &mut named, "k", nested(alloc, row.2)?)?;
    Ok(named)
}

fn called_deep(rt: &impl Abort, alloc: Global, row: &Deep) -> Result<Value, Fail> {
    let given = deep_arguments(alloc, row)?;
    let named = deep_named(alloc, row)?;
    called(rt, alloc, row.0, given.as_slice(), &named)
}

// Whether a value is that of a JSON text, or is defined where the text is empty.
fn is_wanted(alloc: Global, got: Value, wanted: &str) -> Result<bool, Fail> {
    if wanted.is_empty() {
        return Ok(!got.same(&Value::Undefined));
    }
    is_read(alloc, got, wanted)
}

fn check_deep(rt: &impl Abort, alloc: Global, row: &Deep) -> Result<(), Fail> {
    let (helper, _, depth, wanted) = *row;
    let got = called_deep(rt, alloc, row)?;
    let is_right = is_wanted(alloc, got, wanted)?;
    assert!(rt; is_right, "{helper} at {depth}");
    Ok(())
}

#[test]
fn depths(rt: HostRuntime) -> Result<(), Fail> {
    let alloc = rt.alloc();
    for row in &DEEP {
        check_deep(&rt, alloc, row)?;
    }
    Ok(())
}
