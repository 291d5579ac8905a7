// Opcodes as words and as lines.
use gl_ops::{Op, decode, encode, list};
use gl_value::Text;
use std::alloc::{AllocError, Global};
use std::process::Abort;
use std::test::Fail;

// Each kind with its word and its line.
static KINDS: [(u64, Op, &str); 45] = [
    (0x01_000000_00000009, Op::Text { b: 9 }, "0 Text 9\n"),
    (
        0x02_000000_FFFFFFFF,
        Op::Comment { b: 4294967295 },
        "0 Comment 4294967295\n",
    ),
    (0x03_000000_00000000, Op::Open { b: 0 }, "0 Open 0\n"),
    (
        0x04_000001_00000002,
        Op::Attr { a: 1, b: 2 },
        "0 Attr 1 2\n",
    ),
    (
        0x05_010000_00000000,
        Op::AttrRef { a: 65536 },
        "0 AttrRef 65536\n",
    ),
    (0x06_000000_00000000, Op::Spread, "0 Spread\n"),
    (
        0x07_FFFFFF_FFFFFFFF,
        Op::Mod {
            a: 16777215,
            b: 4294967295,
        },
        "0 Mod 16777215 4294967295\n",
    ),
    (0x08_000000_00000000, Op::Flush, "0 Flush\n"),
    (0x09_000000_00000000, Op::Close, "0 Close\n"),
    (0x0A_000000_00000000, Op::Put, "0 Put\n"),
    (0x0B_000000_00000009, Op::If { b: 9 }, "0 If 9\n"),
    (
        0x0C_000000_FFFFFFFF,
        Op::Unless { b: 4294967295 },
        "0 Unless 4294967295\n",
    ),
    (0x0D_000000_00000000, Op::Else { b: 0 }, "0 Else 0\n"),
    (0x0E_000000_00000000, Op::EndIf, "0 EndIf\n"),
    (
        0x0F_010000_00011170,
        Op::Each { a: 65536, b: 70000 },
        "0 Each 65536 70000\n",
    ),
    (
        0x10_000007_00000009,
        Op::Item { a: 7, b: 9 },
        "0 Item 7 9\n",
    ),
    (0x11_000000_00000000, Op::EndItem, "0 EndItem\n"),
    (0x12_000000_00000000, Op::EndEach, "0 EndEach\n"),
    (0x13_000001_00000000, Op::Let { a: 1 }, "0 Let 1\n"),
    (
        0x14_010000_00000000,
        Op::Bind { a: 65536 },
        "0 Bind 65536\n",
    ),
    (0x15_000000_00000000, Op::EndLet, "0 EndLet\n"),
    (
        0x16_FFFFFF_00000000,
        Op::Comp { a: 16777215 },
        "0 Comp 16777215\n",
    ),
    (0x17_000000_00000000, Op::Arg { a: 0 }, "0 Arg 0\n"),
    (
        0x18_000001_00000002,
        Op::Block { a: 1, b: 2 },
        "0 Block 1 2\n",
    ),
    (
        0x19_010000_00000000,
        Op::Param { a: 65536 },
        "0 Param 65536\n",
    ),
    (0x1A_000000_00000000, Op::EndBlock, "0 EndBlock\n"),
    (0x1B_000000_00000000, Op::Bare, "0 Bare\n"),
    (0x1C_000000_00000000, Op::Invoke, "0 Invoke\n"),
    (
        0x1D_000001_00000002,
        Op::Yield { a: 1, b: 2 },
        "0 Yield 1 2\n",
    ),
    (0x1E_000000_00000000, Op::Undef, "0 Undef\n"),
    (0x1F_000000_00000000, Op::Null, "0 Null\n"),
    (0x20_000000_00000000, Op::True, "0 True\n"),
    (0x21_000000_00000000, Op::False, "0 False\n"),
    (0x22_000000_00000002, Op::Int { b: 2 }, "0 Int 2\n"),
    (0x23_000000_00011170, Op::Str { b: 70000 }, "0 Str 70000\n"),
    (0x24_000007_00000000, Op::Local { a: 7 }, "0 Local 7\n"),
    (
        0x25_FFFFFF_00000000,
        Op::ArgRef { a: 16777215 },
        "0 ArgRef 16777215\n",
    ),
    (0x26_000000_00000000, Op::Field { a: 0 }, "0 Field 0\n"),
    (0x27_000001_00000000, Op::Getter { a: 1 }, "0 Getter 1\n"),
    (
        0x28_010000_00000000,
        Op::Action { a: 65536 },
        "0 Action 65536\n",
    ),
    (0x29_000000_00000009, Op::Prop { b: 9 }, "0 Prop 9\n"),
    (
        0x2A_000003_00000002,
        Op::Call { a: 3, b: 2 },
        "0 Call 3 2\n",
    ),
    (0x2B_000000_00000000, Op::Named { b: 0 }, "0 Named 0\n"),
    (0x2C_000001_00000000, Op::Cat { a: 1 }, "0 Cat 1\n"),
    (0x2D_000000_00000000, Op::Done, "0 Done\n"),
];

// Words of no opcode: no such code, or an operand that the kind doesn't use.
static UNUSED: [u64; 14] = [
    0,
    1,
    0x00_000001_00000001,
    0x2E_000000_00000000,
    0x2F_000000_00000000,
    0xFF_000000_00000000,
    0xFF_FFFFFF_FFFFFFFF,
    0x01_000001_00000000,
    0x05_000000_00000001,
    0x06_000000_00000001,
    0x06_000001_00000000,
    0x2B_000001_00000002,
    0x2C_000001_00000002,
    0x2D_FFFFFF_FFFFFFFF,
];

// The listing of a word that is decoded as the opcode.
fn listed(alloc: Global, word: u64) -> Result<Option<Text>, AllocError> {
    match decode(word) {
        Some(_) => Ok(Some(list(alloc, &[word])?)),
        None => Ok(None),
    }
}

fn check_kind(rt: &impl Abort, alloc: Global, row: &(u64, Op, &str)) -> Result<(), Fail> {
    let op = decode(row.0).ok_or("an opcode")?;
    assert_eq!(rt; op, row.1, "{}", row.2);
    assert_eq!(rt; encode(&op), row.0, "{}", row.2);
    let text = listed(alloc, row.0)?.ok_or("an opcode")?;
    assert_eq!(rt; text.as_str(), row.2);
    Ok(())
}

#[test]
fn kinds(rt: HostRuntime) -> Result<(), Fail> {
    for row in &KINDS {
        check_kind(&rt, rt.alloc(), row)?;
    }
    Ok(())
}

#[test]
fn addresses(rt: HostRuntime) -> Result<(), Fail> {
    let first = decode(0x04_000002_00000001).ok_or("an opcode")?;
    let second = decode(0x2D_000000_00000000).ok_or("an opcode")?;
    let text = list(rt.alloc(), &[encode(&first), encode(&second)])?;
    assert_eq!(rt; text.as_str(), "0 Attr 2 1\n1 Done\n");
    assert_eq!(rt; list(rt.alloc(), &[])?.as_str(), "");
    Ok(())
}

fn check_unused(rt: &impl Abort, word: u64) {
    assert_eq!(rt; decode(word), None, "{word}");
}

#[test]
fn unused_words(rt: HostRuntime) {
    for word in &UNUSED {
        check_unused(&rt, *word);
    }
}
