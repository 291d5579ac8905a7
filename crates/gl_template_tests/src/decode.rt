// Texts with character references, and what they stand for.
use gl_ast::Slice;
use gl_exprs::decoded;
use std::alloc::Global;
use std::process::Abort;
use std::test::Fail;

// Texts, and what they stand for.
static TEXTS: [(&str, &str); 35] = [
    ("", ""),
    ("a", "a"),
    ("&amp;", "&"),
    ("&lt;b&gt;", "<b>"),
    ("&quot;&apos;", "\"'"),
    ("&nbsp;", "\u{a0}"),
    ("&times;", "\u{d7}"),
    ("&yuml;", "\u{ff}"),
    ("&amp;lt;", "&lt;"),
    ("&&amp;", "&&"),
    ("\u{e9}&amp;\u{e9}", "\u{e9}&\u{e9}"),
    ("&#65;", "A"),
    ("&#0065;", "A"),
    ("&#x41;", "A"),
    ("&#X4a;&#x4A;", "JJ"),
    ("&#x0000000000000041;", "A"),
    ("&#x1F600;", "\u{1f600}"),
    ("&#1114111;", "\u{10ffff}"),
    ("&#55295;&#57344;", "\u{d7ff}\u{e000}"),
    ("&#1114112;", "&#1114112;"),
    ("&#99999999999999999999;", "&#99999999999999999999;"),
    ("&#0;", "&#0;"),
    ("&#xD800;", "&#xD800;"),
    ("&#57343;", "&#57343;"),
    ("&unknown;", "&unknown;"),
    ("&AMP;", "&AMP;"),
    ("& amp;", "& amp;"),
    ("&amp", "&amp"),
    ("&amp &amp;", "&amp &"),
    ("&", "&"),
    ("&;", "&;"),
    ("&#;", "&#;"),
    ("&#x;", "&#x;"),
    ("&#6a;", "&#6a;"),
    ("&#xg;", "&#xg;"),
];

fn check_row(rt: &impl Abort, alloc: Global, row: &(&str, &str)) -> Result<(), Fail> {
    let (raw, want) = *row;
    let text = decoded(alloc, &Slice::new(raw))?;
    assert_eq!(rt; text.as_str(), want, "at {raw:?}");
    Ok(())
}

#[test]
fn decodes_references(rt: HostRuntime) -> Result<(), Fail> {
    for row in &TEXTS {
        check_row(&rt, rt.alloc(), row)?;
    }
    Ok(())
}
