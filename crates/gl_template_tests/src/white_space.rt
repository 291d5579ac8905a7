// White-space control and lone tags over the tokens of templates.
use gl_ast::Tokens;
use gl_space::settle;
use std::alloc::{AllocError, Global};
use std::process::Abort;
use std::test::Fail;

// Templates, each with the texts of its settled tokens in brackets.
static TEMPLATES: [(&str, &str); 56] = [
    ("", ""),
    (" a \n", "[ a \n]"),
    ("a {{x}} b", "[a ][{{][x][}}][ b]"),
    ("a {{~x}} b", "[a][{{~][x][}}][ b]"),
    ("a {{x~}} b", "[a ][{{][x][~}}][b]"),
    ("a \n\t\r\u{c} {{~x~}} \n\t\r\u{c} b", "[a][{{~][x][~}}][b]"),
    (" \n {{~x~}} \n ", "[][{{~][x][~}}][]"),
    (
        "a {{~#f x~}} b {{~else~}} c {{~/f~}} d",
        "[a][{{~#][f][x][~}}][b][{{~][else][~}}][c][{{~/][f][~}}][d]",
    ),
    ("a {{~! c ~}} b", "[a][{{~! c ~}}][b]"),
    ("a {{!-- c --~}} b", "[a ][{{!-- c --~}}][b]"),
    ("a {{~!-- c --}} b", "[a][{{~!-- c --}}][ b]"),
    ("a {{!~}} b", "[a ][{{!~}}][b]"),
    (
        "a <b> {{~x~}} </b> c",
        "[a ][<b][>][][{{~][x][~}}][][</b>][ c]",
    ),
    ("a <b c={{~x~}} > d", "[a ][<b][c][=][{{~][x][~}}][>][ d]"),
    (
        "a <b c=\" {{~x~}} \"> d",
        "[a ][<b][c][=][\"][ ][{{~][x][~}}][ ][\"][>][ d]",
    ),
    (
        "a <b {{~x~}} > d </b>",
        "[a ][<b][{{~][x][~}}][>][ d ][</b>]",
    ),
    ("\u{e9} {{~x~}} \u{e9}", "[\u{e9}][{{~][x][~}}][\u{e9}]"),
    ("\u{a0}{{~x~}}\u{a0}", "[\u{a0}][{{~][x][~}}][\u{a0}]"),
    ("{{~x~}}\\{\n", "[{{~][x][~}}][\\{\n]"),
    (" {{~x}}{{y~}} ", "[][{{~][x][}}][{{][y][~}}][]"),
    (" {{x~}} {{~y}} ", "[ ][{{][x][~}}][][{{~][y][}}][ ]"),
    (
        "a\n  {{#f x}}  \nb\n  {{/f}}  \nc",
        "[a\n][{{#][f][x][}}][b\n][{{/][f][}}][c]",
    ),
    (
        "  {{#f x}}\t\n\tb\n{{/f}}",
        "[][{{#][f][x][}}][\tb\n][{{/][f][}}]",
    ),
    (
        "a\n{{#f x}}\r\n b\r\n {{else}} \r\n c\r\n\t{{/f}}",
        "[a\n][{{#][f][x][}}][ b\r\n][{{][else][}}][ c\r\n][{{/][f][}}]",
    ),
    (
        "a\n{{#f x}}\n\n\nb\n{{/f}}\n\n",
        "[a\n][{{#][f][x][}}][\n\nb\n][{{/][f][}}][\n]",
    ),
    (
        "a\n \n {{#f}}\nb{{/f}}\nc",
        "[a\n \n][{{#][f][}}][b][{{/][f][}}][\nc]",
    ),
    (
        "a\n{{#f}} \r b\n{{/f}}",
        "[a\n][{{#][f][}}][ \r b\n][{{/][f][}}]",
    ),
    (
        "a\r{{#f}}\nb\n{{/f}}",
        "[a\r][{{#][f][}}][\nb\n][{{/][f][}}]",
    ),
    (
        "a\n{{#f}}\u{c}\nb{{/f}}",
        "[a\n][{{#][f][}}][\u{c}\nb][{{/][f][}}]",
    ),
    ("a\n{{x}}\nb", "[a\n][{{][x][}}][\nb]"),
    ("a\n {{else}} \nb", "[a\n][{{][else][}}][b]"),
    ("a\n {{else if x}} \nb", "[a\n][{{][else][if][x][}}][b]"),
    ("a\n {{else.x}} \nb", "[a\n ][{{][else.x][}}][ \nb]"),
    ("a\n {{f else}} \nb", "[a\n ][{{][f][else][}}][ \nb]"),
    ("a\n {{! c }} \nb", "[a\n][{{! c }}][b]"),
    ("a\n {{!-- c --}} \r\nb", "[a\n][{{!-- c --}}][b]"),
    ("a {{! c }} \nb", "[a ][{{! c }}][ \nb]"),
    ("a\n {{! c }} b", "[a\n ][{{! c }}][ b]"),
    ("<p>\n {{! c }}\n</p>", "[<p][>][\n][{{! c }}][][</p>]"),
    ("<p> {{! c }}\n</p>", "[<p][>][ ][{{! c }}][\n][</p>]"),
    ("<p> {{! c }} </p>", "[<p][>][ ][{{! c }}][ ][</p>]"),
    ("<p>{{! c }}</p>\n", "[<p][>][{{! c }}][</p>][\n]"),
    ("  {{#f}}  {{/f}}  ", "[  ][{{#][f][}}][  ][{{/][f][}}][  ]"),
    (
        "a\n {{#f}} {{! c }} \nb",
        "[a\n ][{{#][f][}}][ ][{{! c }}][ \nb]",
    ),
    (
        "a\n {{! c }} \n {{! d }} \nb",
        "[a\n][{{! c }}][][{{! d }}][b]",
    ),
    ("a\n {{~! c ~}} \n\n b", "[a][{{~! c ~}}][b]"),
    ("a\n {{! c ~}} \n\n b", "[a\n][{{! c ~}}][b]"),
    ("a\n {{~! c }} \n\n b", "[a][{{~! c }}][\n b]"),
    ("{{! c }}", "[{{! c }}]"),
    (" {{! c }} ", "[][{{! c }}][]"),
    ("a\n {{#f x", "[a\n ][{{#][f][x]"),
    ("a {{~x", "[a ][{{~][x]"),
    ("<!-- a -->\n {{/f}}\n", "[<!-- a -->][\n][{{/][f][}}][]"),
    (
        "<p a=b>  {{#f}}\n  {{/f}}</p>",
        "[<p][a][=][b][>][  ][{{#][f][}}][\n  ][{{/][f][}}][</p>]",
    ),
    (
        "a\n\t{{#if this.n}}  \n  b&eacute;&unknown;\n{{/if}}\nc {{~this.n~}} d",
        "[a\n][{{#][if][this.n][}}][  b&eacute;&unknown;\n][{{/][if][}}][c][{{~][this.n][~}}][d]",
    ),
    (
        "<p  class = 'a'>\n  {{! c }}\n{{#if @x}}y{{else if @z}}w{{/if}}</p>",
        "[<p][class][=]['][a]['][>][\n][{{! c }}][][{{#][if][@x][}}][y][{{][else][if][@z][}}][w][{{/][if][}}][</p>]",
    ),
];

// The texts of the tokens, each in brackets.
fn texts(alloc: Global, tokens: &Tokens) -> Result<String, AllocError> {
    let mut all = String::new(alloc);
    for token in tokens.as_slice() {
        let text = token.text.as_str();
        write!(all, "[{text}]")?;
    }
    Ok(all)
}

fn check_row(rt: &impl Abort, alloc: Global, row: &(&str, &str)) -> Result<(), Fail> {
    let read = gl_lex::tokens(alloc, row.0)?;
    let count = read.len();
    let settled = settle(row.0, read);
    assert_eq!(rt; settled.len(), count, "{}", row.0);
    let have = texts(alloc, &settled)?;
    assert_eq!(rt; have.as_str(), row.1, "{}", row.0);
    Ok(())
}

#[test]
fn templates(rt: HostRuntime) -> Result<(), Fail> {
    for row in &TEMPLATES {
        check_row(&rt, rt.alloc(), row)?;
    }
    Ok(())
}
