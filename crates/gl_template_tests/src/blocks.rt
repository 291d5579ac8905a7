// Templates with named blocks, each with its canonical spelling.
use gl_parse::template;
use gl_show::show;
use std::alloc::Global;
use std::process::Abort;
use std::test::Fail;

static ROWS: [(&str, &str); 15] = [
    (
        "<C> {{! a }} <:a as |x|> b </:a > <:default></:default></C>",
        "<C><:a as |x|>&#32;b&#32;</:a><:default></:default></C>",
    ),
    (
        "<C @x={{y}} c\n>\n{{!-- c --}}\n<:this1>t</:this1>\n</C>",
        "<C @x={{y}} c=\"\"><:this1>t</:this1></C>",
    ),
    (
        "<C><:default as |p|> b</:default></C>",
        "<C as |p|>&#32;b</C>",
    ),
    ("<C><:default></:default></C>", "<C></C>"),
    (
        "<C><:b></:b><:default></:default></C>",
        "<C><:b></:b><:default></:default></C>",
    ),
    ("<C></C>", "<C></C>"),
    ("<C/>", "<C />"),
    ("<C> </C>", "<C>&#32;</C>"),
    ("<C> {{! c }} </C>", "<C>&#32;{{!}}&#32;</C>"),
    (
        "<C>{{~! c ~}}<:a>{{#if x}}{{yield y to='a'}}{{/if}}</:a>{{~!~}}</C>",
        "<C><:a>{{#if x}}{{yield y to=\"a\"}}{{/if}}</:a></C>",
    ),
    (
        "<C><:a><D><:a as |x y|></:a></D></:a></C>",
        "<C><:a><D><:a as |x y|></:a></D></:a></C>",
    ),
    ("{{yield to=\"default\"}}", "{{yield}}"),
    ("{{yield to = 'a'}}", "{{yield to=\"a\"}}"),
    ("{{yield to to=\"b\"}}", "{{yield to to=\"b\"}}"),
    ("{{yield to}}", "{{yield to}}"),
];

fn check_row(rt: &impl Abort, alloc: Global, row: &(&str, &str)) -> Result<(), Fail> {
    let tree = template(alloc, row.0.as_bytes())?;
    let shown = show(alloc, &tree)?;
    assert_eq!(rt; shown.as_str(), row.1, "{}", row.0);
    Ok(())
}

#[test]
fn spelled_again(rt: HostRuntime) -> Result<(), Fail> {
    for row in &ROWS {
        check_row(&rt, rt.alloc(), row)?;
    }
    Ok(())
}
