// Tokens of templates and of expressions.
use gl_ast::Tokens;
use gl_lex::{LexFault, expression_tokens, tokens};
use std::alloc::{AllocError, Global};
use std::process::Abort;
use std::test::Fail;

// Templates, each with a line for each token: its kind, the places where it begins and ends, and its text; or `none`
// where there is no token at some place.
static TEMPLATES: [(&str, &str); 110] = [
    ("", ""),
    ("a b\r\n c", "Text 0 7 a b\r\n c\n"),
    ("a { b } c }}", "Text 0 12 a { b } c }}\n"),
    ("a\\b\\{c", "Text 0 6 a\\b\\{c\n"),
    (
        "\u{e9}\u{2013}\u{1d11e}<b>",
        "Text 0 9 \u{e9}\u{2013}\u{1d11e}\nTagOpening 9 11 <b\nTagEnd 11 12 >\n",
    ),
    ("a\\{{b}}", "none"),
    ("\\{{b}}", "none"),
    ("a < b", "none"),
    ("<", "none"),
    ("<1>", "none"),
    ("</>", "none"),
    ("<A:b>", "none"),
    (
        "<!-- {{x}} <b> --><i>",
        "HtmlComment 0 18 <!-- {{x}} <b> -->\nTagOpening 18 20 <i\nTagEnd 20 21 >\n",
    ),
    ("<!---->-->", "HtmlComment 0 7 <!---->\nText 7 10 -->\n"),
    ("<!-- a -- >", "none"),
    (
        "</b\r\n\t><p-1x />",
        "EndTag 0 7 </b\r\n\t>\nTagOpening 7 12 <p-1x\nSelfEnd 13 15 />\n",
    ),
    ("</A1::Bc>", "EndTag 0 9 </A1::Bc>\n"),
    ("</A::b>", "none"),
    ("</ b>", "none"),
    ("</b", "none"),
    (
        "<A1::B2::C d>",
        "TagOpening 0 10 <A1::B2::C\nAttribute 11 12 d\nTagEnd 12 13 >\n",
    ),
    (
        "<Ab@c>",
        "TagOpening 0 3 <Ab\nArgument 3 5 @c\nTagEnd 5 6 >\n",
    ),
    (
        "{{a}}{{~a~}}{{#a}}{{~#a}}{{/a~}}{{~/a}}",
        "OpenMustache 0 2 {{\nPath 2 3 a\nCloseMustache 3 5 }}\nOpenMustache 5 8 {{~\nPath 8 9 a\nCloseMustache 9 12 ~}}\nOpenBlock 12 15 {{#\nPath 15 16 a\nCloseMustache 16 18 }}\nOpenBlock 18 22 {{~#\nPath 22 23 a\nCloseMustache 23 25 }}\nOpenClosing 25 28 {{/\nPath 28 29 a\nCloseMustache 29 32 ~}}\nOpenClosing 32 36 {{~/\nPath 36 37 a\nCloseMustache 37 39 }}\n",
    ),
    ("{{{a}}}", "none"),
    ("{{~}}", "OpenMustache 0 3 {{~\nCloseMustache 3 5 }}\n"),
    (
        "{{}}}",
        "OpenMustache 0 2 {{\nCloseMustache 2 4 }}\nText 4 5 }\n",
    ),
    ("{{ # a}}", "none"),
    ("{{#/a}}", "none"),
    ("{{! a }}b", "MustacheComment 0 8 {{! a }}\nText 8 9 b\n"),
    ("{{!}}", "MustacheComment 0 5 {{!}}\n"),
    ("{{~! a ~}}", "MustacheComment 0 10 {{~! a ~}}\n"),
    (
        "{{!-- {{x}} }} --}}b",
        "MustacheComment 0 19 {{!-- {{x}} }} --}}\nText 19 20 b\n",
    ),
    (
        "{{!--a--~}}b",
        "MustacheComment 0 11 {{!--a--~}}\nText 11 12 b\n",
    ),
    ("{{~!-- a }}--}}", "MustacheComment 0 15 {{~!-- a }}--}}\n"),
    ("{{!--}}b", "MustacheComment 0 7 {{!--}}\nText 7 8 b\n"),
    (
        "{{!--}}b--}}c",
        "MustacheComment 0 12 {{!--}}b--}}\nText 12 13 c\n",
    ),
    (
        "{{!-- a }}b",
        "MustacheComment 0 10 {{!-- a }}\nText 10 11 b\n",
    ),
    ("{{!--~}}b", "MustacheComment 0 8 {{!--~}}\nText 8 9 b\n"),
    (
        "{{!-a--}}b}}",
        "MustacheComment 0 9 {{!-a--}}\nText 9 12 b}}\n",
    ),
    (
        "{{!--a}}{{!--b}}{{! --}}",
        "MustacheComment 0 24 {{!--a}}{{!--b}}{{! --}}\n",
    ),
    (
        "{{!--a}}{{!--b}}{{!c}}",
        "MustacheComment 0 8 {{!--a}}\nMustacheComment 8 16 {{!--b}}\nMustacheComment 16 22 {{!c}}\n",
    ),
    ("{{! a", "none"),
    ("{{!-- a --}", "none"),
    (
        "<p  class = 'a'>",
        "TagOpening 0 2 <p\nAttribute 4 9 class\nEquals 10 11 =\nOpenQuote 12 13 '\nText 13 14 a\nCloseQuote 14 15 '\nTagEnd 15 16 >\n",
    ),
    (
        "<p a_:.-9=b/c d>",
        "TagOpening 0 2 <p\nAttribute 3 9 a_:.-9\nEquals 9 10 =\nUnquoted 10 13 b/c\nAttribute 14 15 d\nTagEnd 15 16 >\n",
    ),
    (
        "<br a=/>",
        "TagOpening 0 3 <br\nAttribute 4 5 a\nEquals 5 6 =\nUnquoted 6 7 /\nTagEnd 7 8 >\n",
    ),
    ("<br/>x", "TagOpening 0 3 <br\nSelfEnd 3 5 />\nText 5 6 x\n"),
    (
        "<C ...attributes as |x|>",
        "TagOpening 0 2 <C\nSpread 3 16 ...attributes\nParameters 17 23 as |x|\nTagEnd 23 24 >\n",
    ),
    (
        "<C as |\na b\t$c-d |/>",
        "TagOpening 0 2 <C\nParameters 3 18 as |\na b\t$c-d |\nSelfEnd 18 20 />\n",
    ),
    (
        "<C asx as=as a s>",
        "TagOpening 0 2 <C\nAttribute 3 6 asx\nAttribute 7 9 as\nEquals 9 10 =\nUnquoted 10 12 as\nAttribute 13 14 a\nAttribute 15 16 s\nTagEnd 16 17 >\n",
    ),
    ("<C as|x|>", "none"),
    ("<C as |>", "none"),
    ("<C as ||>", "none"),
    ("<C as |this|>", "none"),
    ("<C as |x this|>", "none"),
    (
        "<C as |x this1|>",
        "TagOpening 0 2 <C\nParameters 3 15 as |x this1|\nTagEnd 15 16 >\n",
    ),
    ("<C @this=\u{e9}{{! c }}>", "none"),
    (
        "<C @this=\u{e9}\t{{! c }}>",
        "TagOpening 0 2 <C\nArgument 3 8 @this\nEquals 8 9 =\nUnquoted 9 11 \u{e9}\nMustacheComment 12 20 {{! c }}\nTagEnd 20 21 >\n",
    ),
    (
        "<p a{{m}}b>",
        "TagOpening 0 2 <p\nAttribute 3 4 a\nOpenMustache 4 6 {{\nPath 6 7 m\nCloseMustache 7 9 }}\nAttribute 9 10 b\nTagEnd 10 11 >\n",
    ),
    (
        "<p{{~! c ~}}{{!-- > --}}>",
        "TagOpening 0 2 <p\nMustacheComment 2 12 {{~! c ~}}\nMustacheComment 12 24 {{!-- > --}}\nTagEnd 24 25 >\n",
    ),
    (
        "<p a={{~b~}}/>",
        "TagOpening 0 2 <p\nAttribute 3 4 a\nEquals 4 5 =\nOpenMustache 5 8 {{~\nPath 8 9 b\nCloseMustache 9 12 ~}}\nSelfEnd 12 14 />\n",
    ),
    (
        "<p a= {{b}} c>",
        "TagOpening 0 2 <p\nAttribute 3 4 a\nEquals 4 5 =\nOpenMustache 6 8 {{\nPath 8 9 b\nCloseMustache 9 11 }}\nAttribute 12 13 c\nTagEnd 13 14 >\n",
    ),
    ("<p a={{b}}c>", "none"),
    ("<p a=\"b\"c>", "none"),
    ("<p a=\"b\"{{c}}>", "none"),
    ("<p a=b\"c\">", "none"),
    ("<p a==b>", "none"),
    ("<p a={{!b}}>", "none"),
    ("<p {{#if a}}>", "none"),
    ("<p \">", "none"),
    ("<p ..attributes>", "none"),
    (
        "<p ...attributesa>",
        "TagOpening 0 2 <p\nSpread 3 16 ...attributes\nAttribute 16 17 a\nTagEnd 17 18 >\n",
    ),
    ("<p / >", "none"),
    ("<p @>", "none"),
    (
        "<p a=\"b{{c}}d'<>\r\n\">",
        "TagOpening 0 2 <p\nAttribute 3 4 a\nEquals 4 5 =\nOpenQuote 5 6 \"\nText 6 7 b\nOpenMustache 7 9 {{\nPath 9 10 c\nCloseMustache 10 12 }}\nText 12 18 d'<>\r\n\nCloseQuote 18 19 \"\nTagEnd 19 20 >\n",
    ),
    (
        "<p a=''>",
        "TagOpening 0 2 <p\nAttribute 3 4 a\nEquals 4 5 =\nOpenQuote 5 6 '\nCloseQuote 6 7 '\nTagEnd 7 8 >\n",
    ),
    (
        "<p a='{\\{\"'>",
        "TagOpening 0 2 <p\nAttribute 3 4 a\nEquals 4 5 =\nOpenQuote 5 6 '\nText 6 10 {\\{\"\nCloseQuote 10 11 '\nTagEnd 11 12 >\n",
    ),
    ("<p a='\\{{b}}'>", "none"),
    ("<p a='{{#b}}'>", "none"),
    ("<p a='{{!b}}'>", "none"),
    (
        "<p a=\"{{~b~}} \">",
        "TagOpening 0 2 <p\nAttribute 3 4 a\nEquals 4 5 =\nOpenQuote 5 6 \"\nOpenMustache 6 9 {{~\nPath 9 10 b\nCloseMustache 10 13 ~}}\nText 13 14  \nCloseQuote 14 15 \"\nTagEnd 15 16 >\n",
    ),
    (
        "<p a='b",
        "TagOpening 0 2 <p\nAttribute 3 4 a\nEquals 4 5 =\nOpenQuote 5 6 '\nText 6 7 b\n",
    ),
    ("{{f 12.y}}", "none"),
    (
        "{{f @a.b.0.c-d this.x $_.1}}",
        "OpenMustache 0 2 {{\nPath 2 3 f\nPath 4 14 @a.b.0.c-d\nPath 15 21 this.x\nPath 22 26 $_.1\nCloseMustache 26 28 }}\n",
    ),
    (
        "{{a.1b}}",
        "OpenMustache 0 2 {{\nPath 2 5 a.1\nPath 5 6 b\nCloseMustache 6 8 }}\n",
    ),
    ("{{a. b}}", "none"),
    ("{{a..b}}", "none"),
    ("{{@ a}}", "none"),
    (
        "{{f 0 -0 007 -12}}",
        "OpenMustache 0 2 {{\nPath 2 3 f\nNumber 4 5 0\nNumber 6 8 -0\nNumber 9 12 007\nNumber 13 16 -12\nCloseMustache 16 18 }}\n",
    ),
    (
        "{{f 9007199254740991 -9007199254740991}}",
        "OpenMustache 0 2 {{\nPath 2 3 f\nNumber 4 20 9007199254740991\nNumber 21 38 -9007199254740991\nCloseMustache 38 40 }}\n",
    ),
    (
        "{{f 0000000000000000000000009007199254740991}}",
        "OpenMustache 0 2 {{\nPath 2 3 f\nNumber 4 44 0000000000000000000000009007199254740991\nCloseMustache 44 46 }}\n",
    ),
    ("{{f 9007199254740992}}", "none"),
    ("{{f -99999999999999999999999999}}", "none"),
    ("{{f 1a}}", "none"),
    ("{{f 1-2}}", "none"),
    ("{{f - 1}}", "none"),
    (
        "{{f (g \"a\\\"b\" 'c\"}}' k='') }}",
        "OpenMustache 0 2 {{\nPath 2 3 f\nOpenParen 4 5 (\nPath 5 6 g\nStringLit 7 13 \"a\\\"b\"\nStringLit 14 20 'c\"}}'\nPath 21 22 k\nEquals 22 23 =\nStringLit 23 25 ''\nCloseParen 25 26 )\nCloseMustache 27 29 }}\n",
    ),
    (
        "{{f \"\u{e9}\"@a(g)}}",
        "OpenMustache 0 2 {{\nPath 2 3 f\nStringLit 4 8 \"\u{e9}\"\nPath 8 10 @a\nOpenParen 10 11 (\nPath 11 12 g\nCloseParen 12 13 )\nCloseMustache 13 15 }}\n",
    ),
    (
        "{{f 'a\\b\\\\'}}'}}",
        "OpenMustache 0 2 {{\nPath 2 3 f\nStringLit 4 14 'a\\b\\\\'}}'\nCloseMustache 14 16 }}\n",
    ),
    ("{{f 'a}}", "none"),
    (
        "{{#each a as |b c|}}",
        "OpenBlock 0 3 {{#\nPath 3 7 each\nPath 8 9 a\nParameters 10 18 as |b c|\nCloseMustache 18 20 }}\n",
    ),
    (
        "{{f as as.b as |c|}}",
        "OpenMustache 0 2 {{\nPath 2 3 f\nPath 4 6 as\nPath 7 11 as.b\nParameters 12 18 as |c|\nCloseMustache 18 20 }}\n",
    ),
    ("{{f as |c d}}", "none"),
    ("{{a ~ }}", "none"),
    ("{{a ~}b", "none"),
    ("{{a}b", "none"),
    ("{{a", "OpenMustache 0 2 {{\nPath 2 3 a\n"),
    (
        "{{else if a~}}\n",
        "OpenMustache 0 2 {{\nPath 2 6 else\nPath 7 9 if\nPath 10 11 a\nCloseMustache 11 14 ~}}\nText 14 15 \n\n",
    ),
    (
        "a\n\t{{#if this.n}}  \n  b&eacute;&unknown;\n{{/if}}\nc {{~this.n~}} d",
        "Text 0 3 a\n\t\nOpenBlock 3 6 {{#\nPath 6 8 if\nPath 9 15 this.n\nCloseMustache 15 17 }}\nText 17 41   \n  b&eacute;&unknown;\n\nOpenClosing 41 44 {{/\nPath 44 46 if\nCloseMustache 46 48 }}\nText 48 51 \nc \nOpenMustache 51 54 {{~\nPath 54 60 this.n\nCloseMustache 60 63 ~}}\nText 63 65  d\n",
    ),
    (
        "<p  class = 'a'>\n  {{! c }}\n{{#if @x}}y{{else if @z}}w{{/if}}</p>",
        "TagOpening 0 2 <p\nAttribute 4 9 class\nEquals 10 11 =\nOpenQuote 12 13 '\nText 13 14 a\nCloseQuote 14 15 '\nTagEnd 15 16 >\nText 16 19 \n  \nMustacheComment 19 27 {{! c }}\nText 27 28 \n\nOpenBlock 28 31 {{#\nPath 31 33 if\nPath 34 36 @x\nCloseMustache 36 38 }}\nText 38 39 y\nOpenMustache 39 41 {{\nPath 41 45 else\nPath 46 48 if\nPath 49 51 @z\nCloseMustache 51 53 }}\nText 53 54 w\nOpenClosing 54 57 {{/\nPath 57 59 if\nCloseMustache 59 61 }}\nEndTag 61 65 </p>\n",
    ),
];

// Named blocks, in the same way.
static BLOCKS: [(&str, &str); 14] = [
    (
        "<C><:a></:a \t></C>",
        "TagOpening 0 2 <C\nTagEnd 2 3 >\nTagOpening 3 6 <:a\nTagEnd 6 7 >\nEndTag 7 14 </:a \t>\nEndTag 14 18 </C>\n",
    ),
    (
        "<:inverse as |x|>",
        "TagOpening 0 8 <:invers\nAttribute 8 9 e\nParameters 10 16 as |x|\nTagEnd 16 17 >\n",
    ),
    (
        "<:this><:this1><:inverse-s>",
        "TagOpening 0 5 <:thi\nAttribute 5 6 s\nTagEnd 6 7 >\nTagOpening 7 14 <:this1\nTagEnd 14 15 >\nTagOpening 15 26 <:inverse-s\nTagEnd 26 27 >\n",
    ),
    (
        "<:$_-9{{! c }}/>",
        "TagOpening 0 6 <:$_-9\nMustacheComment 6 14 {{! c }}\nSelfEnd 14 16 />\n",
    ),
    (
        "</:this1></:else-x>",
        "EndTag 0 9 </:this1>\nEndTag 9 19 </:else-x>\n",
    ),
    ("</:inverse>", "none"),
    ("</:null>", "none"),
    ("</: a>", "none"),
    ("</:a b>", "none"),
    ("<:>", "none"),
    ("<:1>", "none"),
    ("< :a>", "none"),
    ("<::a>", "none"),
    ("<p:a>", "none"),
];

// Expressions that stand alone, in the same way.
static EXPRESSIONS: [(&str, &str); 9] = [
    ("", ""),
    (" \r\n\t\u{c}", ""),
    (
        " (add this.c -1) ",
        "OpenParen 1 2 (\nPath 2 5 add\nPath 6 12 this.c\nNumber 13 15 -1\nCloseParen 15 16 )\n",
    ),
    (
        "'a}}'k=x",
        "StringLit 0 5 'a}}'\nPath 5 6 k\nEquals 6 7 =\nPath 7 8 x\n",
    ),
    ("f as |x|", "Path 0 1 f\nParameters 2 8 as |x|\n"),
    ("a }}", "none"),
    ("a ~}}", "none"),
    ("{{a}}", "none"),
    ("<b>", "none"),
];

// A line for each token.
fn lines(alloc: Global, tokens: &Tokens) -> Result<String, AllocError> {
    let mut all = String::new(alloc);
    for token in tokens.as_slice() {
        let text = token.text.as_str();
        write!(
            all,
            "{:?} {} {} {text}\n",
            token.kind, token.start, token.end
        )?;
    }
    Ok(all)
}

// The lines of the tokens, or `none` where there is no token at a place within the text.
fn shown(alloc: Global, text: &str, read: Result<Tokens, LexFault>) -> Result<String, LexFault> {
    match read {
        Ok(tokens) => Ok(lines(alloc, &tokens)?),
        Err(LexFault::NoToken { offset }) if offset <= text.len() as u64 => {
            Ok(String::from_str(alloc, "none")?)
        }
        Err(fault) => Err(fault),
    }
}

fn check_template(rt: &impl Abort, alloc: Global, row: &(&str, &str)) -> Result<(), Fail> {
    let have = shown(alloc, row.0, tokens(alloc, row.0))?;
    assert_eq!(rt; have.as_str(), row.1, "{}", row.0);
    Ok(())
}

fn check_expression(rt: &impl Abort, alloc: Global, row: &(&str, &str)) -> Result<(), Fail> {
    let have = shown(alloc, row.0, expression_tokens(alloc, row.0))?;
    assert_eq!(rt; have.as_str(), row.1, "{}", row.0);
    Ok(())
}

#[test]
fn templates(rt: HostRuntime) -> Result<(), Fail> {
    for row in &TEMPLATES {
        check_template(&rt, rt.alloc(), row)?;
    }
    Ok(())
}

#[test]
fn blocks(rt: HostRuntime) -> Result<(), Fail> {
    for row in &BLOCKS {
        check_template(&rt, rt.alloc(), row)?;
    }
    Ok(())
}

#[test]
fn expressions(rt: HostRuntime) -> Result<(), Fail> {
    for row in &EXPRESSIONS {
        check_expression(&rt, rt.alloc(), row)?;
    }
    Ok(())
}
