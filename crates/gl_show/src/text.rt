// The characters of texts, quoted values and strings.
ghost use Rattle.std.specs.Prelude.{◌≡◌, ◌∷◌, ◌++◌, ◌<◌, OnOk, length, false, true};
ghost use Rattle.gl_ast.specs.Canon.{numbered, text_char, value_char, string_char, text_from, value_text, string_text, ends_backslash};
ghost use Rattle.gl_ast.specs.Marks.{is_white};
ghost use Rattle.gl_show.specs.Marking.{run_from, marked_char, marked};

use crate::scan::Scan;
use gl_value::Text;
use std::alloc::AllocError;

// Blank, tab, line feed, form feed or carriage return.
fn is_white(character: char) -> bool
    ensures { result ≡ is_white character }
{
    matches!(character, ' ' | '\t' | '\n' | '\x0c' | '\r')
}

// Adds the reference of a character, by its number.
fn push_numbered(out: &mut Text, character: char) -> Result<(), AllocError>
    ensures { OnOk result (out.new ≡ out.old ++ numbered character) }
{
    out.push_ascii("&#")?;
    out.push_number(u128::from(character as u32))?;
    out.push_ascii(";")
}

// Adds a character of a text.
fn push_text_char(out: &mut Text, character: char) -> Result<(), AllocError>
    ensures { OnOk result (out.new ≡ out.old ++ text_char character) }
{
    match character {
        '&' => out.push_ascii("&amp;"),
        '<' => out.push_ascii("&lt;"),
        '{' => out.push_ascii("&#123;"),
        '\\' => out.push_ascii("&#92;"),
        c => out.push_char(c),
    }
}

// Adds a character of a text, which may stand in the white space at its front or its end.
fn push_marked(out: &mut Text, edge: bool, character: char) -> Result<(), AllocError>
    ensures { OnOk result (out.new ≡ out.old ++ marked_char edge character) }
{
    if is_white(character) && edge {
        push_numbered(out, character)
    } else {
        push_text_char(out, character)
    }
}

// How many characters stand after the last that isn't white space.
fn end_run(text: &Text) -> usize
    ensures { result ≡ run_from (length text.now) text.now }
{
    let mut scan = Scan::new(text);
    let mut left = text.len();
    let mut run = left;
    while let Some(character) = scan.next() {
        left -= 1;
        if !is_white(character) {
            run = left;
        }
    }
    run
}

// Adds the characters, where white space among the last `run` of them is at the end of the text.
fn write_marked(text: &Text, run: usize, out: &mut Text) -> Result<(), AllocError>
    ensures { OnOk result (out.new ≡ out.old ++ marked run true text.now) }
{
    let mut scan = Scan::new(text);
    let mut left = text.len();
    let mut front = true;
    while let Some(character) = scan.next() {
        push_marked(out, front || left <= run, character)?;
        front = front && is_white(character);
        left -= 1;
    }
    Ok(())
}

/// Adds a text statement: white space at its front and its end as references.
#[tactic(auto, using(crate::proofs::Edges::edge_laws))]
pub fn write_text(text: &Text, out: &mut Text) -> Result<(), AllocError>
    ensures { OnOk result (out.new ≡ out.old ++ text_from true text.now) }
{
    write_marked(text, end_run(text), out)
}

// Adds a character of a quoted value.
fn push_value_char(out: &mut Text, character: char) -> Result<(), AllocError>
    ensures { OnOk result (out.new ≡ out.old ++ value_char character) }
{
    match character {
        '&' => out.push_ascii("&amp;"),
        '"' => out.push_ascii("&quot;"),
        '{' => out.push_ascii("&#123;"),
        '\\' => out.push_ascii("&#92;"),
        c => out.push_char(c),
    }
}

/// Adds a text of a quoted value.
pub fn write_value_text(text: &Text, out: &mut Text) -> Result<(), AllocError>
    ensures { OnOk result (out.new ≡ out.old ++ value_text text.now) }
{
    let mut scan = Scan::new(text);
    while let Some(character) = scan.next() {
        push_value_char(out, character)?;
    }
    Ok(())
}

// Adds a character of a string.
fn push_string_char(out: &mut Text, character: char) -> Result<(), AllocError>
    ensures { OnOk result (out.new ≡ out.old ++ string_char character) }
{
    if character == '"' {
        out.push_ascii("\\\"")
    } else {
        out.push_char(character)
    }
}

/// Adds a text as a string of a mustache, between quotes.
pub fn write_string(text: &Text, out: &mut Text) -> Result<(), AllocError>
    ensures { OnOk result (out.new ≡ out.old ++ string_text text.now) }
{
    out.push_ascii("\"")?;
    let mut scan = Scan::new(text);
    while let Some(character) = scan.next() {
        push_string_char(out, character)?;
    }
    out.push_ascii("\"")
}

/// Whether the last character is a `\`.
#[tactic(auto, using(crate::proofs::Edges::last_laws))]
pub fn ends_backslash(text: &Text) -> bool
    ensures { result ≡ ends_backslash text.now }
{
    let mut last = false;
    let mut scan = Scan::new(text);
    while let Some(character) = scan.next() {
        last = character == '\\';
    }
    last
}
