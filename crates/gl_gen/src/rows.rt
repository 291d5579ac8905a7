// The rows as texts of JSON, and arrays of them.
ghost use Rattle.std.specs.Prelude.{◌≡◌, ◌<◌, ◌≤◌, [], ◌++◌, IfOk, OnOk, length};
ghost use Rattle.gl_gen.specs.Rows.{row, rows, moved, after_commas, array};

use gl_value::{Text, Texts};
use std::alloc::{AllocError, Global};

// The most bytes of a row below 10,000 with the comma before it.
const ROW_BYTES: usize = 24;

// The most bytes of what stands round the rows.
const OTHER_BYTES: usize = 512;

// An empty text with room for so many rows.
#[tactic(auto, using(gl_base::proofs::Chars::char_laws))]
pub fn text_for(alloc: Global, rows: usize) -> Result<Text, AllocError>
    requires { rows ≤ 100000 }
    ensures { IfOk result (λ t. t ≡ []) }
{
    let room = OTHER_BYTES + ROW_BYTES * rows;
    Text::with_capacity(alloc, room)
}

fn row_of(alloc: Global, number: u32) -> Result<Text, AllocError>
    ensures { IfOk result (λ t. t ≡ row number) }
{
    let mut text = Text::new(alloc);
    text.push_ascii("{\"id\":")?;
    text.push_number(number as u128)?;
    text.push_ascii(",\"t\":\"r")?;
    text.push_number(number as u128)?;
    text.push_ascii("\"}")?;
    Ok(text)
}

// The rows from 0 to n - 1.
pub fn rows_of(alloc: Global, n: u32) -> Result<Texts, AllocError>
    ensures { IfOk result (λ t. t ≡ rows n) }
{
    let mut texts = Vec::with_capacity(alloc, n as usize)?;
    for number in 0..n {
        texts.push(row_of(alloc, number)?)?;
    }
    Ok(Texts::from_vec(texts))
}

// Adds the texts, a comma before each.
fn push_after_commas(out: &mut Text, texts: &[Text]) -> Result<(), AllocError>
    ensures { OnOk result (out.new ≡ out.old ++ after_commas texts.now) }
{
    for text in texts {
        out.push_ascii(",")?;
        out.push_text(text)?;
    }
    Ok(())
}

// Adds the array of the texts, from the one at a place to the last, and then those before the place.
pub fn push_array(out: &mut Text, texts: &[Text], place: usize) -> Result<(), AllocError>
    requires { place < length texts.now }
    ensures { OnOk result (out.new ≡ out.old ++ array (moved place texts.now)) }
{
    out.push_ascii("[")?;
    out.push_text(&texts[place])?;
    push_after_commas(out, &texts[place + 1..])?;
    push_after_commas(out, &texts[..place])?;
    out.push_ascii("]")
}
