// The script.
ghost use Rattle.std.specs.Prelude.{◌≡◌, ◌<◌, ◌≤◌, ◌++◌, ◌^◌, IfOk, OnOk, length};
ghost use Rattle.gl_gen.specs.Rows.{rows};
ghost use Rattle.gl_gen.specs.Script.{following, click, event_at, script};

use crate::rows::{push_array, text_for};
use gl_value::Text;
use std::alloc::{AllocError, Global};

// How many events there are, of which each second one has all rows.
const EVENTS: u32 = 16;

// The pseudo-random number after one.
fn number_after(number: u64) -> u64
    requires { number < 2 ^ 31 }
    ensures value { result ≡ following number }
    ensures small { result < 2 ^ 31 }
{
    (1103515245 * number + 12345) % 2147483648
}

fn push_click(out: &mut Text, node: u128) -> Result<(), AllocError>
    ensures { OnOk result (out.new ≡ out.old ++ click node) }
{
    out.push_ascii("{\"fire\":")?;
    out.push_number(node)?;
    out.push_ascii(",\"event\":\"click\"}")?;
    Ok(())
}

fn push_event(out: &mut Text, texts: &[Text], event: u32, place: usize) -> Result<(), AllocError>
    requires { place < length texts.now }
    ensures { OnOk result (out.new ≡ out.old ++ event_at texts.now event place) }
{
    if event % 2 == 0 {
        return push_click(out, 2 + 2 * place as u128);
    }
    out.push_ascii("{\"set\":\"rows\",\"to\":")?;
    push_array(out, texts, place)?;
    out.push_ascii("}")?;
    Ok(())
}

// The script, from the rows.
pub fn script_of(alloc: Global, n: u32, texts: &[Text]) -> Result<Text, AllocError>
    requires some { 1 ≤ n }
    requires most { n ≤ 10000 }
    requires those { texts.now ≡ rows n }
    ensures { IfOk result (λ t. t ≡ script n) }
{
    let mut text = text_for(alloc, n as usize * (EVENTS as usize / 2))?;
    let mut number = n as u64;
    text.push_ascii("[")?;
    push_event(&mut text, texts, 0, (number % n as u64) as usize)?;
    for event in 1..EVENTS {
        number = number_after(number);
        text.push_ascii(",")?;
        push_event(&mut text, texts, event, (number % n as u64) as usize)?;
    }
    text.push_ascii("]")?;
    Ok(text)
}
