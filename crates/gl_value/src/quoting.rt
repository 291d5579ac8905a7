// A text between quotation marks.
ghost use Rattle.std.specs.Prelude.{◌≡◌, ◌<◌, ◌++◌, IfOk, OnOk, codes, false};
ghost use Rattle.std.specs.Fmt.{digits};
ghost use Rattle.std.specs.Str.{chars};
ghost use Rattle.gl_value.specs.Quote.{escaped, quoted};

use crate::Text;
use std::alloc::{AllocError, Global};

// Adds a control character by its code.
fn push_code(out: &mut Text, character: char) -> Result<(), AllocError>
    requires { character < 128 }
    ensures { OnOk result (out.new ≡ out.old ++ (codes "\\u{" ++ (digits 16 false character ++ codes "}"))) }
{
    out.push_ascii("\\u{")?;
    out.push_hexadecimal(character as u32)?;
    out.push_ascii("}")
}

// Adds a character as it stands between the marks.
#[tactic(auto, unfolding(crate::specs::Quote::escaped))]
fn push_escaped(out: &mut Text, character: char) -> Result<(), AllocError>
    ensures { OnOk result (out.new ≡ out.old ++ escaped character) }
{
    match character {
        '"' => out.push_ascii("\\\""),
        '\\' => out.push_ascii("\\\\"),
        '\n' => out.push_ascii("\\n"),
        '\r' => out.push_ascii("\\r"),
        '\t' => out.push_ascii("\\t"),
        c if (c as u32) < 32 || c == '\x7f' => push_code(out, c),
        c => out.push_char(c),
    }
}

/// Adds a text between quotation marks, as every line of output writes it: `"` is written `\"`, `\` is
/// written `\\`, a line feed `\n`, a carriage return `\r`, a tab `\t`, other characters below 32 and 127
/// `\u{h}` with `h` in lower-case hexadecimal, and all else stands as it is. Where memory is wanting, a part
/// of it may stand there.
pub fn push_quoted(out: &mut Text, text: &str) -> Result<(), AllocError>
    ensures { OnOk result (out.new ≡ out.old ++ quoted (chars text.now)) }
{
    out.push_ascii("\"")?;
    for character in text.chars() {
        push_escaped(out, character)?;
    }
    out.push_ascii("\"")
}

/// The text between quotation marks, as [`push_quoted`] writes it.
pub fn quote(alloc: Global, text: &str) -> Result<Text, AllocError>
    ensures { IfOk result (λ t. t ≡ quoted (chars text.now)) }
{
    let mut out = Text::new(alloc);
    push_quoted(&mut out, text)?;
    Ok(out)
}
