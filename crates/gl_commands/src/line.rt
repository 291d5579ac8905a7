// Lines on the error sink. They take no memory, and a fault of the sink changes nothing else.
ghost use Rattle.std.specs.Prelude.{◌≡◌, ◌<◌, ◌++◌, ◌∷◌, [], IsTrue, codes, decimal, true, false};
ghost use Rattle.std.specs.Str.{chars};
ghost use Rattle.std.specs.Fmt.{digits, digit_glyph};
ghost use Rattle.gl_base.specs.Texts.{is_ascii_text};
ghost use Rattle.gl_value.specs.Quote.{escaped, quoted};
ghost use Rattle.gl_commands.specs.Lines.{SaysOn};

use gl_outside::{Sink, SinkFault};

// Puts a piece where all before it was taken, and tells whether all is taken now.
pub fn say<E: Sink>(err: &mut E, whole: bool, piece: &str) -> bool
    ensures { SaysOn whole result (E.took err.old) (E.took err.new) (E.faults err.old) (E.faults err.new) (E.wants err.old) (E.wants err.new) (chars piece.now) }
{
    if !whole {
        return false;
    }
    match err.put(piece.as_bytes()) {
        Ok(()) => true,
        Err(SinkFault::Failed) => false,
        Err(SinkFault::Memory) => false,
    }
}

// The same for a literal of ASCII.
pub fn say_ascii<E: Sink>(err: &mut E, whole: bool, piece: &str) -> bool
    requires { IsTrue (is_ascii_text piece.now) }
    ensures { SaysOn whole result (E.took err.old) (E.took err.new) (E.faults err.old) (E.faults err.new) (E.wants err.old) (E.wants err.new) piece.now }
{
    say(err, whole, piece)
}

// The same for one character.
fn say_char<E: Sink>(err: &mut E, whole: bool, character: char) -> bool
    ensures { SaysOn whole result (E.took err.old) (E.took err.new) (E.faults err.old) (E.faults err.new) (E.wants err.old) (E.wants err.new) (character ∷ []) }
{
    let mut bytes = [0; 4];
    say(err, whole, character.encode_utf8(&mut bytes))
}

// A character's code in hexadecimal, below 128.
fn say_code<E: Sink>(err: &mut E, whole: bool, code: u32) -> bool
    requires { code < 128 }
    ensures { SaysOn whole result (E.took err.old) (E.took err.new) (E.faults err.old) (E.faults err.new) (E.wants err.old) (E.wants err.new) (digits 16 false code) }
{
    if code < 16 {
        return say_char(err, whole, digit_of(code));
    }
    let whole = say_char(err, whole, digit_of(code / 16));
    say_char(err, whole, digit_of(code % 16))
}

// A number in decimal.
pub fn say_number<E: Sink>(err: &mut E, whole: bool, number: u64) -> bool
    ensures { SaysOn whole result (E.took err.old) (E.took err.new) (E.faults err.old) (E.faults err.new) (E.wants err.old) (E.wants err.new) (decimal number) }
{
    if number < 10 {
        return say_char(err, whole, digit_of(number as u32));
    }
    let whole = say_number(err, whole, number / 10);
    say_char(err, whole, digit_of((number % 10) as u32))
}

// The hexadecimal digit of a number below 16.
fn digit_of(number: u32) -> char
    requires { number < 16 }
    ensures { result ≡ digit_glyph false number }
{
    char::from_digit(number, 16).unwrap()
}

// A control character by its code.
fn say_control<E: Sink>(err: &mut E, whole: bool, character: char) -> bool
    requires { character < 128 }
    ensures { SaysOn whole result (E.took err.old) (E.took err.new) (E.faults err.old) (E.faults err.new) (E.wants err.old) (E.wants err.new) (codes "\\u{" ++ (digits 16 false character ++ codes "}")) }
{
    let whole = say_ascii(err, whole, "\\u{");
    let whole = say_code(err, whole, character as u32);
    say_ascii(err, whole, "}")
}

// A character as it stands between quotation marks.
#[tactic(auto, unfolding(gl_value::specs::Quote::escaped))]
fn say_escaped<E: Sink>(err: &mut E, whole: bool, character: char) -> bool
    ensures { SaysOn whole result (E.took err.old) (E.took err.new) (E.faults err.old) (E.faults err.new) (E.wants err.old) (E.wants err.new) (escaped character) }
{
    match character {
        '"' => say_ascii(err, whole, "\\\""),
        '\\' => say_ascii(err, whole, "\\\\"),
        '\n' => say_ascii(err, whole, "\\n"),
        '\r' => say_ascii(err, whole, "\\r"),
        '\t' => say_ascii(err, whole, "\\t"),
        c if (c as u32) < 32 || c == '\x7f' => say_control(err, whole, c),
        c => say_char(err, whole, c),
    }
}

// A text between quotation marks.
pub fn say_quoted<E: Sink>(err: &mut E, whole: bool, text: &str) -> bool
    ensures { SaysOn whole result (E.took err.old) (E.took err.new) (E.faults err.old) (E.faults err.new) (E.wants err.old) (E.wants err.new) (quoted (chars text.now)) }
{
    let mut whole = say_ascii(err, whole, "\"");
    for character in text.chars() {
        whole = say_escaped(err, whole, character);
    }
    say_ascii(err, whole, "\"")
}
