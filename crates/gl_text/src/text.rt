// A text, which contracts see as the list of its characters.
ghost use Rattle.std.specs.Prelude.{◌≡◌, ◌<◌, ◌↔◌, false, ◌∷◌, ◌++◌, [], IsTrue, IfOk, OnOk, OnErr, string_bytes, encode_utf8_all, length};
ghost use Rattle.std.specs.Str.{chars, bytes_eq, IsUtf8};
ghost use Rattle.std.specs.Fmt.{decimal, digits, signed_decimal};
ghost use Rattle.gl_base.specs.Texts.{is_ascii_text, text_less};
ghost use Rattle.gl_text.specs.Characters.{bytes_kept};

use crate::short::ShortText;
use std::alloc::{AllocError, Global};
use std::marker::Model;

// The characters of a text. Where they have few bytes they stand in the text itself.
#[derive(Debug, Drop)]
enum Characters {
    Short(ShortText),
    Long(Box<String>),
}

/// A text. Contracts see the list of its characters. Where these have at most 22 bytes the text takes no memory beside its own 24
/// bytes, but where it was made with room for more.
#[derive(Debug, Drop)]
pub struct Text {
    alloc: Global,
    characters: Characters,
}

impl Model for Text {
    ghost use Rattle.std.specs.Prelude.{ℕ, List};
    ghost use Rattle.std.specs.Str.{chars};
    ghost use Rattle.gl_text.specs.Characters.{bytes_kept};

    ghost Value = { List ℕ };

    ghost view = { λ t. chars (bytes_kept t.characters) };
}

// The characters of a string slice.
fn kept(alloc: Global, text: &str) -> Result<Characters, AllocError>
    ensures { IfOk result (λ c. bytes_kept c ≡ text.now) }
{
    let mut short = ShortText::new();
    if short.push_str(text) {
        return Ok(Characters::Short(short));
    }
    Ok(Characters::Long(Box::new(alloc, String::from_str(alloc, text)?)?))
}

// The characters of a string.
fn kept_string(alloc: Global, text: String) -> Result<Characters, AllocError>
    ensures { IfOk result (λ c. bytes_kept c ≡ string_bytes text) }
{
    let mut short = ShortText::new();
    if short.push_str(text.as_str()) {
        return Ok(Characters::Short(short));
    }
    Ok(Characters::Long(Box::new(alloc, text)?))
}

// The characters of a text that gets too long to stand in it, with more at the end.
fn grown(alloc: Global, short: &ShortText, more: &str) -> Result<Characters, AllocError>
    ensures { IfOk result (λ c. bytes_kept c ≡ short.now ++ more.now) }
{
    let mut long = String::from_str(alloc, short.as_str())?;
    long.push_str(more)?;
    Ok(Characters::Long(Box::new(alloc, long)?))
}

#[tactic(auto, using(gl_base::proofs::Chars::char_laws))]
impl Text {
    /// The empty text. It takes no memory.
    pub fn new(alloc: Global) -> Text
        ensures { result ≡ [] }
    {
        Text {
            alloc,
            characters: Characters::Short(ShortText::new()),
        }
    }

    /// A text with the characters of `text`.
    pub fn from_str(alloc: Global, text: &str) -> Result<Text, AllocError>
        ensures { IfOk result (λ t. t ≡ chars text.now) }
    {
        Ok(Text {
            alloc,
            characters: kept(alloc, text)?,
        })
    }

    /// The empty text, with room for so many bytes.
    pub fn with_capacity(alloc: Global, room: usize) -> Result<Text, AllocError>
        ensures { IfOk result (λ t. t ≡ []) }
    {
        let long = String::with_capacity(alloc, room)?;
        Ok(Text {
            alloc,
            characters: Characters::Long(Box::new(alloc, long)?),
        })
    }

    /// The text that a string holds.
    pub fn from_string(text: String) -> Result<Text, AllocError>
        ensures { IfOk result (λ t. t ≡ chars (string_bytes text)) }
    {
        let alloc = *text.allocator();
        Ok(Text {
            alloc,
            characters: kept_string(alloc, text)?,
        })
    }

    /// The text as Rust's string slice.
    pub fn as_str(&self) -> &str
        ensures bytes { result.now ≡ encode_utf8_all self.now }
        ensures value { chars result.now ≡ self.now }
        ensures utf8 { IsUtf8 result.now }
    {
        match &self.characters {
            Characters::Short(short) => short.as_str(),
            Characters::Long(long) => long.as_str(),
        }
    }

    /// Another text with the same characters.
    pub fn copy(&self) -> Result<Text, AllocError>
        ensures { IfOk result (λ t. t ≡ self.now) }
    {
        Text::from_str(self.alloc, self.as_str())
    }

    /// Whether it has no character.
    pub fn is_empty(&self) -> bool
        ensures { IsTrue result ↔ (self.now ≡ []) }
    {
        self.as_str().is_empty()
    }

    /// How many characters it has.
    pub fn len(&self) -> usize
        ensures { result ≡ length self.now }
    {
        self.as_str().chars().count()
    }

    /// Whether it has the characters of `text`.
    #[tactic(auto, using(gl_base::proofs::Chars::equal_laws))]
    pub fn is(&self, text: &str) -> bool
        ensures { result ≡ bytes_eq (chars text.now) self.now }
    {
        text == self.as_str()
    }

    /// Whether the two have the same characters.
    #[tactic(auto, using(gl_base::proofs::Chars::equal_laws))]
    pub fn same(&self, other: &Text) -> bool
        ensures { result ≡ bytes_eq self.now other.now }
    {
        self.as_str() == other.as_str()
    }

    /// Whether it is less than the other, by bytes.
    pub fn is_before(&self, other: &Text) -> bool
        ensures { result ≡ text_less self.now other.now }
    {
        self.as_str() < other.as_str()
    }

    /// Adds the characters of `text` at the end.
    pub fn push_str(&mut self, text: &str) -> Result<(), AllocError>
        ensures ok { OnOk result (self.new ≡ self.old ++ chars text.now) }
        ensures err { OnErr result (self.new ≡ self.old) }
    {
        match &mut self.characters {
            Characters::Long(long) => long.push_str(text),
            Characters::Short(short) => {
                if short.push_str(text) {
                    return Ok(());
                }
                self.characters = grown(self.alloc, short, text)?;
                Ok(())
            }
        }
    }

    /// Adds a text at the end.
    pub fn push_text(&mut self, text: &Text) -> Result<(), AllocError>
        ensures ok { OnOk result (self.new ≡ self.old ++ text.now) }
        ensures err { OnErr result (self.new ≡ self.old) }
    {
        self.push_str(text.as_str())
    }

    /// Adds a literal of ASCII at the end: the condition is computed.
    pub fn push_ascii(&mut self, text: &str) -> Result<(), AllocError>
        requires { IsTrue (is_ascii_text text.now) }
        ensures ok { OnOk result (self.new ≡ self.old ++ text.now) }
        ensures err { OnErr result (self.new ≡ self.old) }
    {
        self.push_str(text)
    }

    /// Adds a character at the end.
    pub fn push_char(&mut self, character: char) -> Result<(), AllocError>
        ensures ok { OnOk result (self.new ≡ self.old ++ character ∷ []) }
        ensures err { OnErr result (self.new ≡ self.old) }
    {
        let mut buffer = [0; 4];
        self.push_str(character.encode_utf8(&mut buffer))
    }

    /// Adds a number in decimal at the end. Where memory is wanting, a part of it may stand there.
    pub fn push_number(&mut self, number: u128) -> Result<(), AllocError>
        ensures { OnOk result (self.new ≡ self.old ++ decimal number) }
    {
        let mut digits = String::new(self.alloc);
        write!(digits, "{number}")?;
        self.push_str(digits.as_str())
    }

    /// Adds a signed number in decimal at the end. Where memory is wanting, a part of it may stand there.
    pub fn push_int(&mut self, number: i64) -> Result<(), AllocError>
        ensures { OnOk result (self.new ≡ self.old ++ signed_decimal number) }
    {
        let mut digits = String::new(self.alloc);
        write!(digits, "{number}")?;
        self.push_str(digits.as_str())
    }

    /// Adds the code of an ASCII character in lower-case hexadecimal at the end. Where memory is wanting, a
    /// part of it may stand there.
    pub fn push_hexadecimal(&mut self, code: u32) -> Result<(), AllocError>
        requires { code < 128 }
        ensures { OnOk result (self.new ≡ self.old ++ digits 16 false code) }
    {
        let mut digits = String::new(self.alloc);
        write!(digits, "{code:x}")?;
        self.push_str(digits.as_str())
    }
}
