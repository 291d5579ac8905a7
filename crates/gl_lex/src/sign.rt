// Places that end something.
ghost use Rattle.std.specs.Prelude.{◌≡◌, codes};
ghost use Rattle.gl_ast.specs.Modes.{quote_byte};
ghost use Rattle.gl_ast.specs.Scans.{begins};
ghost use Rattle.gl_ast.specs.Words.{shows_long_end, ends_text, ends_quoted};
ghost use Rattle.gl_lex.specs.Class.{shows};

use crate::scan::begins;
use gl_ast::Quote;

/// What a comment or a run of text ends before.
#[derive(Clone, Copy)]
pub enum Sign {
    /// `-->`.
    HtmlEnd,
    /// `--}}` or `--~}}`.
    LongEnd,
    /// `}}`.
    ShortEnd,
    /// `<`, `{{`, or `\` directly before `{{`.
    TextEnd,
    /// The quote, `{{`, or `\` directly before `{{`.
    QuotedEnd(Quote),
}

impl Sign {
    /// Whether it stands at the front of the bytes.
    pub fn shows(self, bytes: &[u8]) -> bool
        ensures { result ≡ shows self bytes.now }
    {
        match self {
            Sign::HtmlEnd => begins(b"-->", bytes),
            Sign::LongEnd => begins(b"--}}", bytes) || begins(b"--~}}", bytes),
            Sign::ShortEnd => begins(b"}}", bytes),
            Sign::TextEnd => ends_text(bytes),
            Sign::QuotedEnd(quote) => ends_quoted(quote, bytes),
        }
    }
}

// Whether plain text of the content ends before the bytes.
fn ends_text(bytes: &[u8]) -> bool
    ensures { result ≡ ends_text bytes.now }
{
    begins(b"<", bytes) || begins(b"{{", bytes) || begins(b"\\{{", bytes)
}

// Whether plain text of a value in this quote ends before the bytes.
fn ends_quoted(quote: Quote, bytes: &[u8]) -> bool
    ensures { result ≡ ends_quoted (quote_byte quote) bytes.now }
{
    begins(&[byte_of(quote)], bytes) || begins(b"{{", bytes) || begins(b"\\{{", bytes)
}

/// The byte of a quote.
pub fn byte_of(quote: Quote) -> u8
    ensures { result ≡ quote_byte quote }
{
    match quote {
        Quote::Double => b'"',
        Quote::Single => b'\'',
    }
}
