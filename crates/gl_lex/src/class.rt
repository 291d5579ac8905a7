// Kinds of bytes.
ghost use Rattle.std.specs.Prelude.{◌≡◌};
ghost use Rattle.gl_ast.specs.Marks.{is_white, starts_name, in_name, in_class, in_tag, starts_attribute, in_attribute, in_unquoted};
ghost use Rattle.gl_lex.specs.Class.{test};

/// A kind of bytes. A byte of a character that is not ASCII is of the kind `Unquoted` alone.
#[derive(Clone, Copy)]
pub enum Class {
    White,
    NameStart,
    Name,
    Capital,
    ClassPart,
    Small,
    Tag,
    AttributeStart,
    Attribute,
    Unquoted,
    Digit,
}

impl Class {
    /// Whether the byte is of the kind.
    pub fn has(self, b: u8) -> bool
        ensures { result ≡ test self b }
    {
        match self {
            Class::White => is_white(b),
            Class::NameStart => starts_name(b),
            Class::Name => in_name(b),
            Class::Capital => b.is_ascii_uppercase(),
            Class::ClassPart => in_class(b),
            Class::Small => b.is_ascii_lowercase(),
            Class::Tag => in_tag(b),
            Class::AttributeStart => starts_attribute(b),
            Class::Attribute => in_attribute(b),
            Class::Unquoted => in_unquoted(b),
            Class::Digit => b.is_ascii_digit(),
        }
    }
}

/// Whether the byte is a blank, a tab, a line feed, a form feed or a carriage return.
pub fn is_white(b: u8) -> bool
    ensures { result ≡ is_white b }
{
    b == b' ' || b == b'\t' || b == b'\n' || b == b'\x0c' || b == b'\r'
}

fn starts_name(b: u8) -> bool
    ensures { result ≡ starts_name b }
{
    b.is_ascii_alphabetic() || b == b'_' || b == b'$'
}

/// Whether a name may go on with the byte.
pub fn in_name(b: u8) -> bool
    ensures { result ≡ in_name b }
{
    starts_name(b) || b.is_ascii_digit() || b == b'-'
}

fn in_class(b: u8) -> bool
    ensures { result ≡ in_class b }
{
    b.is_ascii_alphanumeric()
}

fn in_tag(b: u8) -> bool
    ensures { result ≡ in_tag b }
{
    in_class(b) || b == b'-'
}

fn starts_attribute(b: u8) -> bool
    ensures { result ≡ starts_attribute b }
{
    b.is_ascii_alphabetic() || b == b'_'
}

fn in_attribute(b: u8) -> bool
    ensures { result ≡ in_attribute b }
{
    starts_attribute(b) || b.is_ascii_digit() || b == b':' || b == b'.' || b == b'-'
}

fn in_unquoted(b: u8) -> bool
    ensures { result ≡ in_unquoted b }
{
    !(is_white(b)
        || b == b'"'
        || b == b'\''
        || b == b'<'
        || b == b'>'
        || b == b'='
        || b == b'`'
        || b == b'{')
}
