// The tables, and functions that say what their rows are: a contract can't name a constant of a type
// with a model, and so what is to be known of one is known of the function that gives it.
ghost use Rattle.std.specs.Prelude.{◌≡◌};
ghost use Rattle.gl_names.specs.Helpers.{helper_rows};
ghost use Rattle.gl_names.specs.Mnemonics.{mnemonic_rows};
ghost use Rattle.gl_names.specs.References.{reference_rows};
ghost use Rattle.gl_names.specs.Void.{void_rows};

use crate::table::{NameTable, Row};

// A table of the rows that are listed.
macro_rules! table {
    ($(($name:literal, $number:literal)),* $(,)?) => {
        NameTable {
            names: concat!($($name),*),
            rows: &[$(Row { length: $name.len(), number: $number }),*],
        }
    };
}

/// The names of the opcodes, each with its code.
pub const MNEMONICS: NameTable<45> = table![
    ("Text", 1),
    ("Comment", 2),
    ("Open", 3),
    ("Attr", 4),
    ("AttrRef", 5),
    ("Spread", 6),
    ("Mod", 7),
    ("Flush", 8),
    ("Close", 9),
    ("Put", 10),
    ("If", 11),
    ("Unless", 12),
    ("Else", 13),
    ("EndIf", 14),
    ("Each", 15),
    ("Item", 16),
    ("EndItem", 17),
    ("EndEach", 18),
    ("Let", 19),
    ("Bind", 20),
    ("EndLet", 21),
    ("Comp", 22),
    ("Arg", 23),
    ("Block", 24),
    ("Param", 25),
    ("EndBlock", 26),
    ("Bare", 27),
    ("Invoke", 28),
    ("Yield", 29),
    ("Undef", 30),
    ("Null", 31),
    ("True", 32),
    ("False", 33),
    ("Int", 34),
    ("Str", 35),
    ("Local", 36),
    ("ArgRef", 37),
    ("Field", 38),
    ("Getter", 39),
    ("Action", 40),
    ("Prop", 41),
    ("Call", 42),
    ("Named", 43),
    ("Cat", 44),
    ("Done", 45),
];

/// The table `MNEMONICS`.
#[tactic(auto, unfolding(crate::specs::Mnemonics::mnemonic_rows))]
pub fn mnemonics() -> NameTable<45>
    ensures { result ≡ mnemonic_rows }
{
    MNEMONICS
}

/// The names of the character references, each with its code point: five of ASCII, and the code points from 160
/// to 255 in order.
pub const REFERENCES: NameTable<101> = table![
    ("amp", 38),
    ("lt", 60),
    ("gt", 62),
    ("quot", 34),
    ("apos", 39),
    ("nbsp", 160),
    ("iexcl", 161),
    ("cent", 162),
    ("pound", 163),
    ("curren", 164),
    ("yen", 165),
    ("brvbar", 166),
    ("sect", 167),
    ("uml", 168),
    ("copy", 169),
    ("ordf", 170),
    ("laquo", 171),
    ("not", 172),
    ("shy", 173),
    ("reg", 174),
    ("macr", 175),
    ("deg", 176),
    ("plusmn", 177),
    ("sup2", 178),
    ("sup3", 179),
    ("acute", 180),
    ("micro", 181),
    ("para", 182),
    ("middot", 183),
    ("cedil", 184),
    ("sup1", 185),
    ("ordm", 186),
    ("raquo", 187),
    ("frac14", 188),
    ("frac12", 189),
    ("frac34", 190),
    ("iquest", 191),
    ("Agrave", 192),
    ("Aacute", 193),
    ("Acirc", 194),
    ("Atilde", 195),
    ("Auml", 196),
    ("Aring", 197),
    ("AElig", 198),
    ("Ccedil", 199),
    ("Egrave", 200),
    ("Eacute", 201),
    ("Ecirc", 202),
    ("Euml", 203),
    ("Igrave", 204),
    ("Iacute", 205),
    ("Icirc", 206),
    ("Iuml", 207),
    ("ETH", 208),
    ("Ntilde", 209),
    ("Ograve", 210),
    ("Oacute", 211),
    ("Ocirc", 212),
    ("Otilde", 213),
    ("Ouml", 214),
    ("times", 215),
    ("Oslash", 216),
    ("Ugrave", 217),
    ("Uacute", 218),
    ("Ucirc", 219),
    ("Uuml", 220),
    ("Yacute", 221),
    ("THORN", 222),
    ("szlig", 223),
    ("agrave", 224),
    ("aacute", 225),
    ("acirc", 226),
    ("atilde", 227),
    ("auml", 228),
    ("aring", 229),
    ("aelig", 230),
    ("ccedil", 231),
    ("egrave", 232),
    ("eacute", 233),
    ("ecirc", 234),
    ("euml", 235),
    ("igrave", 236),
    ("iacute", 237),
    ("icirc", 238),
    ("iuml", 239),
    ("eth", 240),
    ("ntilde", 241),
    ("ograve", 242),
    ("oacute", 243),
    ("ocirc", 244),
    ("otilde", 245),
    ("ouml", 246),
    ("divide", 247),
    ("oslash", 248),
    ("ugrave", 249),
    ("uacute", 250),
    ("ucirc", 251),
    ("uuml", 252),
    ("yacute", 253),
    ("thorn", 254),
    ("yuml", 255),
];

/// The table `REFERENCES`.
#[tactic(auto, unfolding(crate::specs::References::reference_rows))]
pub fn references() -> NameTable<101>
    ensures { result ≡ reference_rows }
{
    REFERENCES
}

/// The names of the elements that have no end tag, each with its place in the order of names.
pub const VOID: NameTable<14> = table![
    ("area", 0),
    ("base", 1),
    ("br", 2),
    ("col", 3),
    ("embed", 4),
    ("hr", 5),
    ("img", 6),
    ("input", 7),
    ("link", 8),
    ("meta", 9),
    ("param", 10),
    ("source", 11),
    ("track", 12),
    ("wbr", 13),
];

/// The table `VOID`.
#[tactic(auto, unfolding(crate::specs::Void::void_rows))]
pub fn void() -> NameTable<14>
    ensures { result ≡ void_rows }
{
    VOID
}

/// The names of the helpers, each with its number.
pub const HELPERS: NameTable<33> = table![
    ("if", 0),
    ("unless", 1),
    ("concat", 2),
    ("array", 3),
    ("hash", 4),
    ("get", 5),
    ("fn", 6),
    ("add", 7),
    ("sub", 8),
    ("mul", 9),
    ("min", 10),
    ("max", 11),
    ("eq", 12),
    ("ne", 13),
    ("not", 14),
    ("and", 15),
    ("or", 16),
    ("lt", 17),
    ("lte", 18),
    ("gt", 19),
    ("gte", 20),
    ("length", 21),
    ("append", 22),
    ("removeAt", 23),
    ("put", 24),
    ("slice", 25),
    ("reverse", 26),
    ("includes", 27),
    ("where", 28),
    ("removeWhere", 29),
    ("updateWhere", 30),
    ("pluck", 31),
    ("join", 32),
];

/// The table `HELPERS`.
#[tactic(auto, unfolding(crate::specs::Helpers::helper_rows))]
pub fn helpers() -> NameTable<33>
    ensures { result ≡ helper_rows }
{
    HELPERS
}
