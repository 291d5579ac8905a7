// Tests of names.
ghost use Rattle.std.specs.Prelude.{◌≡◌, slice_index};
ghost use Rattle.std.specs.List.{list_all, list_any};
ghost use Rattle.std.specs.Str.{bytes_eq};
ghost use Rattle.gl_ast.specs.Marks.{starts_name, in_name};
ghost use Rattle.gl_ast.specs.Words.{reserved};
ghost use Rattle.gl_meaning.specs.NameTests.{is_name, is_free_name, is_class_name, is_one_of};
ghost use Rattle.gl_shape.specs.Places.{PlaceAfter};

const RESERVED: [&str; 7] = [
    "this",
    "true",
    "false",
    "null",
    "undefined",
    "else",
    "yield",
];

fn starts_name(b: u8) -> bool
    ensures { result ≡ starts_name b }
{
    b.is_ascii_alphabetic() || b == b'_' || b == b'$'
}

// Whether a name may go on with the byte.
fn in_name(b: u8) -> bool
    ensures { result ≡ in_name b }
{
    starts_name(b) || b.is_ascii_digit() || b == b'-'
}

fn is_one_of(words: &[&str], name: &[u8]) -> bool
    ensures { result ≡ list_any (λ word. bytes_eq word.now name.now) words.now }
{
    words.iter().any(|word| word.as_bytes() == name)
}

fn is_reserved(name: &[u8]) -> bool
    ensures { result ≡ is_one_of reserved name.now }
{
    is_one_of(&RESERVED, name)
}

fn begins_name(name: &[u8]) -> bool
    ensures { result ≡ starts_name (slice_index name.now 0) }
{
    match name.first() {
        None => false,
        Some(first) => starts_name(*first),
    }
}

fn goes_on_as_name(name: &[u8]) -> bool
    ensures { result ≡ list_all in_name name.now }
{
    name.iter().all(|b| in_name(*b))
}

/// Whether the bytes are a name: a letter, `_` or `$`, and then these, digits and `-`.
#[tactic(auto, unfolding(gl_meaning::specs::NameTests::is_name))]
pub fn is_name(name: &[u8]) -> bool
    ensures { result ≡ is_name name.now }
{
    begins_name(name) && goes_on_as_name(name)
}

/// Whether the bytes are a name that is not reserved.
#[tactic(auto, unfolding(gl_meaning::specs::NameTests::is_free_name))]
pub fn is_free_name(name: &[u8]) -> bool
    ensures { result ≡ is_free_name name.now }
{
    is_name(name) && !is_reserved(name)
}

// Where a class name stands after some of its bytes.
#[derive(Clone, Copy, PartialEq, Eq)]
enum Place {
    // a part begins
    Start,
    // within a part
    Part,
    // after the first colon of two
    Colon,
}

fn place_after(place: Place, b: u8) -> Option<Place>
    ensures { PlaceAfter place b result }
{
    match place {
        Place::Start if b.is_ascii_uppercase() => Some(Place::Part),
        Place::Part if b == b':' => Some(Place::Colon),
        Place::Part if b.is_ascii_alphanumeric() => Some(Place::Part),
        Place::Colon if b == b':' => Some(Place::Start),
        _ => None,
    }
}

/// Whether the bytes are a class name: a capital, then letters and digits, and further such parts after `::`.
pub fn is_class_name(name: &[u8]) -> bool
    ensures { result ≡ is_class_name name.now }
{
    let mut place = Place::Start;
    for b in name {
        match place_after(place, *b) {
            Some(next) => place = next,
            None => return false,
        }
    }
    place == Place::Part
}
