// What is kept of a text.
ghost use Rattle.std.specs.Prelude.{◌≡◌, ◌≤◌, length, drop};
ghost use Rattle.std.specs.List.{prefix_len};
ghost use Rattle.gl_ast.specs.Marks.{is_blank, is_white};
ghost use Rattle.gl_ast.specs.Settling as s;
ghost use Rattle.gl_space.specs.Trim.{trim};

use gl_ast::Edge;

/// Whether the byte is a blank or a tab.
pub fn is_blank(b: u8) -> bool
    ensures { result ≡ is_blank b }
{
    b == b' ' || b == b'\t'
}

fn is_white(b: u8) -> bool
    ensures { result ≡ is_white b }
{
    b == b' ' || b == b'\t' || b == b'\n' || b == b'\x0c' || b == b'\r'
}

// Whether white space that is removed at an end of a text has the byte.
fn strips(edge: Edge, b: u8) -> bool
    ensures { result ≡ s.strips edge b }
{
    match edge {
        Edge::Keep => false,
        Edge::Line => is_blank(b),
        Edge::White => is_white(b),
    }
}

// How many bytes at the front are stripped.
fn run_width(edge: Edge, text: &[u8]) -> usize
    ensures value { result ≡ prefix_len (s.strips edge) text.now }
    ensures within { result ≤ length text.now }
{
    text.iter().take_while(|b| strips(edge, **b)).count()
}

// How many bytes the line break at the front has.
fn break_width(text: &[u8]) -> usize
    ensures { result ≡ s.break_width text.now }
{
    match text {
        [b'\n', ..] => 1,
        [b'\r', b'\n', ..] => 2,
        _ => 0,
    }
}

// How many bytes are removed at the front of a text.
fn front_width(edge: Edge, text: &[u8]) -> usize
    ensures { result ≡ s.front_width edge text.now }
{
    match edge {
        Edge::Keep => 0,
        Edge::White => run_width(Edge::White, text),
        Edge::Line => {
            let blanks = run_width(Edge::Line, text);
            blanks + break_width(&text[blanks..])
        }
    }
}

// The text without the run that ends it.
fn without_run(edge: Edge, text: &[u8]) -> &[u8]
    ensures { result.now ≡ trim (s.strips edge) text.now }
{
    let mut rest = text;
    while let [front @ .., b] = rest {
        if !strips(edge, *b) {
            return rest;
        }
        rest = front;
    }
    rest
}

/// What is kept of a text, where `front` is removed before it and `back` after it.
pub fn kept(front: Edge, back: Edge, text: &str) -> &str
    ensures { result.now ≡ s.kept front back text.now }
{
    let (_, rest) = text.split_at(front_width(front, text.as_bytes()));
    let width = without_run(back, rest.as_bytes()).len();
    let (middle, _) = rest.split_at(width);
    middle
}
