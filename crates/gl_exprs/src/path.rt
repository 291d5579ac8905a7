// The names of a path.
ghost use Rattle.std.specs.Prelude.{◌≡◌, ◌≤◌, ◌∷◌, IfOk, OnOk, length};
ghost use Rattle.gl_ast.specs.TokenText as text;
ghost use Rattle.gl_value.specs.Value.{split};
ghost use Rattle.gl_exprs.specs.Pieces.{after_dot};

use crate::scan::Scan;
use gl_ast::{Names, Slice, Str};
use std::alloc::{AllocError, Global};

/// The names of a path: the first, and those after a dot.
#[derive(Drop)]
pub struct Path {
    pub head: Str,
    pub rest: Names,
}

// The characters up to a dot.
fn segment<'a>(alloc: Global, scan: &mut Scan<'a>) -> Result<Str, AllocError>
    ensures value { IfOk result (λ t. split 46 scan.old ≡ t ∷ after_dot scan.new) }
    ensures within { OnOk result (length scan.new ≤ length scan.old) }
{
    let mut out = Str::new(alloc);
    let mut ahead = scan.copy();
    while let Some(c) = ahead.next() {
        if c == '.' {
            break;
        }
        out.push_char(c)?;
        *scan = ahead.copy();
    }
    Ok(out)
}

// The names, with no room to spare.
fn without_room(names: Names) -> Names
    ensures { result ≡ names }
{
    let mut list = names.into_vec();
    list.shrink_to_fit();
    Names::from_vec(list)
}

/// The names of a path.
pub fn names_of(alloc: Global, raw: &Slice) -> Result<Path, AllocError>
    ensures { IfOk result (λ p. p.head ∷ p.rest ≡ text.names_of raw.now) }
{
    let mut scan = Scan::new(raw);
    let head = segment(alloc, &mut scan)?;
    let mut rest = Names::new(alloc);
    while let Some(_) = scan.next() {
        rest.push(segment(alloc, &mut scan)?)?;
    }
    Ok(Path {
        head,
        rest: without_room(rest),
    })
}
