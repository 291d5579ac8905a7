// The integer of a number.
ghost use Rattle.std.specs.Prelude.{◌≡◌, ◌≤◌, IfSome};
ghost use Rattle.gl_ast.specs.TokenText as text;
ghost use Rattle.gl_exprs.specs.Pieces.{natural_of};

use crate::scan::Scan;
use gl_ast::Slice;

// The greatest whole number of a template.
const GREATEST: u64 = 9007199254740991;

// The number that digits spell, where it is not too large.
fn natural_of(scan: &mut Scan) -> Option<u64>
    ensures value { result ≡ natural_of scan.old }
    ensures within { IfSome result (λ n. n ≤ GREATEST) }
{
    let mut n: u64 = 0;
    while let Some(digit) = scan.next() {
        n = n * 10 + u64::from(digit as u32).saturating_sub(48);
        if n > GREATEST {
            return None;
        }
    }
    Some(n)
}

/// The integer of a number, where it is not too large.
pub fn whole_of(raw: &Slice) -> Option<i64>
    ensures { result ≡ text.whole_of raw.now }
{
    let mut scan = Scan::new(raw);
    let mut ahead = scan.copy();
    match ahead.next() {
        Some('-') => {
            let n = natural_of(&mut ahead)?;
            Some(0 - n as i64)
        }
        _ => {
            let n = natural_of(&mut scan)?;
            Some(n as i64)
        }
    }
}
