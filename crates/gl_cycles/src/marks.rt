// Sets of places below 32, and what chains of them lead to.
ghost use Rattle.std.specs.Prelude.{◌≡◌, ◌<◌};
ghost use Rattle.gl_cycles.specs.Marks.{has_mark, with_mark};
ghost use Rattle.gl_cycles.specs.Chains.{through, IsLedThrough, IsClosureOf};
ghost use Rattle.gl_cycles.specs.Cycles.{most_getters};

/// How many places there are.
pub const PLACES: usize = 32;

/// A set of places, each a bit.
pub type Marks = u32;

/// Whether the place is in the set.
#[tactic(auto, using(std::proofs::lemmas::Nat::Bits::shr_and_one), unfolding(crate::specs::Marks::has_mark))]
pub fn has_mark(marks: Marks, place: usize) -> bool
    requires { place < most_getters }
    ensures { result ≡ has_mark marks place }
{
    marks >> place & 1 == 1
}

/// The set with the place.
#[tactic(auto, unfolding(crate::specs::Marks::with_mark))]
pub fn with_mark(marks: Marks, place: usize) -> Marks
    requires { place < most_getters }
    ensures { result ≡ with_mark marks place }
{
    marks | 1 << place
}

// The row, with what is onward of the middle, where it leads there.
fn led(row: Marks, middle: usize, onward: Marks) -> Marks
    requires { middle < most_getters }
    ensures { result ≡ through middle onward row }
{
    if has_mark(row, middle) {
        row | onward
    } else {
        row
    }
}

// Adds to each row that has the mark what the row at that mark has.
fn lead_through(rows: &mut [Marks; PLACES], middle: usize)
    requires { middle < most_getters }
    ensures { IsLedThrough middle rows.old rows.new }
{
    let onward = rows[middle];
    for row in rows.iter_mut() {
        *row = led(*row, middle, onward);
    }
}

/// Makes the rows have all that chains of their marks lead to.
pub fn close(rows: &mut [Marks; PLACES])
    ensures { IsClosureOf rows.old rows.new }
{
    for middle in 0..PLACES {
        lead_through(rows, middle);
    }
}
