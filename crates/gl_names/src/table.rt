ghost use Rattle.std.specs.Prelude.{◌≡◌, true, ◌≤◌, IsTrue, IfSome, is_none, not, map, option_map, length, take, drop};
ghost use Rattle.std.specs.Str.{bytes_eq, chars};
ghost use Rattle.gl_base.specs.Names.{has_text, named};
ghost use Rattle.gl_base.specs.Texts.{is_ascii_text};
ghost use Rattle.gl_names.specs.Table.{name_of, seen_rows, IsTable, IsCounted};

use std::marker::Model;

/// A row of a table: how many bytes its name has, and its number.
#[derive(Clone, Copy)]
pub struct Row {
    pub length: usize,
    pub number: u16,
}

/// A table of `N` names with their numbers. Contracts see the list of its rows, each the name's characters
/// and the number.
///
/// The names are kept one after another in one text, since a field with an array of `N` references can't be read.
#[derive(Drop)]
pub struct NameTable<const N: usize> {
    pub(crate) names: &'static str,
    pub(crate) rows: &'static [Row; N],
}

impl<const N: usize> Model for NameTable<N> {
    ghost use Rattle.std.specs.Coded.{codes};
    ghost use Rattle.gl_names.specs.Table.{Rows, seen_rows, IsTable, IsCounted};

    ghost Value = { Rows };

    ghost coded = { Prim.hlevel codes };

    ghost view = { λ t. seen_rows t.names.now t.rows.now };

    ghost invariant = { λ t. IsTable t.names.now t.rows.now × IsCounted N };
}

impl<const N: usize> NameTable<N> {
    /// The table whose names stand one after another in `names`, which is ASCII.
    pub fn new(names: &'static str, rows: &'static [Row; N]) -> NameTable<N>
        requires rows { IsTable names.now rows.now }
        requires count { IsCounted N }
        ensures { result ≡ seen_rows names.now rows.now }
    {
        NameTable { names, rows }
    }

    /// The number of the first row with the name, or `None` where no row has it.
    #[tactic(auto, using(crate::proofs::Rows::named_none))]
    pub fn find(&self, name: &str) -> Option<u16>
        ensures value { result ≡ named (chars name.now) self.now }
        ensures absent { is_none result ≡ not (has_text (chars name.now) (map (λ r. r.0) self.now)) }
    {
        let names = self.names;
        let rows = self.rows;
        first_number(names, rows, name)
    }

    /// The name of the first row with the number, or `None` where no row has it.
    pub fn name(&self, number: u16) -> Option<&'static str>
        ensures value { option_map (λ s. s.now) result ≡ name_of number self.now }
        ensures ascii { IfSome result (λ s. IsTrue (is_ascii_text s.now)) }
    {
        let names = self.names;
        let rows = self.rows;
        first_name(names, rows, number)
    }
}

// The number of the first row with the name.
fn first_number(names: &str, rows: &[Row], name: &str) -> Option<u16>
    requires { IsTable names.now rows.now }
    ensures { result ≡ named (chars name.now) (seen_rows names.now rows.now) }
{
    let mut left = names;
    for row in rows {
        let (piece, rest) = cut(left, row.length);
        if is_piece(name, piece) {
            return Some(row.number);
        }
        left = rest;
    }
    // no row has the name
    None
}

// The name of the first row with the number.
fn first_name<'a>(names: &'a str, rows: &[Row], number: u16) -> Option<&'a str>
    requires { IsTable names.now rows.now }
    ensures value { option_map (λ s. s.now) result ≡ name_of number (seen_rows names.now rows.now) }
    ensures ascii { IfSome result (λ s. IsTrue (is_ascii_text s.now)) }
{
    let mut tail = names;
    for row in rows {
        let (piece, rest) = cut(tail, row.length);
        if row.number == number {
            return Some(piece);
        }
        tail = rest;
    }
    // no row has the number
    None
}

// Whether the name is the piece of a table's names.
#[tactic(auto, using(crate::proofs::Rows::same_ascii))]
fn is_piece(name: &str, piece: &str) -> bool
    requires { is_ascii_text piece.now ≡ true }
    ensures { result ≡ bytes_eq (chars name.now) piece.now }
{
    name == piece
}

// The first `count` characters of a text in ASCII, and the others.
#[tactic(auto, using(crate::proofs::Rows::ascii_take, crate::proofs::Rows::ascii_drop, crate::proofs::Rows::ascii_boundary))]
fn cut(names: &str, count: usize) -> (&str, &str)
    requires ascii { is_ascii_text names.now ≡ true }
    requires fits { count ≤ length names.now }
    ensures front { result.0.now ≡ take count names.now }
    ensures back { result.1.now ≡ drop count names.now }
    ensures front_ascii { is_ascii_text result.0.now ≡ true }
    ensures back_ascii { is_ascii_text result.1.now ≡ true }
{
    names.split_at(count)
}
