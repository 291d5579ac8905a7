// The helpers, by what they give, and their numbers.
ghost use Rattle.std.specs.Prelude.{◌≡◌, ◌<◌, ◌≤◌, Some};
ghost use Rattle.gl_value.specs.Helpers.{helper_numbered};
ghost use Rattle.gl_helpers.specs.View.{seen_helper};

/// Helpers that give one of their arguments, or a part or more of it.
#[derive(Clone, Copy)]
pub enum Choice {
    If,
    Unless,
    Get,
    Fix,
    And,
    Or,
}

/// Helpers that give an integer.
#[derive(Clone, Copy)]
pub enum Number {
    Add,
    Sub,
    Mul,
    Min,
    Max,
    Length,
}

/// Helpers that give a Boolean.
#[derive(Clone, Copy)]
pub enum Test {
    Same,
    Differs,
    Not,
    Less,
    LessOrSame,
    Greater,
    GreaterOrSame,
    Includes,
}

/// Helpers that give a list of values as they are.
#[derive(Clone, Copy)]
pub enum Listing {
    Array,
    Append,
    RemoveAt,
    Slice,
    Reverse,
    Where,
    RemoveWhere,
    Pluck,
}

/// Helpers that give a text.
#[derive(Clone, Copy)]
pub enum Writing {
    Concat,
    Join,
}

/// Helpers that make records.
#[derive(Clone, Copy)]
pub enum Change {
    Hash,
    Put,
    UpdateWhere,
}

/// A helper.
#[derive(Clone, Copy)]
pub enum Helper {
    Choice(Choice),
    Number(Number),
    Test(Test),
    Listing(Listing),
    Writing(Writing),
    Change(Change),
}

/// The helper with a number of the table.
pub fn numbered(number: u16) -> Helper
    requires { number < 33 }
    ensures { helper_numbered number ≡ Some (seen_helper result) }
{
    if number < 16 {
        numbered_low(number)
    } else {
        numbered_high(number)
    }
}

// The helper with a number below 16.
fn numbered_low(number: u16) -> Helper
    requires { number < 16 }
    ensures { helper_numbered number ≡ Some (seen_helper result) }
{
    match number {
        0 => Helper::Choice(Choice::If),
        1 => Helper::Choice(Choice::Unless),
        2 => Helper::Writing(Writing::Concat),
        3 => Helper::Listing(Listing::Array),
        4 => Helper::Change(Change::Hash),
        5 => Helper::Choice(Choice::Get),
        6 => Helper::Choice(Choice::Fix),
        7 => Helper::Number(Number::Add),
        8 => Helper::Number(Number::Sub),
        9 => Helper::Number(Number::Mul),
        10 => Helper::Number(Number::Min),
        11 => Helper::Number(Number::Max),
        12 => Helper::Test(Test::Same),
        13 => Helper::Test(Test::Differs),
        14 => Helper::Test(Test::Not),
        15 => Helper::Choice(Choice::And),
        _ => unreachable!(),
    }
}

// The helper with a number from 16 on.
fn numbered_high(number: u16) -> Helper
    requires from { 16 ≤ number }
    requires below { number < 33 }
    ensures { helper_numbered number ≡ Some (seen_helper result) }
{
    match number {
        16 => Helper::Choice(Choice::Or),
        17 => Helper::Test(Test::Less),
        18 => Helper::Test(Test::LessOrSame),
        19 => Helper::Test(Test::Greater),
        20 => Helper::Test(Test::GreaterOrSame),
        21 => Helper::Number(Number::Length),
        22 => Helper::Listing(Listing::Append),
        23 => Helper::Listing(Listing::RemoveAt),
        24 => Helper::Change(Change::Put),
        25 => Helper::Listing(Listing::Slice),
        26 => Helper::Listing(Listing::Reverse),
        27 => Helper::Test(Test::Includes),
        28 => Helper::Listing(Listing::Where),
        29 => Helper::Listing(Listing::RemoveWhere),
        30 => Helper::Change(Change::UpdateWhere),
        31 => Helper::Listing(Listing::Pluck),
        32 => Helper::Writing(Writing::Join),
        _ => unreachable!(),
    }
}
