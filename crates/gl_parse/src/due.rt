// What a template is still to have after the tokens that were read.
use crate::names::NameSet;
use gl_ast::{Slice, TokenKind};

/// The words of blocks.
#[derive(Clone, Copy)]
pub enum Word {
    If,
    Unless,
    Each,
    Let,
}

/// What ends statements.
#[derive(Clone, Copy)]
pub enum Stop<'a> {
    /// The end of the text.
    Whole,
    /// The end tag of the name of this opening.
    Tag(&'a Slice<'a>),
    /// The end of the block of a word, where an else may stand before it or not.
    Block(Word, bool),
}

/// The parts of a quoted value so far.
#[derive(Clone, Copy)]
pub enum Quoted {
    Nothing,
    Text,
    /// More than one text, and no mustache.
    Texts,
    /// A mustache is among them.
    Live,
}

/// A tag after its opening, a component or not, in which elements and blocks may nest so deep.
#[derive(Clone, Copy)]
pub struct Tag<'a> {
    pub opening: &'a Slice<'a>,
    pub component: bool,
    pub depth: u32,
}

/// What is due next. A number first says how deep calls, or elements and blocks, may nest. A component or a block that is
/// passed is told by its opening.
#[derive(Drop)]
pub enum Due<'a> {
    /// A token of this kind.
    Kind(TokenKind),
    /// A path that is this word.
    Word(Word),
    Expr(u32),
    /// A name and its arguments, up to a token of this kind.
    Called(u32, TokenKind),
    /// Arguments up to such a token.
    Arguments(u32, TokenKind),
    /// The same after a name that is one of them or stands before `=`.
    AfterName(u32, TokenKind),
    /// Named arguments up to such a token.
    Named(u32, TokenKind),
    /// What stands in a mustache, and its end.
    Inner,
    /// The expressions of a yield up to the end of its mustache.
    Values,
    /// The same after `to`, which is one of them or stands before `=`.
    AfterTo,
    /// The name of a block in a string.
    Target,
    /// What stands after `=` in a tag.
    Value,
    /// The rest of a quoted value.
    Quoted(Quoted),
    /// The rest of a tag.
    Items(Tag<'a>),
    /// The same after the name of an attribute or argument.
    Given(Tag<'a>),
    /// The end of a component's tag after its parameters, where these are none or not.
    TagEnd(Tag<'a>, bool),
    /// What stands in a component: gaps, and then statements or blocks that are passed.
    Filling(u32, &'a Slice<'a>),
    /// The same after blocks of these names.
    Slots(u32, &'a Slice<'a>, NameSet),
    /// The rest of the opening of a block that is passed.
    SlotTag(u32, &'a Slice<'a>),
    /// Statements and what ends them.
    Content(u32, Stop<'a>),
    /// The same after `{{`.
    Opened(u32, Stop<'a>),
    /// After `{{` and else in the block of this word.
    AfterElse(u32, Word),
    /// A block after its opening.
    Head(u32),
    /// The first value of a let, and the rest of its head.
    FirstValue(u32, Stop<'a>),
    MoreValues(u32, Stop<'a>),
    /// The key of an each, and the rest of its head.
    EachKey(u32, Stop<'a>),
    EachParameters(u32, Stop<'a>),
}
