// What may stand at a place of a template.

/// The quote round a value or a string.
#[derive(Clone, Copy, Debug, PartialEq, Eq)]
pub enum Quote {
    Double,
    Single,
}

/// What a mustache stands in, and so what goes on after it.
#[derive(Clone, Copy, Debug, PartialEq, Eq)]
pub enum Around {
    Content,
    Tag,
    /// It is a value without quotes.
    ValueEnd,
    /// It stands in a quoted value.
    Value(Quote),
}

/// A place of a template, by the tokens that may stand there.
#[derive(Clone, Copy, Debug, PartialEq, Eq)]
pub enum Mode {
    /// Outside of tags and mustaches.
    Content,
    /// In a tag.
    Tag,
    /// In a tag, after `=`.
    Equals,
    /// In a tag, directly after a value.
    ValueEnd,
    /// In a quoted value.
    Value(Quote),
    /// In a mustache.
    Mustache(Around),
    /// In an expression that stands alone.
    Expression,
}
