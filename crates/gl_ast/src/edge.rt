// What is removed at an end of a text.

/// What a mustache or a comment removes from the text directly before or after it.
#[derive(Clone, Copy, Debug, PartialEq, Eq)]
pub enum Edge {
    /// Nothing.
    Keep,
    /// The rest of the line that it has for itself: blanks, and after it the line break too.
    Line,
    /// All white space.
    White,
}
