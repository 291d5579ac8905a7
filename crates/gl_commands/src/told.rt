// What is told of a turn.

/// What is told of each turn of a session.
#[derive(Clone, Copy)]
pub enum Told {
    /// Its text.
    Alone,
    /// Its text, and in a line how much it had to do.
    WithWork,
}
