// What the last run left.
ghost use Rattle.std.specs.Prelude.{◌≡◌, Some, None};

use gl_session::Session;

/// What the last run left: the session that made its turns, if there was one.
#[derive(Drop)]
pub struct Last {
    pub session: Option<Session>,
}

impl Last {
    /// Before any run there is none. It takes no memory.
    pub fn new() -> Last
        ensures { result.session ≡ None }
    {
        Last { session: None }
    }

    // Keeps a session, in place of what there was.
    pub(crate) fn hold(&mut self, session: Session)
        ensures { self.new.session ≡ Some session }
    {
        self.session = Some(session);
    }
}
