// Texts that are shared.
ghost use Rattle.std.specs.Prelude.{◌≡◌, IfOk};

use crate::Text;
use std::alloc::{AllocError, Global};
use std::marker::Model;
use std::rc::Rc;

/// A text that its copies share, which never changes. Contracts see the list of its characters.
#[derive(Drop)]
pub struct SharedText {
    text: Rc<Text>,
}

impl Model for SharedText {
    ghost use Rattle.std.specs.Prelude.{ℕ, List};

    ghost Value = { List ℕ };

    ghost view = { λ t. t.text.value };
}

impl SharedText {
    /// The text, to be shared.
    pub fn new(alloc: Global, text: Text) -> Result<SharedText, AllocError>
        ensures { IfOk result (λ t. t ≡ text) }
    {
        Ok(SharedText {
            text: Rc::new(alloc, text)?,
        })
    }

    /// The same text. The two share it: it takes no memory.
    pub fn copy(&self) -> Result<SharedText, AllocError>
        ensures { IfOk result (λ t. t ≡ self.now) }
    {
        Ok(SharedText {
            text: Rc::clone(&self.text)?,
        })
    }

    /// The text, lent.
    pub fn as_text(&self) -> &Text
        ensures { result.now ≡ self.now }
    {
        self.text.as_ref()
    }
}
