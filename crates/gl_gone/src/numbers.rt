// The numbers of what stands in a page.
ghost use Rattle.std.specs.Prelude.{◌≡◌, IfOk, OnOk, ◌||◌};
ghost use Rattle.gl_plain.specs.Ids.{id_eq};
ghost use Rattle.gl_gone.specs.Logs.{id_of, stands_in, is_numbered};

use crate::endings::Ending;
use std::alloc::{AllocError, Global};
use std::collections::HashSet;

/// The numbers of modifiers, and those of instances.
#[derive(Drop)]
pub struct Numbers {
    pub modifiers: HashSet<u64>,
    pub instances: HashSet<u64>,
}

impl Numbers {
    /// The numbers of a list.
    pub(crate) fn of(alloc: Global, list: &[Ending]) -> Result<Numbers, AllocError>
        ensures { IfOk result (λ s. (x : _) → is_numbered s x ≡ stands_in list.now x) }
    {
        let mut numbers = Numbers {
            modifiers: HashSet::new(alloc),
            instances: HashSet::new(alloc),
        };
        for ending in list {
            numbers.put(ending)?;
        }
        Ok(numbers)
    }

    fn put(&mut self, ending: &Ending) -> Result<(), AllocError>
        ensures { OnOk result ((x : _) → is_numbered self.new x ≡ (id_eq (id_of x) (id_of ending.now) || is_numbered self.old x)) }
    {
        match ending {
            Ending::Modifier { id, .. } => self.modifiers.insert(id.number())?,
            Ending::Instance { owner } => self.instances.insert(owner.as_ref().id.number())?,
        };
        Ok(())
    }

    /// Whether it has one of the numbers.
    pub(crate) fn has(&self, ending: &Ending) -> bool
        ensures { result ≡ is_numbered self.now ending.now }
    {
        match ending {
            Ending::Modifier { id, .. } => self.modifiers.contains(&id.number()),
            Ending::Instance { owner } => self.instances.contains(&owner.as_ref().id.number()),
        }
    }
}
