// A machine that keeps nothing.
ghost use Rattle.std.specs.Prelude.{◌≡◌, IfOk};
ghost use Rattle.gl_vm.specs.Led.{Led};
ghost use Rattle.gl_vm.specs.View.{Tables, Calm};
ghost use Rattle.gl_vm.specs.Steps.{Follows, empty};

use crate::Vm;
use gl_arena::Arena;
use gl_mods::Mods;
use gl_nodes::NodeTree;
use gl_refs::Refs;
use gl_scope::BlockStack;
use std::alloc::{AllocError, Global};

impl Vm {
    /// A machine that keeps nothing, before its first turn.
    pub fn new(alloc: Global) -> Result<Vm, AllocError>
        ensures state { IfOk result (λ vm. (n : Tables) → Follows n empty vm) }
        ensures clock { IfOk result (λ vm. vm.refs.tags.clock ≡ 0) }
        ensures calm { IfOk result (λ vm. Calm vm) }
        ensures led { IfOk result (λ vm. Led vm.refs) }
    {
        let refs = Refs::new(alloc)?;
        let tree = NodeTree::new(alloc)?;
        let scopes = BlockStack::new(alloc)?;
        let instances = Arena::new(alloc)?;
        let mods = Mods::new(alloc)?;
        Ok(Vm {
            refs,
            tree,
            scopes,
            instances,
            mods,
        })
    }
}
