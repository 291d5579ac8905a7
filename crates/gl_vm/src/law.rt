// What is kept of references, in the state of the plain machine.
ghost use Rattle.std.specs.Prelude.{◌≡◌, Bool};
ghost use Rattle.gl_meaning.specs.Scope.{Source};
ghost use Rattle.gl_refs.specs.State.{IsKept};
ghost use Rattle.gl_refs.specs.Refs.{rows_of};
ghost use Rattle.gl_plain.specs.State.{any_of, pair_of};
ghost use Rattle.gl_vm.specs.Led.{held_of, leads_to};
ghost use Rattle.gl_vm.specs.Labels.{labelled};
ghost use Rattle.gl_vm.specs.View.{Tables, source_of, state_of};

use crate::Vm;
use gl_refs::RefId;
use gl_refs::laws::tags_tell;

impl Vm {
    /// The law that what is kept of a reference and may be used is what the reference means in the state of the plain
    /// machine: the value, and the sources, which are those to whose tags its tag leads. What a reference that was bound
    /// for an expression means there is what the expression gives.
    pub fn keeps_meaning(&self, id: RefId)
        requires { IsKept self.now.refs.tags (rows_of self.now.refs) id }
        ensures value { (n : Tables) (touched : Source → Bool) → (pair_of (state_of n self.now touched).look id.1).value ≡ labelled (held_of self.now.refs id) }
        ensures sources { (n : Tables) (touched : Source → Bool) (p : Source → Bool) → any_of (pair_of (state_of n self.now touched).look id.1).sources p ≡ leads_to self.now.refs id (λ t. p (source_of self.now.refs t)) }
    {
        tags_tell();
        self.refs.sound();
    }
}
