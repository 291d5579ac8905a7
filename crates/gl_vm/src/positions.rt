// Values of references, positions that are evaluated, and the beginning of a turn.
ghost use Rattle.std.specs.Prelude.{◌≡◌, ◌+◌, Bool, List, [], IfOk, OnOk, IsSome, IfSome, IsTrue, ◌↔◌, Some, true, false};
ghost use Rattle.gl_value.specs.View.{view};
ghost use Rattle.gl_arena.specs.Arena.{IsOwn};
ghost use Rattle.gl_meaning.specs.Scope.{Source};
ghost use Rattle.gl_refs.specs.Forms.{Each, all_form};
ghost use Rattle.gl_refs.specs.State.{is_readable, is_position, IsKept};
ghost use Rattle.gl_refs.specs.Refs.{rows_of, forms_of, HasRoom, CanAsk, asks_after};
ghost use Rattle.gl_plain.specs.State.{pair_of};
ghost use Rattle.gl_plain.specs.Binding.{place};
ghost use Rattle.gl_plain.specs.Turns.{begin};
ghost use Rattle.gl_plain.specs.Renew.{evaluate, is_stale};
ghost use Rattle.gl_vm.specs.Labels.{labelled};
ghost use Rattle.gl_vm.specs.Led.{Led};
ghost use Rattle.gl_vm.specs.View.{Tables, stamps, state_of, Calm, Agrees, is_all};
ghost use Rattle.gl_vm.specs.Steps.{Does, Numbers, Prepares};

use crate::Vm;
use gl_refs::{Form, Ids, RefId};
use gl_value::Value;
use std::alloc::AllocError;

impl Vm {
    /// What a reference gives over the present cells and items. Nothing is kept of it.
    pub fn value(&self, id: RefId) -> Result<Value, AllocError>
        requires { IsSome (forms_of self.now.refs id) }
        ensures { IfOk result (λ v. (n : Tables) (touched : Source → Bool) → (pair_of (state_of n self.now touched).look id.1).value ≡ labelled (view v)) }
    {
        self.refs.sound();
        self.refs.look(id)
    }

    /// Has what a reference gives be kept, so that [`Vm::value`] copies it. The state is as it was.
    pub fn prepare(&mut self, id: RefId) -> Result<(), AllocError>
        requires readable { is_readable (forms_of self.old.refs id) ≡ true }
        requires calm { Calm self.old }
        ensures step { Prepares self.old self.new }
        ensures kept { OnOk result (IsKept self.new.refs.tags (rows_of self.new.refs) id) }
        ensures forms { forms_of self.new.refs ≡ forms_of self.old.refs }
        ensures rest { self.new ≡ record self.old { refs = self.new.refs } }
        ensures calm { Calm self.new }
    {
        self.refs.sound();
        let done = self.refs.refresh(id);
        self.refs.sound();
        done
    }

    /// Evaluates a position, which no reference reads.
    pub fn evaluate(&mut self, id: RefId) -> Result<(), AllocError>
        requires position { is_all (forms_of self.old.refs id) ≡ true }
        requires calm { Calm self.old }
        ensures step { OnOk result (Does (λ n. evaluate id.1) self.old self.new) }
        ensures forms { forms_of self.new.refs ≡ forms_of self.old.refs }
        ensures made { self.new.refs.rows.made ≡ self.old.refs.rows.made }
        ensures owns { (i : _) → IsOwn self.old.refs.rows i → IsOwn self.new.refs.rows i }
        ensures rest { self.new ≡ record self.old { refs = self.new.refs } }
        ensures calm { Calm self.new }
        ensures led { OnOk result (Led self.old.refs → Led self.new.refs) }
    {
        self.refs.sound();
        let done = self.refs.renew(id);
        self.refs.sound();
        done
    }

    /// Makes a position over references that may be read, and evaluates it for the first time.
    pub fn place(&mut self, ids: Ids) -> Result<RefId, AllocError>
        requires parts { Each (λ q. is_readable (forms_of self.old.refs q) ≡ true) ids }
        requires calm { Calm self.old }
        ensures step { IfOk result (λ id. Does (λ n st. (place (record { ids = stamps ids; made = []; state = st })).state) self.old self.new) }
        ensures id { IfOk result (λ id. Numbers self.old.refs.rows self.new.refs.rows id) }
        ensures form { IfOk result (λ id. forms_of self.new.refs id ≡ Some (all_form ids)) }
        ensures olds { (i : _) → IsSome (forms_of self.old.refs i) → forms_of self.new.refs i ≡ forms_of self.old.refs i }
        ensures rest { self.new ≡ record self.old { refs = self.new.refs } }
        ensures calm { Calm self.new }
        ensures led { IfOk result (λ id. Led self.old.refs → Led self.new.refs) }
    {
        self.refs.sound();
        let id = self.bind(Form::All(ids))?;
        self.evaluate(id)?;
        Ok(id)
    }

    /// Whether a source that a position read at its last evaluation was touched in this turn. It counts as one question,
    /// and takes no memory. It is answered exactly of a live position that was evaluated, once a turn was begun, while
    /// one question more can be counted.
    pub fn stale(&mut self, id: RefId) -> Option<bool>
        ensures answers { IsSome result ↔ CanAsk self.old.refs id }
        ensures exact { Calm self.old → IfSome result (λ b. (n : Tables) (touched : Source → Bool) → Agrees touched self.old → is_stale (state_of n self.old touched) id.1 ≡ b) }
        ensures calm { Calm self.old → Calm self.new }
        ensures rest { self.new ≡ record self.old { refs = record self.old.refs { asks = self.new.refs.asks } } }
        ensures counted { self.new.refs.asks ≡ asks_after result self.old.refs.asks }
    {
        self.refs.sound();
        self.refs.stale(id)
    }

    /// Whether it is sure, by the number of its id alone, that a position isn't stale. It takes no memory, looks at no reference, and is
    /// not counted. Where it says no, that may be so too.
    pub fn quiet(&self, id: RefId) -> bool
        ensures { IsTrue result → (n : Tables) (touched : Source → Bool) → Agrees touched self.now → is_stale (state_of n self.now touched) id.1 ≡ false }
    {
        self.refs.sound();
        self.refs.quiet(id)
    }

    /// Begins a turn: nothing is touched, and the lists of what was done are empty.
    pub fn begin(&mut self)
        requires { HasRoom self.old.refs }
        ensures step { Does (λ n. begin) self.old self.new }
        ensures untouched { Agrees (λ x. false) self.new }
        ensures clock { self.new.refs.tags.clock ≡ self.old.refs.tags.clock + 1 }
        ensures tree { self.new.tree ≡ self.old.tree }
        ensures forms { forms_of self.new.refs ≡ forms_of self.old.refs }
        ensures calm { Calm self.old → Calm self.new }
        ensures led { Led self.old.refs → Led self.new.refs }
    {
        self.refs.sound();
        self.refs.begin();
        drop(self.mods.commit());
    }
}
