// References that are made.
ghost use Rattle.std.specs.Prelude.{◌≡◌, true, IfOk, OnErr, IsSome, Some};
ghost use Rattle.gl_value.specs.View.{view};
ghost use Rattle.gl_refs.specs.Forms as f;
ghost use Rattle.gl_refs.specs.Forms.{Each, parts, is_known};
ghost use Rattle.gl_refs.specs.Refs.{forms_of, HasRoom};
ghost use Rattle.gl_refs.specs.State.{is_cell, is_item, is_readable};
ghost use Rattle.gl_refs.specs.View as code;
ghost use Rattle.gl_plain.specs.State.{constant_form, touch};
ghost use Rattle.gl_plain.specs.Naming.{by_number, made_source};
ghost use Rattle.gl_plain.specs.Binding.{made_row};
ghost use Rattle.gl_plain.specs.Renew.{give};
ghost use Rattle.gl_vm.specs.Labels.{label, labelled};
ghost use Rattle.gl_vm.specs.Led.{Led};
ghost use Rattle.gl_vm.specs.View.{Calm, seen_form};
ghost use Rattle.gl_vm.specs.Steps.{Does, Numbers};

use crate::Vm;
use gl_refs::{Form, RefId};
use gl_value::Value;
use std::alloc::AllocError;

impl Vm {
    /// Makes a constant.
    pub fn constant(&mut self, value: Value) -> Result<RefId, AllocError>
        ensures step { IfOk result (λ id. Does (λ n. made_row (constant_form (labelled (view value)))) self.old self.new) }
        ensures id { IfOk result (λ id. Numbers self.old.refs.rows self.new.refs.rows id) }
        ensures form { IfOk result (λ id. forms_of self.new.refs id ≡ Some (f.constant_form (view value))) }
        ensures olds { (i : _) → IsSome (forms_of self.old.refs i) → forms_of self.new.refs i ≡ forms_of self.old.refs i }
        ensures rest { self.new ≡ record self.old { refs = self.new.refs } }
        ensures calm { Calm self.old → Calm self.new }
        ensures led { IfOk result (λ id. Led self.old.refs → Led self.new.refs) }
        ensures err { OnErr result (self.new ≡ self.old) }
    {
        self.refs.sound();
        self.refs.constant(value)
    }

    /// Makes a reference of that form over references that may be read. The number of a call is that of a helper.
    pub fn bind(&mut self, form: Form) -> Result<RefId, AllocError>
        requires parts { Each (λ q. is_readable (forms_of self.old.refs q) ≡ true) (parts (code.seen_form form)) }
        requires known { is_known (code.seen_form form) ≡ true }
        ensures step { IfOk result (λ id. Does (λ n. made_row (seen_form self.old.refs.rows.made (code.seen_form form))) self.old self.new) }
        ensures id { IfOk result (λ id. Numbers self.old.refs.rows self.new.refs.rows id) }
        ensures form { IfOk result (λ id. forms_of self.new.refs id ≡ Some (code.seen_form form)) }
        ensures olds { (i : _) → IsSome (forms_of self.old.refs i) → forms_of self.new.refs i ≡ forms_of self.old.refs i }
        ensures rest { self.new ≡ record self.old { refs = self.new.refs } }
        ensures calm { Calm self.old → Calm self.new }
        ensures led { IfOk result (λ id. Led self.old.refs → Led self.new.refs) }
        ensures err { OnErr result (self.new ≡ self.old) }
    {
        self.refs.sound();
        self.refs.bind(form)
    }

    /// Makes a cell. It counts as touched.
    pub fn cell(&mut self, value: Value) -> Result<RefId, AllocError>
        ensures step { IfOk result (λ id. Does (λ n. made_source by_number (label self.old.refs.rows.made) (labelled (view value))) self.old self.new) }
        ensures id { IfOk result (λ id. Numbers self.old.refs.rows self.new.refs.rows id) }
        ensures cell { IfOk result (λ id. is_cell (forms_of self.new.refs id) ≡ true) }
        ensures live { IfOk result (λ id. IsSome (forms_of self.new.refs id)) }
        ensures olds { (i : _) → IsSome (forms_of self.old.refs i) → forms_of self.new.refs i ≡ forms_of self.old.refs i }
        ensures rest { self.new ≡ record self.old { refs = self.new.refs } }
        ensures calm { Calm self.old → Calm self.new }
        ensures led { IfOk result (λ id. Led self.old.refs → Led self.new.refs) }
        ensures err { OnErr result (Does (λ n st. st) self.old self.new) }
    {
        self.refs.sound();
        self.refs.cell(value)
    }

    /// Makes an item. It counts as touched.
    pub fn item(&mut self, value: Value) -> Result<RefId, AllocError>
        ensures step { IfOk result (λ id. Does (λ n. made_source by_number (label self.old.refs.rows.made) (labelled (view value))) self.old self.new) }
        ensures id { IfOk result (λ id. Numbers self.old.refs.rows self.new.refs.rows id) }
        ensures item { IfOk result (λ id. is_item (forms_of self.new.refs id) ≡ true) }
        ensures live { IfOk result (λ id. IsSome (forms_of self.new.refs id)) }
        ensures olds { (i : _) → IsSome (forms_of self.old.refs i) → forms_of self.new.refs i ≡ forms_of self.old.refs i }
        ensures rest { self.new ≡ record self.old { refs = self.new.refs } }
        ensures calm { Calm self.old → Calm self.new }
        ensures led { IfOk result (λ id. Led self.old.refs → Led self.new.refs) }
        ensures err { OnErr result (Does (λ n st. st) self.old self.new) }
    {
        self.refs.sound();
        self.refs.item(value)
    }

    /// Gives a cell a value, and touches it, whatever the value was.
    pub fn set(&mut self, cell: RefId, value: Value)
        requires room { HasRoom self.old.refs }
        requires cell { is_cell (forms_of self.old.refs cell) ≡ true }
        ensures step { Does (λ n. touch cell.1 (label cell.1) (labelled (view value))) self.old self.new }
        ensures rest { self.new ≡ record self.old { refs = self.new.refs } }
        ensures calm { Calm self.old → Calm self.new }
        ensures led { Led self.old.refs → Led self.new.refs }
    {
        self.refs.sound();
        self.refs.set(cell, value)
    }

    /// Gives an item a value, and touches it where that isn't the same.
    pub fn give(&mut self, item: RefId, value: Value)
        requires room { HasRoom self.old.refs }
        requires item { is_item (forms_of self.old.refs item) ≡ true }
        ensures step { Does (λ n. give item.1 (label item.1) (labelled (view value))) self.old self.new }
        ensures rest { self.new ≡ record self.old { refs = self.new.refs } }
        ensures calm { Calm self.old → Calm self.new }
        ensures led { Led self.old.refs → Led self.new.refs }
    {
        self.refs.sound();
        self.refs.give(item, value)
    }
}
