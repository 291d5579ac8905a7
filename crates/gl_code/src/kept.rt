// References that are made where their parts may be read. No program of a loaded application names one that may not; here that is want of
// memory.
ghost use Rattle.std.specs.Prelude.{◌≡◌, [], ◌++◌, IfOk, IsTrue, true, is_some};
ghost use Rattle.gl_value.specs.Helpers.{helper_numbered};
ghost use Rattle.gl_refs.specs.Forms.{Each, parts, ids_of, is_known};
ghost use Rattle.gl_refs.specs.State.{is_readable};
ghost use Rattle.gl_refs.specs.Refs.{forms_of};
ghost use Rattle.gl_refs.specs.View.{seen_form as code_form};
ghost use Rattle.gl_plain.specs.Binding.{made_row, place};
ghost use Rattle.gl_vm.specs.View.{stamps, seen_form, Calm};
ghost use Rattle.gl_vm.specs.Steps.{Does, Numbers};

use crate::words::HELPERS;
use gl_refs::{Form, Ids, RefId, Refs};
use gl_vm::Vm;
use std::alloc::AllocError;

fn all_readable(refs: &Refs, ids: &[RefId]) -> bool
    ensures { IsTrue result → Each (λ q. is_readable (forms_of refs.now q) ≡ true) ids.now }
{
    for id in ids {
        if !refs.readable(*id) {
            return false;
        }
    }
    true
}

fn values_readable(refs: &Refs, named: &[(gl_value::Text, RefId)]) -> bool
    ensures { IsTrue result → Each (λ q. is_readable (forms_of refs.now q) ≡ true) (ids_of named.now) }
{
    for entry in named {
        if !refs.readable(entry.1) {
            return false;
        }
    }
    true
}

fn call_may_be(refs: &Refs, helper: u16, ids: &[RefId], named: &[(gl_value::Text, RefId)]) -> bool
    ensures { IsTrue result → (Each (λ q. is_readable (forms_of refs.now q) ≡ true) (ids.now ++ ids_of named.now) × (is_some (helper_numbered helper) ≡ true)) }
{
    if helper >= HELPERS {
        return false;
    }
    if !all_readable(refs, ids) {
        return false;
    }
    values_readable(refs, named)
}

fn may_be(refs: &Refs, form: &Form) -> bool
    ensures { IsTrue result → (Each (λ q. is_readable (forms_of refs.now q) ≡ true) (parts (code_form form.now)) × (is_known (code_form form.now) ≡ true)) }
{
    match form {
        Form::Prop(id, _) => refs.readable(*id),
        Form::Call(helper, ids, named) => {
            call_may_be(refs, *helper, ids.as_slice(), named.as_slice())
        }
        Form::Cat(ids) => all_readable(refs, ids.as_slice()),
        Form::All(ids) => all_readable(refs, ids.as_slice()),
    }
}

/// Makes a reference of that form, where each part may be read.
pub fn bind(vm: &mut Vm, form: Form) -> Result<RefId, AllocError>
    ensures step { IfOk result (λ id. Does (λ n. made_row (seen_form vm.old.refs.rows.made (code_form form))) vm.old vm.new) }
    ensures id { IfOk result (λ id. Numbers vm.old.refs.rows vm.new.refs.rows id) }
    ensures calm { Calm vm.old → Calm vm.new }
    ensures tree { vm.new.tree ≡ vm.old.tree }
{
    if !may_be(&vm.refs, &form) {
        return Err(AllocError);
    }
    vm.bind(form)
}

/// Makes a position over these references and evaluates it, where each may be read.
pub fn position(vm: &mut Vm, ids: Ids) -> Result<RefId, AllocError>
    requires calm { Calm vm.old }
    ensures step { IfOk result (λ id. Does (λ n st. (place (record { ids = stamps ids; made = []; state = st })).state) vm.old vm.new) }
    ensures id { IfOk result (λ id. Numbers vm.old.refs.rows vm.new.refs.rows id) }
    ensures calm { Calm vm.new }
    ensures tree { vm.new.tree ≡ vm.old.tree }
{
    if !all_readable(&vm.refs, ids.as_slice()) {
        return Err(AllocError);
    }
    vm.place(ids)
}
