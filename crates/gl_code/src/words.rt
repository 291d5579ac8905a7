// The words of programs, and what their operands name.
ghost use Rattle.std.specs.Prelude.{◌≡◌, ◌∷◌, suc, IfOk, Some, option_map, slice_get, codes};
ghost use Rattle.gl_value.specs.Value.{integer};
ghost use Rattle.gl_value.specs.View.{view};
ghost use Rattle.gl_meaning.specs.View.{manifest_view, class_view, action_view};
ghost use Rattle.gl_names.specs.Helpers.{helper_rows};
ghost use Rattle.gl_names.specs.Table.{name_of};
ghost use Rattle.gl_program.specs.Program.{op_at};
ghost use Rattle.gl_machine.specs.Step.{operands};
ghost use Rattle.gl_program.specs.View.{program_view};
ghost use Rattle.gl_vm.specs.View.{helper_name};
ghost use Rattle.gl_code.specs.Tables.{tables_of};

use crate::branches::after;
use gl_meaning::{Action, Class};
use gl_opc::App;
use gl_ops::{Op, decode};
use gl_program::Program;
use gl_value::{Text, Value};
use std::alloc::AllocError;

// How many helpers there are.
pub(crate) const HELPERS: u16 = 33;

/// The class with a number.
pub fn class_at(app: &App, class: u16) -> Result<&Class, AllocError>
    ensures { IfOk result (λ c. slice_get (manifest_view app.now.manifest).classes class ≡ Some (class_view c.now)) }
{
    app.manifest().classes.get(class as usize).ok_or(AllocError)
}

/// The opcode of the word at an address.
pub fn word_at(program: &Program, pc: u32) -> Result<Op, AllocError>
    ensures { IfOk result (λ op. op_at (program_view program.now) pc ≡ Some op) }
{
    let word = program.words.get(pc as usize).ok_or(AllocError)?;
    decode(*word).ok_or(AllocError)
}

/// The operands of the Item behind an address.
pub fn operands_behind(program: &Program, pc: u32) -> Result<(u32, u32), AllocError>
    ensures { IfOk result (λ o. operands (op_at (program_view program.now) (suc pc)) ≡ o) }
{
    match word_at(program, after(pc)?)? {
        Op::Item { a, b } => Ok((a, b)),
        _ => Err(AllocError),
    }
}

/// A text of the program.
pub fn text_at(program: &Program, place: u32) -> Result<&Text, AllocError>
    ensures { IfOk result (λ t. slice_get (program_view program.now).texts place ≡ Some t.now) }
{
    program.texts.get(place as usize).ok_or(AllocError)
}

/// A name of the program.
pub fn name_at(program: &Program, place: u32) -> Result<&Text, AllocError>
    ensures { IfOk result (λ n. slice_get (program_view program.now).names place ≡ Some n.now) }
{
    program.names.get(place as usize).ok_or(AllocError)
}

/// An integer of the program, as a value.
pub fn integer_at(program: &Program, place: u32) -> Result<Value, AllocError>
    ensures { IfOk result (λ v. option_map integer (slice_get (program_view program.now).ints place) ≡ Some (view v)) }
{
    let integer = program.ints.get(place as usize).ok_or(AllocError)?;
    Ok(Value::Int(*integer))
}

/// An action of a class, by its number.
pub fn action_at(class: &Class, place: u32) -> Result<&Action, AllocError>
    ensures { IfOk result (λ x. slice_get (class_view class.now).actions place ≡ Some (action_view x.now)) }
{
    class.actions.get(place as usize).ok_or(AllocError)
}

/// The number of a helper.
pub fn helper_at(helper: u32) -> Result<u16, AllocError>
    ensures { IfOk result (λ h. name_of helper helper_rows ≡ Some (helper_name h)) }
{
    if helper >= HELPERS as u32 {
        return Err(AllocError);
    }
    Ok(helper as u16)
}

/// The number of a modifier.
pub fn modifier_at(app: &App, modifier: u32) -> Result<u32, AllocError>
    ensures { IfOk result (λ k. slice_get (codes "on" ∷ (manifest_view app.now.manifest).modifiers) modifier ≡ Some ((tables_of (manifest_view app.now.manifest)).modifier k)) }
{
    if modifier as usize > app.manifest().modifiers.len() {
        return Err(AllocError);
    }
    Ok(modifier)
}

/// The number of a class.
pub fn class_number(class: u32) -> Result<u16, AllocError>
    ensures { IfOk result (λ c. c ≡ class) }
{
    if class > u16::MAX as u32 {
        return Err(AllocError);
    }
    Ok(class as u16)
}
