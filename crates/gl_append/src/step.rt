// One word of a program: the opcode that stands there.
ghost use Rattle.std.specs.Prelude.{◌≡◌, IfOk, Some};
ghost use Rattle.gl_program.specs.View.{program_view};
ghost use Rattle.gl_vm.specs.View.{Calm};
ghost use Rattle.gl_vm.specs.Steps.{Rooted};
ghost use Rattle.gl_append.specs.Stepping.{DoesOp};

use crate::machine::Machine;
use crate::stack::pop_pushed;
use gl_code::{
    Cells, action_at, class_number, helper_at, integer_at, modifier_at, name_at, operands_behind,
    text_at,
};
use gl_opc::App;
use gl_ops::Op;
use gl_program::Program;
use gl_value::Value;
use gl_vm::Vm;
use std::alloc::AllocError;

// How a step ends: there are more, all is rendered, or a component would nest too deep.
#[derive(Drop)]
pub(crate) enum Next {
    Going,
    Finished,
    TooDeep,
}

impl Machine {
    // The opcode of the present word.
    pub(crate) fn do_op(
        &mut self,
        vm: &mut Vm,
        app: &App,
        cells: &Cells,
        program: &Program,
        op: Op,
    ) -> Result<Next, AllocError>
        requires calm { Calm vm.old }
        ensures step { IfOk result (λ r. DoesOp app.now cells.now (program_view program.now) op vm.old self.old vm.new self.new r) }
        ensures calm { Calm vm.new }
        ensures roots { IfOk result (λ r. Rooted vm.old.tree vm.new.tree) }
    {
        match op {
            Op::Text { b } => {
                let text = text_at(program, b)?;
                self.do_text(vm, text)?;
            }
            Op::Comment { b } => {
                let text = text_at(program, b)?;
                self.do_comment(vm, text)?;
            }
            Op::Put => {
                let top = pop_pushed(&mut self.stack)?;
                self.do_put(vm, top)?;
            }
            Op::If { b } => {
                let top = pop_pushed(&mut self.stack)?;
                self.do_if(vm, false, b, top)?;
            }
            Op::Unless { b } => {
                let top = pop_pushed(&mut self.stack)?;
                self.do_if(vm, true, b, top)?;
            }
            Op::Else { b } => return self.do_else(b),
            Op::Let { a } => self.do_let(a)?,
            Op::Bind { a } => self.do_bind(vm, a)?,
            Op::Param { a } => self.do_bind(vm, a)?,
            Op::EndLet => self.do_end_let()?,
            _ => return self.do_tag_op(vm, app, cells, program, op),
        }
        Ok(Next::Going)
    }

    // An opcode of a tag, or one below.
    fn do_tag_op(
        &mut self,
        vm: &mut Vm,
        app: &App,
        cells: &Cells,
        program: &Program,
        op: Op,
    ) -> Result<Next, AllocError>
        requires calm { Calm vm.old }
        ensures step { IfOk result (λ r. DoesOp app.now cells.now (program_view program.now) op vm.old self.old vm.new self.new r) }
        ensures calm { Calm vm.new }
        ensures roots { IfOk result (λ r. Rooted vm.old.tree vm.new.tree) }
    {
        match op {
            Op::Open { b } => {
                let tag = text_at(program, b)?;
                self.do_open(tag)?;
            }
            Op::Attr { a, b } => {
                let name = name_at(program, a)?;
                let text = text_at(program, b)?;
                self.do_attr(name, text)?;
            }
            Op::AttrRef { a } => {
                let name = name_at(program, a)?;
                let top = pop_pushed(&mut self.stack)?;
                self.do_attr_ref(name, top)?;
            }
            Op::Spread => self.do_spread()?,
            Op::Mod { a, b } => {
                let modifier = modifier_at(app, a)?;
                self.do_mod(modifier, b)?;
            }
            Op::Comp { a } => {
                let class = class_number(a)?;
                self.do_comp(class)?;
            }
            Op::Arg { a } => {
                let name = name_at(program, a)?;
                let top = pop_pushed(&mut self.stack)?;
                self.do_arg(name, top)?;
            }
            _ => return self.do_list_op(vm, app, cells, program, op),
        }
        Ok(Next::Going)
    }

    // An opcode that ends a branch, or one of lists, or one below.
    fn do_list_op(
        &mut self,
        vm: &mut Vm,
        app: &App,
        cells: &Cells,
        program: &Program,
        op: Op,
    ) -> Result<Next, AllocError>
        requires calm { Calm vm.old }
        ensures step { IfOk result (λ r. DoesOp app.now cells.now (program_view program.now) op vm.old self.old vm.new self.new r) }
        ensures calm { Calm vm.new }
        ensures roots { IfOk result (λ r. Rooted vm.old.tree vm.new.tree) }
    {
        match op {
            Op::EndIf => match self.pop_frame()? {
                None => return Ok(Next::Finished),
                Some(frame) => self.do_end_if(vm, frame)?,
            },
            Op::Each { a, b } => {
                let key = name_at(program, a)?;
                let operands = operands_behind(program, self.pc)?;
                let top = pop_pushed(&mut self.stack)?;
                self.do_each(vm, key, operands, b, top)?;
            }
            Op::Item { .. } => self.do_item(vm)?,
            Op::EndItem => match self.pop_frame()? {
                None => return Ok(Next::Finished),
                Some(frame) => self.do_end_item(vm, frame)?,
            },
            Op::EndEach => return self.leave_each(vm),
            _ => return self.do_block_op(vm, app, cells, program, op),
        }
        Ok(Next::Going)
    }

    // An opcode of elements, components and blocks, or one below.
    fn do_block_op(
        &mut self,
        vm: &mut Vm,
        app: &App,
        cells: &Cells,
        program: &Program,
        op: Op,
    ) -> Result<Next, AllocError>
        requires calm { Calm vm.old }
        ensures step { IfOk result (λ r. DoesOp app.now cells.now (program_view program.now) op vm.old self.old vm.new self.new r) }
        ensures calm { Calm vm.new }
        ensures roots { IfOk result (λ r. Rooted vm.old.tree vm.new.tree) }
    {
        match op {
            Op::Flush => self.do_flush(vm)?,
            Op::Close => self.do_close(vm)?,
            Op::Invoke => return self.do_nest(vm, app, cells),
            Op::Yield { a, b } => {
                let name = name_at(program, b)?;
                self.do_yield(a, name)?;
            }
            Op::EndBlock => match self.pop_frame()? {
                None => return Ok(Next::Finished),
                Some(frame) => self.do_end_block(frame)?,
            },
            Op::Block { a, b } => {
                if !self.end_parts()? {
                    let name = name_at(program, a)?;
                    self.do_block(name, b)?;
                }
            }
            Op::Bare => {
                if !self.end_parts()? {
                    self.do_bare()?;
                }
            }
            Op::Done => return self.do_done(),
            _ => return self.do_scope_op(vm, app, cells, program, op),
        }
        Ok(Next::Going)
    }

    // An opcode that reads the scope or what is on the stack, or one below.
    fn do_scope_op(
        &mut self,
        vm: &mut Vm,
        app: &App,
        cells: &Cells,
        program: &Program,
        op: Op,
    ) -> Result<Next, AllocError>
        requires calm { Calm vm.old }
        ensures step { IfOk result (λ r. DoesOp app.now cells.now (program_view program.now) op vm.old self.old vm.new self.new r) }
        ensures calm { Calm vm.new }
        ensures tree { vm.new.tree ≡ vm.old.tree }
    {
        match op {
            Op::Local { a } => self.do_local(a)?,
            Op::ArgRef { a } => {
                let name = name_at(program, a)?;
                self.do_arg_ref(vm, name)?;
            }
            Op::Field { a } => {
                let class = self.class(app)?;
                self.do_field(class.fields.len(), a)?;
            }
            Op::Getter { a } => self.do_getter(a)?,
            Op::Action { a } => {
                let class = self.class(app)?;
                let action = action_at(class, a)?;
                self.do_action(vm, &action.name)?;
            }
            Op::Prop { b } => {
                let name = text_at(program, b)?;
                let top = pop_pushed(&mut self.stack)?;
                self.do_prop(vm, name, top)?;
            }
            Op::Call { a, b } => {
                let helper = helper_at(a)?;
                self.do_call(vm, helper, b)?;
            }
            Op::Named { b } => {
                let name = text_at(program, b)?;
                let top = pop_pushed(&mut self.stack)?;
                self.do_named(name, top)?;
            }
            Op::Cat { a } => self.do_cat(vm, a)?,
            _ => return self.do_value_op(vm, app, cells, program, op),
        }
        Ok(Next::Going)
    }

    // An opcode that pushes a value of its own.
    fn do_value_op(
        &mut self,
        vm: &mut Vm,
        app: &App,
        cells: &Cells,
        program: &Program,
        op: Op,
    ) -> Result<Next, AllocError>
        requires calm { Calm vm.old }
        ensures step { IfOk result (λ r. DoesOp app.now cells.now (program_view program.now) op vm.old self.old vm.new self.new r) }
        ensures calm { Calm vm.new }
        ensures tree { vm.new.tree ≡ vm.old.tree }
    {
        match op {
            Op::Undef => self.push_constant(vm, Value::Undefined)?,
            Op::Null => self.push_constant(vm, Value::Null)?,
            Op::True => self.push_constant(vm, Value::Bool(true))?,
            Op::False => self.push_constant(vm, Value::Bool(false))?,
            Op::Int { b } => {
                let value = integer_at(program, b)?;
                self.push_constant(vm, value)?;
            }
            Op::Str { b } => {
                let text = text_at(program, b)?.copy()?;
                self.push_constant(vm, Value::Text(text))?;
            }
            _ => return Err(AllocError),
        }
        Ok(Next::Going)
    }
}
