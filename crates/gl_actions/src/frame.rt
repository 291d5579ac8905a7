// What the steps of an action see.
use crate::Sets;
use gl_code::Owner;
use gl_meaning::Class;
use gl_scope::Args;
use gl_value::NamedValues;
use gl_vm::Vm;
use std::alloc::Global;

/// An instance of a page with its number, its class and its arguments.
#[derive(Clone, Copy)]
pub struct Frame<'a> {
    pub alloc: Global,
    pub vm: &'a Vm,
    /// The class by the path of the instance.
    pub class: &'a Class,
    /// The class by its number, in the order of whose fields the cells are.
    pub numbered: &'a Class,
    pub owner: &'a Owner,
    pub number: u64,
    pub args: &'a Args,
}

/// What an expression sees: an instance, parameters, and what was set so far.
#[derive(Clone, Copy)]
pub struct Here<'a> {
    pub frame: Frame<'a>,
    pub params: &'a NamedValues,
    pub sets: &'a Sets,
}
