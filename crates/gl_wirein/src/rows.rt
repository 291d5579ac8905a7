// The bodies that are open while rows are read, the last row first.
ghost use Rattle.std.specs.Prelude.{◌≡◌, OnOk, IfOk, Some, None, option_map, reverse};
ghost use Rattle.gl_base.specs.Answers.{Gives};
ghost use Rattle.gl_ast.specs.Template.{body_of, slots_of};
ghost use Rattle.gl_ast.specs.View.{seen_stmts, seen_slots, slot_view, stmt_view};
ghost use Rattle.gl_wirein.specs.Fault.{Fails};
ghost use Rattle.gl_wirein.specs.ReadRows.{closed, start, with_stmt, with_block, add_end, add_else, Closes, whole_body};
ghost use Rattle.gl_wirein.specs.View.{open_view, rows_view};

use crate::WireFault;
use gl_ast::{Body, Slot, Slots, Stmt};
use std::alloc::{AllocError, Global};
use std::mem;

/// How many bodies may be open.
const DEEPEST_OPEN: usize = 200;

/// A body that is open, the last statement first, the body behind its else, and its blocks, the last first.
#[derive(Drop)]
pub struct Open {
    stmts: Vec<Stmt>,
    otherwise: Body,
    slots: Vec<Slot>,
}

/// The open bodies, the innermost apart.
#[derive(Drop)]
pub struct Rows {
    innermost: Open,
    outer: Vec<Open>,
}

// The statements of a list that has the last first.
fn turned(stmts: Vec<Stmt>) -> Body
    ensures { result ≡ reverse (seen_stmts stmts.items) }
{
    let mut list = stmts;
    list.reverse();
    Body::from_vec(list)
}

impl Open {
    /// A body that has no statement yet. It takes no memory.
    pub fn new(alloc: Global) -> Open
        ensures { open_view result ≡ closed }
    {
        Open {
            stmts: Vec::new(alloc),
            otherwise: Body::new(alloc),
            slots: Vec::new(alloc),
        }
    }

    /// The body and that behind its else. It takes no memory.
    pub fn into_bodies(self) -> (Body, Body)
        ensures body { body_of result.0 ≡ (open_view self).0 }
        ensures otherwise { body_of result.1 ≡ (open_view self).1 }
    {
        (turned(self.stmts), self.otherwise)
    }

    /// The blocks. It takes no memory.
    pub fn into_slots(self) -> Slots
        ensures { slots_of result ≡ (open_view self).2 }
    {
        let mut list = self.slots;
        list.reverse();
        Slots::from_vec(list)
    }

    /// The body without that behind its else. It takes no memory.
    pub fn into_body(self) -> Body
        ensures { body_of result ≡ (open_view self).0 }
    {
        turned(self.stmts)
    }
}

impl Rows {
    /// No rows. It takes no memory.
    pub fn new(alloc: Global) -> Rows
        ensures { rows_view result ≡ start }
    {
        Rows {
            innermost: Open::new(alloc),
            outer: Vec::new(alloc),
        }
    }

    /// Puts a statement before the innermost body.
    pub fn add_stmt(&mut self, stmt: Stmt) -> Result<(), AllocError>
        ensures { OnOk result (rows_view self.new ≡ with_stmt (stmt_view stmt) (rows_view self.old)) }
    {
        self.innermost.stmts.push(stmt)?;
        Ok(())
    }

    /// Puts a block before those of the innermost body.
    pub fn add_slot(&mut self, slot: Slot) -> Result<(), AllocError>
        ensures { OnOk result (rows_view self.new ≡ with_block (slot_view slot) (rows_view self.old)) }
    {
        self.innermost.slots.push(slot)?;
        Ok(())
    }

    /// Opens a body. `BadWire` where as many are open as may be.
    pub fn add_end(&mut self, alloc: Global) -> Result<(), WireFault>
        ensures { Gives Fails (λ u. rows_view self.new) result (add_end (rows_view self.old)) }
    {
        if self.outer.len() >= DEEPEST_OPEN {
            return Err(WireFault::BadWire);
        }
        let outside = mem::replace(&mut self.innermost, Open::new(alloc));
        self.outer.push(outside)?;
        Ok(())
    }

    /// Begins the body before an else. It takes no memory.
    pub fn add_else(&mut self, alloc: Global)
        ensures { rows_view self.new ≡ add_else (rows_view self.old) }
    {
        let inside = mem::replace(&mut self.innermost, Open::new(alloc));
        self.innermost.otherwise = inside.into_body();
    }

    /// Takes the innermost body, where another is round it. It takes no memory.
    pub fn close(&mut self) -> Option<Open>
        ensures { Closes (rows_view self.old) (rows_view self.new) (option_map open_view result) }
    {
        match self.outer.pop() {
            Some(outside) => Some(mem::replace(&mut self.innermost, outside)),
            None => None,
        }
    }

    /// The body of a template. `BadWire` where a body is left open.
    pub fn into_body(self) -> Result<Body, WireFault>
        ensures { Gives Fails (λ b. body_of b) result (whole_body (rows_view self)) }
    {
        if !self.outer.is_empty() {
            return Err(WireFault::BadWire);
        }
        Ok(self.innermost.into_body())
    }
}
