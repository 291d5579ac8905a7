// What is seen from a place of a program.
ghost use Rattle.std.specs.Prelude.{◌≡◌, IfOk};
ghost use Rattle.gl_machine.specs.Sight.{sight, passing};
ghost use Rattle.gl_code.specs.View.{seen_level, seen_links, seen_sight, seen_slots, shared, own_of};

use crate::branches::after;
use gl_arena::{BlockId, Id, InstMark};
use gl_meaning::Path;
use gl_refs::Ids;
use gl_scope::{Args, Locals};
use gl_value::Text;
use std::alloc::{AllocError, Global};
use std::rc::Rc;

impl Sight {
    /// What is passed to a component that is written here, before what was passed to its writer.
    pub fn with_passed(
        &self,
        block: BlockId,
        parts: u32,
        slots: Vec<Slot>,
    ) -> Result<Vec<Rc<Link>>, AllocError>
        ensures { IfOk result (λ r. (n : _) → seen_links n (shared r.items) ≡ passing block.1 parts (seen_slots slots.items) (seen_sight n self.now)) }
    {
        let alloc = *self.chain.allocator();
        let level = self.level.copy()?;
        let link = Link {
            block,
            parts,
            slots,
            level,
        };
        let mut chain = copied(alloc, self.chain.as_slice())?;
        chain.insert(0, Rc::new(alloc, link)?)?;
        Ok(chain)
    }
}

/// An instance as those see it in whose scope it is: its id, the number of its class, its path, and the references of
/// its fields in the order of the class.
#[derive(Drop)]
pub struct Owner {
    pub id: Id<InstMark>,
    pub class: u16,
    pub path: Path,
    pub cells: Ids,
}

/// What a template sees of its own: the instance, its arguments, and the parameters of the blocks round a place.
#[derive(Drop)]
pub struct Level {
    pub owner: Rc<Owner>,
    pub args: Rc<Args>,
    pub locals: Locals,
}

/// A block that a component is passed: its name and the address of its first word.
#[derive(Drop)]
pub struct Slot {
    pub name: Text,
    pub start: u32,
}

/// What a component was passed: its id, the address of the first word of its parts, its blocks, and what the template
/// that wrote them sees of its own.
#[derive(Drop)]
pub struct Link {
    pub block: BlockId,
    pub parts: u32,
    pub slots: Vec<Slot>,
    pub level: Level,
}

/// What is seen from a place of a program. What was passed to the writer of what was passed stands after it.
#[derive(Drop)]
pub struct Sight {
    pub level: Level,
    pub chain: Vec<Rc<Link>>,
}

impl Level {
    pub fn copy(&self) -> Result<Level, AllocError>
        ensures { IfOk result (λ r. (n : _) (w : _) → seen_level n r w ≡ seen_level n self.now w) }
    {
        Ok(Level {
            owner: Rc::clone(&self.owner)?,
            args: Rc::clone(&self.args)?,
            locals: self.locals.copy()?,
        })
    }
}

impl Sight {
    /// What a getter of the same instance sees: no parameters, and nothing passed.
    pub fn own(&self) -> Result<Sight, AllocError>
        ensures { IfOk result (λ r. (n : _) → seen_sight n r ≡ own_of (seen_sight n self.now)) }
    {
        let alloc = *self.chain.allocator();
        Ok(Sight {
            level: Level {
                owner: Rc::clone(&self.level.owner)?,
                args: Rc::clone(&self.level.args)?,
                locals: Locals::new(alloc),
            },
            chain: Vec::new(alloc),
        })
    }

    pub fn copy(&self) -> Result<Sight, AllocError>
        ensures { IfOk result (λ r. (n : _) → seen_sight n r ≡ seen_sight n self.now) }
    {
        let alloc = *self.chain.allocator();
        Ok(Sight {
            level: self.level.copy()?,
            chain: copied(alloc, self.chain.as_slice())?,
        })
    }

    /// A copy that stands by itself, for what is kept of a statement: so it takes no more room there than a place in memory.
    pub fn shared(&self) -> Result<Rc<Sight>, AllocError>
        ensures { IfOk result (λ r. (n : _) → seen_sight n r.value ≡ seen_sight n self.now) }
    {
        let alloc = *self.chain.allocator();
        let sight = self.copy()?;
        Ok(Rc::new(alloc, sight)?)
    }
}

/// The same chain.
pub fn copied(alloc: Global, chain: &[Rc<Link>]) -> Result<Vec<Rc<Link>>, AllocError>
    ensures { IfOk result (λ r. shared r.items ≡ shared chain.now) }
{
    let mut list = Vec::new(alloc);
    for link in chain {
        list.push(Rc::clone(link)?)?;
    }
    Ok(list)
}
