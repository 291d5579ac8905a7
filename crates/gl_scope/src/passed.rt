// The blocks that an invocation passes.
ghost use Rattle.std.specs.Prelude.{◌≡◌, [], ◌∷◌, ◌++◌, IfOk, OnOk, OnErr, Some, None, length};
ghost use Rattle.std.specs.Str.{chars};
ghost use Rattle.gl_base.specs.Names.{named};

use gl_arena::BlockId;
use gl_value::Text;
use std::alloc::{AllocError, Global};
use std::marker::Model;

/// The blocks that an invocation passes, in written order, each by its name. The names are distinct.
#[derive(Drop)]
pub struct Passed {
    list: Vec<(Text, BlockId)>,
}

impl Model for Passed {
    ghost use Rattle.gl_scope.specs.Scope as s;

    ghost Value = { s.Passed };

    ghost view = { λ a. a.list.items };
}

impl Passed {
    /// The empty list. It takes no memory.
    pub fn new(alloc: Global) -> Passed
        ensures { result ≡ [] }
    {
        Passed {
            list: Vec::new(alloc),
        }
    }

    /// The list of the pairs of a vector. It takes no memory.
    pub fn from_vec(list: Vec<(Text, BlockId)>) -> Passed
        ensures { result ≡ list.items }
    {
        Passed { list }
    }

    /// Gives the vector back. It takes no memory.
    pub fn into_vec(self) -> Vec<(Text, BlockId)>
        ensures { result.items ≡ self }
    {
        self.list
    }

    pub fn as_slice(&self) -> &[(Text, BlockId)]
        ensures { result.now ≡ self.now }
    {
        self.list.as_slice()
    }

    pub fn len(&self) -> usize
        ensures { result ≡ length self.now }
    {
        self.list.len()
    }

    /// Adds a name at the end.
    pub fn push(&mut self, name: Text, id: BlockId) -> Result<(), AllocError>
        ensures ok { OnOk result (self.new ≡ self.old ++ (name, id) ∷ []) }
        ensures err { OnErr result (self.new ≡ self.old) }
    {
        self.list.push((name, id))?;
        Ok(())
    }

    pub fn copy(&self) -> Result<Passed, AllocError>
        ensures { IfOk result (λ a. a ≡ self.now) }
    {
        let list = copied(*self.list.allocator(), self.list.as_slice())?;
        Ok(Passed { list })
    }

    /// The block of that name.
    pub fn get(&self, name: &str) -> Option<BlockId>
        ensures { result ≡ named (chars name.now) self.now }
    {
        first_of(self.list.as_slice(), name)
    }
}

fn copied(alloc: Global, entries: &[(Text, BlockId)]) -> Result<Vec<(Text, BlockId)>, AllocError>
    ensures { IfOk result (λ v. v.items ≡ entries.now) }
{
    let mut list = Vec::new(alloc);
    for entry in entries {
        list.push((entry.0.copy()?, entry.1))?;
    }
    Ok(list)
}

fn first_of(blocks: &[(Text, BlockId)], name: &str) -> Option<BlockId>
    ensures { result ≡ named (chars name.now) blocks.now }
{
    for entry in blocks {
        if entry.0.is(name) {
            return Some(entry.1);
        }
    }
    None
}
