// The arguments of an invocation.
ghost use Rattle.std.specs.Prelude.{◌≡◌, [], ◌∷◌, ◌++◌, IfOk, OnOk, OnErr, Some, None, length};
ghost use Rattle.std.specs.Str.{chars};
ghost use Rattle.gl_base.specs.Names.{last_named, or_else};

use gl_arena::{Id, RefMark};
use gl_value::Text;
use std::alloc::{AllocError, Global};
use std::marker::Model;

/// The arguments of an invocation, in written order, each a name with the reference of its value.
#[derive(Drop)]
pub struct Args {
    list: Vec<(Text, Id<RefMark>)>,
}

impl Model for Args {
    ghost use Rattle.gl_scope.specs.Scope as s;

    ghost Value = { s.Args };

    ghost view = { λ a. a.list.items };
}

impl Args {
    /// The empty list. It takes no memory.
    pub fn new(alloc: Global) -> Args
        ensures { result ≡ [] }
    {
        Args {
            list: Vec::new(alloc),
        }
    }

    /// The list of the pairs of a vector. It takes no memory.
    pub fn from_vec(list: Vec<(Text, Id<RefMark>)>) -> Args
        ensures { result ≡ list.items }
    {
        Args { list }
    }

    /// Gives the vector back. It takes no memory.
    pub fn into_vec(self) -> Vec<(Text, Id<RefMark>)>
        ensures { result.items ≡ self }
    {
        self.list
    }

    pub fn as_slice(&self) -> &[(Text, Id<RefMark>)]
        ensures { result.now ≡ self.now }
    {
        self.list.as_slice()
    }

    pub fn len(&self) -> usize
        ensures { result ≡ length self.now }
    {
        self.list.len()
    }

    /// Adds a name at the end.
    pub fn push(&mut self, name: Text, id: Id<RefMark>) -> Result<(), AllocError>
        ensures ok { OnOk result (self.new ≡ self.old ++ (name, id) ∷ []) }
        ensures err { OnErr result (self.new ≡ self.old) }
    {
        self.list.push((name, id))?;
        Ok(())
    }

    pub fn copy(&self) -> Result<Args, AllocError>
        ensures { IfOk result (λ a. a ≡ self.now) }
    {
        let list = copied(*self.list.allocator(), self.list.as_slice())?;
        Ok(Args { list })
    }

    /// The reference of an argument. Of several of one name the last one counts.
    pub fn get(&self, name: &str) -> Option<Id<RefMark>>
        ensures { result ≡ last_named (chars name.now) self.now }
    {
        last_of(self.list.as_slice(), name)
    }
}

fn copied(
    alloc: Global,
    entries: &[(Text, Id<RefMark>)],
) -> Result<Vec<(Text, Id<RefMark>)>, AllocError>
    ensures { IfOk result (λ v. v.items ≡ entries.now) }
{
    let mut list = Vec::new(alloc);
    for entry in entries {
        list.push((entry.0.copy()?, entry.1))?;
    }
    Ok(list)
}

fn last_of(args: &[(Text, Id<RefMark>)], name: &str) -> Option<Id<RefMark>>
    ensures { result ≡ last_named (chars name.now) args.now }
{
    let mut found = None;
    for entry in args {
        if entry.0.is(name) {
            found = Some(entry.1);
        }
    }
    found
}
