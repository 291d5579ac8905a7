// Scopes and blocks, step by step.
use gl_arena::{Arena, BlockId, Id, InstMark, RefMark};
use gl_scope::{Args, Block, BlockStack, Locals, Passed, Scope};
use gl_value::Text;
use std::alloc::{AllocError, Global};
use std::test::Fail;

// Two references.
fn two_ids(alloc: Global) -> Result<(Id<RefMark>, Id<RefMark>), AllocError> {
    let mut refs: Arena<u8, RefMark> = Arena::new(alloc)?;
    let first = refs.insert(0).map_err(|e| e.1)?;
    let second = refs.insert(1).map_err(|e| e.1)?;
    Ok((first, second))
}

#[test]
fn finds_the_last_argument(rt: HostRuntime) -> Result<(), Fail> {
    let (first, second) = two_ids(rt.alloc())?;
    let mut args = Args::new(rt.alloc());
    args.push(Text::from_str(rt.alloc(), "a")?, first)?;
    args.push(Text::from_str(rt.alloc(), "a")?, second)?;
    let copied = args.copy()?;
    assert!(rt; copied.get("a") == Some(second));
    assert!(rt; copied.get("b") == None);
    Ok(())
}

#[test]
fn finds_the_innermost(rt: HostRuntime) -> Result<(), Fail> {
    let (first, second) = two_ids(rt.alloc())?;
    let mut locals = Locals::new(rt.alloc());
    locals.push(7, first)?;
    locals.push(7, second)?;
    let copied = locals.copy()?;
    assert!(rt; copied.get(7) == Some(second));
    locals.truncate(1);
    assert!(rt; locals.get(7) == Some(first));
    Ok(())
}

#[test]
fn lends_a_block(rt: HostRuntime) -> Result<(), Fail> {
    let mut blocks = BlockStack::new(rt.alloc())?;
    let scope = Scope {
        owner: Id::<InstMark>::default(),
        args: Args::new(rt.alloc()),
        locals: Locals::new(rt.alloc()),
        passed: Passed::new(rt.alloc()),
        spread: None,
    };
    let block = Block {
        class: 2,
        start: 5,
        scope: scope.copy()?,
    };
    let id: BlockId = blocks.push(block)?;
    assert_eq!(rt; blocks.get(id).start, 5);
    let mut passed = Passed::new(rt.alloc());
    passed.push(Text::from_str(rt.alloc(), "default")?, id)?;
    assert!(rt; passed.copy()?.get("default") == Some(id));
    blocks.free(id);
    Ok(())
}
