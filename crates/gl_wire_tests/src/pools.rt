// The lists of programs, as callers meet them.
use gl_program::{ClassProgram, Ints, Program, ProgramList, Programs, Words};
use std::test::Fail;

#[test]
fn numbers(rt: HostRuntime) -> Result<(), Fail> {
    let mut words = Words::from_vec(Words::new(rt.alloc()).into_vec());
    assert!(rt; words.is_empty());
    words.push(7)?;
    assert_eq!(rt; words.len(), 1);
    assert!(rt; words.get(0) == Some(&7));
    assert!(rt; words.as_slice() == [7].as_slice());
    let mut ints = Ints::from_vec(Ints::new(rt.alloc()).into_vec());
    assert!(rt; ints.is_empty());
    ints.push(-7)?;
    assert_eq!(rt; ints.len(), 1);
    assert!(rt; ints.get(0) == Some(&-7));
    assert!(rt; ints.as_slice() == [-7].as_slice());
    Ok(())
}

#[test]
fn lists(rt: HostRuntime) -> Result<(), Fail> {
    let mut list = ProgramList::from_vec(ProgramList::new(rt.alloc()).into_vec());
    assert!(rt; list.is_empty());
    list.push(Program::new(rt.alloc()))?;
    assert_eq!(rt; list.len(), 1);
    assert_eq!(rt; list.as_slice().len(), 1);
    assert!(rt; list.get(0).is_some());
    Ok(())
}

#[test]
fn classes(rt: HostRuntime) -> Result<(), Fail> {
    let mut programs = Programs::from_vec(Programs::new(rt.alloc()).into_vec());
    assert!(rt; programs.is_empty());
    programs.push(ClassProgram {
        template: Program::new(rt.alloc()),
        getters: ProgramList::new(rt.alloc()),
        actions: ProgramList::new(rt.alloc()),
    })?;
    assert_eq!(rt; programs.len(), 1);
    assert_eq!(rt; programs.as_slice().len(), 1);
    assert!(rt; programs.get(0).is_some());
    Ok(())
}
