// What was rendered is put into a tree, and the tree is printed.
use gl_code::{Code, Codes, hang};
use gl_nodes::{NodeId, NodeTree};
use gl_print::{Numbers, print};
use gl_refs::Ids;
use std::alloc::{AllocError, Global};
use std::test::Fail;

fn only(alloc: Global, code: Code) -> Result<Codes, AllocError> {
    let mut list = Vec::new(alloc);
    list.push(code)?;
    Ok(Codes { list })
}

// An element with a text in it, as the body of a `let`.
fn element_in_let(alloc: Global, element: NodeId, text: NodeId) -> Result<Code, AllocError> {
    let code = Code::Element {
        node: element,
        made: Ids::new(alloc),
        attrs: Vec::new(alloc),
        mods: Vec::new(alloc),
        body: only(alloc, Code::still(text))?,
    };
    Ok(Code::Let {
        made: Ids::new(alloc),
        params: Ids::new(alloc),
        body: only(alloc, code)?,
    })
}

#[derive(Drop)]
struct Rendered {
    tree: NodeTree,
    text: NodeId,
    codes: Codes,
}

// A list with a text and a comment after it, made in another order and not yet put in.
fn render(alloc: Global) -> Result<Rendered, AllocError> {
    let mut tree = NodeTree::new(alloc)?;
    let comment = tree.comment("c")?;
    let text = tree.text("x")?;
    let list = tree.element("ul")?;
    let mut codes = only(alloc, element_in_let(alloc, list, text)?)?;
    codes.list.push(Code::still(comment))?;
    Ok(Rendered { tree, text, codes })
}

#[test]
fn hangs_in_order(rt: HostRuntime) -> Result<(), Fail> {
    let mut r = render(rt.alloc())?;
    hang(&mut r.tree, None, &r.codes)?;
    let mut numbers = Numbers::new(rt.alloc());
    let lines = print(rt.alloc(), &r.tree, &mut numbers)?;
    assert_eq!(rt; lines.as_str(), "#1 <ul>\n  #2 \"x\"\n#3 !\"c\"\n");
    Ok(())
}

#[test]
fn hangs_once(rt: HostRuntime) -> Result<(), Fail> {
    let mut r = render(rt.alloc())?;
    hang(&mut r.tree, None, &r.codes)?;
    assert!(rt; hang(&mut r.tree, None, &r.codes).is_err());
    Ok(())
}

#[test]
fn hangs_below_elements_alone(rt: HostRuntime) -> Result<(), Fail> {
    let mut r = render(rt.alloc())?;
    let text = r.text;
    assert!(rt; hang(&mut r.tree, Some(text), &r.codes).is_err());
    Ok(())
}
