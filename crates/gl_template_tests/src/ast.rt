// Trees with each kind of expression, part and statement.
use gl_ast::{
    Args, Argument, AttrValue, Block, Body, EachHead, Expr, Exprs, Lit, NamedExpr, Names, Pairs,
    Part, Parts, Slot, Slots, Stmt, Str,
};
use std::alloc::Global;
use std::process::Abort;
use std::test::Fail;

fn text(alloc: Global, characters: &str) -> Result<Str, Fail> {
    Ok(Str::from_str(alloc, characters)?)
}

fn names(alloc: Global, name: &str) -> Result<Names, Fail> {
    let mut names = Names::new(alloc);
    names.push(text(alloc, name)?)?;
    Ok(names)
}

fn this(alloc: Global, member: &str) -> Result<Expr, Fail> {
    Ok(Expr::This {
        member: text(alloc, member)?,
        rest: Names::new(alloc),
    })
}

fn pairs(alloc: Global, name: &str) -> Result<Pairs, Fail> {
    let mut pairs = Pairs::new(alloc);
    pairs.push(NamedExpr {
        name: text(alloc, name)?,
        value: Expr::Lit(Lit::Bool(true)),
    })?;
    Ok(pairs)
}

fn call(alloc: Global, name: &str) -> Result<Expr, Fail> {
    let mut args = Exprs::new(alloc);
    args.push(Expr::Lit(Lit::Int(1)))?;
    Ok(Expr::Call {
        name: text(alloc, name)?,
        args,
        named: Box::new(alloc, pairs(alloc, "n")?)?,
    })
}

fn exprs(alloc: Global) -> Result<Exprs, Fail> {
    let mut exprs = Exprs::new(alloc);
    exprs.push(Expr::Lit(Lit::Str(text(alloc, "a")?)))?;
    exprs.push(this(alloc, "m")?)?;
    exprs.push(Expr::Arg {
        name: text(alloc, "a")?,
        rest: names(alloc, "b")?,
    })?;
    exprs.push(Expr::Bare {
        name: text(alloc, "x")?,
        rest: Names::new(alloc),
    })?;
    exprs.push(call(alloc, "not")?)?;
    exprs.push(Expr::Cat(Exprs::new(alloc)))?;
    Ok(exprs)
}

fn parts(alloc: Global) -> Result<Parts, Fail> {
    let mut parts = Parts::new(alloc);
    parts.push(Part::Attr {
        name: text(alloc, "id")?,
        value: AttrValue::Fixed(text(alloc, "i")?),
    })?;
    parts.push(Part::Mod {
        name: text(alloc, "on")?,
        args: Exprs::new(alloc),
        named: Box::new(alloc, Pairs::new(alloc))?,
    })?;
    parts.push(Part::Spread)?;
    Ok(parts)
}

fn args(alloc: Global) -> Result<Args, Fail> {
    let mut args = Args::new(alloc);
    args.push(Argument {
        name: text(alloc, "a")?,
        value: AttrValue::Live(Box::new(alloc, this(alloc, "m")?)?),
    })?;
    Ok(args)
}

fn slots(alloc: Global) -> Result<Slots, Fail> {
    let mut slots = Slots::new(alloc);
    slots.push(Slot {
        name: text(alloc, "default")?,
        block: Block {
            params: names(alloc, "x")?,
            body: Body::new(alloc),
        },
    })?;
    Ok(slots)
}

fn branch(alloc: Global, unless: bool) -> Result<Stmt, Fail> {
    Ok(Stmt::If {
        test: Box::new(alloc, this(alloc, "t")?)?,
        unless,
        body: Body::new(alloc),
        otherwise: Body::new(alloc),
    })
}

fn each(alloc: Global, key: &str) -> Result<Stmt, Fail> {
    let head = EachHead {
        list: this(alloc, "l")?,
        key: text(alloc, key)?,
        params: names(alloc, "x")?,
    };
    Ok(Stmt::Each {
        head: Box::new(alloc, head)?,
        body: Body::new(alloc),
        otherwise: Body::new(alloc),
    })
}

fn element(alloc: Global, tag: &str) -> Result<Stmt, Fail> {
    Ok(Stmt::Element {
        tag: text(alloc, tag)?,
        parts: parts(alloc)?,
        body: Body::new(alloc),
    })
}

fn component(alloc: Global, class: &str) -> Result<Stmt, Fail> {
    Ok(Stmt::Component {
        class: text(alloc, class)?,
        parts: Parts::new(alloc),
        args: Box::new(alloc, args(alloc)?)?,
        slots: Box::new(alloc, slots(alloc)?)?,
    })
}

fn body(alloc: Global) -> Result<Body, Fail> {
    let mut body = Body::new(alloc);
    body.push(Stmt::Text(text(alloc, "a")?))?;
    body.push(Stmt::Comment(text(alloc, "c")?))?;
    body.push(Stmt::Put(this(alloc, "m")?))?;
    body.push(element(alloc, "p")?)?;
    body.push(component(alloc, "Kid")?)?;
    body.push(branch(alloc, false)?)?;
    body.push(each(alloc, "@identity")?)?;
    body.push(Stmt::Let {
        values: Exprs::new(alloc),
        params: Names::new(alloc),
        body: Body::new(alloc),
    })?;
    body.push(Stmt::Yield {
        values: Exprs::new(alloc),
        to: text(alloc, "default")?,
    })?;
    Ok(body)
}

fn expr_kind(expr: &Expr) -> usize {
    match expr {
        Expr::Lit(_) => 0,
        Expr::This { .. } => 1,
        Expr::Arg { .. } => 2,
        Expr::Bare { .. } => 3,
        Expr::Call { .. } => 4,
        Expr::Cat(_) => 5,
    }
}

fn stmt_kind(stmt: &Stmt) -> usize {
    match stmt {
        Stmt::Text(_) => 0,
        Stmt::Comment(_) => 1,
        Stmt::Put(_) => 2,
        Stmt::Element { .. } => 3,
        Stmt::Component { .. } => 4,
        Stmt::If { .. } => 5,
        Stmt::Each { .. } => 6,
        Stmt::Let { .. } => 7,
        Stmt::Yield { .. } => 8,
    }
}

fn check_exprs(rt: &impl Abort, alloc: Global) -> Result<(), Fail> {
    assert!(rt; Exprs::new(alloc).is_empty());
    let exprs = Exprs::from_vec(exprs(alloc)?.into_vec());
    assert_eq!(rt; exprs.len(), 6);
    assert!(rt; matches!(exprs.get(0), Some(Expr::Lit(Lit::Str(_)))));
    for (at, expr) in exprs.as_slice().iter().enumerate() {
        assert_eq!(rt; expr_kind(expr), at);
    }
    Ok(())
}

fn check_pairs(rt: &impl Abort, alloc: Global) -> Result<(), Fail> {
    let pairs = Pairs::from_vec(pairs(alloc, "n")?.into_vec());
    assert!(rt; !pairs.is_empty());
    assert_eq!(rt; pairs.len(), 1);
    assert_eq!(rt; pairs.as_slice().len(), 1);
    assert!(rt; pairs.get(0).is_some_and(|pair| pair.name.is("n")));
    Ok(())
}

fn check_parts(rt: &impl Abort, alloc: Global) -> Result<(), Fail> {
    let parts = Parts::from_vec(parts(alloc)?.into_vec());
    assert!(rt; !parts.is_empty());
    assert_eq!(rt; parts.len(), 3);
    assert!(rt; parts.get(3).is_none());
    assert!(rt;
        matches!(
            parts.as_slice(),
            [Part::Attr { .. }, Part::Mod { .. }, Part::Spread]
        )
    );
    Ok(())
}

fn check_args(rt: &impl Abort, alloc: Global) -> Result<(), Fail> {
    let args = Args::from_vec(args(alloc)?.into_vec());
    assert!(rt; !args.is_empty());
    assert_eq!(rt; args.len(), 1);
    assert_eq!(rt; args.as_slice().len(), 1);
    assert!(rt;
        args.get(0)
            .is_some_and(|arg| matches!(arg.value, AttrValue::Live(_)))
    );
    Ok(())
}

fn check_slots(rt: &impl Abort, alloc: Global) -> Result<(), Fail> {
    let slots = Slots::from_vec(slots(alloc)?.into_vec());
    assert!(rt; !slots.is_empty());
    assert_eq!(rt; slots.len(), 1);
    assert_eq!(rt; slots.as_slice().len(), 1);
    assert!(rt; slots.get(0).is_some_and(|slot| slot.block.body.is_empty()));
    Ok(())
}

fn check_body(rt: &impl Abort, alloc: Global) -> Result<(), Fail> {
    let body = Body::from_vec(body(alloc)?.into_vec());
    assert!(rt; !body.is_empty());
    assert_eq!(rt; body.len(), 9);
    assert!(rt; matches!(body.get(5), Some(Stmt::If { unless: false, .. })));
    for (at, stmt) in body.as_slice().iter().enumerate() {
        assert_eq!(rt; stmt_kind(stmt), at);
    }
    Ok(())
}

#[test]
fn trees(rt: HostRuntime) -> Result<(), Fail> {
    let alloc = rt.alloc();
    check_exprs(&rt, alloc)?;
    check_pairs(&rt, alloc)?;
    check_parts(&rt, alloc)?;
    check_args(&rt, alloc)?;
    check_slots(&rt, alloc)?;
    check_body(&rt, alloc)
}
