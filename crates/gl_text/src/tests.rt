// Texts, as callers meet them.
use super::*;
use std::alloc::Global;
use std::test::Fail;

fn text(alloc: Global, characters: &str) -> Result<Text, Fail> {
    Ok(Text::from_str(alloc, characters)?)
}

#[test]
fn texts(rt: HostRuntime) -> Result<(), Fail> {
    let alloc = rt.alloc();
    let mut written = Text::from_string(String::from_str(alloc, "\u{e9}")?)?;
    written.push_str("b")?;
    written.push_text(&text(alloc, "c")?)?;
    written.push_char('\u{20ac}')?;
    written.push_ascii("-")?;
    written.push_number(340282366920938463463374607431768211455)?;
    written.push_int(-12)?;
    written.push_hexadecimal(127)?;
    assert_eq!(rt;
        written.as_str(),
        "\u{e9}bc\u{20ac}-340282366920938463463374607431768211455-127f"
    );
    assert_eq!(rt; written.len(), 49);
    assert!(rt; written.same(&written.copy()?) && !written.is("") && !written.is_empty());
    assert!(rt; Text::new(alloc).is_empty());

    let mut list = Texts::from_vec(Vec::new(alloc));
    list.push(written)?;
    assert!(rt; list.len() == 1 && list.get(1).is_none() && list.as_slice().len() == 1);
    assert!(rt; list.into_vec().len() == 1 && Texts::new(alloc).len() == 0);
    Ok(())
}

#[test]
fn order(rt: HostRuntime) -> Result<(), Fail> {
    let (upper, lower) = (text(rt.alloc(), "Z")?, text(rt.alloc(), "a")?);
    assert!(rt; upper.is_before(&lower) && !lower.is_before(&upper) && !lower.is_before(&lower));
    Ok(())
}

#[test]
fn shared(rt: HostRuntime) -> Result<(), Fail> {
    let alloc = rt.alloc();
    let kept = {
        let text = SharedText::new(alloc, text(alloc, "go")?)?;
        text.copy()?
    };
    assert!(rt; kept.as_text().is("go"));
    Ok(())
}
