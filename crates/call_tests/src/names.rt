//! Texts and the table of names.
use rlc_base::{NameId, Names, Text};
use std::test::Fail;

#[test]
fn texts_grow(rt: HostRuntime) -> Result<(), Fail> {
    let mut text = Text::new(rt.alloc());
    text.push_bytes(b"class ")?;
    text.push_bytes(b"A")?;
    let copied = text.clone()?;
    assert_eq!(rt; copied.bytes(), b"class A".as_slice());
    Ok(())
}

#[test]
fn names_are_numbered(rt: HostRuntime) -> Result<(), Fail> {
    let mut names = Names::new(rt.alloc());
    for (name, number) in [("close", 0), ("flush", 1), ("close", 0), ("free", 2)] {
        let n = names.intern(name.as_bytes())?;
        assert_eq!(rt; n, NameId(number), "at {name}");
    }
    Ok(())
}
