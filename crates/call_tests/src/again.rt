//! Calls that are made again where memory ran out: what they were lent is as before, and they answer as they would have.
//! `witness/memory/calls.py` runs these tests with each growth of memory refused in turn.
use fact_pool::{Handle, Pool};
use outside::{Files, MemFiles, ReadFail};
use rlc_base::{InternFail, NameId, Names};
use std::test::Fail;

#[test]
fn a_name_is_interned_again(rt: HostRuntime) -> Result<(), Fail> {
    let mut names = Names::new(rt.alloc());
    for (name, number, held) in [
        ("close", 0, 0),
        ("flush", 1, 1),
        ("free", 2, 2),
        ("close", 0, 3),
        ("shutdown", 3, 3),
        ("stop", 4, 4),
    ] {
        match names.intern(name.as_bytes()) {
            Ok(n) => assert_eq!(rt; n, NameId(number), "{name}"),
            Err(fail) => {
                assert_eq!(rt; fail, InternFail::NoMemory, "{name}");
                assert_eq!(rt; names.len(), held, "{name}");
                assert_eq!(rt;
                    names.intern(name.as_bytes())?,
                    NameId(number),
                    "{name} again"
                );
            }
        }
    }
    Ok(())
}

#[test]
fn a_fact_is_interned_again(rt: HostRuntime) -> Result<(), Fail> {
    let mut pool = Pool::new(rt.alloc());
    let region = match pool.begin(rt.alloc()) {
        Ok(region) => region,
        Err(_fail) => {
            assert_eq!(rt; pool.begun(), 0);
            pool.begin(rt.alloc())?
        }
    };
    let answer = match pool.intern(&region, 7u32) {
        Ok(answer) => answer,
        Err(_fail) => pool.intern(&region, 7)?,
    };
    assert_eq!(rt; answer, (Handle(0), true));
    assert_eq!(rt; pool.begun(), 1);
    assert_eq!(rt; pool.release(region), 1);
    Ok(())
}

#[test]
fn a_file_is_read_again(rt: HostRuntime) -> Result<(), Fail> {
    let mut files = MemFiles::new(rt.alloc());
    if files.put(b"A.java", b"class A {}").is_err() {
        files.put(b"A.java", b"class A {}")?;
    }
    let mut into = Vec::new(rt.alloc());
    if let Err(fail) = files.read("A.java", &mut into) {
        assert_eq!(rt; fail, ReadFail::NoMemory);
        assert!(rt; into.is_empty());
        assert_eq!(rt; files.read("A.java", &mut into), Ok(()));
    }
    assert_eq!(rt; into.as_slice(), b"class A {}".as_slice());
    Ok(())
}
