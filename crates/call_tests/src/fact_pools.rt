//! The pool of facts.
use fact_pool::{Handle, Pool};
use std::test::Fail;

#[test]
fn facts_are_numbered(rt: HostRuntime) -> Result<(), Fail> {
    let mut pool = Pool::new(rt.alloc());
    let region = pool.begin(rt.alloc())?;
    assert_eq!(rt; pool.intern(&region, 7u32)?, (Handle(0), true));
    assert_eq!(rt; pool.intern(&region, 8)?, (Handle(1), true));
    assert_eq!(rt; pool.intern(&region, 7)?, (Handle(0), false));
    assert_eq!(rt; pool.release(region), 2);
    Ok(())
}
