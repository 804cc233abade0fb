use crate::modules::{answers, shown_names, table};
use crate::rows::{CHAIN, CHAIN_STEPS, RING, TWO_OWNERS, TWO_WAYS};
use std::test::Fail;

/// What modules of a chain see, define, promise and export.
#[test]
fn a_chain_of_modules(rt: HostRuntime) -> Result<(), Fail> {
    let alloc = rt.alloc();
    let made = table(alloc, &CHAIN)?;
    assert!(rt; made.is_some());
    let Some(mut table) = made else {
        return Ok(());
    };
    for step in &CHAIN_STEPS {
        assert!(rt; answers(alloc, &mut table, step)?);
    }
    assert_eq!(rt; shown_names(alloc, &table)?.as_str(), "a-g 3 h 1 k 4 ");
    Ok(())
}

#[test]
fn which_modules_have_a_table(rt: HostRuntime) -> Result<(), Fail> {
    let alloc = rt.alloc();
    assert!(rt; table(alloc, &RING)?.is_none());
    assert!(rt; table(alloc, &TWO_OWNERS)?.is_none());
    assert!(rt; table(alloc, &TWO_WAYS)?.is_some());
    Ok(())
}
