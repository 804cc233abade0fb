use crate::find_rings;
use dy_base::Items;
use std::alloc::{AllocError, Global};
use std::test::Fail;

#[test]
fn a_ring_and_what_uses_it(rt: HostRuntime) -> Result<(), Fail> {
    let alloc = rt.alloc();
    let uses = [
        Items::from_vec(vec![in alloc; 1, 9]?),
        Items::from_vec(vec![in alloc; 2, 4]?),
        Items::from_vec(vec![in alloc; 0]?),
        Items::from_vec(vec![in alloc; 3, 0]?),
        Items::new(alloc),
    ];
    let rings = find_rings(alloc, uses.as_slice())?;
    let told = [true, true, true, true, false];
    assert_eq!(rt; rings.on_ring.as_slice(), told.as_slice());
    let order = [4, 0, 1, 2, 3];
    assert_eq!(rt; rings.order.as_slice(), order.as_slice());
    Ok(())
}

/// So many nodes, of which each uses the one before it, and the first one itself.
fn chain(alloc: Global, count: u32) -> Result<Vec<Items<u32>>, AllocError> {
    let mut uses = Vec::new(alloc);
    for node in 0..count {
        uses.push(Items::from_vec(vec![in alloc; node.saturating_sub(1)]?))?;
    }
    Ok(uses)
}

#[test]
fn a_long_chain(rt: HostRuntime) -> Result<(), Fail> {
    let alloc = rt.alloc();
    let uses = chain(alloc, 1_000_000)?;
    assert!(rt; uses.len() == 1_000_000);
    let rings = find_rings(alloc, uses.as_slice())?;
    let order = rings.order.as_slice();
    assert_eq!(rt; order.first().copied(), Some(0));
    assert_eq!(rt; order.last().copied(), Some(999_999));
    let told = rings.on_ring.as_slice();
    assert_eq!(rt; told.first().copied(), Some(true));
    assert_eq!(rt; told.iter().skip(1).any(|ring| *ring), false);
    Ok(())
}
