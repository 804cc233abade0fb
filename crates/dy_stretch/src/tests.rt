use crate::stretch;
use dy_lower_parts::{Buffer, Flat, Refusal};
use std::alloc::Global;
use std::test::Fail;

/// Code of these instructions.
fn code_of(alloc: Global, flats: &[Flat<'static>]) -> Result<Buffer<'static>, Refusal> {
    let mut code = Buffer::new(alloc);
    for flat in flats.iter().rev() {
        code.put(*flat)?;
    }
    Ok(code)
}

/// The stretch of these instructions, where they are not refused.
fn stretch_of(alloc: Global, flats: &[Flat<'static>]) -> Option<u64> {
    let code = code_of(alloc, flats).ok()?;
    stretch(alloc, &code).ok()
}

#[test]
fn the_way_around_a_loop(rt: HostRuntime) -> Result<(), Fail> {
    let alloc = rt.alloc();
    let flats = [
        Flat::Truth(true),
        Flat::JumpFalse(2),
        Flat::Tick,
        Flat::Jump(-4),
        Flat::Return,
    ];
    assert_eq!(rt; stretch_of(alloc, flats.as_slice()), Some(4));
    Ok(())
}

#[test]
fn a_loop_in_a_loop(rt: HostRuntime) -> Result<(), Fail> {
    let alloc = rt.alloc();
    let flats = [
        Flat::Truth(true),
        Flat::JumpFalse(6),
        Flat::Tick,
        Flat::Truth(false),
        Flat::JumpFalse(2),
        Flat::Tick,
        Flat::Jump(-4),
        Flat::Jump(-8),
        Flat::Return,
    ];
    assert_eq!(rt; stretch_of(alloc, flats.as_slice()), Some(7));
    Ok(())
}

#[test]
fn a_way_around_without_a_tick(rt: HostRuntime) -> Result<(), Fail> {
    let alloc = rt.alloc();
    let flats = [
        Flat::Truth(true),
        Flat::JumpFalse(1),
        Flat::Jump(-3),
        Flat::Return,
    ];
    assert_eq!(rt; stretch_of(alloc, flats.as_slice()), Some(4));
    Ok(())
}
